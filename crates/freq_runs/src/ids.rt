//! The ids that are there already.

ghost use Rattle.std.specs.Prelude.{◌≡◌, ℕ, ◌++◌, ◌∷◌, [], not, List, IfOk};
ghost use Rattle.std.specs.Bool.{OnTrue};
ghost use Rattle.freq_runs.specs.Faults.{has_id, comes_again, ids_of};
ghost use Rattle.freq_runs.specs.Known.{AreKeys, AreIn};

use crate::NoMemory;
use crate::rows::Derived;
use rt_types::Text;
use std::alloc::Global;
use std::collections::{BTreeMap, BTreeSet};

/// The ids of other trips, to be looked up.
pub(crate) fn taken_ids<'a>(
    alloc: Global,
    taken: &'a [Text],
) -> Result<BTreeMap<&'a str, ()>, NoMemory>
    ensures { IfOk result (λ ids. AreKeys ids taken.entry.now) }
{
    let mut ids = BTreeMap::new(alloc);
    for id in taken {
        ids.insert(id.as_str(), ())?;
    }
    Ok(ids)
}

/// Adds an id to those of derived trips, and tells whether it is a new one. One that is taken isn't
/// added.
fn adds_id(
    alloc: Global,
    taken: &BTreeMap<&str, ()>,
    ids: &mut BTreeSet<String>,
    id: &str,
) -> Result<bool, NoMemory>
    ensures { (others before : List (List ℕ)) → AreKeys taken.now others → AreIn ids.old before
        → IfOk result (λ is_new. (is_new ≡ not (has_id (others ++ before) id.now))
        × OnTrue is_new (AreIn ids.new (before ++ id.now ∷ []))) }
{
    if taken.contains_key(id) {
        return Ok(false);
    }
    let key = String::from_str(alloc, id)?;
    Ok(ids.insert(key)?)
}

/// Adds the ids of trips to those of the trips that were derived before, and tells whether each is
/// a new one.
pub(crate) fn adds_ids(
    alloc: Global,
    taken: &BTreeMap<&str, ()>,
    ids: &mut BTreeSet<String>,
    trips: &[Derived],
) -> Result<bool, NoMemory>
    ensures { (others before : List (List ℕ)) → AreKeys taken.now others → AreIn ids.old before
        → IfOk result (λ are_new.
        (are_new ≡ not (comes_again (others ++ before) (ids_of trips.now)))
        × OnTrue are_new (AreIn ids.new (before ++ ids_of trips.now))) }
{
    for trip in trips {
        let is_new = adds_id(alloc, taken, ids, trip.id.as_str())?;
        if !is_new {
            return Ok(false);
        }
    }
    Ok(true)
}
