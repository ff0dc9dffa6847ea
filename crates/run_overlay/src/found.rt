//! The update that counts for a run.

ghost use Rattle.std.specs.Prelude.{◌≡◌, IfSome};
ghost use Rattle.std.specs.FinMap.{find};
ghost use Rattle.std.specs.Option.{option_and_then, option_copied};
ghost use Rattle.run_overlay.specs.Keys.{id_cmp};
ghost use Rattle.run_overlay.specs.Sought.{IsHeld};
ghost use Rattle.run_overlay.specs.Turning.{first_of};

use crate::candidate::{Candidate, FirstOf};
use entity_table::{Stored, Table};
use rt_types::TripUpdate;
use sched_types::Run;
use shared_list::SharedList;

/// The first of the updates about a run, which is the one that counts; `None` where no update is
/// about it.
pub(crate) fn first_candidate<'a>(
    candidates: &'a SharedList<Candidate>,
    run: Run,
) -> Option<&'a Candidate>
    ensures { option_copied result ≡ first_of run candidates.entry.now }
{
    let mut from = candidates.from(FirstOf { run });
    let first = from.next()?;
    if first.mention.run == run {
        Some(first)
    } else {
        None
    }
}

/// The trip update of an entity, if it has one.
fn trip_update(stored: &Stored) -> Option<&TripUpdate>
    ensures { option_copied result ≡ stored.entry.now.entity.trip_update }
{
    match &stored.entity.trip_update {
        Some(update) => Some(update.get()),
        None => None,
    }
}

/// The trip update that a table has under an id.
pub(crate) fn update_at<'a>(table: &'a Table, id: &str) -> Option<&'a TripUpdate>
    ensures { option_copied result
        ≡ option_and_then (λ stored. stored.entity.trip_update)
        (find id_cmp id.now table.entry.now) }
{
    match table.get(id) {
        Some(stored) => trip_update(stored),
        None => None,
    }
}

/// The same, where something is at hand that the table has and that may be the entity: then nothing
/// is searched for.
pub(crate) fn update_near<'a>(
    table: &'a Table,
    near: Option<&'a Stored>,
    id: &str,
) -> Option<&'a TripUpdate>
    requires { IfSome near (λ stored. IsHeld table.now stored.now) }
    ensures { option_copied result
        ≡ option_and_then (λ stored. stored.entity.trip_update)
        (find id_cmp id.now table.entry.now) }
{
    match near {
        Some(stored) if stored.entity.id.order(id).is_eq() => trip_update(stored),
        _ => update_at(table, id),
    }
}
