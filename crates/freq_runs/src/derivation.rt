//! The derived trips of all rows.

ghost use Rattle.std.specs.Prelude.{length};
ghost use Rattle.std.specs.List.{All};
ghost use Rattle.answer_defs.specs.Defined.{AsDefined};
ghost use Rattle.freq_runs.specs.Trips.{IsPattern, IsRow};
ghost use Rattle.freq_runs.specs.Faults.{derived_trips, cause_of};

use crate::fault::DeriveFault;
use crate::ids::{adds_ids, taken_ids};
use crate::rows::{Derived, Frequency, Pattern};
use crate::starts::{places_with, trip_count};
use crate::trips::first_trips;
use rt_types::Text;
use std::alloc::Global;
use std::collections::BTreeSet;

/// The trips that the rows derive of their patterns, in order, where `taken` are the ids of other
/// trips; or the first fault.
pub fn derive(
    alloc: Global,
    patterns: &[Pattern],
    taken: &[Text],
    rows: &[Frequency],
) -> Result<Vec<Derived>, DeriveFault>
    requires patterns { All IsPattern patterns.now }
    requires rows { All (IsRow (length patterns.now)) rows.now }
    ensures { AsDefined (λ trips. trips.items) cause_of
        (derived_trips patterns.now taken.now rows.now) result }
{
    let others = taken_ids(alloc, taken)?;
    let mut ids = BTreeSet::new(alloc);
    let mut derived = Vec::new(alloc);
    let mut places = 0;
    for row in rows {
        let pattern = &patterns[row.pattern as usize];
        let count = trip_count(pattern, row);
        let Some(more) = places_with(places, count, pattern.times.as_slice().len()) else {
            return Err(DeriveFault::TooMany);
        };
        let mut trips = first_trips(alloc, pattern, row, count)?;
        let are_new = adds_ids(alloc, &others, &mut ids, trips.as_slice())?;
        if !are_new {
            return Err(DeriveFault::Duplicate { row: row.row });
        }
        derived.append(&mut trips)?;
        places = more;
    }
    Ok(derived)
}
