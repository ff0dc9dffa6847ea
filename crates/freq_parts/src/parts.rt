//! A timetable's lists with the trips of frequencies.txt.

ghost use Rattle.std.specs.Prelude.{◌≡◌, ◌^◌, ◌<◌, ◌≤◌, IfOk, length, map};
ghost use Rattle.std.specs.List.{All, enumerate_from};
ghost use Rattle.answer_defs.specs.Defined.{AsDefined};
ghost use Rattle.freq_runs.specs.Faults.{cause_of, derived_trips};
ghost use Rattle.freq_runs.specs.Trips.{IsPattern, IsRow};
ghost use Rattle.sched_types.specs.Parts.{table_of};
ghost use Rattle.sched_types.specs.Timetable.{IsTimetable, RisesById};
ghost use Rattle.sched_load_defs.specs.Frequencies as rule;
ghost use Rattle.freq_parts.specs.Conditions.{IsPlain, IsRowOf};
ghost use Rattle.sched_load_defs.specs.Files.{most_rows};

use crate::lists::lists_with;
use crate::named::{named_ids, parted_trips};
use crate::patterns::{frequencies_of, patterns_of, trip_ids};
use crate::timed::{TimedTrip, timed_trips};
use freq_runs::{DeriveFault, Derived, derive};
use gtfs_rows::FrequencyRow;
use rt_types::Text;
use sched_types::PlanParts;
use std::alloc::Global;

/// The trips that the rows derive of the patterns, where `taken` are the ids that are there
/// already; or their first fault.
fn derived_of(
    alloc: Global,
    patterns: &[TimedTrip],
    taken: &[Text],
    rows: &[FrequencyRow],
) -> Result<Vec<Derived>, DeriveFault>
    requires few { length rows.now ≤ most_rows }
    requires few_patterns { length patterns.now < 2 ^ 32 }
    requires rise { RisesById rule.id_of patterns.now }
    requires patterns { All IsPattern (map rule.pattern_of patterns.now) }
    requires rows { All (IsRow (length patterns.now))
        (map (rule.frequency_of patterns.now) (enumerate_from 0 rows.now)) }
    ensures { AsDefined (λ trips. trips.items) cause_of
        (derived_trips (map rule.pattern_of patterns.now) taken.now
        (map (rule.frequency_of patterns.now) (enumerate_from 0 rows.now))) result }
{
    let list = patterns_of(alloc, patterns)?;
    let frequencies = frequencies_of(alloc, patterns, rows)?;
    derive(alloc, list.as_slice(), taken, frequencies.as_slice())
}

/// The lists of a timetable with the trips that the rows derive, as `with_frequencies` gives them.
fn with_rows(
    alloc: Global,
    parts: PlanParts,
    rows: &[FrequencyRow],
) -> Result<PlanParts, DeriveFault>
    requires plain { IsPlain (table_of parts) }
    requires few { length rows.now ≤ most_rows }
    requires rows { All (IsRowOf (table_of parts)) rows.now }
    ensures value { AsDefined table_of cause_of
        (rule.with_frequencies rows.now (table_of parts)) result }
    ensures sound { IfOk result (λ with_trips. IsTimetable (table_of with_trips)) }
{
    let taken = trip_ids(alloc, parts.trips.as_slice())?;
    let named = named_ids(alloc, rows)?;
    let timed = timed_trips(alloc, parts.trips, parts.places)?;
    let parted = parted_trips(alloc, timed, &named)?;
    let derived = derived_of(alloc, parted.patterns.as_slice(), taken.as_slice(), rows)?;
    let lists = lists_with(alloc, parted, derived.as_slice())?;
    Ok(PlanParts {
        trips: lists.timed.trips,
        places: lists.timed.places,
        patterns: lists.patterns,
        derived: lists.derived,
        ..parts
    })
}

/// The lists of a timetable with the trips that the rows derive in place of those that they name;
/// or the first fault of the rows: more places of derived trips than a timetable may have, or an id
/// that is there already.
pub fn with_frequencies(
    alloc: Global,
    parts: PlanParts,
    rows: &[FrequencyRow],
) -> Result<PlanParts, DeriveFault>
    requires plain { IsPlain (table_of parts) }
    requires few { length rows.now ≤ most_rows }
    requires rows { All (IsRowOf (table_of parts)) rows.now }
    ensures value { AsDefined table_of cause_of
        (rule.with_frequencies rows.now (table_of parts)) result }
    ensures sound { IfOk result (λ with_trips. IsTimetable (table_of with_trips)) }
{
    // Most timetables have no such rows; their trips stay where they are.
    if rows.is_empty() {
        return Ok(parts);
    }
    with_rows(alloc, parts, rows)
}
