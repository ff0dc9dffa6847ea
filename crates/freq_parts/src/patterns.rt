//! The trips that rows name, as trips are derived of them.

ghost use Rattle.std.specs.Prelude.{◌≡◌, ◌^◌, ◌<◌, ◌≤◌, IfOk, length, map};
ghost use Rattle.std.specs.List.{All, enumerate_from};
ghost use Rattle.sched_types.specs.Timetable.{RisesById};
ghost use Rattle.sched_load_defs.specs.Frequencies as rule;
ghost use Rattle.sched_load_defs.specs.Numbers.{known_number};
ghost use Rattle.sched_load_defs.specs.Files.{most_rows};

use crate::timed::TimedTrip;
use freq_runs::{Frequency, Pattern, PlaceTime, Times};
use gtfs_rows::FrequencyRow;
use rt_types::Text;
use sched_types::{Place, PlanPattern, Trip};
use std::alloc::{AllocError, Global};

/// The ids of the trips.
pub(crate) fn trip_ids(alloc: Global, trips: &[Trip]) -> Result<Vec<Text>, AllocError>
    ensures { IfOk result (λ ids. ids.items ≡ map (λ trip. trip.id) trips.now) }
{
    let mut ids = Vec::with_capacity(alloc, trips.len())?;
    for trip in trips {
        ids.push(Text::new(alloc, trip.id.as_str())?)?;
    }
    Ok(ids)
}

/// The times of places.
fn times_of(alloc: Global, places: &[Place]) -> Result<Times, AllocError>
    ensures { IfOk result (λ times. times ≡ map rule.place_time places.now) }
{
    let mut times = Vec::with_capacity(alloc, places.len())?;
    for place in places {
        times.push(PlaceTime {
            arrival: place.arrival,
            departure: place.departure,
        })?;
    }
    Ok(Times::new(times))
}

/// A pattern, as trips are derived of it.
fn pattern_of(alloc: Global, timed: &TimedTrip) -> Result<Pattern, AllocError>
    ensures { IfOk result (λ pattern. pattern ≡ rule.pattern_of timed.now) }
{
    Ok(Pattern {
        id: Text::new(alloc, timed.id().as_str())?,
        times: times_of(alloc, timed.places())?,
    })
}

/// The patterns, as trips are derived of them.
pub(crate) fn patterns_of(alloc: Global, patterns: &[TimedTrip]) -> Result<Vec<Pattern>, AllocError>
    ensures { IfOk result (λ list. list.items ≡ map rule.pattern_of patterns.now) }
{
    let mut list = Vec::with_capacity(alloc, patterns.len())?;
    for timed in patterns {
        list.push(pattern_of(alloc, timed)?)?;
    }
    Ok(list)
}

/// A pattern, as a timetable keeps it.
fn plan_pattern(alloc: Global, timed: &TimedTrip) -> Result<PlanPattern, AllocError>
    requires { length timed.now.1 < 2 ^ 32 }
    ensures { IfOk result (λ pattern. pattern ≡ rule.plan_pattern timed.now) }
{
    Ok(PlanPattern {
        id: Text::new(alloc, timed.id().as_str())?,
        places: timed.places().len() as u32,
    })
}

/// The patterns, as a timetable keeps them.
pub(crate) fn plan_patterns(
    alloc: Global,
    patterns: &[TimedTrip],
) -> Result<Vec<PlanPattern>, AllocError>
    requires { All (λ timed. length timed.1 < 2 ^ 32) patterns.now }
    ensures { IfOk result (λ list. list.items ≡ map rule.plan_pattern patterns.now) }
{
    let mut list = Vec::with_capacity(alloc, patterns.len())?;
    for timed in patterns {
        list.push(plan_pattern(alloc, timed)?)?;
    }
    Ok(list)
}

/// The number of the trip with that id, or 0 where there is none.
pub(crate) fn number_in(timed: &[TimedTrip], id: &str) -> u32
    requires few { length timed.now < 2 ^ 32 }
    requires rises { RisesById rule.id_of timed.now }
    ensures { result ≡ known_number rule.id_of timed.now id.now }
{
    match timed.binary_search_by(|one| one.id().order(id)) {
        Ok(number) => number as u32,
        Err(_) => 0,
    }
}

/// A row by its place, with the number of the pattern that it names.
fn frequency_of(patterns: &[TimedTrip], place: usize, row: &FrequencyRow) -> Frequency
    requires place { place < most_rows }
    requires few { length patterns.now < 2 ^ 32 }
    requires rises { RisesById rule.id_of patterns.now }
    ensures { result ≡ rule.frequency_of patterns.now (place, row.now) }
{
    Frequency {
        row: place as u32 + 2,
        pattern: number_in(patterns, row.trip_id.as_str()),
        start: row.start_time,
        end: row.end_time,
        headway: row.headway_secs,
        exact: row.exact_times == Some(1),
    }
}

/// The rows, with the numbers of the patterns that they name.
pub(crate) fn frequencies_of(
    alloc: Global,
    patterns: &[TimedTrip],
    rows: &[FrequencyRow],
) -> Result<Vec<Frequency>, AllocError>
    requires rows { length rows.now ≤ most_rows }
    requires few { length patterns.now < 2 ^ 32 }
    requires rises { RisesById rule.id_of patterns.now }
    ensures { IfOk result (λ list. list.items
        ≡ map (rule.frequency_of patterns.now) (enumerate_from 0 rows.now)) }
{
    let mut list = Vec::with_capacity(alloc, rows.len())?;
    for (place, row) in rows.iter().enumerate() {
        list.push(frequency_of(patterns, place, row))?;
    }
    Ok(list)
}
