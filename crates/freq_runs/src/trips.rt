//! The trips of one row.

ghost use Rattle.std.specs.Prelude.{◌≡◌, ◌+◌, ◌*◌, ◌<◌, ℕ, map, IfOk};
ghost use Rattle.std.specs.List.{range_with_len};
ghost use Rattle.freq_runs.specs.Trips as trips;
ghost use Rattle.freq_runs.specs.Trips.{AreInOrder, CanMove, time_end};

use crate::clock::derived_id;
use crate::rows::{Derived, Frequency, Pattern};
use crate::times::{PlaceTime, Times};
use rt_types::{NoMemory, Text};
use std::alloc::Global;

/// The times of a place, moved from a pattern that first departs at `departure` to the start.
fn moved(place: PlaceTime, departure: u32, start: u32) -> PlaceTime
    requires place { CanMove departure place }
    requires start { start < time_end }
    ensures { result ≡ trips.moved departure start place }
{
    PlaceTime {
        arrival: place.arrival - departure + start,
        departure: place.departure - departure + start,
    }
}

/// The times of a trip of these times that begins at the start.
fn times_from(alloc: Global, times: &[PlaceTime], start: u32) -> Result<Times, NoMemory>
    requires order { AreInOrder times.now }
    requires start { start < time_end }
    ensures { IfOk result (λ times_then. times_then ≡ trips.times_from times.now start) }
{
    let mut items = Vec::with_capacity(alloc, times.len())?;
    let Some((first, rest)) = times.split_first() else {
        return Ok(Times::new(items));
    };
    items.push(PlaceTime {
        arrival: start,
        departure: start,
    })?;
    for place in rest {
        items.push(moved(*place, first.departure, start))?;
    }
    Ok(Times::new(items))
}

/// The trip that a pattern, of that number, gives at a start.
fn trip_at(alloc: Global, number: u32, pattern: &Pattern, start: u32) -> Result<Derived, NoMemory>
    requires order { AreInOrder pattern.now.times }
    requires start { start < time_end }
    ensures { IfOk result (λ trip. trip ≡ trips.trip_at number pattern.now start) }
{
    let id = derived_id(alloc, pattern.id.as_str(), start)?;
    Ok(Derived {
        pattern: number,
        start,
        id: Text::new(alloc, id.as_str())?,
        times: times_from(alloc, pattern.times.as_slice(), start)?,
    })
}

/// The first trips of a row, so many.
pub(crate) fn first_trips(
    alloc: Global,
    pattern: &Pattern,
    row: &Frequency,
    count: u32,
) -> Result<Vec<Derived>, NoMemory>
    requires order { AreInOrder pattern.now.times }
    requires starts { (x : ℕ) → x < count → row.now.start + x * row.now.headway < time_end }
    ensures { IfOk result (λ derived. derived.items ≡ map
        (λ x. trips.trip_at row.now.pattern pattern.now (row.now.start + x * row.now.headway))
        (range_with_len 0 count)) }
{
    let mut trips = Vec::with_capacity(alloc, count as usize)?;
    for x in 0..count {
        let start = row.start + x * row.headway;
        let trip = trip_at(alloc, row.pattern, pattern, start)?;
        trips.push(trip)?;
    }
    Ok(trips)
}
