//! The trips by their routes, directions and first departures.
ghost use Rattle.std.specs.Prelude.{◌≡◌, ◌^◌, ◌<◌, length, map, filter, IfOk};
ghost use Rattle.std.specs.List.{range_with_len};
ghost use Rattle.sched_types.specs.Departures as rule;
ghost use Rattle.sched_types.specs.Departures.{AreInOrder, leaves_so};

use crate::rows::{Place, Trip};
use std::alloc::{AllocError, Global};

/// What a trip without its id is found by: its route, its direction, and when it first departs.
#[derive(Clone, Copy, PartialEq, Eq, PartialOrd, Ord, Drop)]
pub(crate) struct Departure {
    pub(crate) route: u32,
    pub(crate) direction: u32,
    pub(crate) seconds: u32,
}

/// That of a trip, if there is such a trip, and it has a direction and a place.
pub(crate) fn departure_of(trips: &[Trip], places: &[Vec<Place>], trip: u32) -> Option<Departure>
    ensures { result ≡ rule.departure_of trips.now (map (λ v. v.items) places.now) trip }
{
    match (trips.get(trip as usize), places.get(trip as usize)) {
        (Some(row), Some(places)) => match (row.direction, places.first()) {
            (Some(direction), Some(first)) => Some(Departure {
                route: row.route,
                direction,
                seconds: first.departure,
            }),
            _ => None,
        },
        _ => None,
    }
}

/// The numbers of so many trips.
fn numbers(alloc: Global, count: u32) -> Result<Vec<u32>, AllocError>
    ensures { IfOk result (λ numbers. numbers.items ≡ range_with_len 0 count) }
{
    (0..count).collect(alloc)
}

/// The numbers of all trips, by their departures; those with one departure by rising numbers.
pub(crate) fn by_departure(
    alloc: Global,
    trips: &[Trip],
    places: &[Vec<Place>],
) -> Result<Vec<u32>, AllocError>
    requires { length trips.now < 2 ^ 32 }
    ensures { IfOk result
        (λ order. AreInOrder trips.now (map (λ v. v.items) places.now) order.items) }
{
    let mut order = numbers(alloc, trips.len() as u32)?;
    order.sort_by_key(|trip| departure_of(trips, places, *trip))?;
    Ok(order)
}

/// The trips with that departure, by rising numbers, of all in that order.
pub(crate) fn departing<'a>(
    order: &'a [u32],
    trips: &[Trip],
    places: &[Vec<Place>],
    wanted: Departure,
) -> &'a [u32]
    requires { AreInOrder trips.now (map (λ v. v.items) places.now) order.now }
    ensures { result.now
        ≡ filter (leaves_so trips.now (map (λ v. v.items) places.now) wanted)
        (range_with_len 0 (length trips.now)) }
{
    let wanted = Some(wanted);
    let first = order.partition_point(|trip| departure_of(trips, places, *trip)
        .cmp(&wanted)
        .is_lt());
    let rest = &order[first..];
    let count = rest.partition_point(|trip| departure_of(trips, places, *trip)
        .cmp(&wanted)
        .is_le());
    &rest[..count]
}
