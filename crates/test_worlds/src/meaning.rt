//! What a trip descriptor means, by going over all days and trips (GTFS Realtime 2.0,
//! TripDescriptor).

use crate::scan::runs;
use rt_types::TripRelation;
use sample_worlds::{
    BASES, MadeDate, MadeRef, MadeTime, MadeTrip, TRIP_DIRECTIONS, TRIP_ROUTES, World,
};
use sched_types::Run;
use trip_match_defs::{Found, Why};

/// What a descriptor means at an instant.
pub(crate) fn meant(world: &World, named: MadeRef, stamp: u64) -> Found {
    match named.relation {
        Some(TripRelation::Unscheduled | TripRelation::Replacement | TripRelation::Duplicated) =>
            Found::NoMatch(Why::Relation),
        _ if named.date == MadeDate::Bad => Found::NoMatch(Why::BadText),
        Some(TripRelation::Added) => match named.trip {
            Some(_) => Found::Added,
            None => Found::NoMatch(Why::NoTrip),
        },
        _ => match named.trip {
            Some(trip) => by_trip(world, trip, named.date, stamp),
            None => by_departure(world, named),
        },
    }
}

/// The run of a trip on a date, or on the nearest day where there is none.
fn by_trip(world: &World, trip: u32, date: MadeDate, stamp: u64) -> Found {
    let Some(made) = world.trips.get(trip as usize) else {
        return Found::NoMatch(Why::NoTrip);
    };
    match date {
        MadeDate::On(day) if day >= 3 => Found::NoMatch(Why::NoDay),
        MadeDate::On(day) if runs(world, trip, day) => Found::Run(Run { trip, day }),
        MadeDate::On(_) => Found::NoMatch(Why::NotActive),
        _ => nearest(world, made, trip, i64::try_from(stamp).unwrap_or(0)),
    }
}

/// A day with its distance to an instant.
#[derive(Clone, Copy)]
struct Day {
    number: u32,
    distance: i64,
}

/// How far an instant lies outside a trip that leaves its first place and reaches its last on a
/// day.
fn distance(trip: &MadeTrip, base: i64, instant: i64) -> i64 {
    let (Some(first), Some(last)) = (trip.places.first(), trip.places.last()) else {
        return 0;
    };
    let begin = base.saturating_add(i64::from(first.departure));
    let end = base.saturating_add(i64::from(last.arrival));
    if instant < begin {
        begin.saturating_sub(instant)
    } else if end < instant {
        instant.saturating_sub(end)
    } else {
        0
    }
}

/// Whether an instant lies less than a day and a half before the noon of a day, or so long behind
/// it.
fn is_near(base: i64, instant: i64) -> bool {
    base.saturating_sub(86_400) <= instant && instant < base.saturating_add(172_800)
}

/// The run of a trip that lies nearest to an instant, of those on days that are near; of two alike
/// the earlier.
fn nearest(world: &World, made: &MadeTrip, trip: u32, instant: i64) -> Found {
    let mut why = Why::NoDay;
    let mut best: Option<Day> = None;
    for number in 0..3u32 {
        let base = BASES.get(number as usize).copied().unwrap_or(0);
        if is_near(base, instant) {
            why = Why::NotActive;
            if runs(world, trip, number) {
                let distance = distance(made, base, instant);
                best = match best {
                    Some(other) if other.distance <= distance => Some(other),
                    _ => Some(Day { number, distance }),
                };
            }
        }
    }
    match best {
        Some(near) => Found::Run(Run {
            trip,
            day: near.number,
        }),
        None => Found::NoMatch(why),
    }
}

/// A day, a route, a direction and a time by which a trip may be named.
#[derive(Clone, Copy)]
struct Departure {
    day: u32,
    route: u32,
    direction: u32,
    seconds: u32,
}

/// The run that is named by route, direction, date and time together.
fn by_departure(world: &World, named: MadeRef) -> Found {
    let (Some(route), Some(direction), MadeDate::On(day)) = (
        named.route,
        named.direction,
        named.date,
    ) else {
        return Found::NoMatch(Why::NoTrip);
    };
    match named.time {
        MadeTime::Absent => Found::NoMatch(Why::NoTrip),
        MadeTime::Bad => Found::NoMatch(Why::BadText),
        MadeTime::At(_) if day >= 3 => Found::NoMatch(Why::NoDay),
        MadeTime::At(seconds) => departing(
            world,
            Departure {
                day,
                route,
                direction,
                seconds,
            },
        ),
    }
}

/// Whether a trip runs and leaves its first place so.
fn leaves_so(world: &World, made: &MadeTrip, trip: u32, wanted: Departure) -> bool {
    let begins = match made.places.first() {
        Some(place) => place.departure == wanted.seconds,
        None => false,
    };
    let route = TRIP_ROUTES.get(trip as usize).copied();
    let direction = TRIP_DIRECTIONS.get(trip as usize).copied().unwrap_or(None);
    begins
        && route == Some(wanted.route)
        && direction == Some(wanted.direction)
        && runs(world, trip, wanted.day)
}

/// The one run that leaves so.
fn departing(world: &World, wanted: Departure) -> Found {
    let mut found = Found::NoMatch(Why::NoTrip);
    for trip in 0..3u32 {
        if let Some(made) = world.trips.get(trip as usize) {
            if leaves_so(world, made, trip, wanted) {
                found = match found {
                    Found::NoMatch(Why::NoTrip) => Found::Run(Run {
                        trip,
                        day: wanted.day,
                    }),
                    _ => Found::NoMatch(Why::Several),
                };
            }
        }
    }
    found
}
