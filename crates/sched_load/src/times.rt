//! The times of a trip's places.

ghost use Rattle.std.specs.Prelude.{◌≡◌, ◌≤◌, ◌<◌, ◌+◌, ◌^◌, ◌∷◌, ℕ, List, length, map, Some, slice_get, IfOk, IfSome, OnOk, ◌&&◌};
ghost use Rattle.std.specs.List.{list_all};
ghost use Rattle.std.specs.Option.{ForSome};
ghost use Rattle.sched_load_defs.specs.Times.{are_moves, are_times, share_between, is_stay, next_timed, known_times};
ghost use Rattle.sched_load_defs.specs.Loading.{with_times};
ghost use Rattle.sched_load.specs.Listed.{times_seen};
ghost use Rattle.sched_load_defs.specs.Files.{most_rows};
ghost use Rattle.sched_load.specs.Course.{Remembers, IsNearer, Knows, Steps, ahead_seen, given_of, place_in, places_in, stay_times};
ghost use Rattle.sched_load.specs.declared.visits.Visit.{Visit};

use crate::visits::{Stay, Visit};
use sched_types::Place;
use std::alloc::{AllocError, Global};

/// The next timed place.
#[derive(Clone, Copy)]
pub(crate) struct Ahead {
    /// How many steps away it is.
    steps: u32,
    /// When it is reached.
    arrival: u32,
}

/// Where an untimed place lies.
#[derive(Clone, Copy)]
pub(crate) struct Course {
    /// When the last timed place was left.
    departure: u32,
    /// How many steps it lies behind.
    behind: u32,
    /// The next timed place, once it was looked for.
    ahead: Option<Option<Ahead>>,
}

/// Whether no place is left before it is reached, nor reached before the timed place in front of it
/// is left.
fn are_in_order(visits: &[Visit]) -> bool
    ensures { result
        ≡ (list_all is_stay (known_times (given_of visits.now))
        && are_moves (known_times (given_of visits.now))) }
{
    let mut before = 0;
    for visit in visits {
        if let Some(stay) = visit.stay {
            if stay.arrival < before {
                return false;
            }
            if stay.departure < stay.arrival {
                return false;
            }
            before = stay.departure;
        }
    }
    true
}

/// Whether the times of a trip are in order.
pub(crate) fn are_times(visits: &[Visit]) -> bool
    ensures { result ≡ are_times (given_of visits.now) }
{
    let count = visits.len();
    if count < 2 {
        return true;
    }
    visits[0].stay.is_some() && visits[count - 1].stay.is_some() && are_in_order(visits)
}

/// The first timed place of those that lie ahead.
fn next_timed(visits: &[Visit]) -> Option<Ahead>
    requires { length visits.now ≤ most_rows }
    ensures value { ahead_seen result ≡ next_timed 1 (given_of visits.now) }
    ensures steps { IfSome result (λ ahead. 1 ≤ ahead.steps) }
{
    for (place, visit) in visits.iter().enumerate() {
        if let Some(stay) = visit.stay {
            return Some(Ahead {
                steps: place as u32 + 1,
                arrival: stay.arrival,
            });
        }
    }
    None
}

/// When an untimed place is reached, which lies so many steps behind a timed one.
fn between(departure: u32, behind: u32, ahead: Option<Ahead>) -> u32
    requires { IfSome ahead (λ a. 1 ≤ a.steps) }
    ensures { result ≡ share_between departure behind (ahead_seen ahead) }
{
    match ahead {
        Some(ahead) => {
            let span = ahead.arrival.saturating_sub(departure);
            let share = span as u64 * behind as u64 / (behind as u64 + ahead.steps as u64);
            departure + share as u32
        }
        None => 0,
    }
}

/// The same place one step nearer.
fn nearer(ahead: Option<Ahead>) -> Option<Ahead>
    requires { IfSome ahead (λ a. 1 ≤ a.steps) }
    ensures { IsNearer ahead result }
{
    match ahead {
        Some(ahead) => Some(Ahead {
            steps: ahead.steps - 1,
            arrival: ahead.arrival,
        }),
        None => None,
    }
}

/// The next timed place, which is looked for where it isn't known yet.
fn found_ahead(known: Option<Option<Ahead>>, rest: &[Visit]) -> Option<Ahead>
    requires few { length rest.now ≤ most_rows }
    requires known { Knows known rest.now }
    ensures value { ahead_seen result ≡ next_timed 1 (given_of rest.now) }
    ensures steps { IfSome result (λ ahead. 1 ≤ ahead.steps) }
{
    match known {
        Some(found) => found,
        None => next_timed(rest),
    }
}

/// The times of the next place, and where the places behind it lie.
fn step(course: Course, visit: Visit, rest: &[Visit]) -> (Course, Stay)
    requires few { length rest.now ≤ most_rows }
    requires remembers { Remembers course.ahead (visit ∷ rest.now) }
    requires behind { course.behind + length rest.now ≤ most_rows }
    ensures { Steps course result.0 result.1 visit rest.now }
{
    match visit.stay {
        Some(stay) => {
            let next = Course {
                departure: stay.departure,
                behind: 1,
                ahead: None,
            };
            (next, stay)
        }
        None => {
            let ahead = found_ahead(course.ahead, rest);
            let time = between(course.departure, course.behind, ahead);
            let next = Course {
                departure: course.departure,
                behind: course.behind + 1,
                ahead: Some(nearer(ahead)),
            };
            let stay = Stay {
                arrival: time,
                departure: time,
            };
            (next, stay)
        }
    }
}

/// The place of a visit.
fn place_at(visit: Visit, stay: Stay) -> Place
    requires { visit.pickup ≤ 3 }
    ensures { result ≡ place_in (visit, stay_times stay) }
{
    Place {
        stop: visit.stop,
        sequence: visit.sequence,
        arrival: stay.arrival,
        departure: stay.departure,
        pickup: visit.pickup as u8,
    }
}

/// The places of a trip with their times, untimed ones lying evenly between timed ones.
pub(crate) fn places_of(alloc: Global, visits: &[Visit]) -> Result<Vec<Place>, AllocError>
    requires few { length visits.now ≤ most_rows }
    requires pickups { (i : ℕ) (visit : Visit) → slice_get visits.now i ≡ Some visit
        → visit.pickup ≤ 3 }
    ensures { IfOk result (λ places. places.items ≡ places_in visits.now) }
{
    let mut places = Vec::with_capacity(alloc, visits.len())?;
    let mut course = Course {
        departure: 0,
        behind: 0,
        ahead: None,
    };
    for (i, visit) in visits.iter().enumerate() {
        let (next, stay) = step(course, *visit, &visits[i + 1..]);
        places.push(place_at(*visit, stay))?;
        course = next;
    }
    Ok(places)
}
