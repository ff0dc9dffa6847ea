//! Trips that are looked for near another one.

ghost use Rattle.std.specs.Prelude.{◌≡◌, ◌<◌, Some, length, IfSome};
ghost use Rattle.sched_types.specs.Timetable.{number_of};

use sched_types::Plan;
use std::cmp::Ordering;

/// How many trips are near a trip, from itself on, in byte order of their ids. Updates of a feed
/// often come in the order of the ids of their trips, with a trip here and there that has none.
const NEAR: u32 = 16;

/// The number of the trip with that id, if it is near the one with the given number.
fn trip_among(plan: &Plan, id: &str, from: u32) -> Option<u32>
    ensures value { IfSome result (λ number.
        number_of (λ trip. trip.id) plan.now.trips id.now ≡ Some number) }
    ensures within { IfSome result (λ number. number < length plan.now.trips) }
{
    plan.sound();
    let mut low = from;
    let mut high = from.saturating_add(NEAR).min(plan.trips());
    while low < high {
        let middle = low + (high - low) / 2;
        match plan.trip(middle).id.order(id) {
            Ordering::Less => low = middle + 1,
            Ordering::Equal => return Some(middle),
            Ordering::Greater => high = middle,
        }
    }
    None
}

/// The number of the trip with that id, which is looked for near a trip first, where one is given.
/// It takes no memory.
pub(crate) fn trip_near(plan: &Plan, id: &str, near: Option<u32>) -> Option<u32>
    ensures value { result ≡ number_of (λ trip. trip.id) plan.now.trips id.now }
    ensures within { IfSome result (λ number. number < length plan.now.trips) }
{
    let Some(near) = near else {
        return plan.trip_of(id);
    };
    match trip_among(plan, id, near) {
        Some(number) => Some(number),
        None => plan.trip_of(id),
    }
}
