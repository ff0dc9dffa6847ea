//! Looks up once what a selector names.

ghost use Rattle.std.specs.Prelude.{◌≡◌, ◌<◌, length, IfSome};
ghost use Rattle.std.specs.Option.{option_and_then, option_map};
ghost use Rattle.sched_types.specs.Timetable.{number_of};
ghost use Rattle.trip_match_defs.specs.Matching.{match_of};
ghost use Rattle.alert_defs.specs.Touching.{stop_with};
ghost use Rattle.alert_select.specs.Aims.{IsAim};

use board_base::{route_named, stop_named};
use rt_types::{Selector, Text, TripRef};
use sched_types::Plan;
use trip_match::{Found, find};

/// A selector with the numbers of what it names. A number is absent where nothing is given, and
/// where the timetable has no such row.
#[derive(Drop)]
pub(crate) struct Aim<'a> {
    /// The selector.
    pub(crate) selector: &'a Selector,
    /// The stamp of its message.
    pub(crate) stamp: u64,
    /// The number of its agency.
    pub(crate) agency: Option<u32>,
    /// The number of its route.
    pub(crate) route: Option<u32>,
    /// The number of its stop.
    pub(crate) stop: Option<u32>,
    /// What its trip is about.
    pub(crate) found: Option<Found>,
}

/// What the selector of an alert, whose message has that stamp, names.
pub(crate) fn aim_of<'a>(plan: &Plan, selector: &'a Selector, stamp: u64) -> Aim<'a>
    ensures aim { IsAim plan.now result }
    ensures selector { result.selector.now ≡ selector.now }
    ensures stamp { result.stamp ≡ stamp }
{
    Aim {
        selector,
        stamp,
        agency: agency_of(plan, &selector.agency_id),
        route: route_named(plan, &selector.route_id),
        stop: stop_named(plan, &selector.stop_id),
        found: found_of(plan, &selector.trip, stamp),
    }
}

/// The number of the agency of that id.
fn agency_of(plan: &Plan, id: &Option<Text>) -> Option<u32>
    ensures { result ≡ option_and_then (number_of (λ agency. agency) plan.now.agencies) id.now }
{
    match id {
        Some(id) => plan.agency_of(id.as_str()),
        None => None,
    }
}

/// What the trip is about.
fn found_of(plan: &Plan, trip: &Option<TripRef>, stamp: u64) -> Option<Found>
    ensures { result ≡ option_map (λ named. match_of plan.now named stamp) trip.now }
{
    match trip {
        Some(trip) => Some(find(plan, trip, stamp)),
        None => None,
    }
}
