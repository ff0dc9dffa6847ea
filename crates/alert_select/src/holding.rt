//! Whether what a selector gives holds.

ghost use Rattle.std.specs.Prelude.{◌≡◌, ◌<◌, Bool, ◌||◌, ◌&&◌, length, slice_get, IfSome};
ghost use Rattle.std.specs.Option.{is_some, is_none, option_and_then, option_map};
ghost use Rattle.sched_types.specs.Timetable.{is_given, names_parent};
ghost use Rattle.trip_match_defs.specs.Matching.{match_of};
ghost use Rattle.board_defs.specs.Choice as choosing;
ghost use Rattle.board_defs.specs.Choice.{is_run_found};
ghost use Rattle.board_defs.specs.Rows.Subject.{RunOf, AddedTrip};
ghost use Rattle.alert_defs.specs.Touching as rule;
ghost use Rattle.alert_defs.specs.Touching.{holds_if_given};
ghost use Rattle.alert_select.specs.Aims.{IsAim};

use crate::aim::Aim;
use crate::subject::AddedKey;
use board_base::text_of;
use rt_types::{Selector, TripRef};
use sched_types::{Plan, Route, Run};
use trip_match::Found;

/// Whether the selector gives a field besides stop_id.
pub(crate) fn gives_more(selector: &Selector) -> bool
    ensures { result ≡ rule.gives_more selector.now }
{
    selector.agency_id.is_some()
        || selector.route_id.is_some()
        || selector.route_type.is_some()
        || selector.trip.is_some()
        || selector.direction_id.is_some()
}

/// Whether the selector gives a field.
pub(crate) fn gives_one(selector: &Selector) -> bool
    ensures { result ≡ (rule.gives_more selector.now || is_some selector.now.stop_id) }
{
    gives_more(selector) || selector.stop_id.is_some()
}

/// Whether both numbers are there and are one.
fn is_one(number: Option<u32>, other: Option<u32>) -> bool
    ensures { result ≡ rule.is_one number other }
{
    match (number, other) {
        (Some(number), Some(other)) => number == other,
        _ => false,
    }
}

/// Whether the stop of that number, if it is there, names the other as its parent.
fn names_parent(plan: &Plan, stop: u32, parent: u32) -> bool
    requires { stop < length plan.now.stops }
    ensures { result ≡ names_parent parent (slice_get plan.now.stops stop) }
{
    plan.stop(stop).parent == Some(parent)
}

/// Whether the named stop is this one or its parent.
fn is_stop_or_parent(plan: &Plan, stop: u32, named: Option<u32>) -> bool
    requires { stop < length plan.now.stops }
    ensures { result ≡ rule.is_stop_or_parent plan.now stop named }
{
    match named {
        Some(named) => named == stop || names_parent(plan, stop, named),
        None => false,
    }
}

/// Whether the named stop is this one, its parent or one of its children.
pub(crate) fn is_stop_or_kin(plan: &Plan, stop: u32, named: Option<u32>) -> bool
    requires stop { stop < length plan.now.stops }
    requires named { IfSome named (λ n. n < length plan.now.stops) }
    ensures { result ≡ rule.is_stop_or_kin plan.now stop named }
{
    match named {
        Some(number) => {
            is_stop_or_parent(plan, stop, Some(number)) || names_parent(plan, number, stop)
        }
        None => false,
    }
}

/// Whether all but the trip holds for a row of that route and direction at that stop.
pub(crate) fn fits(
    plan: &Plan,
    aim: &Aim<'_>,
    route: Option<u32>,
    direction: Option<u32>,
    stop: u32,
) -> bool
    requires aim { IsAim plan.now aim.now }
    requires route { IfSome route (λ number. number < length plan.now.routes) }
    requires stop { stop < length plan.now.stops }
    ensures { result ≡ rule.fits plan.now aim.now.selector.now route direction stop }
{
    agency_holds(plan, aim, route)
        && route_holds(plan, aim, route)
        && kind_holds(plan, aim.selector.route_type, route)
        && direction_holds(aim.selector.direction_id, direction)
        && stop_holds(plan, aim, stop)
}

/// Whether the agency, if one is given, is the route's.
fn agency_holds(plan: &Plan, aim: &Aim<'_>, route: Option<u32>) -> bool
    requires aim { IsAim plan.now aim.now }
    requires route { IfSome route (λ number. number < length plan.now.routes) }
    ensures { result
        ≡ holds_if_given (rule.is_agency plan.now route) aim.now.selector.now.agency_id }
{
    aim.selector.agency_id.is_none() || is_one(aim.agency, agency_in(plan, route))
}

/// The agency of the route.
fn agency_in(plan: &Plan, route: Option<u32>) -> Option<u32>
    requires { IfSome route (λ number. number < length plan.now.routes) }
    ensures { result ≡ option_and_then (λ row. row.agency) (rule.route_row plan.now route) }
{
    match route {
        Some(route) => plan.route(route).agency,
        None => None,
    }
}

/// Whether the route, if one is given, is this one.
fn route_holds(plan: &Plan, aim: &Aim<'_>, route: Option<u32>) -> bool
    requires { IsAim plan.now aim.now }
    ensures { result
        ≡ holds_if_given (rule.is_route plan.now route) aim.now.selector.now.route_id }
{
    aim.selector.route_id.is_none() || is_one(aim.route, route)
}

/// Whether the route_type, if one is given, is the route's.
fn kind_holds(plan: &Plan, kind: Option<i32>, route: Option<u32>) -> bool
    requires { IfSome route (λ number. number < length plan.now.routes) }
    ensures { result
        ≡ holds_if_given (λ asked. rule.has_kind asked (rule.route_row plan.now route)) kind }
{
    match kind {
        Some(kind) => has_kind(plan, kind, route),
        None => true,
    }
}

/// Whether there is a route, of that route_type.
fn has_kind(plan: &Plan, kind: i32, route: Option<u32>) -> bool
    requires { IfSome route (λ number. number < length plan.now.routes) }
    ensures { result ≡ rule.has_kind kind (rule.route_row plan.now route) }
{
    match route {
        Some(route) => i64::from(plan.route(route).kind) == i64::from(kind),
        None => false,
    }
}

/// Whether the direction, if one is given, is the trip's.
fn direction_holds(asked: Option<u32>, direction: Option<u32>) -> bool
    ensures { result ≡ holds_if_given (λ number. is_given number direction) asked }
{
    match asked {
        Some(asked) => direction == Some(asked),
        None => true,
    }
}

/// Whether the stop, if one is given, is the row's or its parent.
fn stop_holds(plan: &Plan, aim: &Aim<'_>, stop: u32) -> bool
    requires aim { IsAim plan.now aim.now }
    requires stop { stop < length plan.now.stops }
    ensures { result
        ≡ holds_if_given (λ id. rule.is_stop_or_parent plan.now stop (rule.stop_with plan.now id))
        aim.now.selector.now.stop_id }
{
    aim.selector.stop_id.is_none() || is_stop_or_parent(plan, stop, aim.stop)
}

/// Whether the trip, if one is given, is the run.
pub(crate) fn run_holds(plan: &Plan, aim: &Aim<'_>, run: Run) -> bool
    requires { IsAim plan.now aim.now }
    ensures { result
        ≡ holds_if_given (λ trip. rule.is_trip (RunOf run) trip
        (match_of plan.now trip aim.now.stamp))
        aim.now.selector.now.trip }
{
    match aim.found {
        Some(found) => is_run(found, run),
        None => true,
    }
}

/// Whether what was found is that run.
fn is_run(found: Found, run: Run) -> bool
    ensures { result ≡ is_run_found run found }
{
    match found {
        Found::Run(other) => other.trip == run.trip && other.day == run.day,
        Found::Added | Found::NoMatch(_) => false,
    }
}

/// Whether the trip, if one is given, is the added one.
pub(crate) fn added_holds(plan: &Plan, aim: &Aim<'_>, key: &AddedKey<'_>) -> bool
    requires { IsAim plan.now aim.now }
    ensures { result
        ≡ holds_if_given (λ trip. rule.is_trip (AddedTrip key.now.trip.now key.now.date.now
        key.now.route) trip (match_of plan.now trip aim.now.stamp)) aim.now.selector.now.trip }
{
    match (&aim.selector.trip, aim.found) {
        (Some(trip), Some(found)) => { is_added(found) && is_added_trip(trip, key.trip, key.date) }
        _ => true,
    }
}

/// Whether what was found is an added trip.
fn is_added(found: Found) -> bool
    ensures { result ≡ choosing.is_added_found found }
{
    match found {
        Found::Added => true,
        Found::Run(_) | Found::NoMatch(_) => false,
    }
}

/// Whether the descriptor has that trip_id and that start_date; an absent text is empty.
fn is_added_trip(named: &TripRef, trip: &str, date: &str) -> bool
    ensures { result ≡ choosing.is_added_trip trip.now date.now named.now }
{
    text_of(&named.trip_id) == trip && text_of(&named.start_date) == date
}
