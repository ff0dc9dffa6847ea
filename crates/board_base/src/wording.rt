//! How routes and stops are named, and what ids name.

ghost use Rattle.std.specs.Prelude.{◌≡◌, ◌<◌, Some, length, IfSome};
ghost use Rattle.std.specs.Option.{option_and_then};
ghost use Rattle.sched_types.specs.Timetable.{number_of};
ghost use Rattle.board_defs.specs.Choice.{text_or_none};
ghost use Rattle.board_defs.specs.Rows as rule;

use rt_types::Text;
use sched_types::{Plan, Route};

/// The short name of a route, else its long name.
pub fn route_name(route: &Route) -> &str
    ensures { result.now ≡ rule.route_name (Some route.now) }
{
    let short = route.short.as_str();
    if short == "" {
        route.long.as_str()
    } else {
        short
    }
}

/// The id of a stop.
pub fn stop_id(plan: &Plan, stop: u32) -> &str
    requires { stop < length plan.now.stops }
    ensures { result.now ≡ rule.stop_id_of plan.now stop }
{
    plan.stop(stop).id.as_str()
}

/// A text; empty where it is absent.
pub fn text_of(text: &Option<Text>) -> &str
    ensures { result.now ≡ text_or_none text.now }
{
    match text {
        Some(text) => text.as_str(),
        None => "",
    }
}

/// The number of the route of that route_id, if it is in routes.txt.
pub fn route_named(plan: &Plan, id: &Option<Text>) -> Option<u32>
    ensures value { result ≡ rule.route_named plan.now id.now }
    ensures within { IfSome result (λ route. route < length plan.now.routes) }
{
    match id {
        Some(id) => plan.route_of(id.as_str()),
        None => None,
    }
}

/// The number of the stop of that stop_id, if it is in stops.txt.
pub fn stop_named(plan: &Plan, id: &Option<Text>) -> Option<u32>
    ensures value { result ≡ option_and_then (number_of (λ stop. stop.id) plan.now.stops) id.now }
    ensures within { IfSome result (λ stop. stop < length plan.now.stops) }
{
    match id {
        Some(id) => plan.stop_of(id.as_str()),
        None => None,
    }
}
