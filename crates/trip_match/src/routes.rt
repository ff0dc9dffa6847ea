// Trips without a trip_id.
ghost use Rattle.std.specs.Prelude.{◌≡◌};
ghost use Rattle.sched_types.specs.Timetable.{day_with_date};
ghost use Rattle.trip_match_defs.specs.Matching as rule;
ghost use Rattle.trip_match_defs.specs.Matching.{at_time, on_day, rule_6_route_and_time, trips_running};
ghost use Rattle.trip_match_defs.specs.Texts as text;
ghost use Rattle.text_defs.specs.Times.{time_in};

use crate::descriptor::given;
use rt_types::TripRef;
use sched_types::{Plan, Run};
use texts::read_time;
use trip_match_defs::{Found, Why};

/// The run on that day of the one of these trips that runs then.
fn only(plan: &Plan, trips: &[u32], day: u32) -> Found
    ensures { result ≡ rule.only_trip day (trips_running plan.now day trips.now) }
{
    let mut found: Option<u32> = None;
    for trip in trips {
        if plan.runs(Run { trip: *trip, day }) {
            if found.is_some() {
                return Found::NoMatch(Why::Several);
            }
            found = Some(*trip);
        }
    }
    match found {
        Some(trip) => Found::Run(Run { trip, day }),
        None => Found::NoMatch(Why::NoTrip),
    }
}

/// The run of that route and direction that first departs at that time of the day with that date.
fn departing_on(plan: &Plan, route: &str, direction: u32, date: u32, departure: u32) -> Found
    ensures { result ≡ on_day plan.now route.now direction departure (day_with_date plan.now date) }
{
    match plan.day_of(date) {
        Some(day) => match plan.route_of(route) {
            Some(route) => only(plan, plan.departing(route, direction, departure), day),
            None => Found::NoMatch(Why::NoTrip),
        },
        None => Found::NoMatch(Why::NoDay),
    }
}

/// The run of that route and direction that first departs on that date at the time that the text
/// writes.
fn departing_at(plan: &Plan, route: &str, direction: u32, date: u32, time: &str) -> Found
    ensures { result ≡ at_time plan.now route.now direction date (time_in time.now) }
{
    match read_time(time.as_bytes()) {
        Some(departure) => departing_on(plan, route, direction, date, departure),
        None => Found::NoMatch(Why::BadText),
    }
}

/// The run of the descriptor's route, direction and time on that date, if all are given.
pub(crate) fn by_departure(plan: &Plan, trip: &TripRef, date: Option<u32>) -> Found
    ensures { result
        ≡ rule_6_route_and_time plan.now
        (text.text_given trip.now.route_id) trip.now.direction_id date
        (text.text_given trip.now.start_time) }
{
    match (
        given(&trip.route_id),
        trip.direction_id,
        date,
        given(&trip.start_time),
    ) {
        (Some(route), Some(direction), Some(date), Some(time)) => {
            departing_at(plan, route, direction, date, time)
        }
        _ => Found::NoMatch(Why::NoTrip),
    }
}
