// The rules in their order.
ghost use Rattle.std.specs.Prelude.{◌≡◌, None, Option, List, ℕ, pos, if◌then◌else◌};
ghost use Rattle.trip_match_defs.specs.Matching as rule;
ghost use Rattle.trip_match_defs.specs.Matching.{first_rule, match_of, no_match, rule_1_relation, rule_3_added_trip, rule_pattern, rule_4_trip_id, rule_5_nearest_day, rule_6_route_and_time};
ghost use Rattle.trip_match_defs.specs.Texts as text;
ghost use Rattle.trip_match.specs.Reading.{IsRead};

use crate::descriptor::given;
use crate::ids::by_id;
use crate::routes::by_departure;
use rt_types::{TripRef, TripRelation};
use sched_types::Plan;
use texts::read_date;
use trip_match_defs::{Found, Why};

/// Whether trips of that relation are about no run of a timetable.
fn has_no_run(relation: TripRelation) -> bool
    ensures { rule_1_relation relation ≡ (if result then no_match Why.Relation else None) }
{
    matches!(
        relation,
        TripRelation::Unscheduled | TripRelation::Replacement | TripRelation::Duplicated
    )
}

fn is_added(relation: TripRelation) -> bool
    ensures { (id : Option (List ℕ)) → rule_3_added_trip relation id
        ≡ (if result then rule.added_trip id else None) }
{
    matches!(relation, TripRelation::Added)
}

/// The date that the start_date writes, if it is given; `BadText` where it writes none.
fn start_day(trip: &TripRef) -> Result<Option<u32>, Why>
    ensures { IsRead trip.now result }
{
    match given(&trip.start_date) {
        Some(date) => match read_date(date.as_bytes()) {
            Some(date) => Ok(Some(date)),
            None => Err(Why::BadText),
        },
        None => Ok(None),
    }
}

/// What is known of an ADDED trip.
fn added(trip: &TripRef) -> Found
    ensures { (later : Found) → result
        ≡ first_rule (rule.added_trip (text.text_given trip.now.trip_id)) later }
{
    match given(&trip.trip_id) {
        Some(_) => Found::Added,
        None => Found::NoMatch(Why::NoTrip),
    }
}

/// What the descriptor of a trip of the timetable is about.
fn scheduled(plan: &Plan, trip: &TripRef, date: Option<u32>, stamp: u64, near: Option<u32>) -> Found
    ensures { result
        ≡ first_rule (rule_pattern plan.now
        (text.text_given trip.now.trip_id) (text.text_given trip.now.start_time))
        (first_rule (rule_4_trip_id plan.now
        (text.text_given trip.now.trip_id) (text.text_given trip.now.start_time) date)
        (first_rule (rule_5_nearest_day plan.now (pos stamp)
        (text.text_given trip.now.trip_id) (text.text_given trip.now.start_time))
        (rule_6_route_and_time plan.now
        (text.text_given trip.now.route_id) trip.now.direction_id date
        (text.text_given trip.now.start_time)))) }
{
    match given(&trip.trip_id) {
        Some(id) => by_id(plan, id, &trip.start_time, date, stamp, near),
        None => by_departure(plan, trip, date),
    }
}

/// What a trip descriptor is about at an instant, in seconds since 1970: that of the update or
/// message in which it stands (GTFS Realtime, TripDescriptor).
pub fn find(plan: &Plan, trip: &TripRef, stamp: u64) -> Found
    ensures { result ≡ match_of plan.now trip.now stamp }
{
    find_near(plan, trip, stamp, None)
}

/// What [`find`] gives. The trip that a trip_id means is looked for among the few from the given
/// one on first, whatever number that is.
#[tactic(auto, unfolding(trip_match_defs::specs::Matching::match_of))]
pub fn find_near(plan: &Plan, trip: &TripRef, stamp: u64, near: Option<u32>) -> Found
    ensures { result ≡ match_of plan.now trip.now stamp }
{
    let relation = trip.relation.unwrap_or(TripRelation::Scheduled);
    if has_no_run(relation) {
        return Found::NoMatch(Why::Relation);
    }
    match start_day(trip) {
        Ok(date) => {
            if is_added(relation) {
                added(trip)
            } else {
                scheduled(plan, trip, date, stamp, near)
            }
        }
        Err(why) => Found::NoMatch(why),
    }
}
