// Trips with a trip_id.
ghost use Rattle.std.specs.Prelude.{◌≡◌, ◌<◌, Some, length, pos, IfOk};
ghost use Rattle.sched_types.specs.Timetable.{day_with_date};
ghost use Rattle.trip_match_defs.specs.declared.found.Found.{Found};
ghost use Rattle.trip_match_defs.specs.Matching as rule;
ghost use Rattle.trip_match_defs.specs.Matching.{first_rule, rule_pattern, rule_4_trip_id, rule_5_nearest_day};
ghost use Rattle.trip_match_defs.specs.Texts.{text_given};
ghost use Rattle.trip_match.specs.Meaning.{IsMeant, IsStarted};

use crate::descriptor::given;
use crate::near::by_near;
use crate::neighbours::trip_near;
use rt_types::Text;
use sched_types::{Plan, Run};
use texts::read_time;
use trip_match_defs::{Found, Why};

/// The run of the trip on the day with that date.
fn run_on(plan: &Plan, trip: u32, date: u32) -> Found
    ensures { result ≡ rule.run_on plan.now trip (day_with_date plan.now date) }
{
    match plan.day_of(date) {
        Some(day) => {
            let run = Run { trip, day };
            if plan.runs(run) {
                Found::Run(run)
            } else {
                Found::NoMatch(Why::NotActive)
            }
        }
        None => Found::NoMatch(Why::NoDay),
    }
}

/// The trip that a pattern gives at a start_time, or why it gives none.
fn started(plan: &Plan, pattern: u32, time: &Option<Text>) -> Result<u32, Why>
    requires { pattern < length plan.now.patterns }
    ensures started { IsStarted plan.now pattern (text_given time.now) result }
    ensures within { IfOk result (λ trip. trip < length plan.now.trips) }
{
    if !plan.has_derived(pattern) {
        return Err(Why::NoTrip);
    }
    match given(time) {
        Some(time) => match read_time(time.as_bytes()) {
            Some(start) => plan.derived(pattern, start).ok_or(Why::NoTrip),
            None => Err(Why::BadText),
        },
        None => Err(Why::Several),
    }
}

/// The trip that a trip_id means: where it names a pattern, the one that starts at the start_time,
/// and else the one with that id, which is looked for near the given trip first; or why none is
/// meant.
fn trip_meant(plan: &Plan, id: &str, time: &Option<Text>, near: Option<u32>) -> Result<u32, Why>
    ensures meant { IsMeant plan.now id.now (text_given time.now) result }
    ensures within { IfOk result (λ trip. trip < length plan.now.trips) }
{
    match plan.pattern_of(id) {
        Some(pattern) => started(plan, pattern, time),
        None => trip_near(plan, id, near).ok_or(Why::NoTrip),
    }
}

/// The run of the trip that the id and the time mean on that date, or without a date on the nearest
/// day. The trip is looked for near the given one first.
pub(crate) fn by_id(
    plan: &Plan,
    id: &str,
    time: &Option<Text>,
    date: Option<u32>,
    stamp: u64,
    near: Option<u32>,
) -> Found
    ensures { (later : Found) → result
        ≡ first_rule (rule_pattern plan.now (Some id.now) (text_given time.now))
        (first_rule (rule_4_trip_id plan.now (Some id.now) (text_given time.now) date)
        (first_rule (rule_5_nearest_day plan.now (pos stamp) (Some id.now) (text_given time.now))
        later)) }
{
    match trip_meant(plan, id, time, near) {
        Ok(trip) => match date {
            Some(date) => run_on(plan, trip, date),
            None => by_near(plan, trip, stamp),
        },
        Err(why) => Found::NoMatch(why),
    }
}
