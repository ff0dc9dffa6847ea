// Which place of a trip an update is about, and to which stop it moves it.
ghost use Rattle.std.specs.Prelude.{◌≡◌, ◌<◌, ◌≤◌, ◌==◌, length, drop, IfSome};
ghost use Rattle.std.specs.List.{position_from};
ghost use Rattle.delay_rule_defs.specs.Delays as rule;
ghost use Rattle.delay_rule_defs.specs.Delays.{fits, is_at};
ghost use Rattle.delay_rule.specs.Pass.{SequencesRise};

use rt_types::{StopUpdate, Text};
use sched_types::{Place, Plan};

/// The place with that `stop_sequence`, at `from` or behind it.
fn with_sequence(places: &[Place], from: usize, sequence: u32) -> Option<usize>
    requires rise { SequencesRise places.now }
    requires from { from ≤ length places.now }
    ensures value { result
        ≡ position_from (λ place. place.sequence == sequence) from (drop from places.now) }
    ensures within { IfSome result (λ i. i < length places.now) }
    ensures behind { IfSome result (λ i. from ≤ i) }
{
    let rest = &places[from..];
    match rest.binary_search_by_key(&sequence, |place| place.sequence) {
        Ok(found) => Some(from + found),
        Err(_) => None,
    }
}

/// The first place at the stop of that number, at `from` or behind it.
fn at_stop(places: &[Place], from: usize, stop: u32) -> Option<usize>
    requires from { from ≤ length places.now }
    ensures value { result
        ≡ position_from (λ place. stop == place.stop) from (drop from places.now) }
    ensures within { IfSome result (λ i. i < length places.now) }
    ensures behind { IfSome result (λ i. from ≤ i) }
{
    for i in from..places.len() {
        if places[i].stop == stop {
            return Some(i);
        }
    }
    None
}

/// The first place at the stop with that `stop_id`, at `from` or behind it; none without a stop_id.
fn with_stop_id(plan: &Plan, places: &[Place], from: usize, id: &Option<Text>) -> Option<usize>
    requires { from ≤ length places.now }
    ensures value { result ≡ position_from (is_at plan.now id.now) from (drop from places.now) }
    ensures within { IfSome result (λ i. i < length places.now) }
    ensures behind { IfSome result (λ i. from ≤ i) }
{
    match id {
        Some(id) => match plan.stop_of(id.as_str()) {
            Some(stop) => at_stop(places, from, stop),
            None => None,
        },
        None => None,
    }
}

/// The number of the stop that an update names for its place, if it names one of the timetable
/// (GTFS Realtime, StopTimeProperties, assigned_stop_id).
pub fn assigned_stop(plan: &Plan, update: &StopUpdate) -> Option<u32>
    ensures value { result ≡ rule.assigned_stop plan.now update.now }
    ensures within { IfSome result (λ stop. stop < length plan.now.stops) }
{
    match &update.properties {
        Some(properties) => match &properties.assigned_stop_id {
            Some(id) => plan.stop_of(id.as_str()),
            None => None,
        },
        None => None,
    }
}

/// The first place that the update is about, at `from` or behind it.
pub(crate) fn place_for(
    plan: &Plan,
    places: &[Place],
    from: usize,
    update: &StopUpdate,
) -> Option<usize>
    requires rise { SequencesRise places.now }
    requires from { from ≤ length places.now }
    ensures value { result ≡ position_from (fits plan.now update.now) from (drop from places.now) }
    ensures within { IfSome result (λ i. i < length places.now) }
    ensures behind { IfSome result (λ i. from ≤ i) }
{
    match update.stop_sequence {
        Some(sequence) => with_sequence(places, from, sequence),
        None => with_stop_id(plan, places, from, &update.stop_id),
    }
}
