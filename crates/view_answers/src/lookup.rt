//! Looking up what is asked for.

ghost use Rattle.std.specs.Prelude.{◌≡◌, ◌<◌, length, position, Some, IfSome};
ghost use Rattle.std.specs.Str.{bytes_eq};
ghost use Rattle.board_text_defs.specs.Answers.{name_in, schedule_number};

use sched_types::{NamedPlan, Plan, Plans};

/// The number of the schedule of that name, if there is one.
#[tactic(auto, unfolding(board_text_defs::specs::Answers::schedule_number))]
pub fn schedule_number(plans: &Plans, name: &str) -> Option<u32>
    ensures value { result ≡ schedule_number plans.now name.now }
    ensures within { IfSome result (λ plan. plan < length plans.now.plans) }
{
    plans.sound();
    match place_of(plans.plans(), name) {
        Some(plan) => Some(plan as u32),
        None => None,
    }
}

/// The place of the first schedule of that name.
fn place_of(plans: &[NamedPlan], name: &str) -> Option<usize>
    ensures value { result ≡ position (λ plan. bytes_eq name.now plan.name) plans.now }
    ensures within { IfSome result (λ plan. plan < length plans.now) }
{
    plans.iter().position(|plan| name == plan.name.as_str())
}

/// The name of the stop of that id; empty where there is none.
pub(crate) fn name_of<'a>(plan: &'a Plan, stop: &str) -> &'a str
    ensures { result.now ≡ name_in (Some plan.now) stop.now }
{
    match plan.stop_of(stop) {
        Some(stop) => plan.stop(stop).name.as_str(),
        None => "",
    }
}
