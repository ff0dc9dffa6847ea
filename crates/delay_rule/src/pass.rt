// The pass over the places and the updates.
ghost use Rattle.std.specs.Prelude.{◌≡◌, ◌+◌, ◌≤◌, ◌∷◌, ◌++◌, List, length, replicate, IsTrue, IfOk, IfSome, OnOk, OnErr};
ghost use Rattle.std.specs.List.{All};
ghost use Rattle.rt_types.specs.declared.trip_update.StopUpdate.{StopUpdate};
ghost use Rattle.sched_types.specs.Timetable.{IsSmall, is_run};
ghost use Rattle.delay_rule_defs.specs.Delays as rule;
ghost use Rattle.delay_rule_defs.specs.Delays.{states};
ghost use Rattle.delay_rule.specs.Near.{IsNear, IsNearState, IsAtStop, AddsNear};
ghost use Rattle.delay_rule.specs.Pass.{SequencesRise, StartsWith, walked};

use crate::delays::{plain, state_of, widened};
use crate::places::place_for;
use crate::steps::Steps;
use delay_rule_defs::StopState;
use rt_types::{StopUpdate, TripUpdate};
use sched_types::{Place, Plan, Run};
use std::alloc::AllocError;
use std::sync::ledger::Ledger;

/// Where the pass stands: the first place whose state is not told yet, and the delay that is
/// carried to it.
#[derive(Clone, Copy)]
struct Reached {
    place: usize,
    carry: Option<i64>,
}

/// Appends the states of so many places of which no update says anything.
fn add_plain(out: &mut Vec<StopState>, count: usize, carry: Option<i64>) -> Result<(), AllocError>
    ensures added { OnOk result (out.new.items ≡ out.old.items
        ++ replicate count (rule.plain carry)) }
    ensures begins { StartsWith out.old.items out.new.items }
{
    for _ in 0..count {
        out.push(plain(carry))?;
    }
    Ok(())
}

/// Appends the states up to the place that the update takes, if it takes one, and says where the
/// pass stands then.
fn step(
    plan: &Plan,
    places: &[Place],
    base: i64,
    update: &StopUpdate,
    reached: Reached,
    out: &mut Vec<StopState>,
) -> Result<Reached, AllocError>
    requires rise { SequencesRise places.now }
    requires small { IsSmall base }
    requires reached { reached.place ≤ length places.now }
    requires carry { IfSome reached.carry IsNear }
    ensures within { IfOk result (λ next. next.place ≤ length places.now) }
    ensures goes_on { IfOk result (λ next. (more : List StopUpdate) → out.new.items
        ++ walked plan.now places.now base more next.place next.carry ≡ out.old.items
        ++ walked plan.now places.now base (update.now ∷ more) reached.place reached.carry) }
    ensures begins { StartsWith out.old.items out.new.items }
    ensures near { OnOk result (AddsNear out.old.items out.new.items) }
    ensures carry { IfOk result (λ next. IfSome next.carry IsNear) }
{
    match place_for(plan, places, reached.place, update) {
        Some(found) => {
            add_plain(out, found - reached.place, reached.carry)?;
            let place = places[found];
            let state = state_of(plan, update, place, base, reached.carry);
            out.push(state)?;
            Ok(Reached {
                place: found + 1,
                carry: state.departure,
            })
        }
        None => Ok(reached),
    }
}

/// Appends the states of all places.
fn fill(
    plan: &Plan,
    run: Run,
    update: &TripUpdate,
    out: &mut Vec<StopState>,
) -> Result<(), AllocError>
    requires { IsTrue (is_run plan.now run) }
    ensures written { OnOk result (out.new.items ≡ out.old.items
        ++ states plan.now run update.now) }
    ensures begins { StartsWith out.old.items out.new.items }
    ensures near { OnOk result (All IsNearState (states plan.now run update.now)) }
    ensures there { OnOk result (All (IsAtStop plan.now) (states plan.now run update.now)) }
{
    plan.sound();
    let places = plan.stop_times(run.trip);
    let base = plan.base(run.day);
    out.reserve(places.len())?;
    let mut reached = Reached {
        place: 0,
        carry: widened(update.delay),
    };
    for stop_update in update.stop_time_update.as_slice() {
        reached = step(plan, places, base, stop_update, reached, out)?;
    }
    add_plain(out, places.len() - reached.place, reached.carry)?;
    Ok(())
}

/// Appends the state of each place of the run, in order, and adds one step. Where memory is
/// wanting, the states are as they were before, and the step is added all the same.
///
/// The rules are those of GTFS Realtime (TripUpdate) as `delay_rule_defs` says them: updates take
/// places in order, a delay holds up to the next place with one, and an assigned stop holds for its
/// place alone. Each delay is within two trillion seconds, and each stop is one of the timetable.
pub fn walk<L: Ledger>(
    plan: &Plan,
    run: Run,
    update: &TripUpdate,
    out: &mut Vec<StopState>,
    steps: &mut Steps<L>,
) -> Result<(), AllocError>
    requires { IsTrue (is_run plan.now run) }
    ensures written { OnOk result (out.new.items ≡ out.old.items
        ++ states plan.now run update.now) }
    ensures near { OnOk result (All IsNearState (states plan.now run update.now)) }
    ensures there { OnOk result (All (IsAtStop plan.now) (states plan.now run update.now)) }
    ensures kept { OnErr result (out.new.items ≡ out.old.items) }
    ensures counted { steps.new ≡ steps.old + 1 }
{
    steps.tick();
    let before = out.len();
    let filled = fill(plan, run, update, out);
    if filled.is_err() {
        out.truncate(before);
    }
    filled
}
