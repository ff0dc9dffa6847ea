//! What is known of a place, by the update that counts for its run.

ghost use Rattle.std.specs.Prelude.{◌≡◌, slice_get, IfSome};
ghost use Rattle.std.specs.List.{All};
ghost use Rattle.std.specs.Option.{option_map};
ghost use Rattle.delay_rule.specs.Near.{IsNear, IsNearState};
ghost use Rattle.board_defs.specs.Rows as rule;
ghost use Rattle.run_overlay.specs.Live.{sign_of};

use crate::slot::SlotState;
use delay_rule::StopState;
use rt_types::TripRelation;

/// What is known of a place: a state, a delay in seconds where it is known, and the number of the
/// stop to which the place is moved, if it is.
#[derive(Clone, Copy, Debug, PartialEq, Eq)]
pub(crate) struct Sign {
    pub(crate) state: SlotState,
    pub(crate) delay: Option<i64>,
    pub(crate) stop: Option<u32>,
}

/// By a delay, if one is known.
fn by_delay(delay: Option<i64>, stop: Option<u32>) -> Sign
    ensures { result ≡ sign_of (rule.by_delay delay stop) }
{
    match delay {
        Some(delay) => Sign {
            state: SlotState::Live,
            delay: Some(delay),
            stop,
        },
        None => Sign {
            state: SlotState::Scheduled,
            delay: None,
            stop,
        },
    }
}

/// By the state of the place.
fn by_state(state: Option<StopState>) -> Sign
    requires { IfSome state IsNearState }
    ensures value { result ≡ sign_of (rule.by_state state) }
    ensures near { IfSome result.delay IsNear }
{
    match state {
        Some(state) if state.skipped => Sign {
            state: SlotState::Skipped,
            delay: None,
            stop: state.stop,
        },
        Some(state) => by_delay(state.departure, state.stop),
        None => by_delay(None, None),
    }
}

/// By the relation of the run's update and the state of the place; nothing for a deleted run.
pub(crate) fn by_relation(relation: TripRelation, state: Option<StopState>) -> Option<Sign>
    requires { IfSome state IsNearState }
    ensures value { result ≡ option_map sign_of (rule.by_relation relation state) }
    ensures near { IfSome result (λ sign. IfSome sign.delay IsNear) }
{
    match relation {
        TripRelation::Canceled => Some(Sign {
            state: SlotState::Canceled,
            delay: None,
            stop: None,
        }),
        TripRelation::Deleted => None,
        TripRelation::Scheduled
        | TripRelation::Added
        | TripRelation::Unscheduled
        | TripRelation::Replacement
        | TripRelation::Duplicated => Some(by_state(state)),
    }
}

/// The state of a place.
pub(crate) fn state_at(states: &[StopState], place: usize) -> Option<StopState>
    requires { All IsNearState states.now }
    ensures value { result ≡ slice_get states.now place }
    ensures near { IfSome result IsNearState }
{
    states.get(place).copied()
}
