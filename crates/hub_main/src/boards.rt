//! The hub of a configuration, and a board of its timetables.
ghost use Rattle.std.specs.Prelude.{◌≡◌, [], length, IfOk, IfSome};
ghost use Rattle.std.specs.Arc.{arc_value};
ghost use Rattle.std.specs.Option.{option_map};
ghost use Rattle.board_defs.specs.Fold.{fold_of};
ghost use Rattle.board_text_defs.specs.Answers.{board_answer, MayAsk};
ghost use Rattle.hub_main_defs.specs.Hubs.{schedules_at};
ghost use Rattle.hub_load.specs.Stops.{LoadingStopped, StopsWith};
ghost use Rattle.hub_load.specs.Told.{HasCause, IsAsTold};
ghost use Rattle.hub_main.specs.Offline.{IsShare};
ghost use Rattle.board_text_defs.specs.Asked.{asked_seen};

use crate::NoMemory;
use board_parts::HubView;
use hub_load::{HubFault, load_plans};
use hub_outside::Files;
use sched_types::Plans;
use std::alloc::Global;
use std::sync::Arc;
use view_answers::{BoardAsked, Question, answer};

/// The schedules and feeds of the configuration at the path, with their timetables, to be shared.
pub(crate) fn load_shared<F: Files>(
    alloc: Global,
    files: &mut F,
    path: &str,
) -> Result<Arc<Plans>, HubFault>
    ensures told { IfSome (F.contents files.old)
        (λ fs. IsAsTold arc_value (schedules_at fs path.now) result) }
    ensures cause { HasCause result (F.faults files.old) (F.faults files.new) }
    ensures same { F.contents files.new ≡ F.contents files.old }
    ensures stops { StopsWith result
        (LoadingStopped (F.contents files.old) (F.last_fault files.new) path.now) }
{
    match load_plans(alloc, files, path) {
        Ok(plans) => shared(alloc, plans),
        Err(fault) => Err(fault),
    }
}

/// The same plans with one owner, who may share them.
pub(crate) fn shared(alloc: Global, plans: Plans) -> Result<Arc<Plans>, HubFault>
    ensures { IsShare plans result }
{
    match Arc::new(alloc, plans) {
        Ok(plans) => Ok(plans),
        Err(_) => Err(HubFault::NoMemory),
    }
}

/// The board of the timetables, where no feed has said anything; none where there is no such
/// schedule or stop.
pub(crate) fn board_of(
    alloc: Global,
    plans: Arc<Plans>,
    asked: &BoardAsked<'_>,
) -> Result<Option<Vec<u8>>, NoMemory>
    requires { MayAsk (asked_seen asked.now) }
    ensures { IfOk result (λ board. option_map (λ bytes. bytes.items) board
        ≡ board_answer (arc_value plans) (fold_of (length (arc_value plans).feeds) [])
        (asked_seen asked.now)) }
{
    let view = HubView::first(alloc, plans)?;
    let question = Question::Board(*asked);
    let mut bytes = Vec::new(alloc);
    match answer(alloc, &view, &question, &mut bytes) {
        Ok(true) => Ok(Some(bytes)),
        Ok(false) => Ok(None),
        Err(fault) => Err(fault),
    }
}
