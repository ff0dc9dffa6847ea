//! The alerts that a query of a board lists.

ghost use Rattle.std.specs.Prelude.{◌≡◌, ◌<◌, ◌≤◌, Some, List, length, map, IfOk};
ghost use Rattle.std.specs.List.{All};
ghost use Rattle.text_defs.specs.Moments.{last_moment};
ghost use Rattle.feed_defs.specs.declared.history.Entry.{Entry};
ghost use Rattle.sched_types.specs.Timetable.{number_of};
ghost use Rattle.board_defs.specs.Fold.{fold_of};
ghost use Rattle.board_defs.specs.Rows.{timetable_in};
ghost use Rattle.board_defs.specs.Views.{StandsFor, folds_of};
ghost use Rattle.alert_select.specs.Subjects.{touched_by, IsWithin};
ghost use Rattle.board_lists.specs.Active.{row_if, rows_among};
ghost use Rattle.board_lists.specs.Answers.{AreAlerts};

use crate::active_alerts::{ActiveAlert, all_active};
use crate::heading::row_of;
use crate::{NoMemory, RowsFault};
use alert_defs::AlertRow;
use alert_select::{Subject, concerns};
use board_core::{HubView, subjects};
use board_defs::BoardQuery;
use sched_types::Plan;
use std::alloc::Global;

/// The alerts of the schedule's feeds that count and are active at the query's moment and touch its
/// stop or one of the rows of its board, by feed and then by id.
///
/// It looks at the alerts alone, and asks for the rows of the board only where one of them is
/// active.
pub fn alerts(alloc: Global, view: &HubView, query: &BoardQuery) -> Result<Vec<AlertRow>, RowsFault>
    requires plan { query.now.plan < length view.now.plans.plans }
    requires moment { query.now.at ≤ last_moment }
    ensures alerts { AreAlerts view.now.plans (folds_of view.now) query.now result }
    ensures stands { (h : List Entry) → StandsFor h view.now
        → AreAlerts view.now.plans (fold_of (length view.now.plans.feeds) h) query.now result }
{
    let plan = view.timetable(query.plan);
    match plan.stop_of(query.stop.as_str()) {
        Some(stop) => alerts_at(alloc, view, query, plan, stop),
        None => Err(RowsFault::NoStop),
    }
}

/// The same at the stop of that number.
fn alerts_at(
    alloc: Global,
    view: &HubView,
    query: &BoardQuery,
    plan: &Plan,
    stop: u32,
) -> Result<Vec<AlertRow>, RowsFault>
    requires within { query.now.plan < length view.now.plans.plans }
    requires moment { query.now.at ≤ last_moment }
    requires plan { timetable_in view.now.plans query.now.plan ≡ Some plan.now }
    requires stop { Some stop ≡ number_of (λ row. row.id) plan.now.stops query.now.stop }
    requires known { stop < length plan.now.stops }
    ensures { AreAlerts view.now.plans (folds_of view.now) query.now result }
{
    let active = all_active(alloc, query.at, view.alerts_of(query.plan))?;
    let found = active.as_slice();
    if found.is_empty() {
        return Ok(Vec::new(alloc));
    }
    let subjects = subjects(alloc, view, query)?;
    let rows = concerned(alloc, plan, stop, subjects.as_slice(), found)?;
    Ok(rows)
}

/// The rows of those alerts that touch the stop or one of the subjects; or want of memory.
fn concerned(
    alloc: Global,
    plan: &Plan,
    stop: u32,
    subjects: &[Subject<'_>],
    active: &[ActiveAlert<'_>],
) -> Result<Vec<AlertRow>, NoMemory>
    requires stop { stop < length plan.now.stops }
    requires subjects { All (IsWithin plan.now) subjects.now }
    ensures { IfOk result (λ rows. rows.items
        ≡ rows_among plan.now stop (map touched_by subjects.now) active.now) }
{
    let mut rows = Vec::new(alloc);
    for one in active {
        if let Some(row) = concerned_row(alloc, plan, stop, subjects, one)? {
            rows.push(row)?;
        }
    }
    Ok(rows)
}

/// The row of the alert, where it touches the stop or one of the subjects; or want of memory.
fn concerned_row(
    alloc: Global,
    plan: &Plan,
    stop: u32,
    subjects: &[Subject<'_>],
    active: &ActiveAlert<'_>,
) -> Result<Option<AlertRow>, NoMemory>
    requires stop { stop < length plan.now.stops }
    requires subjects { All (IsWithin plan.now) subjects.now }
    ensures { IfOk result (λ row. row
        ≡ row_if plan.now stop (map touched_by subjects.now) active.now) }
{
    let stamp = active.held().stored().stamp;
    if !concerns(plan, active.alert(), stamp, stop, subjects) {
        return Ok(None);
    }
    let row = row_of(alloc, active)?;
    Ok(Some(row))
}
