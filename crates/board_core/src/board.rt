//! The rows of a board, and what they are about.

ghost use Rattle.std.specs.Prelude.{◌≡◌, ◌<◌, ◌≤◌, ◌++◌, Some, List, length, map, take, IfOk};
ghost use Rattle.std.specs.List.{All};
ghost use Rattle.text_defs.specs.Moments.{last_moment};
ghost use Rattle.feed_defs.specs.declared.history.Entry.{Entry};
ghost use Rattle.order.specs.Order.{ordered};
ghost use Rattle.board_defs.specs.Choice.{updates_at};
ghost use Rattle.board_defs.specs.Fold.{fold_of};
ghost use Rattle.board_defs.specs.Rows.{BoardRow, row_cmp, board_at, timetable_in};
ghost use Rattle.board_defs.specs.Views.{StandsFor, folds_of};
ghost use Rattle.run_departures.specs.Departures.{as_row, IsThere};
ghost use Rattle.board_parts.specs.Appended.{Become};
ghost use Rattle.board_added.specs.Added as others;
ghost use Rattle.board_core.specs.Answers.{IsAnswer, AreAbout, AreSubjects};
ghost use Rattle.board_core.specs.Lines.{line_row, IsInPlan};

use crate::added::added_updates;
use crate::feeds::{feeds_of, live_feeds};
use crate::line::{Line, first_runs, push_added, rows_of, subjects_of};
use crate::sorting::first_lines;
use crate::{HubView, NoMemory, RowsFault};
use alert_select::Subject;
use board_added::{AddedRow, added_rows};
use board_defs::{BoardQuery, Row};
use run_departures::{Asked, RunDepartures, departures};
use sched_types::Plan;
use std::alloc::Global;

/// The first lines of a board, of departures of runs, which are in order, and of rows of added
/// trips; or out of memory.
fn first_of_both<'a>(
    alloc: Global,
    plan: &Plan,
    runs: RunDepartures<'_>,
    added: &[AddedRow<'a>],
    limit: u32,
) -> Result<Vec<Line<'a>>, NoMemory>
    requires runs { All (IsThere plan.now) runs }
    requires added { All (others.IsThere plan.now) added.now }
    ensures { IfOk result (λ first. (rows : List BoardRow)
        → map (as_row plan.now) runs.entry ≡ ordered row_cmp rows
        → Become (line_row plan.now) (IsInPlan plan.now) first.items
        (take limit (ordered row_cmp (rows ++ map (others.as_row plan.now) added.entry.now)))) }
{
    plan.sound();
    // No more than these can be among the first of both.
    let mut lines = first_runs(alloc, runs, limit)?;
    if added.is_empty() {
        return Ok(lines);
    }
    push_added(&mut lines, added)?;
    first_lines(alloc, plan, lines, limit)
}

/// The lines at the stop of that number; or out of memory.
fn lines_at<'a>(
    alloc: Global,
    view: &'a HubView,
    plan: &Plan,
    query: &BoardQuery,
    stop: u32,
) -> Result<Vec<Line<'a>>, NoMemory>
    requires plan { timetable_in view.now.plans query.now.plan ≡ Some plan.now }
    requires schedule { query.now.plan < length view.now.plans.plans }
    requires stop { stop < length plan.now.stops }
    requires moment { query.now.at ≤ last_moment }
    ensures { IfOk result (λ first. Become (line_row plan.now) (IsInPlan plan.now) first.items
        (board_at plan.now stop
        (updates_at query.now.plan query.now.at view.entry.now.plans.feeds
        (folds_of view.entry.now))
        query.now)) }
{
    let feeds = feeds_of(alloc, view, query.plan)?;
    let live = live_feeds(alloc, feeds.as_slice())?;
    let updates = added_updates(alloc, plan, query.at, feeds.as_slice())?;
    let added = added_rows(alloc, plan, query, stop, updates.as_slice())?;
    let asked = Asked {
        stop,
        at: query.at,
        span: query.span,
    };
    let index = view.index(query.plan);
    let runs = departures(alloc, plan, index, live.as_slice(), asked)?;
    first_of_both(alloc, plan, runs, added.as_slice(), query.limit)
}

/// The rows at the stop of that number; or out of memory.
fn rows_at(
    alloc: Global,
    view: &HubView,
    plan: &Plan,
    query: &BoardQuery,
    stop: u32,
) -> Result<Vec<Row>, NoMemory>
    requires plan { timetable_in view.now.plans query.now.plan ≡ Some plan.now }
    requires schedule { query.now.plan < length view.now.plans.plans }
    requires stop { stop < length plan.now.stops }
    requires moment { query.now.at ≤ last_moment }
    ensures { IfOk result (λ rows. rows.items
        ≡ map (λ b. b.row)
        (board_at plan.now stop
        (updates_at query.now.plan query.now.at view.now.plans.feeds (folds_of view.now))
        query.now)) }
{
    let first = lines_at(alloc, view, plan, query, stop)?;
    rows_of(alloc, plan, first.as_slice())
}

/// What the rows at the stop of that number are about; or out of memory.
fn subjects_at<'a>(
    alloc: Global,
    view: &'a HubView,
    plan: &Plan,
    query: &BoardQuery,
    stop: u32,
) -> Result<Vec<Subject<'a>>, NoMemory>
    requires plan { timetable_in view.now.plans query.now.plan ≡ Some plan.now }
    requires schedule { query.now.plan < length view.now.plans.plans }
    requires stop { stop < length plan.now.stops }
    requires moment { query.now.at ≤ last_moment }
    ensures { IfOk result (λ subjects. AreAbout plan.now
        (board_at plan.now stop
        (updates_at query.now.plan query.now.at view.entry.now.plans.feeds
        (folds_of view.entry.now))
        query.now) subjects.items) }
{
    let first = lines_at(alloc, view, plan, query, stop)?;
    subjects_of(alloc, first.as_slice())
}

/// The rows of the asked board, of what the hub's feeds hold: the places, but the last of a trip,
/// at which passengers may board at the stop or at a stop that names it as `parent_station`, of all
/// runs of the timetable, and the calls there, but the last of a trip, of added trips, by the
/// expected instant, the trip_id, the date, runs before added trips, and the place. A place is at
/// the stop that its run's update assigns to it, and else at that of the timetable.
///
/// Departures come one after another, out of the index of the timetable and the overlays of the
/// feeds, and no more than the limit are taken: so a board costs the rows that it shows, and
/// neither its window nor the timetable. Updates of added trips are gone over all. Texts are made
/// for the rows that are shown.
pub fn rows(alloc: Global, view: &HubView, query: &BoardQuery) -> Result<Vec<Row>, RowsFault>
    requires plan { query.now.plan < length view.now.plans.plans }
    requires moment { query.now.at ≤ last_moment }
    ensures rows { IsAnswer view.now.plans (folds_of view.now) query.now result }
    ensures stands { (h : List Entry) → StandsFor h view.now
        → IsAnswer view.now.plans (fold_of (length view.now.plans.feeds) h) query.now result }
{
    let plan = view.timetable(query.plan);
    match plan.stop_of(query.stop.as_str()) {
        Some(stop) => {
            let rows = rows_at(alloc, view, plan, query, stop)?;
            Ok(rows)
        }
        None => Err(RowsFault::NoStop),
    }
}

/// What the rows of the asked board are about, in their order: the same rows that [`rows`] gives.
/// No text is made.
pub fn subjects<'a>(
    alloc: Global,
    view: &'a HubView,
    query: &BoardQuery,
) -> Result<Vec<Subject<'a>>, RowsFault>
    requires plan { query.now.plan < length view.now.plans.plans }
    requires moment { query.now.at ≤ last_moment }
    ensures subjects { AreSubjects view.now.plans (folds_of view.now) query.now result }
{
    let plan = view.timetable(query.plan);
    match plan.stop_of(query.stop.as_str()) {
        Some(stop) => {
            let subjects = subjects_at(alloc, view, plan, query, stop)?;
            Ok(subjects)
        }
        None => Err(RowsFault::NoStop),
    }
}
