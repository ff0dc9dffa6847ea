//! What a view answers.

ghost use Rattle.std.specs.Prelude.{◌≡◌, ◌<◌, ◌≤◌, ◌++◌, Some, Bool, List, length, IfOk, OnOk, OnErr};
ghost use Rattle.text_defs.specs.Moments.{last_moment};
ghost use Rattle.feed_defs.specs.declared.history.Entry.{Entry};
ghost use Rattle.board_defs.specs.Feed.{combined_feed};
ghost use Rattle.board_defs.specs.Fold.{fold_of};
ghost use Rattle.board_defs.specs.Views.{StandsFor, folds_of};
ghost use Rattle.board_text_defs.specs.Answers.{board_bytes, alert_bytes, unmatched_bytes, query_of, IsAsked};
ghost use Rattle.board_text_defs.specs.Asked.{asked_seen};
ghost use Rattle.view_answers.specs.Questions.{question_seen, schedule_of};
ghost use Rattle.view_answers.specs.Replies.{Replies, Answers, answer_in, board_in, alerts_in, status_in};

use crate::lookup::{name_of, schedule_number};
use crate::question::{is_status, schedule_of};
use crate::{NoMemory, Question};
use alert_defs::AlertRow;
use board_core::{HubView, RowsFault, rows};
use board_defs::{BoardQuery, Row};
use board_lists::{alerts, unmatched};
use board_text::{alerts_json, alerts_text, board_json, board_text, status_text, unmatched_text};
use board_text_defs::BoardAsked;
use feed_out::push_combined;
use rt_types::Text;
use std::alloc::Global;

/// Appends the answer to the question, of what the feeds of the view hold: true, or false where
/// there is no such schedule or stop. Then, and at want of memory, `out` is as it was.
pub fn answer(
    alloc: Global,
    view: &HubView,
    question: &Question<'_>,
    out: &mut Vec<u8>,
) -> Result<bool, NoMemory>
    requires { IsAsked (question_seen question.now) }
    ensures answers { Answers view.now.plans (folds_of view.now) (question_seen question.now)
        out.old.items out.new.items result }
    ensures stands { (h : List Entry) → StandsFor h view.now
        → Answers view.now.plans (fold_of (length view.now.plans.feeds) h)
        (question_seen question.now)
        out.old.items out.new.items result }
{
    if is_status(question) {
        return push_status(view, out);
    }
    match schedule_number(view.plans(), schedule_of(question)) {
        Some(plan) => answer_of(alloc, view, plan, question, out),
        None => Ok(false),
    }
}

/// The same of the schedule of that number.
fn answer_of(
    alloc: Global,
    view: &HubView,
    plan: u32,
    question: &Question<'_>,
    out: &mut Vec<u8>,
) -> Result<bool, NoMemory>
    requires plan { plan < length view.now.plans.plans }
    requires asked { IsAsked (question_seen question.now) }
    ensures { Replies
        (answer_in view.now.plans (folds_of view.now) (question_seen question.now) plan)
        out.old.items out.new.items result }
{
    match *question {
        Question::Feed { .. } => push_feed(view, plan, out),
        Question::Board(asked) => {
            let query = query_of(alloc, plan, &asked)?;
            push_board(alloc, view, &query, asked.json, out)
        }
        Question::Alerts(asked) => {
            let query = query_of(alloc, plan, &asked)?;
            push_alerts(alloc, view, &query, asked.json, out)
        }
        Question::Unmatched { .. } => push_unmatched(alloc, view, plan, out),
        Question::Status => push_status(view, out),
    }
}

/// The query of a board of the schedule of that number; or want of memory.
fn query_of(alloc: Global, plan: u32, asked: &BoardAsked<'_>) -> Result<BoardQuery, NoMemory>
    ensures { IfOk result (λ query. query ≡ query_of (asked_seen asked.now) plan) }
{
    Ok(BoardQuery {
        plan,
        stop: Text::new(alloc, asked.stop)?,
        at: asked.at,
        span: asked.span,
        limit: asked.limit,
    })
}

/// Appends the combined feed of the schedule of that number.
fn push_feed(view: &HubView, plan: u32, out: &mut Vec<u8>) -> Result<bool, NoMemory>
    requires { plan < length view.now.plans.plans }
    ensures { Replies (Some (combined_feed view.now.plans plan (folds_of view.now)))
        out.old.items out.new.items result }
{
    push_combined(view, plan, out)?;
    Ok(true)
}

/// Appends the board, as JSON or as text; false where there is no such stop.
fn push_board(
    alloc: Global,
    view: &HubView,
    query: &BoardQuery,
    json: bool,
    out: &mut Vec<u8>,
) -> Result<bool, NoMemory>
    requires plan { query.now.plan < length view.now.plans.plans }
    requires moment { query.now.at ≤ last_moment }
    ensures { Replies (board_in view.now.plans (folds_of view.now) query.now json)
        out.old.items out.new.items result }
{
    match rows(alloc, view, query) {
        Ok(rows) => {
            let stop = query.stop.as_str();
            let name = name_of(&view.plans().plans()[query.plan as usize].plan, stop);
            push_rows(stop, name, rows.as_slice(), json, out)?;
            Ok(true)
        }
        Err(RowsFault::NoStop) => Ok(false),
        Err(RowsFault::NoMemory) => Err(NoMemory),
    }
}

/// Appends the rows of the board of the stop of that id and name, as JSON or as text.
fn push_rows(
    stop: &str,
    name: &str,
    rows: &[Row],
    json: bool,
    out: &mut Vec<u8>,
) -> Result<(), NoMemory>
    ensures written { OnOk result
        (out.new.items ≡ out.old.items ++ board_bytes json stop.now name.now rows.now) }
    ensures kept { OnErr result (out.new.items ≡ out.old.items) }
{
    if json {
        board_json(stop, name, rows, out)
    } else {
        board_text(stop, name, rows, out)
    }
}

/// Appends the list of alerts, as JSON or as text; false where there is no such stop.
fn push_alerts(
    alloc: Global,
    view: &HubView,
    query: &BoardQuery,
    json: bool,
    out: &mut Vec<u8>,
) -> Result<bool, NoMemory>
    requires plan { query.now.plan < length view.now.plans.plans }
    requires moment { query.now.at ≤ last_moment }
    ensures { Replies (alerts_in view.now.plans (folds_of view.now) query.now json)
        out.old.items out.new.items result }
{
    match alerts(alloc, view, query) {
        Ok(rows) => {
            push_found(view, query.stop.as_str(), rows.as_slice(), json, out)?;
            Ok(true)
        }
        Err(RowsFault::NoStop) => Ok(false),
        Err(RowsFault::NoMemory) => Err(NoMemory),
    }
}

/// Appends the rows of alerts beside the board of the stop of that id, as JSON or as text.
fn push_found(
    view: &HubView,
    stop: &str,
    rows: &[AlertRow],
    json: bool,
    out: &mut Vec<u8>,
) -> Result<(), NoMemory>
    ensures written { OnOk result
        (out.new.items ≡ out.old.items ++ alert_bytes view.now.plans json stop.now rows.now) }
    ensures kept { OnErr result (out.new.items ≡ out.old.items) }
{
    if json {
        alerts_json(view, stop, rows, out)
    } else {
        alerts_text(view, rows, out)
    }
}

/// Appends what the schedule of that number has no run for.
fn push_unmatched(
    alloc: Global,
    view: &HubView,
    plan: u32,
    out: &mut Vec<u8>,
) -> Result<bool, NoMemory>
    requires { plan < length view.now.plans.plans }
    ensures { Replies (Some (unmatched_bytes view.now.plans (folds_of view.now) plan))
        out.old.items out.new.items result }
{
    let rows = unmatched(alloc, view, plan)?;
    unmatched_text(view, rows.as_slice(), out)?;
    Ok(true)
}

/// Appends the status of the hub.
fn push_status(view: &HubView, out: &mut Vec<u8>) -> Result<bool, NoMemory>
    ensures { Replies (Some (status_in view.now.plans (folds_of view.now)))
        out.old.items out.new.items result }
{
    status_text(view, out)?;
    Ok(true)
}
