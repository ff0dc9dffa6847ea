//! The rows of the added trips, by the updates that count.

ghost use Rattle.std.specs.Prelude.{◌≡◌, ◌<◌, ◌≤◌, ◌++◌, filter, length, IfOk, OnOk, IfSome};
ghost use Rattle.std.specs.List.{All, flat_map};
ghost use Rattle.std.specs.List.Sorted.{IsSorted};
ghost use Rattle.std.specs.Option.{option_to_list};
ghost use Rattle.text_defs.specs.Moments.{last_moment};
ghost use Rattle.board_defs.specs.Choice.{not_outdone};
ghost use Rattle.board_defs.specs.Rows.{is_within, departing_calls, added_trip_rows};
ghost use Rattle.board_parts.specs.Appended.{Become, Adds};
ghost use Rattle.board_added.specs.Added.{full_cmp, as_row, rows_by, rows_of, rows_unless, IsCall, IsThere};

use crate::NoMemory;
use crate::calls::calls_of;
use crate::choice::{in_order, is_outdone};
use crate::row::{AddedRow, key_of, row_at};
use alert_select::AddedKey;
use board_defs::{BoardQuery, Call};
use board_parts::Update;
use rt_types::TripUpdate;
use sched_types::Plan;
use std::alloc::Global;

/// Appends a row, if there is one.
fn push_some<'a>(out: &mut Vec<AddedRow<'a>>, row: Option<AddedRow<'a>>) -> Result<(), NoMemory>
    ensures { OnOk result (out.new.items ≡ out.old.items ++ option_to_list row.entry) }
{
    if let Some(row) = row {
        out.push(row)?;
    }
    Ok(())
}

/// Appends the rows of the board of a trip with those calls.
fn push_calls<'a>(
    plan: &Plan,
    query: &BoardQuery,
    stop: u32,
    key: AddedKey<'a>,
    calls: &[Call],
    out: &mut Vec<AddedRow<'a>>,
) -> Result<(), NoMemory>
    requires calls { All (IsCall plan.now) calls.now }
    requires route { IfSome key.route (λ route. route < length plan.now.routes) }
    requires moment { query.now.at ≤ last_moment }
    ensures { OnOk result
        (Adds (as_row plan.now) (IsThere plan.now) out.old.items out.new.items
        (rows_by plan.now query.now stop key.entry.trip.now key.entry.date.now key.entry.route
        (departing_calls calls.now))) }
{
    // Nobody boards at the last call.
    let calls = &calls[..calls.len().saturating_sub(1)];
    for (i, call) in calls.iter().enumerate() {
        push_some(out, row_at(plan, query, stop, key, i, *call))?;
    }
    Ok(())
}

/// Appends the rows of the board of an added trip, by the update that counts for it.
fn push_trip<'a>(
    alloc: Global,
    plan: &Plan,
    query: &BoardQuery,
    stop: u32,
    update: &'a TripUpdate,
    out: &mut Vec<AddedRow<'a>>,
) -> Result<(), NoMemory>
    requires { query.now.at ≤ last_moment }
    ensures { OnOk result
        (Adds (as_row plan.now) (IsThere plan.now) out.old.items out.new.items
        (rows_of plan.now query.now stop update.entry.now)) }
{
    let calls = calls_of(alloc, plan, update)?;
    let key = key_of(plan, &update.trip);
    push_calls(plan, query, stop, key, calls.as_slice(), out)
}

/// Appends them where the update counts, of updates in order.
fn push_unless<'a>(
    alloc: Global,
    plan: &Plan,
    query: &BoardQuery,
    stop: u32,
    sorted: &[Update<'a>],
    update: &Update<'a>,
    out: &mut Vec<AddedRow<'a>>,
) -> Result<(), NoMemory>
    requires sorted { IsSorted full_cmp sorted.now }
    requires moment { query.now.at ≤ last_moment }
    ensures { OnOk result
        (Adds (as_row plan.now) (IsThere plan.now) out.old.items out.new.items
        (rows_unless plan.now query.now stop sorted.entry.now update.entry.now)) }
{
    if is_outdone(sorted, update) {
        return Ok(());
    }
    push_trip(alloc, plan, query, stop, update.trip_update(), out)
}

/// The rows of added trips on the board of a stop, by its number, of the updates of added trips, in
/// their order: for each added trip those of the update that counts. The texts are those of the
/// updates; or want of memory.
pub fn added_rows<'a>(
    alloc: Global,
    plan: &Plan,
    query: &BoardQuery,
    stop: u32,
    added: &[Update<'a>],
) -> Result<Vec<AddedRow<'a>>, NoMemory>
    requires { query.now.at ≤ last_moment }
    ensures { IfOk result (λ rows. Become (as_row plan.now) (IsThere plan.now) rows.items
        (filter (is_within query.now.at query.now.span)
        (flat_map (added_trip_rows plan.now stop) (not_outdone added.entry.now)))) }
{
    let sorted = in_order(alloc, added)?;
    let mut rows = Vec::new(alloc);
    for update in added {
        push_unless(
            alloc,
            plan,
            query,
            stop,
            sorted.as_slice(),
            update,
            &mut rows,
        )?;
    }
    Ok(rows)
}
