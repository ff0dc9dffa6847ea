//! The texts of rows of added trips.

ghost use Rattle.std.specs.Prelude.{◌≡◌, ◌<◌, length, slice_get, IfOk, IfSome};
ghost use Rattle.std.specs.Option.{option_and_then};
ghost use Rattle.board_defs.specs.Rows as rule;
ghost use Rattle.board_added.specs.Added.{as_row, IsThere};

use crate::NoMemory;
use crate::row::AddedRow;
use board_defs::{Row, RowState};
use board_parts::{route_name, stop_id};
use rt_types::Text;
use sched_types::Plan;
use std::alloc::Global;

/// The name of an added trip's route; empty where it has none.
fn name_of(plan: &Plan, route: Option<u32>) -> &str
    requires { IfSome route (λ route. route < length plan.now.routes) }
    ensures { result.now
        ≡ rule.route_name (option_and_then (slice_get plan.now.routes) route) }
{
    match route {
        Some(route) => route_name(plan.route(route)),
        None => "",
    }
}

/// The row of an added trip, with its texts; or want of memory.
pub fn row_text(alloc: Global, plan: &Plan, row: &AddedRow<'_>) -> Result<Row, NoMemory>
    requires { IsThere plan.now row.now }
    ensures { IfOk result (λ text. text ≡ (as_row plan.now row.now).row) }
{
    Ok(Row {
        expected: row.expected,
        scheduled: None,
        delay: None,
        state: RowState::Added,
        route: Text::new(alloc, name_of(plan, row.key.route))?,
        headsign: Text::new(alloc, "")?,
        trip: Text::new(alloc, row.key.trip)?,
        date: Text::new(alloc, row.key.date)?,
        platform: Text::new(alloc, stop_id(plan, row.stop))?,
    })
}
