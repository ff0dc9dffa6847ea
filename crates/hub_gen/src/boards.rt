//! The boards that a sample is asked for.

ghost use Rattle.std.specs.Prelude.{◌≡◌, ◌<◌, length, IfOk};
ghost use Rattle.board_defs.specs.Views.{folds_of};
ghost use Rattle.hub_gen_defs.specs.Run.{board_rows, delays_of, query_at, rows_at, sum_with};

use crate::NoMemory;
use board_core::{BoardQuery, HubView, Row, RowsFault, rows};
use rt_types::Text;
use std::alloc::Global;

/// How many stops have a board.
const BOARDS: u32 = 10;

/// The moment of the boards: the first day's noon.
const NOON: u64 = 1_735_732_800;

/// The rows of all boards, in the order of the stops.
pub(crate) fn board_rows(alloc: Global, view: &HubView) -> Result<Vec<Row>, NoMemory>
    requires { 0 < length view.now.plans.plans }
    ensures { IfOk result (λ all. all.items ≡ board_rows view.now.plans (folds_of view.now)) }
{
    let mut all = Vec::new(alloc);
    for stop in 0..BOARDS {
        let mut more = rows_at(alloc, view, stop)?;
        all.append(&mut more)?;
    }
    Ok(all)
}

/// The rows of the board of a stop; none where there is no such stop.
fn rows_at(alloc: Global, view: &HubView, stop: u32) -> Result<Vec<Row>, NoMemory>
    requires { 0 < length view.now.plans.plans }
    ensures { IfOk result (λ found. found.items ≡ rows_at view.now.plans (folds_of view.now) stop) }
{
    let query = query_at(alloc, stop)?;
    match rows(alloc, view, &query) {
        Ok(found) => Ok(found),
        Err(RowsFault::NoStop) => Ok(Vec::new(alloc)),
        Err(RowsFault::NoMemory) => Err(NoMemory),
    }
}

/// What is asked for at a stop.
fn query_at(alloc: Global, stop: u32) -> Result<BoardQuery, NoMemory>
    ensures { IfOk result (λ query. query ≡ query_at stop) }
{
    let id = format!(in alloc; "S{stop}")?;
    Ok(BoardQuery {
        plan: 0,
        stop: Text::new(alloc, id.as_str())?,
        at: NOON,
        span: 3600,
        limit: 50,
    })
}

/// The sum of the delays that are known, in seconds; a sum past the numbers of 64 bits is told as
/// want of memory.
pub(crate) fn delays_of(all: &[Row]) -> Result<i64, NoMemory>
    ensures { IfOk result (λ sum. sum ≡ delays_of all.now) }
{
    let mut sum = 0i64;
    for row in all {
        sum = sum_with(sum, row)?;
    }
    Ok(sum)
}

/// The sum with the delay of one row more.
fn sum_with(sum: i64, row: &Row) -> Result<i64, NoMemory>
    ensures { IfOk result (λ more. more ≡ sum_with sum row.now) }
{
    match sum.checked_add(row.delay.unwrap_or(0)) {
        Some(more) => Ok(more),
        None => Err(NoMemory),
    }
}
