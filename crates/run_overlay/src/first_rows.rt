//! The departures of runs, where there were none before.

ghost use Rattle.std.specs.Prelude.{◌≡◌, IfOk};
ghost use Rattle.std.specs.List.{flat_map};
ghost use Rattle.keyed_lists.specs.Keyed.{by_key};
ghost use Rattle.run_overlay.specs.Keys.{row_cmp, row_key};
ghost use Rattle.run_overlay.specs.Turning.{rows_now};

use crate::NoMemory;
use crate::live_run::rows_of;
use crate::row::LiveRow;
use crate::turns::Turn;
use keyed_lists::listed_by_rank;
use shared_list::SharedList;
use std::alloc::Global;

/// The expected instants of some departures, from the earliest to the latest.
#[derive(Clone, Copy, Debug)]
struct Instants {
    earliest: i64,
    latest: i64,
}

/// Those of these departures.
fn instants_of(rows: &[LiveRow]) -> Instants {
    let mut earliest = i64::MAX;
    let mut latest = i64::MIN;
    for row in rows {
        earliest = earliest.min(row.slot.at);
        latest = latest.max(row.slot.at);
    }
    Instants { earliest, latest }
}

/// A number by which departures are sorted: it rises with the stop, and then with the instant, as
/// long as it stays within 64 bits. Departures with one number are those of one instant at one
/// stop.
fn rank(row: &LiveRow, instants: Instants) -> u64 {
    let span = instants
        .latest
        .abs_diff(instants.earliest)
        .saturating_add(1);
    let after = row.slot.at.abs_diff(instants.earliest);
    (row.stop as u64).wrapping_mul(span).wrapping_add(after)
}

/// The numbers of departures; or out of memory.
fn ranks_of(alloc: Global, rows: &[LiveRow]) -> Result<Vec<u64>, NoMemory> {
    let instants = instants_of(rows);
    let mut ranks = Vec::with_capacity(alloc, rows.len())?;
    for row in rows {
        ranks.push(rank(row, instants))?;
    }
    Ok(ranks)
}

/// How many departures there are to make room for.
fn count_of(turns: &[Turn]) -> usize {
    let mut count: usize = 0;
    for turn in turns {
        count = count.saturating_add(rows_of(turn.now.as_ref()).len());
    }
    count
}

/// The departures that runs have now, run by run; or out of memory.
fn rows_now(alloc: Global, turns: &[Turn]) -> Result<Vec<LiveRow>, NoMemory>
    ensures { IfOk result (λ rows. rows.items ≡ flat_map rows_now turns.now) }
{
    let mut rows = Vec::with_capacity(alloc, count_of(turns))?;
    for turn in turns {
        rows.extend_from_slice(rows_of(turn.now.as_ref()))?;
    }
    Ok(rows)
}

/// The list of the departures that runs have now; or out of memory. Runs that rise, as they do,
/// have theirs in order of trip, day and place: so the numbers that they are sorted by need not
/// tell these.
pub(crate) fn first_rows(alloc: Global, turns: &[Turn]) -> Result<SharedList<LiveRow>, NoMemory>
    ensures { IfOk result (λ rows. rows ≡ by_key row_cmp row_key (flat_map rows_now turns.now)) }
{
    let rows = rows_now(alloc, turns)?;
    let ranks = ranks_of(alloc, rows.as_slice())?;
    listed_by_rank(rows, ranks)
}
