//! Updates matched, and runs walked, on several threads.

ghost use Rattle.std.specs.Prelude.{◌≡◌, map, IfOk};
ghost use Rattle.run_overlay.specs.Changing.{id_change_new};
ghost use Rattle.run_overlay.specs.Kept.{mentions_of};
ghost use Rattle.run_overlay.specs.Turning as rule;
ghost use Rattle.run_overlay.specs.Updates.{updates_of};

use crate::NoMemory;
use crate::candidate::Candidate;
use crate::hints::held_in;
use crate::id_changes::{IdChange, change_of_stored};
use crate::turns::{Turn, turn_of};
use entity_table::{Stored, Table};
use rayon::prelude::*;
use sched_types::{Plan, Run};
use shared_list::SharedList;
use std::alloc::Global;
use std::thread::Threads;

/// How few entities, or runs, a thread is given. To start one costs as much as some ten of them.
const LEAST_PIECE: usize = 256;

/// What becomes of all ids of a table, where there was nothing before; or out of memory.
pub(crate) fn changes_on(
    rt: &(impl Threads + Sync),
    alloc: Global,
    plan: &Plan,
    table: &Table,
) -> Result<Vec<IdChange>, NoMemory>
    ensures { IfOk result (λ ids. ids.items
        ≡ map (λ change. id_change_new plan.now change.1) table.now) }
{
    let held = held_in(alloc, table)?;
    let ids = held
        .as_slice()
        .par_iter()
        .with_min_len(LEAST_PIECE)
        .map(
            |stored: &&Stored| -> Result<IdChange, NoMemory>
                ensures { IfOk result (λ one. one ≡ id_change_new plan.entry.now stored.now.now) }
            { change_of_stored(plan, stored, None) },
        )
        .collect::<Result<Vec<IdChange>, NoMemory>>(rt, alloc)?;
    ids
}

/// What becomes of runs, each of which is walked at most once; or out of memory. The candidates are
/// those of the table.
pub(crate) fn turns_on(
    rt: &(impl Threads + Sync),
    alloc: Global,
    plan: &Plan,
    table: &Table,
    candidates: &SharedList<Candidate>,
    runs: &[Run],
) -> Result<Vec<Turn>, NoMemory>
    requires candidates { candidates.now ≡ (mentions_of plan.now table.now).candidates }
    ensures { IfOk result (λ turns. turns.items
        ≡ map (rule.turn_of plan.now (updates_of table.entry.now)) runs.now) }
{
    let turns = runs
        .par_iter()
        .with_min_len(LEAST_PIECE)
        .map(
            |run: &Run| -> Result<Turn, NoMemory>
                requires { candidates.now ≡ (mentions_of plan.now table.now).candidates }
                ensures { IfOk result (λ turn. turn
                    ≡ rule.turn_of plan.entry.now (updates_of table.entry.now) run.now) }
            { turn_of(alloc, plan, table, candidates, *run) },
        )
        .collect::<Result<Vec<Turn>, NoMemory>>(rt, alloc)?;
    turns
}
