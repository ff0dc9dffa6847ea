//! What becomes of the runs that a message touches.

ghost use Rattle.std.specs.Prelude.{◌≡◌, ◌+◌, ◌<◌, ◌≤◌, ◌++◌, length, map, IfOk, IfSome, OnOk};
ghost use Rattle.std.specs.List.{list_any};
ghost use Rattle.sched_types.specs.declared.rows.Run.{Run};
ghost use Rattle.run_overlay.specs.Changing as changing;
ghost use Rattle.run_overlay.specs.Kept.{live_run, mentions_of};
ghost use Rattle.run_overlay.specs.Sought.{AreHeld, IsHeld, is_same_run};
ghost use Rattle.run_overlay.specs.Turning as rule;
ghost use Rattle.run_overlay.specs.Updates.{updates_of};

use crate::NoMemory;
use crate::candidate::Candidate;
use crate::found::{first_candidate, update_near};
use crate::hints::Hints;
use crate::id_changes::IdChange;
use crate::live_run::LiveRun;
use crate::mention::{Mention, mention_in};
use crate::places::rows_of_run;
use copying::Copied;
use delay_rule::{Steps, StopState};
use entity_table::{Stored, Table};
use rt_types::{Items, Shared};
use sched_types::{Plan, Run};
use shared_list::SharedList;
use std::alloc::Global;
use std::marker::Brand;
use std::sync::ledger::{Blank, Ledger};

/// A run, and what it is now, if an update counts for it.
#[derive(Drop)]
pub(crate) struct Turn {
    pub(crate) run: Run,
    pub(crate) now: Option<LiveRun>,
}

/// Appends the run of a mention, if there is one.
fn push_run(mention: Option<Mention>, runs: &mut Vec<Run>) -> Result<(), NoMemory>
    ensures { OnOk result (runs.new.items ≡ runs.old.items ++ changing.run_in mention) }
{
    if let Some(mention) = mention {
        runs.push(mention.run)?;
    }
    Ok(())
}

/// The runs that updates were about before the changes and those that they are about now, id by id;
/// or out of memory.
fn all_runs(alloc: Global, ids: &[IdChange]) -> Result<Vec<Run>, NoMemory>
    ensures { IfOk result (λ runs. runs.items ≡ changing.touched_runs ids.now) }
{
    let mut runs = Vec::new(alloc);
    for one in ids {
        push_run(one.before, &mut runs)?;
        push_run(mention_in(one.after), &mut runs)?;
    }
    Ok(runs)
}

/// The same, each once; or out of memory.
pub(crate) fn touched_runs(alloc: Global, ids: &[IdChange]) -> Result<Vec<Run>, NoMemory>
    ensures all { IfOk result (λ runs. (run : Run) → list_any (is_same_run run) runs.items
        ≡ list_any (is_same_run run) (changing.touched_runs ids.now)) }
    ensures few { IfOk result (λ runs. length runs.items ≤ length (changing.touched_runs ids.now)) }
{
    let mut runs = all_runs(alloc, ids)?;
    runs.sort_unstable();
    runs.dedup();
    Ok(runs)
}

/// A run with its update that counts, where one does, which is walked then; or out of memory. The
/// candidates are those of the table, and what is at hand of it may have that update. The states of
/// the walk are written over what their list had.
fn run_now<'a, L: Ledger>(
    alloc: Global,
    plan: &Plan,
    table: &'a Table,
    candidates: &SharedList<Candidate>,
    near: Option<&'a Stored>,
    run: Run,
    states: &mut Vec<StopState>,
    steps: &mut Steps<L>,
) -> Result<Option<LiveRun>, NoMemory>
    requires candidates { candidates.now ≡ (mentions_of plan.now table.now).candidates }
    requires near { IfSome near (λ stored. IsHeld table.now stored.now) }
    ensures run { IfOk result (λ live. live ≡ live_run plan.now (updates_of table.entry.now) run) }
    ensures few { steps.new ≤ steps.old + 1 }
{
    let _all = table.iter();
    let Some(candidate) = first_candidate(candidates, run) else {
        return Ok(None);
    };
    let Some(update) = update_near(table, near, candidate.id.as_str()) else {
        return Ok(None);
    };
    let rows = rows_of_run(alloc, plan, run, update, states, steps)?;
    Ok(Some(LiveRun {
        run,
        id: candidate.id.copy()?,
        stamp: candidate.mention.stamp,
        rows: Shared::new(alloc, Items::new(rows))?,
    }))
}

/// What becomes of a run, which is walked at most once, where nobody counts the walks; or out of
/// memory. The candidates are those of the table.
pub(crate) fn turn_of(
    alloc: Global,
    plan: &Plan,
    table: &Table,
    candidates: &SharedList<Candidate>,
    run: Run,
) -> Result<Turn, NoMemory>
    requires { candidates.now ≡ (mentions_of plan.now table.now).candidates }
    ensures { IfOk result (λ turn. turn ≡ rule.turn_of plan.now (updates_of table.entry.now) run) }
{
    uncounted::<Brand>(alloc, plan, table, candidates, run, Blank::new(1))
}

/// The same, by a count of walks that nobody reads.
fn uncounted<L: Ledger>(
    alloc: Global,
    plan: &Plan,
    table: &Table,
    candidates: &SharedList<Candidate>,
    run: Run,
    blank: Blank,
) -> Result<Turn, NoMemory>
    requires candidates { candidates.now ≡ (mentions_of plan.now table.now).candidates }
    requires name { blank.name ≡ L.name }
    requires parts { blank.parts ≡ L.parts }
    requires some { 0 < blank.parts }
    ensures { IfOk result (λ turn. turn ≡ rule.turn_of plan.now (updates_of table.entry.now) run) }
{
    let mut steps = Steps::<L>::new(blank);
    let mut room = Vec::new(alloc);
    let now = run_now(
        alloc, plan, table, candidates, None, run, &mut room, &mut steps,
    )?;
    Ok(Turn { run, now })
}

/// What becomes of runs, each of which is walked at most once; or out of memory. The candidates and
/// the hints are those of the table.
pub(crate) fn turns_of<'a, L: Ledger>(
    alloc: Global,
    plan: &Plan,
    table: &'a Table,
    candidates: &SharedList<Candidate>,
    runs: &[Run],
    hints: &Hints<'a>,
    steps: &mut Steps<L>,
) -> Result<Vec<Turn>, NoMemory>
    requires candidates { candidates.now ≡ (mentions_of plan.now table.now).candidates }
    requires hints { AreHeld table.now hints.now.held.items }
    ensures turns { IfOk result (λ turns. turns.items
        ≡ map (rule.turn_of plan.now (updates_of table.entry.now)) runs.now) }
    ensures few { steps.new ≤ steps.old + length runs.now }
{
    let mut turns = Vec::with_capacity(alloc, runs.len())?;
    let mut room = Vec::new(alloc);
    for (number, run) in runs.iter().enumerate() {
        let run = *run;
        let near = hints.at(number);
        let now = run_now(alloc, plan, table, candidates, near, run, &mut room, steps)?;
        turns.push(Turn { run, now })?;
    }
    Ok(turns)
}
