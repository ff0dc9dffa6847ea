//! The lists of runs for which an update counts, and of their departures.

ghost use Rattle.std.specs.Prelude.{◌≡◌, ◌++◌, drop, map, IfOk, OnOk};
ghost use Rattle.std.specs.List.{flat_map};
ghost use Rattle.std.specs.Option.{option_copied};
ghost use Rattle.shared_list.specs.declared.change.Change.TheVariants.{Put, Remove};
ghost use Rattle.keyed_lists.specs.Keyed as keyed;
ghost use Rattle.keyed_lists.specs.Keyed.{naming_keys};
ghost use Rattle.run_overlay.specs.Keys.{row_cmp, row_key};
ghost use Rattle.run_overlay.specs.Kept.{nothing_live};
ghost use Rattle.run_overlay.specs.Sought.{row_at};
ghost use Rattle.run_overlay.specs.Turning as rule;
ghost use Rattle.run_overlay.specs.Turning.{live_turned, same_row};

use crate::NoMemory;
use crate::first_rows::first_rows;
use crate::live_run::{LiveRun, rows_of};
use crate::row::{LiveRow, is_same};
use crate::turns::Turn;
use keyed_lists::changed;
use sched_types::Run;
use shared_list::{Change, SharedList};
use std::alloc::Global;
use std::marker::Model;

/// The runs for which an update counts, and their departures. A contract sees it as `LiveKept`.
#[derive(Drop)]
pub(crate) struct LiveLists {
    runs: SharedList<LiveRun>,
    rows: SharedList<LiveRow>,
}

impl Model for LiveLists {
    ghost use Rattle.run_overlay.specs.Kept.{LiveKept};

    ghost Value = { LiveKept };

    ghost view = { λ lists. record { runs = lists.runs; rows = lists.rows } };
}

impl LiveLists {
    /// The lists of a feed that holds nothing. They take no memory.
    pub(crate) fn empty(alloc: Global) -> LiveLists
        ensures { result ≡ nothing_live }
    {
        LiveLists {
            runs: SharedList::empty(alloc),
            rows: SharedList::empty(alloc),
        }
    }

    /// The lists after turns; or out of memory. Each list is changed once, and these stay as they
    /// are.
    pub(crate) fn after(&self, alloc: Global, turns: Vec<Turn>) -> Result<LiveLists, NoMemory>
        ensures { IfOk result (λ next. next ≡ live_turned turns.items self.now) }
    {
        let rows = rows_after(alloc, &self.runs, &self.rows, turns.as_slice())?;
        let runs = changed(&self.runs, run_changes(alloc, turns)?)?;
        Ok(LiveLists { runs, rows })
    }

    /// The runs for which an update counts.
    pub(crate) fn runs(&self) -> &SharedList<LiveRun>
        ensures { result.now ≡ self.now.runs }
    {
        &self.runs
    }

    /// Their departures, by stop and expected instant.
    pub(crate) fn rows(&self) -> &SharedList<LiveRow>
        ensures { result.now ≡ self.now.rows }
    {
        &self.rows
    }
}

/// Whether a departure is the same as the one at that place of others.
fn stands_at(row: &LiveRow, others: &[LiveRow], place: usize) -> bool
    ensures { result ≡ keyed.stands_first same_row row.now (drop place others.now) }
{
    match others.get(place) {
        Some(other) => is_same(row, other),
        None => false,
    }
}

/// Appends the removal of those departures that are not the same at their places among others.
fn push_going<'a>(
    rows: &'a [LiveRow],
    others: &[LiveRow],
    out: &mut Vec<Change<LiveRow, &'a LiveRow>>,
) -> Result<(), NoMemory>
    ensures { OnOk result (naming_keys row_at out.new.items
        ≡ naming_keys row_at out.old.items
        ++ map (λ row. Remove (row_key row)) (keyed.unlike same_row rows.entry.now others.now)) }
{
    for (place, row) in rows.iter().enumerate() {
        if !stands_at(row, others, place) {
            out.push(Change::Remove(row))?;
        }
    }
    Ok(())
}

/// Appends those departures that come, which are not the same at their places among others.
fn push_coming<'a>(
    rows: &[LiveRow],
    others: &[LiveRow],
    out: &mut Vec<Change<LiveRow, &'a LiveRow>>,
) -> Result<(), NoMemory>
    ensures { OnOk result (naming_keys row_at out.new.items
        ≡ naming_keys row_at out.old.items
        ++ map Put (keyed.unlike same_row rows.now others.now)) }
{
    for (place, row) in rows.iter().enumerate() {
        if !stands_at(row, others, place) {
            out.push(Change::Put(*row))?;
        }
    }
    Ok(())
}

/// Appends what a turn changes of the departures: those that the run had go, and then those come
/// that it has now. One that stays as it was is left out of both.
fn push_turn<'a>(
    runs: &'a SharedList<LiveRun>,
    turn: &Turn,
    out: &mut Vec<Change<LiveRow, &'a LiveRow>>,
) -> Result<(), NoMemory>
    ensures { OnOk result (naming_keys row_at out.new.items
        ≡ naming_keys row_at out.old.items ++ rule.row_changes runs.entry.now turn.entry.now) }
{
    let before = rows_of(runs.get(turn.run));
    let now = rows_of(turn.now.as_ref());
    push_going(before, now, out)?;
    push_coming(now, before, out)
}

/// What turns change of the departures; or out of memory.
fn row_changes<'a>(
    alloc: Global,
    runs: &'a SharedList<LiveRun>,
    turns: &[Turn],
) -> Result<Vec<Change<LiveRow, &'a LiveRow>>, NoMemory>
    ensures { IfOk result (λ changes. naming_keys row_at changes.items
        ≡ flat_map (rule.row_changes runs.entry.now) turns.now) }
{
    let mut changes = Vec::new(alloc);
    for turn in turns {
        push_turn(runs, turn, &mut changes)?;
    }
    Ok(changes)
}

/// The departures after turns; or out of memory. Where there was no run before, they are sorted at
/// once.
fn rows_after(
    alloc: Global,
    runs: &SharedList<LiveRun>,
    rows: &SharedList<LiveRow>,
    turns: &[Turn],
) -> Result<SharedList<LiveRow>, NoMemory>
    ensures { IfOk result (λ next. next ≡ keyed.changed row_cmp row_key rows.now
        (flat_map (rule.row_changes runs.now) turns.now)) }
{
    if runs.len() == 0 && rows.len() == 0 {
        return first_rows(alloc, turns);
    }
    changed(rows, row_changes(alloc, runs, turns)?)
}

/// What a turn changes of the runs.
fn run_change(turn: Turn) -> Change<LiveRun, Run>
    ensures { result ≡ rule.run_change turn }
{
    match turn.now {
        Some(live) => Change::Put(live),
        None => Change::Remove(turn.run),
    }
}

/// What turns change of the runs; or out of memory.
fn run_changes(alloc: Global, turns: Vec<Turn>) -> Result<Vec<Change<LiveRun, Run>>, NoMemory>
    ensures { IfOk result (λ changes. changes.items ≡ map rule.run_change turns.items) }
{
    let mut changes = Vec::with_capacity(alloc, turns.len())?;
    for turn in turns {
        changes.push(run_change(turn))?;
    }
    Ok(changes)
}
