//! Departures of either kind, of runs of the timetable and of added trips.

ghost use Rattle.std.specs.Prelude.{◌≡◌, ◌<◌, ◌++◌, map, take, IfOk, OnOk};
ghost use Rattle.std.specs.List.{All};
ghost use Rattle.board_core.specs.declared.line.Line.TheVariants.{Run, Added};
ghost use Rattle.board_core.specs.Lines as rule;
ghost use Rattle.board_core.specs.Lines.{line_row, subject_of, IsInPlan};

use crate::NoMemory;
use crate::row_texts::row_of_run;
use alert_select::Subject;
use board_added::{AddedRow, row_text};
use board_defs::Row;
use rt_types::Text;
use run_departures::{Departure, RunDepartures};
use sched_types::Plan;
use std::alloc::Global;

/// A departure of either kind.
#[derive(Clone, Copy)]
pub(crate) enum Line<'a> {
    /// Of a run of the timetable.
    Run(Departure),
    /// Of an added trip.
    Added(AddedRow<'a>),
}

/// When it is expected to leave, in seconds since 1970.
pub(crate) fn expected_of(line: &Line<'_>) -> i64
    ensures { result ≡ rule.expected_of line.now }
{
    match line {
        Line::Run(departure) => departure.expected,
        Line::Added(row) => row.expected,
    }
}

/// The id of its trip; empty past the last trip of the timetable.
pub(crate) fn trip_of<'b>(plan: &'b Plan, line: &'b Line<'_>) -> &'b str
    ensures { result.now ≡ rule.trip_of plan.now line.now }
{
    match line {
        Line::Run(departure) => {
            if departure.run.trip < plan.trips() {
                plan.trip(departure.run.trip).id.as_str()
            } else {
                ""
            }
        }
        Line::Added(row) => row.key.trip,
    }
}

/// The text of its date, of the texts of the timetable's dates; empty past the last day.
pub(crate) fn date_of<'b>(dates: &'b [Text], line: &'b Line<'_>) -> &'b str
    ensures { result.now ≡ rule.date_of dates.now line.now }
{
    match line {
        Line::Run(departure) => match dates.get(departure.run.day as usize) {
            Some(date) => date.as_str(),
            None => "",
        },
        Line::Added(row) => row.key.date,
    }
}

/// Whether it is of an added trip.
pub(crate) fn is_added(line: &Line<'_>) -> bool
    ensures { result ≡ rule.is_added_line line.now }
{
    matches!(line, Line::Added(_))
}

/// The number of its place.
pub(crate) fn place_of(line: &Line<'_>) -> usize
    ensures { result ≡ rule.place_of line.now }
{
    match line {
        Line::Run(departure) => departure.place as usize,
        Line::Added(row) => row.place,
    }
}

/// The first so many departures of runs, as lines; or out of memory.
pub(crate) fn first_runs<'a>(
    alloc: Global,
    runs: RunDepartures<'_>,
    limit: u32,
) -> Result<Vec<Line<'a>>, NoMemory>
    ensures { IfOk result (λ lines. lines.items ≡ map Run (take limit runs.entry)) }
{
    let mut runs = runs;
    let mut lines = Vec::new(alloc);
    for _ in 0..limit {
        match runs.next() {
            Some(departure) => lines.push(Line::Run(departure))?,
            None => return Ok(lines),
        }
    }
    Ok(lines)
}

/// Appends those of added trips.
pub(crate) fn push_added<'a>(
    lines: &mut Vec<Line<'a>>,
    added: &[AddedRow<'a>],
) -> Result<(), NoMemory>
    ensures { OnOk result (lines.new.items ≡ lines.old.items ++ map Added added.entry.now) }
{
    for row in added {
        lines.push(Line::Added(*row))?;
    }
    Ok(())
}

/// The row of a line; or want of memory.
fn row(alloc: Global, plan: &Plan, line: &Line<'_>) -> Result<Row, NoMemory>
    requires { IsInPlan plan.now line.now }
    ensures { IfOk result (λ row. row ≡ (line_row plan.now line.now).row) }
{
    match line {
        Line::Run(departure) => row_of_run(alloc, plan, *departure),
        Line::Added(added) => row_text(alloc, plan, added),
    }
}

/// The rows of some lines, in their order; or want of memory.
pub(crate) fn rows_of(alloc: Global, plan: &Plan, lines: &[Line<'_>]) -> Result<Vec<Row>, NoMemory>
    requires { All (IsInPlan plan.now) lines.now }
    ensures { IfOk result (λ rows. rows.items ≡ map (λ l. (line_row plan.now l).row) lines.now) }
{
    let mut rows = Vec::with_capacity(alloc, lines.len())?;
    for line in lines {
        rows.push(row(alloc, plan, line)?)?;
    }
    Ok(rows)
}

/// What a line is about.
fn subject<'a>(line: &Line<'a>) -> Subject<'a>
    ensures { result ≡ subject_of line.entry.now }
{
    match *line {
        Line::Run(departure) => Subject::Row(departure.run, departure.stop),
        Line::Added(row) => Subject::AddedRow(row.key, row.stop),
    }
}

/// What some lines are about, in their order; or want of memory.
pub(crate) fn subjects_of<'a>(
    alloc: Global,
    lines: &[Line<'a>],
) -> Result<Vec<Subject<'a>>, NoMemory>
    ensures { IfOk result (λ subjects. subjects.items ≡ map subject_of lines.entry.now) }
{
    let mut subjects = Vec::with_capacity(alloc, lines.len())?;
    for line in lines {
        subjects.push(subject(line))?;
    }
    Ok(subjects)
}
