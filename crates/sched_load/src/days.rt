//! The days of a window on which services are active.

ghost use Rattle.std.specs.Prelude.{◌≡◌, ◌≤◌, ℕ, IsTrue, IfOk, IfSome, Some, OnOk, length, map, slice_get, zip, filter, option_copied, [], ◌∷◌, ◌++◌, ◌+◌, ◌<◌, if◌then◌else◌};
ghost use Rattle.std.specs.List.{range_with_len};
ghost use Rattle.text_defs.specs.Dates.{date_plus, day_number, is_day};
ghost use Rattle.sched_load_defs.specs.Services.{flags_of, is_active_by};
ghost use Rattle.gtfs_rows.specs.declared.rows.CalendarRow.{CalendarRow};
ghost use Rattle.service_day.specs.Zone.{base_of};
ghost use Rattle.sched_types.specs.Timetable.{IsSmall};
ghost use Rattle.sched_load.specs.Days.{EachSmall, Flagged, active_by, runs_by};
ghost use Rattle.sched_load.specs.Listed.{entries_of};
ghost use Rattle.std.specs.FinMap.Entries.{find};
ghost use Rattle.std.specs.Ordering.{nat_cmp};

use gtfs_rows::CalendarRow;
use row_tables::Table;
use sched_types::PlanName;
use service_day::{Exception, Zone, active, base};
use std::alloc::{AllocError, Global};
use std::collections::BTreeMap;
use texts::day_after;

/// The weekdays on which a service runs, one bit each, Monday's the lowest.
fn flags_of(row: &CalendarRow) -> u8
    requires { flags_of row.now ≤ 127 }
    ensures { result ≡ flags_of row.now }
{
    let week = row.monday
        + 2 * row.tuesday
        + 4 * row.wednesday
        + 8 * row.thursday
        + 16 * row.friday
        + 32 * row.saturday
        + 64 * row.sunday;
    week as u8
}

/// Whether a service without an exception for the date runs on it.
fn runs_weekly(row: Option<&CalendarRow>, date: u32) -> bool
    requires valid { IsTrue (is_day date) }
    requires flags { Flagged (option_copied row) }
    ensures { result ≡ is_active_by (option_copied row.entry) [] date }
{
    match row {
        Some(row) => active(flags_of(row), row.start_date, row.end_date, &[], date),
        None => active(0, 0, 0, &[], date),
    }
}

/// Whether a service runs on the date, for which an exception may stand.
fn runs_on(row: Option<&CalendarRow>, exception: Option<Exception>, date: u32) -> bool
    requires valid { IsTrue (is_day date) }
    requires flags { Flagged (option_copied row) }
    ensures { result ≡ runs_by (option_copied row.entry) exception date }
{
    match exception {
        Some(exception) => exception.kind == 1,
        None => runs_weekly(row, date),
    }
}

/// Appends a day if the service runs on it.
fn push_if(list: &mut Vec<u32>, day: u32, runs: bool) -> Result<(), AllocError>
    ensures { OnOk result (list.new.items
        ≡ (if runs then list.old.items ++ day ∷ [] else list.old.items)) }
{
    if runs {
        list.push(day)?;
    }
    Ok(())
}

/// The days of a window on which a service is active.
pub(crate) fn days_of(
    alloc: Global,
    row: Option<&CalendarRow>,
    exceptions: &BTreeMap<u32, Exception>,
    first: u32,
    days: u32,
) -> Result<Vec<u32>, AllocError>
    requires valid { IsTrue (is_day first) }
    requires in_time { day_number first + days < 3_652_425 }
    requires flags { Flagged (option_copied row) }
    ensures { IfOk result (λ list. list.items
        ≡ filter (λ day. runs_by (option_copied row.entry)
        (find nat_cmp (date_plus first day) exceptions.now.entries)
        (date_plus first day)) (range_with_len 0 days)) }
{
    let mut list = Vec::new(alloc);
    let mut date = first;
    for day in 0..days {
        let exception = exceptions.get(&date).copied();
        push_if(&mut list, day, runs_on(row, exception, date))?;
        date = day_after(date);
    }
    Ok(list)
}

/// The days of the window on which each service is active.
pub(crate) fn active_lists(
    alloc: Global,
    services: &[PlanName],
    calendar: &Table<CalendarRow>,
    exceptions: &[BTreeMap<u32, Exception>],
    first: u32,
    days: u32,
) -> Result<Vec<Vec<u32>>, AllocError>
    requires valid { IsTrue (is_day first) }
    requires in_time { day_number first + days < 3_652_425 }
    requires each { length exceptions.now ≡ length services.now }
    requires flags { (i : ℕ) (row : CalendarRow) → slice_get calendar.now i ≡ Some row
        → flags_of row ≤ 127 }
    ensures { IfOk result (λ lists. map (λ v. v.items) lists.items
        ≡ map (active_by calendar.now first days) (zip services.now (entries_of exceptions.now))) }
{
    let mut lists = Vec::with_capacity(alloc, services.len())?;
    for (number, service) in services.iter().enumerate() {
        let row = calendar.find(service.as_str());
        lists.push(days_of(alloc, row, &exceptions[number], first, days)?)?;
    }
    Ok(lists)
}

/// The instant from which the times of a day are counted.
fn base_of(zone: &Zone, date: u32) -> Result<i64, AllocError>
    requires valid { IsTrue (is_day date) }
    requires in_time { date ≤ 30_011_231 }
    ensures value { IfOk result (λ seconds. seconds ≡ base_of zone.now date) }
    ensures small { IfOk result IsSmall }
{
    base(zone, date)
}

/// The instants from which the times of the window's days are counted.
pub(crate) fn bases_of(
    alloc: Global,
    zone: &Zone,
    first: u32,
    days: u32,
) -> Result<Vec<i64>, AllocError>
    requires valid { IsTrue (is_day first) }
    requires late { first ≤ 29991231 }
    requires few { days ≤ 400 }
    requires in_time { day_number first + days < 3_652_425 }
    ensures bases { IfOk result (λ bases. bases.items
        ≡ map (λ day. base_of zone.now (date_plus first day)) (range_with_len 0 days)) }
    ensures small { IfOk result (λ bases. EachSmall bases.items) }
{
    let mut bases = Vec::new(alloc);
    let mut date = first;
    for _ in 0..days {
        bases.push(base_of(zone, date)?)?;
        date = day_after(date);
    }
    Ok(bases)
}
