//! A timetable of a folder of files.

ghost use Rattle.std.specs.Prelude.{◌≡◌, ◌≤◌, IfSome, IfOk};
ghost use Rattle.sched_load_defs.specs.Loading.{timetable, with_times, zone_of};
ghost use Rattle.sched_load_defs.specs.Numbers.{timetable_of};
ghost use Rattle.sched_load.specs.Answer.{HasLoadCause, IsPlainAnswer, Loads};
ghost use Rattle.row_tables.specs.Alone.{AnswersAlone};
ghost use Rattle.sched_load.specs.Built.{IsBuilt, IsInOrder};
ghost use Rattle.sched_load.specs.Stops.{StopsLoading, StopsWith};
ghost use Rattle.sched_load.specs.Tables.{AreRead, dataset_of};
ghost use Rattle.sched_load.specs.Window.{HasWindow};

use crate::build::build_plan;
use crate::check::check_times;
use crate::tables::read_tables;
use hub_outside::Files;
use sched_load_defs::{LoadFault, PlanConf};
use sched_types::Plan;
use service_day::{Zone, ZoneFault, read_zone};
use std::alloc::Global;

/// The zone of a rule.
fn zone_of(rule: &str) -> Result<Zone, LoadFault>
    ensures { AnswersAlone (zone_of rule.now) result }
{
    match read_zone(rule) {
        Ok(zone) => Ok(zone),
        Err(ZoneFault::BadZone) => Err(LoadFault::BadZone),
        Err(ZoneFault::NoMemory) => Err(LoadFault::NoMemory),
    }
}

/// The timetable of the files in the folder, for the zone and the window of days of the
/// configuration, or the first fault: of the zone; then file by file (agency.txt, stops.txt,
/// routes.txt, trips.txt, stop_times.txt, calendar.txt, calendar_dates.txt, frequencies.txt), of
/// each file by itself before it is compared with itself and with the files before it; then of the
/// trips' times, by row of trips.txt (GTFS Schedule Reference); then of the trips that
/// frequencies.txt gives, by its rows: more than 4,000,000 places of theirs in all (`Rows` with
/// `TooMany`), or an id that is there already (`Duplicate`). `FileFault` says that a file could not
/// be read, with no fault before it in this order, and `NoMemory`, that memory ran out.
///
/// The paths are the folder's, a slash and the file's name.
pub fn load<F: Files>(
    alloc: Global,
    files: &mut F,
    folder: &str,
    conf: &PlanConf,
) -> Result<Plan, LoadFault>
    requires { HasWindow conf.now }
    ensures loads { IfSome (F.contents files.old)
        (λ fs. Loads (timetable fs folder.now conf.now) result) }
    ensures cause { HasLoadCause result (F.faults files.old) (F.faults files.new) }
    ensures plain { IsPlainAnswer result }
    ensures same { F.contents files.new ≡ F.contents files.old }
    ensures stops { StopsWith result
        (StopsLoading (F.contents files.old) (F.last_fault files.new) folder.now conf.now) }
{
    let zone = zone_of(conf.zone.as_str())?;
    let tables = read_tables(alloc, files, folder)?;
    check_times(&tables)?;
    build_plan(alloc, &zone, conf.first, conf.days, &tables)
}
