//! The lines of the timetables.
ghost use Rattle.std.specs.Prelude.{◌≡◌, ◌≤◌, IfOk, IfSome, true};
ghost use Rattle.std.specs.List.{list_all};
ghost use Rattle.std.specs.String.{string_bytes};
ghost use Rattle.hub_config_defs.specs.Right.{has_window};
ghost use Rattle.hub_main_defs.specs.Checks.{counts_line};
ghost use Rattle.hub_load.specs.Stops.{PlanStopped, PlansStopped, StopsWith};
ghost use Rattle.hub_load.specs.Told.{HasCause, IsAsTold};
ghost use Rattle.hub_check.specs.Told.{Adds, line_for, lines_for, network_text, traffic_text};

use hub_config_defs::ScheduleConf;
use hub_load::{HubFault, load_plan};
use hub_outside::Files;
use sched_types::{Counts, Plan};
use std::alloc::{AllocError, Global};

/// The lines of the schedules, in their order, or the line of the first fault. One timetable at a
/// time is in memory.
pub(crate) fn lines_of<F: Files>(
    alloc: Global,
    files: &mut F,
    schedules: &[ScheduleConf],
) -> Result<Vec<u8>, HubFault>
    requires { list_all has_window schedules.now ≡ true }
    ensures told { IfSome (F.contents files.old)
        (λ fs. IsAsTold (λ lines. lines.items) (lines_for fs schedules.now) result) }
    ensures cause { HasCause result (F.faults files.old) (F.faults files.new) }
    ensures same { F.contents files.new ≡ F.contents files.old }
    ensures stops { StopsWith result
        (PlansStopped (F.contents files.old) (F.last_fault files.new) schedules.now) }
{
    let mut lines = Vec::new(alloc);
    for schedule in schedules {
        add_line(alloc, files, schedule, &mut lines)?;
    }
    Ok(lines)
}

/// Puts the line of one schedule behind the others.
fn add_line<F: Files>(
    alloc: Global,
    files: &mut F,
    schedule: &ScheduleConf,
    lines: &mut Vec<u8>,
) -> Result<(), HubFault>
    requires { has_window schedule.now ≡ true }
    ensures told { IfSome (F.contents files.old)
        (λ fs. Adds (line_for fs schedule.now) lines.old.items lines.new.items result) }
    ensures cause { HasCause result (F.faults files.old) (F.faults files.new) }
    ensures same { F.contents files.new ≡ F.contents files.old }
    ensures stops { StopsWith result
        (PlanStopped (F.contents files.old) (F.last_fault files.new) schedule.now) }
{
    let line = line_of(alloc, files, schedule)?;
    lines.extend_from_slice(line.as_slice())?;
    Ok(())
}

/// The line of one schedule.
fn line_of<F: Files>(
    alloc: Global,
    files: &mut F,
    schedule: &ScheduleConf,
) -> Result<Vec<u8>, HubFault>
    requires { has_window schedule.now ≡ true }
    ensures told { IfSome (F.contents files.old)
        (λ fs. IsAsTold (λ line. line.items) (line_for fs schedule.now) result) }
    ensures cause { HasCause result (F.faults files.old) (F.faults files.new) }
    ensures same { F.contents files.new ≡ F.contents files.old }
    ensures stops { StopsWith result
        (PlanStopped (F.contents files.old) (F.last_fault files.new) schedule.now) }
{
    let plan = load_plan(alloc, files, schedule)?;
    Ok(counts_line(alloc, schedule.name.as_str(), &plan)?)
}

/// The line of a timetable: its schedule's name, and how many rows and days it has.
fn counts_line(alloc: Global, name: &str, plan: &Plan) -> Result<Vec<u8>, AllocError>
    ensures { IfOk result (λ line. line.items ≡ counts_line name.now plan.now) }
{
    let counts = plan.counts();
    let network = network_text(alloc, name, &counts)?;
    let line = traffic_text(alloc, network.as_str(), &counts)?;
    Ok(line.into_bytes())
}

fn network_text(alloc: Global, name: &str, counts: &Counts) -> Result<String, AllocError>
    ensures { IfOk result (λ text. string_bytes text ≡ network_text name.now counts.now) }
{
    format!(in alloc;
        "{name} agencies {} stops {} routes {}",
        counts.agencies, counts.stops, counts.routes
    )
}

fn traffic_text(alloc: Global, network: &str, counts: &Counts) -> Result<String, AllocError>
    ensures { IfOk result (λ text. string_bytes text ≡ traffic_text network.now counts.now) }
{
    format!(in alloc;
        "{network} trips {} times {} days {}\n",
        counts.trips, counts.times, counts.days
    )
}
