//! The timetable of a schedule.
ghost use Rattle.std.specs.Prelude.{◌≡◌, IfOk, IfSome, true};
ghost use Rattle.hub_config_defs.specs.Right.{has_window};
ghost use Rattle.hub_main_defs.specs.Checks.{plan_conf};
ghost use Rattle.hub_load.specs.Stops.{PlanStopped, StopsWith};
ghost use Rattle.hub_load.specs.Told.{HasCause, IsAsTold, IsLoadRefusal, plan_told};

use crate::fault::HubFault;
use crate::words::load_line;
use hub_config_defs::ScheduleConf;
use hub_outside::Files;
use rt_types::Copied;
use sched_load::load;
use sched_load_defs::{LoadFault, PlanConf};
use sched_types::Plan;
use std::alloc::{AllocError, Global};

/// The timetable of a schedule, or the line that tells why there is none.
pub fn load_plan<F: Files>(
    alloc: Global,
    files: &mut F,
    schedule: &ScheduleConf,
) -> Result<Plan, HubFault>
    requires { has_window schedule.now ≡ true }
    ensures told { IfSome (F.contents files.old)
        (λ fs. IsAsTold (λ plan. plan) (plan_told fs schedule.now) result) }
    ensures cause { HasCause result (F.faults files.old) (F.faults files.new) }
    ensures same { F.contents files.new ≡ F.contents files.old }
    ensures stops { StopsWith result
        (PlanStopped (F.contents files.old) (F.last_fault files.new) schedule.now) }
{
    let conf = conf_of(schedule)?;
    match load(alloc, files, schedule.folder.as_str(), &conf) {
        Ok(plan) => Ok(plan),
        Err(fault) => Err(load_fault(alloc, schedule.name.as_str(), fault)),
    }
}

/// How a schedule is loaded.
fn conf_of(schedule: &ScheduleConf) -> Result<PlanConf, AllocError>
    ensures { IfOk result (λ conf. conf ≡ plan_conf schedule.now) }
{
    Ok(PlanConf {
        zone: schedule.zone.copy()?,
        first: schedule.first,
        days: schedule.days,
    })
}

/// What a fault of a timetable comes to.
fn load_fault(alloc: Global, name: &str, fault: LoadFault) -> HubFault
    ensures { IsLoadRefusal name.now fault result }
{
    match fault {
        LoadFault::FileFault => HubFault::FileFault,
        LoadFault::NoMemory => HubFault::NoMemory,
        _ => match load_line(alloc, name, fault) {
            Ok(line) => HubFault::Refused(line),
            Err(_) => HubFault::NoMemory,
        },
    }
}
