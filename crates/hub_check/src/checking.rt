//! A configuration and its timetables.
ghost use Rattle.std.specs.Prelude.{◌≡◌, IfSome};
ghost use Rattle.hub_main_defs.specs.Checks.{check_output};
ghost use Rattle.hub_load.specs.Stops.{LoadingStopped, StopsWith};
ghost use Rattle.hub_load.specs.Told.{HasCause};
ghost use Rattle.hub_check.specs.Told.{Checks};

use crate::lines::lines_of;
use hub_load::{HubFault, conf_at};
use hub_outside::Files;
use std::alloc::Global;

/// Checks the configuration at the path and its timetables: a line for each schedule in their
/// order, with LF, as `city agencies 1 stops 5 routes 1 trips 3 times 8 days 3`, or the line of the
/// first fault. The configuration counts first, and then its timetables in order.
pub fn check<F: Files>(alloc: Global, files: &mut F, path: &str) -> Result<Vec<u8>, HubFault>
    ensures told { IfSome (F.contents files.old) (λ fs. Checks (check_output fs path.now) result) }
    ensures cause { HasCause result (F.faults files.old) (F.faults files.new) }
    ensures same { F.contents files.new ≡ F.contents files.old }
    ensures stops { StopsWith result
        (LoadingStopped (F.contents files.old) (F.last_fault files.new) path.now) }
{
    let conf = conf_at(alloc, files, path)?;
    lines_of(alloc, files, conf.schedules.as_slice())
}
