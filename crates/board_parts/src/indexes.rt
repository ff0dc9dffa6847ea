//! The departures of a hub's timetables by their stops.

ghost use Rattle.std.specs.Prelude.{◌≡◌, ◌<◌, Some, length, slice_get, IfOk};
ghost use Rattle.board_parts.specs.Whole.{indexes_of};

use crate::NoMemory;
use sched_types::Plans;
use std::alloc::Global;
use std::marker::Model;
use stop_index::StopIndex;

/// For each timetable of a hub, by its number, its departures by their stops. A contract sees the
/// list.
#[derive(Drop)]
pub struct Indexes {
    indexes: Vec<StopIndex>,
}

impl Model for Indexes {
    ghost use Rattle.std.specs.Prelude.{List};
    ghost use Rattle.stop_index.specs.Index.{Index};

    ghost Value = { List Index };

    ghost view = { λ all. all.indexes.items };
}

impl Indexes {
    /// Those of these timetables; or out of memory. A stop time takes 12 bytes and a stop 4,
    /// whatever the window.
    pub fn build(alloc: Global, plans: &Plans) -> Result<Indexes, NoMemory>
        ensures { IfOk result (λ all. all ≡ indexes_of plans.now) }
    {
        let mut indexes = Vec::with_capacity(alloc, plans.plans().len())?;
        for named in plans.plans() {
            indexes.push(StopIndex::build(alloc, &named.plan)?)?;
        }
        Ok(Indexes { indexes })
    }

    /// That of the timetable of that number.
    pub fn of(&self, schedule: u32) -> &StopIndex
        requires { schedule < length self.now }
        ensures { slice_get self.entry.now schedule ≡ Some result.now }
    {
        &self.indexes[schedule as usize]
    }
}
