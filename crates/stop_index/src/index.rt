//! The index of a timetable's departures by their stops.

ghost use Rattle.std.specs.Prelude.{◌≡◌, IfOk};
ghost use Rattle.stop_index.specs.Slots.{slots_between};
ghost use Rattle.stop_index.specs.Index.{index_of};

use crate::NoMemory;
use crate::between::Between;
use crate::days::days_rise;
use crate::flat::{FlatLists, flattened};
use crate::gathering::by_stop;
use sched_types::Plan;
use std::alloc::Global;
use std::marker::Model;

/// The departures of a timetable by their stops. A contract sees what it keeps (`Index`), which is
/// all of it.
#[derive(Drop)]
pub struct StopIndex {
    lists: FlatLists,
    days_rise: bool,
}

impl Model for StopIndex {
    ghost use Rattle.stop_index.specs.Index.{Index};

    ghost Value = { Index };

    ghost view = { λ index. record { departures = index.lists; days_rise = index.days_rise } };
}

impl StopIndex {
    /// The index of a timetable; or out of memory.
    pub fn build(alloc: Global, plan: &Plan) -> Result<StopIndex, NoMemory>
        ensures { IfOk result (λ index. index ≡ index_of plan.now) }
    {
        let lists = by_stop(alloc, plan)?;
        Ok(StopIndex {
            lists: flattened(alloc, lists, plan.all_places())?,
            days_rise: days_rise(plan),
        })
    }

    /// The departures of the timetable's runs at that very stop from `start` on, and before `end`,
    /// both in seconds of the Unix epoch: each once, by the instant, the trip, the day and the
    /// place. There is none at a stop past the last. It takes no memory. The index must be that of
    /// this timetable.
    pub fn between<'a>(&'a self, plan: &'a Plan, stop: u32, start: i64, end: i64) -> Between<'a>
        requires { self.now ≡ index_of plan.now }
        ensures { result ≡ slots_between plan.entry.now stop start end }
    {
        plan.sound();
        Between::over(plan, self.lists.list(stop), self.days_rise, start, end)
    }
}
