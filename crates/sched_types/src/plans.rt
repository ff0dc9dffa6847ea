//! The timetables and the feeds of one hub.
ghost use Rattle.std.specs.Prelude.{◌≡◌, ◌<◌, Some, length, slice_get};
ghost use Rattle.std.specs.Option.{option_map};
ghost use Rattle.sched_types.specs.Schedules.{Schedules, AreSchedules};

use crate::plan::Plan;
use std::marker::Model;
use texts::ShortText as PlanName;

/// A timetable, with its name and the prefix that its ids get where feeds are combined.
#[derive(Drop)]
pub struct NamedPlan {
    /// Its name, 1 to 32 of a to z, 0 to 9 and `_`.
    pub name: PlanName,
    /// What stands before its ids where feeds are combined; it may be empty.
    pub prefix: PlanName,
    /// The timetable.
    pub plan: Plan,
}

/// A feed of realtime messages, with its name and the number of its timetable.
#[derive(Debug, Drop)]
pub struct NamedFeed {
    /// Its name, of the same form.
    pub name: PlanName,
    /// The number of its timetable, from 0 in the order in which they were given.
    pub plan: u32,
    /// How many seconds after its stamp an update or an alert of the feed still counts, 0 to
    /// 31622400; 0 for no end.
    pub max_age: u64,
}

/// The timetables and the feeds of one hub. They are numbered from 0 in the order in which they
/// were given.
#[derive(Drop)]
pub struct Plans {
    plans: Vec<NamedPlan>,
    feeds: Vec<NamedFeed>,
}

impl Model for Plans {
    ghost use Rattle.sched_types.specs.Schedules.{Schedules, AreSchedules};

    ghost Value = { Schedules };

    ghost view = { λ s. record { plans = s.plans.items; feeds = s.feeds.items } };

    ghost invariant = { λ s. AreSchedules
        (record { plans = s.plans.items; feeds = s.feeds.items }) };
}

impl Plans {
    /// Those timetables and feeds: up to 8 and up to 64, with distinct names of 1 to 32 of a to z,
    /// 0 to 9 and `_`, and each feed with the number of a timetable.
    pub fn new(plans: Vec<NamedPlan>, feeds: Vec<NamedFeed>) -> Plans
        requires { AreSchedules (record { plans = plans.items; feeds = feeds.items }) }
        ensures { result ≡ record { plans = plans.items; feeds = feeds.items } }
    {
        Plans { plans, feeds }
    }

    /// The timetables, in order.
    pub fn plans(&self) -> &[NamedPlan]
        ensures { result.now ≡ self.now.plans }
    {
        self.plans.as_slice()
    }

    /// The feeds, in order.
    pub fn feeds(&self) -> &[NamedFeed]
        ensures { result.now ≡ self.now.feeds }
    {
        self.feeds.as_slice()
    }

    /// How many seconds after its stamp an update or an alert of the feed of that number still
    /// counts; 0 for no end.
    pub fn max_age(&self, feed: u32) -> u64
        requires { feed < length self.now.feeds }
        ensures { option_map (λ named. named.max_age) (slice_get self.now.feeds feed)
            ≡ Some result }
    {
        self.feeds()[feed as usize].max_age
    }

    /// Does nothing; its contract tells what is true of all timetables and feeds of a hub.
    pub fn sound(&self)
        ensures { AreSchedules self.now }
    {
        let _plans = &self.plans;
    }
}
