//! The departures at a stop between two instants, one after another.

ghost use Rattle.std.specs.Prelude.{◌≡◌};
ghost use Rattle.std.specs.Iterator.{YieldsFirst, item_count};
ghost use Rattle.stop_index.specs.Left.{slots_left, AreDepartures};
ghost use Rattle.stop_index.specs.Index.{days_are_rising};

use crate::reached::Reached;
use crate::slot::Slot;
use crate::stand::{Stand, first_here, stand_at};
use crate::trip_departure::TripDeparture;
use sched_types::Plan;
use std::marker::Model;

/// Departures at a stop, in order of the instant, the trip, the day and the place. A contract sees
/// the list of those that are left.
#[derive(Drop)]
pub struct Between<'a> {
    plan: &'a Plan,
    /// The departures of the stop, on whatever day.
    departures: &'a [TripDeparture],
    days_rise: bool,
    /// The instant before which they leave, in seconds of the Unix epoch.
    end: i64,
    stand: Stand<'a>,
}

impl<'a> Model for Between<'a> {
    ghost use Rattle.std.specs.Prelude.{List};
    ghost use Rattle.stop_index.specs.declared.slot.Slot.{Slot};

    ghost Value = { List Slot };

    ghost use Rattle.stop_index.specs.Left.{slots_left, IsReady};
    ghost use Rattle.stop_index.specs.Stand.{Stands};

    ghost view = { λ b. slots_left b.plan.now b.departures.now b.stand.reached b.end };

    ghost invariant = { λ b.
        IsReady b.plan.now b.departures.now b.days_rise b.stand.reached b.stand.first_day
        × Stands b.plan.now b.departures.now b.stand.reached b.end
        b.stand.day b.stand.base b.stand.ahead.now b.stand.other };
}

impl<'a> Between<'a> {
    /// Those of the departures' runs from `start` on, and before `end`.
    pub(crate) fn over(
        plan: &'a Plan,
        departures: &'a [TripDeparture],
        days_rise: bool,
        start: i64,
        end: i64,
    ) -> Between<'a>
        requires are { AreDepartures departures.now }
        requires rise { days_rise ≡ days_are_rising plan.now }
        ensures { result ≡ slots_left plan.entry.now departures.entry.now
            (Reached.Instant start) end }
    {
        let reached = Reached::Instant(start);
        let stand = stand_at(plan, departures, days_rise, 0, plan.days(), reached, end);
        Between {
            plan,
            departures,
            days_rise,
            end,
            stand,
        }
    }
}

impl<'a> Iterator for Between<'a> {
    type Item = Slot;

    ghost next_gives = { YieldsFirst (λ left. left) };

    ghost remaining = { item_count (λ left. left) };

    fn next(&mut self) -> Option<Slot> {
        let plan = self.plan;
        let end = self.end;
        if let Some((slot, rest)) = first_here(plan, &self.stand, end) {
            self.stand.ahead = rest;
            self.stand.reached = Reached::Departure(slot);
            return Some(slot);
        }
        let slot = self.stand.other?;
        self.stand = stand_at(
            plan,
            self.departures,
            self.days_rise,
            self.stand.first_day,
            slot.run.day,
            Reached::Departure(slot),
            end,
        );
        Some(slot)
    }
}
