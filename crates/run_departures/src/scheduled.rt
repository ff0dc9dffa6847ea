//! The departures at a stop of the runs for which no update counts.

ghost use Rattle.std.specs.Prelude.{◌≡◌, ◌<◌, ◌≤◌};
ghost use Rattle.std.specs.List.{filter_map};
ghost use Rattle.std.specs.Iterator.{YieldsFirst, item_count};
ghost use Rattle.text_defs.specs.Moments.{last_moment};
ghost use Rattle.stop_index.specs.Index.{index_of};
ghost use Rattle.run_departures.specs.Sources.{scheduled_departure, scheduled_there};

use crate::asked::Asked;
use crate::departure::Departure;
use crate::feed::LiveFeed;
use crate::look_up::{may_board, place_of};
use crate::winner::winner;
use board_defs::RowState;
use sched_types::Plan;
use std::marker::Model;
use stop_index::{Between, Slot, StopIndex};

/// Departures at a stop by the timetable, in order. A contract sees the list of those that are
/// left.
#[derive(Drop)]
pub(crate) struct Scheduled<'a> {
    plan: &'a Plan,
    feeds: &'a [LiveFeed<'a>],
    /// The moment at which updates count, in seconds since 1970.
    at: u64,
    stop: u32,
    slots: Between<'a>,
}

impl<'a> Model for Scheduled<'a> {
    ghost use Rattle.std.specs.Prelude.{List};
    ghost use Rattle.std.specs.List.{filter_map};
    ghost use Rattle.run_departures.specs.declared.departure.Departure.{Departure};

    ghost Value = { List Departure };

    ghost use Rattle.run_departures.specs.Sources.{scheduled_departure};

    ghost view = { λ s.
        filter_map (scheduled_departure s.plan.now s.feeds.now s.at s.stop) s.slots };
}

impl<'a> Scheduled<'a> {
    /// Those at that very stop in the window that is asked for.
    pub(crate) fn at_stop(
        plan: &'a Plan,
        index: &'a StopIndex,
        feeds: &'a [LiveFeed<'a>],
        asked: Asked,
        stop: u32,
    ) -> Scheduled<'a>
        requires index { index.now ≡ index_of plan.now }
        requires moment { asked.at ≤ last_moment }
        ensures { result ≡ scheduled_there plan.entry.now feeds.entry.now asked stop }
    {
        Scheduled {
            plan,
            feeds,
            at: asked.at,
            stop,
            slots: index.between(plan, stop, asked.start(), asked.end()),
        }
    }
}

impl<'a> Iterator for Scheduled<'a> {
    type Item = Departure;

    ghost next_gives = { YieldsFirst (λ left. left) };

    ghost remaining = { item_count (λ left. left) };

    fn next(&mut self) -> Option<Departure> {
        next_of(self.plan, self.feeds, self.at, self.stop, &mut self.slots)
    }
}

/// The departure from a slot, if passengers may board there and no update counts for the run.
fn scheduled_from(
    plan: &Plan,
    feeds: &[LiveFeed<'_>],
    at: u64,
    stop: u32,
    slot: Slot,
) -> Option<Departure>
    ensures { result ≡ scheduled_departure plan.now feeds.entry.now at stop slot }
{
    if winner(feeds, at, slot.run).is_some() {
        return None;
    }
    match place_of(plan, slot.run, slot.place) {
        Some(place) if may_board(place) => Some(Departure {
            expected: slot.at,
            run: slot.run,
            place: slot.place,
            stop,
            scheduled: slot.at,
            delay: None,
            state: RowState::Scheduled,
        }),
        _ => None,
    }
}

/// The first departure of those that are left.
fn next_of(
    plan: &Plan,
    feeds: &[LiveFeed<'_>],
    at: u64,
    stop: u32,
    slots: &mut Between<'_>,
) -> Option<Departure>
    ensures { YieldsFirst (filter_map (scheduled_departure plan.now feeds.entry.now at stop))
        slots.old result slots.new }
{
    while let Some(slot) = slots.next() {
        if let Some(departure) = scheduled_from(plan, feeds, at, stop, slot) {
            return Some(departure);
        }
    }
    None
}
