//! The departures at a stop of the runs for which a feed's update counts.

ghost use Rattle.std.specs.Prelude.{◌≡◌, ◌≤◌};
ghost use Rattle.std.specs.List.{filter_map};
ghost use Rattle.std.specs.Iterator.{YieldsFirst, item_count};
ghost use Rattle.text_defs.specs.Moments.{last_moment};
ghost use Rattle.run_departures.specs.Sources as rule;
ghost use Rattle.run_departures.specs.Sources.{live_departure, live_there};

use crate::asked::Asked;
use crate::departure::Departure;
use crate::feed::LiveFeed;
use crate::look_up::{place_of, scheduled_at};
use crate::winner::winner;
use board_defs::RowState;
use run_overlay::{AtStop, LiveSlot, SlotState};
use sched_types::Plan;
use std::marker::Model;

/// Departures at a stop by the updates of a feed, in order. A contract sees the list of those that
/// are left.
#[derive(Drop)]
pub(crate) struct Live<'a> {
    plan: &'a Plan,
    feeds: &'a [LiveFeed<'a>],
    /// The moment at which updates count, in seconds since 1970.
    at: u64,
    /// The number of the feed.
    number: u32,
    stop: u32,
    slots: AtStop<'a>,
}

impl<'a> Model for Live<'a> {
    ghost use Rattle.std.specs.Prelude.{List};
    ghost use Rattle.std.specs.List.{filter_map};
    ghost use Rattle.run_departures.specs.declared.departure.Departure.{Departure};

    ghost Value = { List Departure };

    ghost use Rattle.run_departures.specs.Sources.{live_departure};

    ghost view = { λ l.
        filter_map (live_departure l.plan.now l.feeds.now l.at l.number l.stop) l.slots };
}

impl<'a> Live<'a> {
    /// Those of a feed at that very stop in the window that is asked for.
    pub(crate) fn at_stop(
        plan: &'a Plan,
        feeds: &'a [LiveFeed<'a>],
        asked: Asked,
        stop: u32,
        feed: &'a LiveFeed<'a>,
    ) -> Live<'a>
        requires { asked.at ≤ last_moment }
        ensures { result ≡ live_there plan.entry.now feeds.entry.now asked stop feed.entry.now }
    {
        let overlay = feed.overlay();
        Live {
            plan,
            feeds,
            at: asked.at,
            number: feed.number(),
            stop,
            slots: overlay.at_stop(stop, asked.start(), asked.end()),
        }
    }
}

impl<'a> Iterator for Live<'a> {
    type Item = Departure;

    ghost next_gives = { YieldsFirst (λ left. left) };

    ghost remaining = { item_count (λ left. left) };

    fn next(&mut self) -> Option<Departure> {
        next_of(
            self.plan,
            self.feeds,
            self.at,
            self.number,
            self.stop,
            &mut self.slots,
        )
    }
}

/// What is known of a departure, as a row tells it.
fn row_state(state: SlotState) -> RowState
    ensures { result ≡ rule.row_state state }
{
    match state {
        SlotState::Scheduled => RowState::Scheduled,
        SlotState::Live => RowState::Live,
        SlotState::Skipped => RowState::Skipped,
        SlotState::Canceled => RowState::Canceled,
    }
}

/// The departure from a slot of a feed's overlay, if the update that counts for the run is that
/// feed's.
fn live_from(
    plan: &Plan,
    feeds: &[LiveFeed<'_>],
    at: u64,
    number: u32,
    stop: u32,
    slot: LiveSlot,
) -> Option<Departure>
    ensures { result ≡ live_departure plan.now feeds.entry.now at number stop slot }
{
    if winner(feeds, at, slot.run) != Some(number) {
        return None;
    }
    match place_of(plan, slot.run, slot.place) {
        Some(place) => Some(Departure {
            expected: slot.at,
            run: slot.run,
            place: slot.place,
            stop,
            scheduled: scheduled_at(plan, slot.run, place),
            delay: slot.delay,
            state: row_state(slot.state),
        }),
        None => None,
    }
}

/// The first departure of those that are left.
fn next_of(
    plan: &Plan,
    feeds: &[LiveFeed<'_>],
    at: u64,
    number: u32,
    stop: u32,
    slots: &mut AtStop<'_>,
) -> Option<Departure>
    ensures { YieldsFirst (filter_map (live_departure plan.now feeds.entry.now at number stop))
        slots.old result slots.new }
{
    while let Some(slot) = slots.next() {
        if let Some(departure) = live_from(plan, feeds, at, number, stop, slot) {
            return Some(departure);
        }
    }
    None
}
