//! The feeds of a schedule, with what their updates come to.

ghost use Rattle.std.specs.Prelude.{◌≡◌, Some, map, IfOk};
ghost use Rattle.std.specs.List.{All};
ghost use Rattle.sched_types.specs.Timetable.{Timetable};
ghost use Rattle.board_defs.specs.Feeds.{schedule_feeds};
ghost use Rattle.board_defs.specs.Rows.{timetable_in};
ghost use Rattle.board_defs.specs.Views.{folds_of};
ghost use Rattle.feed_view.specs.Kept.{IsOver};
ghost use Rattle.board_core.specs.FeedsOfSchedule.{hub_feed_of, live_of};

use crate::{HubView, NoMemory};
use feed_view::FeedView;
use run_departures::LiveFeed;
use sched_types::NamedFeed;
use std::alloc::Global;

/// A feed of a schedule, with its number among all feeds of the hub.
#[derive(Clone, Copy)]
pub(crate) struct ScheduleFeed<'a> {
    pub(crate) number: u32,
    pub(crate) feed: &'a NamedFeed,
    pub(crate) view: &'a FeedView,
}

/// The feeds of a schedule, by their numbers; or out of memory. What their updates come to is kept
/// for its timetable.
pub(crate) fn feeds_of<'a>(
    alloc: Global,
    view: &'a HubView,
    schedule: u32,
) -> Result<Vec<ScheduleFeed<'a>>, NoMemory>
    ensures list { IfOk result (λ feeds. map hub_feed_of feeds.items
        ≡ schedule_feeds schedule view.entry.now.plans.feeds (folds_of view.entry.now)) }
    ensures over { IfOk result (λ feeds. (t : Timetable)
        → timetable_in view.entry.now.plans schedule ≡ Some t
        → All (λ one. IsOver t one.view.now) feeds.items) }
{
    view.sound();
    let named = view.plans().feeds();
    let mut feeds = Vec::new(alloc);
    for number in 0..named.len() as u32 {
        let feed = &named[number as usize];
        if feed.plan == schedule {
            feeds.push(ScheduleFeed {
                number,
                feed,
                view: view.feed(number),
            })?;
        }
    }
    Ok(feeds)
}

/// The same as departures are asked of them, with what their updates come to; or out of memory.
pub(crate) fn live_feeds<'a>(
    alloc: Global,
    feeds: &[ScheduleFeed<'a>],
) -> Result<Vec<LiveFeed<'a>>, NoMemory>
    ensures { IfOk result (λ live. live.items ≡ map live_of feeds.entry.now) }
{
    let mut live = Vec::with_capacity(alloc, feeds.len())?;
    for one in feeds {
        let max_age = one.feed.max_age;
        live.push(LiveFeed::new(one.number, max_age, one.view.overlay()))?;
    }
    Ok(live)
}
