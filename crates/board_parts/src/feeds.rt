//! The feeds of a hub, and those of a schedule.

ghost use Rattle.std.specs.Prelude.{◌≡◌, ◌≤◌, length, map, filter};
ghost use Rattle.std.specs.Arc.{arc_value};
ghost use Rattle.std.specs.Iterator.{YieldsFirst, item_count};
ghost use Rattle.board_defs.specs.Feeds.{feeds_from, is_of_schedule};

use feed_view::FeedView;
use sched_types::NamedFeed;
use std::marker::Model;
use std::sync::Arc;

/// A feed of a hub. A contract sees it as `HubFeed` of `board_defs`.
#[derive(Drop)]
pub struct HubFeed<'a> {
    number: u32,
    feed: &'a NamedFeed,
    view: &'a FeedView,
}

impl<'a> Model for HubFeed<'a> {
    ghost use Rattle.board_defs.specs.Feeds.{HubFeed};

    ghost Value = { HubFeed };

    ghost view = { λ one. record {
      number = one.number;
      feed = one.feed.now;
      fold = one.view.now.fold;
    } };
}

impl<'a> HubFeed<'a> {
    /// Its number among all feeds of the hub.
    pub fn number(&self) -> u32
        ensures { result ≡ self.entry.now.number }
    {
        self.number
    }

    /// What the configuration says of it.
    pub fn feed(&self) -> &'a NamedFeed
        ensures { result.now ≡ self.entry.now.feed }
    {
        self.feed
    }

    /// What is kept of it.
    pub fn view(&self) -> &'a FeedView
        ensures { result.now.fold ≡ self.entry.now.fold }
    {
        self.view
    }
}

/// The feeds of a hub, by their numbers. A contract sees the list of those that are left.
#[derive(Drop)]
pub struct HubFeeds<'a> {
    // The number of the first that is left.
    number: u32,
    feeds: &'a [NamedFeed],
    views: &'a [Arc<FeedView>],
}

impl<'a> Model for HubFeeds<'a> {
    ghost use Rattle.std.specs.Prelude.{◌+◌, ◌≤◌, List, length, map};
    ghost use Rattle.board_defs.specs.Feeds.{HubFeed, feeds_from};

    ghost Value = { List HubFeed };

    ghost view = { λ it. feeds_from it.number it.feeds.now
        (map (λ kept. kept.fold) (map (λ view. view.value) it.views.now)) };

    ghost invariant = { λ it. it.number + length it.feeds.now ≤ 64 };
}

impl<'a> HubFeeds<'a> {
    /// Those feeds, with their views.
    pub(crate) fn over(feeds: &'a [NamedFeed], views: &'a [Arc<FeedView>]) -> HubFeeds<'a>
        requires { length feeds.now ≤ 64 }
        ensures { result
            ≡ feeds_from 0 feeds.entry.now
            (map (λ kept. kept.fold) (map arc_value views.entry.now)) }
    {
        HubFeeds {
            number: 0,
            feeds,
            views,
        }
    }
}

impl<'a> Iterator for HubFeeds<'a> {
    type Item = HubFeed<'a>;

    ghost next_gives = { YieldsFirst (λ left. left) };

    ghost remaining = { item_count (λ left. left) };

    fn next(&mut self) -> Option<HubFeed<'a>> {
        let (feed, feeds) = self.feeds.split_first()?;
        let (view, views) = self.views.split_first()?;
        let number = self.number;
        self.number = number + 1;
        self.feeds = feeds;
        self.views = views;
        Some(HubFeed { number, feed, view })
    }
}

/// The feeds of a schedule, by their numbers. A contract sees the list of those that are left.
#[derive(Drop)]
pub struct ScheduleFeeds<'a> {
    schedule: u32,
    all: HubFeeds<'a>,
}

impl<'a> Model for ScheduleFeeds<'a> {
    ghost use Rattle.std.specs.Prelude.{List, filter};
    ghost use Rattle.board_defs.specs.Feeds.{HubFeed, is_of_schedule};

    ghost Value = { List HubFeed };

    ghost view = { λ it. filter (is_of_schedule it.schedule) it.all };
}

impl<'a> ScheduleFeeds<'a> {
    /// Those of them that are of the schedule of that number.
    pub(crate) fn among(schedule: u32, all: HubFeeds<'a>) -> ScheduleFeeds<'a>
        ensures { result ≡ filter (is_of_schedule schedule) all.entry }
    {
        ScheduleFeeds { schedule, all }
    }
}

impl<'a> Iterator for ScheduleFeeds<'a> {
    type Item = HubFeed<'a>;

    ghost next_gives = { YieldsFirst (λ left. left) };

    ghost remaining = { item_count (λ left. left) };

    fn next(&mut self) -> Option<HubFeed<'a>> {
        next_of(self.schedule, &mut self.all)
    }
}

/// The next feed that is one of the schedule, if there is one.
fn next_of<'a>(schedule: u32, all: &mut HubFeeds<'a>) -> Option<HubFeed<'a>>
    ensures { YieldsFirst (filter (is_of_schedule schedule)) all.old result all.new }
{
    while let Some(feed) = all.next() {
        if feed.feed.plan == schedule {
            return Some(feed);
        }
    }
    None
}
