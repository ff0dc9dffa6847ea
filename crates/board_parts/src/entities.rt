//! What the feeds of a schedule hold.

ghost use Rattle.std.specs.Prelude.{◌≡◌, ◌∷◌, [], ◌++◌, map, unwrap_or, MatchOption};
ghost use Rattle.std.specs.Iterator.{YieldsFirst, item_count};
ghost use Rattle.board_parts.specs.Walks.{walked, walked_by, walked_in};

use crate::feeds::{HubFeed, ScheduleFeeds};
use entity_table::{Stored, TableIter};
use feed_view::FeedView;
use sched_types::NamedFeed;
use std::marker::Model;

/// An entity that a feed holds, with the number of the feed. A contract sees it as `HeldEntity` of
/// `board_defs`.
#[derive(Drop)]
pub struct HeldEntity<'a> {
    number: u32,
    feed: &'a NamedFeed,
    stored: &'a Stored,
}

impl<'a> Model for HeldEntity<'a> {
    ghost use Rattle.board_defs.specs.Feeds.{HeldEntity};

    ghost Value = { HeldEntity };

    ghost view = { λ held. record {
      number = held.number;
      feed = held.feed.now;
      stored = held.stored.now;
    } };
}

impl<'a> HeldEntity<'a> {
    /// An entity that the feed of that number holds.
    pub fn new(number: u32, feed: &'a NamedFeed, stored: &'a Stored) -> HeldEntity<'a>
        ensures { result
            ≡ record { number = number; feed = feed.entry.now; stored = stored.entry.now } }
    {
        HeldEntity {
            number,
            feed,
            stored,
        }
    }

    /// The number of its feed.
    pub fn number(&self) -> u32
        ensures { result ≡ self.entry.now.number }
    {
        self.number
    }

    /// What the configuration says of its feed.
    pub fn feed(&self) -> &'a NamedFeed
        ensures { result.now ≡ self.entry.now.feed }
    {
        self.feed
    }

    /// The entity, with the stamp of its message.
    pub fn stored(&self) -> &'a Stored
        ensures { result.now ≡ self.entry.now.stored }
    {
        self.stored
    }
}

/// What one feed holds, or what of it has an alert, by id. A contract sees the list of what is
/// left.
#[derive(Drop)]
struct FeedEntities<'a> {
    number: u32,
    feed: &'a NamedFeed,
    left: TableIter<'a>,
}

impl<'a> Model for FeedEntities<'a> {
    ghost use Rattle.std.specs.Prelude.{List, map};
    ghost use Rattle.board_defs.specs.Feeds.{HeldEntity};
    ghost use Rattle.board_parts.specs.Walks.{held_of};

    ghost Value = { List HeldEntity };

    ghost view = { λ it. map (held_of it.number it.feed.now) it.left };
}

impl<'a> FeedEntities<'a> {
    /// Of that feed, all that it holds, or its alerts alone.
    fn over(feed: HubFeed<'a>, alerts: bool) -> FeedEntities<'a>
        ensures { result ≡ walked_by alerts feed.entry }
    {
        FeedEntities {
            number: feed.number(),
            feed: feed.feed(),
            left: stored_in(feed.view(), alerts),
        }
    }
}

/// All that a feed holds, or what of it has an alert, by id.
fn stored_in(view: &FeedView, alerts: bool) -> TableIter<'_>
    ensures { result ≡ map (λ change. change.1) (walked alerts view.entry.now.fold.entities) }
{
    if alerts {
        view.alerts().iter()
    } else {
        view.table().iter()
    }
}

impl<'a> Iterator for FeedEntities<'a> {
    type Item = HeldEntity<'a>;

    ghost next_gives = { YieldsFirst (λ left. left) };

    ghost remaining = { item_count (λ left. left) };

    fn next(&mut self) -> Option<HeldEntity<'a>> {
        let stored = self.left.next()?;
        Some(HeldEntity {
            number: self.number,
            feed: self.feed,
            stored,
        })
    }
}

/// What the feeds of a schedule hold, or what of it has an alert, by feed and then by id. A
/// contract sees the list of what is left.
#[derive(Drop)]
pub struct HeldEntities<'a> {
    // Whether what has no alert is left out.
    alerts: bool,
    // What is left of the feed that is gone over.
    current: Option<FeedEntities<'a>>,
    // The feeds after that.
    feeds: ScheduleFeeds<'a>,
}

impl<'a> Model for HeldEntities<'a> {
    ghost use Rattle.std.specs.Prelude.{List, [], ◌++◌, unwrap_or};
    ghost use Rattle.board_defs.specs.Feeds.{HeldEntity};
    ghost use Rattle.board_parts.specs.Walks.{walked_in};

    ghost Value = { List HeldEntity };

    ghost view = { λ it. unwrap_or it.current [] ++ walked_in it.alerts it.feeds };
}

impl<'a> HeldEntities<'a> {
    /// Of those feeds, all that they hold, or their alerts alone.
    pub(crate) fn over(feeds: ScheduleFeeds<'a>, alerts: bool) -> HeldEntities<'a>
        ensures { result ≡ walked_in alerts feeds.entry }
    {
        HeldEntities {
            alerts,
            current: None,
            feeds,
        }
    }
}

impl<'a> Iterator for HeldEntities<'a> {
    type Item = HeldEntity<'a>;

    ghost next_gives = { YieldsFirst (λ left. left) };

    ghost remaining = { item_count (λ left. left) };

    fn next(&mut self) -> Option<HeldEntity<'a>> {
        next_of(self.alerts, &mut self.current, &mut self.feeds)
    }
}

/// The next entity of the feed that is gone over, and where it has none of the feeds after it.
fn next_of<'a>(
    alerts: bool,
    current: &mut Option<FeedEntities<'a>>,
    feeds: &mut ScheduleFeeds<'a>,
) -> Option<HeldEntity<'a>>
    ensures { MatchOption result
        ((unwrap_or current.old [] ++ walked_in alerts feeds.old ≡ [])
        × (unwrap_or current.new [] ++ walked_in alerts feeds.new ≡ []))
        (λ held. unwrap_or current.old [] ++ walked_in alerts feeds.old
        ≡ held ∷ (unwrap_or current.new [] ++ walked_in alerts feeds.new)) }
{
    loop {
        if let Some(held) = next_in(current) {
            return Some(held);
        }
        let feed = feeds.next()?;
        *current = Some(FeedEntities::over(feed, alerts));
    }
}

/// The next entity of a feed, if one is gone over.
fn next_in<'a>(current: &mut Option<FeedEntities<'a>>) -> Option<HeldEntity<'a>>
    ensures { YieldsFirst (λ left. unwrap_or left []) current.old result current.new }
{
    match current {
        Some(left) => left.next(),
        None => None,
    }
}
