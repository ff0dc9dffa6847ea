//! The view of a hub.

ghost use Rattle.std.specs.Prelude.{◌≡◌, ◌+◌, ◌<◌, Some, true, false, length, map, replicate, IfOk, IsTrue};
ghost use Rattle.std.specs.Arc.{arc_value};
ghost use Rattle.std.specs.Option.{option_map};
ghost use Rattle.text_defs.specs.Moments.{is_stamp};
ghost use Rattle.feed_defs.specs.History.{is_full, stamp_of};
ghost use Rattle.sched_types.specs.Schedules.{AreSchedules};
ghost use Rattle.sched_types.specs.Timetable.{Timetable};
ghost use Rattle.stop_index.specs.Index.{index_of};
ghost use Rattle.board_defs.specs.Feeds as rule;
ghost use Rattle.board_defs.specs.Rows.{timetable_in};
ghost use Rattle.board_defs.specs.Views.{IsHub, feed_at, folds_of, hub_after, hub_first, hub_with};
ghost use Rattle.feed_view.specs.Kept.{kept_of, nothing_seen, IsOver};
ghost use Rattle.board_parts.specs.Walks.{walked_in};
ghost use Rattle.board_parts.specs.Whole.{timetable_of};

use crate::NoMemory;
use crate::entities::HeldEntities;
use crate::feeds::{HubFeeds, ScheduleFeeds};
use crate::indexes::Indexes;
use feed_view::FeedView;
use rt_types::FeedMessage;
use sched_types::{Plan, Plans};
use std::alloc::Global;
use std::marker::Model;
use std::sync::Arc;
use std::thread::Threads;
use stop_index::StopIndex;

/// What is kept of a hub. A contract sees it as `HubKept`, and it never changes.
#[derive(Drop)]
pub struct HubView {
    plans: Arc<Plans>,
    // One for each timetable, made once and shared by all views.
    indexes: Arc<Indexes>,
    // One for each feed of the plans.
    feeds: Vec<Arc<FeedView>>,
    // How many messages of all feeds were accepted.
    entries: u64,
}

impl Model for HubView {
    ghost use Rattle.std.specs.Prelude.{map};
    ghost use Rattle.board_defs.specs.Views.{HubKept, IsHub};
    ghost use Rattle.feed_view.specs.Kept.{kept_of};
    ghost use Rattle.board_parts.specs.Whole.{IsWhole};

    ghost Value = { HubKept };

    ghost view = { λ v. record {
      plans = v.plans.value;
      feeds = map (λ feed. kept_of feed.value) v.feeds.items;
      entries = v.entries;
    } };

    ghost invariant = { λ v. IsWhole v.indexes.value (map (λ feed. feed.value) v.feeds.items)
        (record {
          plans = v.plans.value;
          feeds = map (λ feed. kept_of feed.value) v.feeds.items;
          entries = v.entries;
        }) };
}

impl HubView {
    /// The view of a hub with those timetables and feeds that accepted nothing; or out of memory.
    /// The departures of the timetables are put in order by their stops.
    pub fn first(alloc: Global, plans: Arc<Plans>) -> Result<HubView, NoMemory>
        ensures { IfOk result (λ view. view ≡ hub_first (arc_value plans)) }
    {
        let feeds = empty_feeds(alloc, plans.feeds().len())?;
        let indexes = Arc::new(alloc, Indexes::build(alloc, &plans)?)?;
        Ok(HubView {
            plans,
            indexes,
            feeds,
            entries: 0,
        })
    }

    /// The view after one message more of the feed of that number, whose stamp is a moment after
    /// that feed's last one; or out of memory. The message's entities are taken out of it, and all
    /// that it doesn't touch is shared with this view.
    pub fn after(&self, alloc: Global, feed: u32, message: FeedMessage) -> Result<HubView, NoMemory>
        requires feed { feed < length self.now.plans.feeds }
        requires moment { IsTrue (is_stamp (stamp_of message)) }
        requires newer { (feed_at self.now feed).fold.stamp < stamp_of message }
        ensures { IfOk result (λ next. next ≡ hub_after feed message self.now) }
    {
        self.sound();
        let plan = self.timetable(self.plans().feeds()[feed as usize].plan);
        let next = FeedView::after(alloc, plan, self.feed(feed), message)?;
        self.with_feed(alloc, feed, next)
    }

    /// What [`HubView::after`] gives of a whole data set (`feed_view`'s `is_whole`), whose updates
    /// are matched and whose runs are walked on as many threads as the machine has processors.
    pub fn after_whole(
        &self,
        rt: &(impl Threads + Sync),
        alloc: Global,
        feed: u32,
        message: FeedMessage,
    ) -> Result<HubView, NoMemory>
        requires whole { is_full message ≡ true }
        requires feed { feed < length self.now.plans.feeds }
        requires moment { IsTrue (is_stamp (stamp_of message)) }
        requires newer { (feed_at self.now feed).fold.stamp < stamp_of message }
        ensures { IfOk result (λ next. next ≡ hub_after feed message self.now) }
    {
        self.sound();
        let plan = self.timetable(self.plans().feeds()[feed as usize].plan);
        let next = FeedView::after_whole(rt, alloc, plan, self.feed(feed), message)?;
        self.with_feed(alloc, feed, next)
    }

    /// The view after one message more of the feed of that number, whose view with it is given; or
    /// out of memory. What the feed's updates come to must be kept for its timetable. All else is
    /// shared with this view.
    pub fn with_feed(&self, alloc: Global, feed: u32, view: FeedView) -> Result<HubView, NoMemory>
        requires feed { feed < length self.now.feeds }
        requires more { view.fold.count ≡ (feed_at self.now feed).fold.count + 1 }
        requires over { (t : Timetable) → timetable_of self.now.plans feed ≡ Some t
            → IsOver t view }
        ensures { IfOk result (λ next. next ≡ hub_with feed (kept_of view) self.now) }
    {
        self.plans.sound();
        let _count = view.count();
        let mut feeds = shares(alloc, self.feeds.as_slice())?;
        feeds[feed as usize] = Arc::new(alloc, view)?;
        Ok(HubView {
            plans: Arc::try_clone(&self.plans)?,
            indexes: Arc::try_clone(&self.indexes)?,
            feeds,
            entries: self.entries + 1,
        })
    }

    /// The timetables and feeds.
    pub fn plans(&self) -> &Plans
        ensures { result.now ≡ self.now.plans }
    {
        &self.plans
    }

    /// The view of each feed, by its number.
    pub fn feeds(&self) -> &[Arc<FeedView>]
        ensures { map (λ feed. kept_of (arc_value feed)) result.now ≡ self.now.feeds }
    {
        self.feeds.as_slice()
    }

    /// The view of the feed of that number.
    pub fn feed(&self, feed: u32) -> &FeedView
        requires { feed < length self.now.feeds }
        ensures kept { kept_of result.now ≡ feed_at self.entry.now feed }
        ensures over { (t : Timetable) → timetable_of self.entry.now.plans feed ≡ Some t
            → IsOver t result.now }
    {
        &self.feeds[feed as usize]
    }

    /// The timetable of the schedule of that number.
    pub fn timetable(&self, schedule: u32) -> &Plan
        requires { schedule < length self.now.plans.plans }
        ensures { timetable_in self.entry.now.plans schedule ≡ Some result.now }
    {
        &self.plans().plans()[schedule as usize].plan
    }

    /// The departures of that timetable by their stops.
    pub fn index(&self, schedule: u32) -> &StopIndex
        requires { schedule < length self.now.plans.plans }
        ensures { option_map index_of (timetable_in self.entry.now.plans schedule)
            ≡ Some result.now }
    {
        self.indexes.of(schedule)
    }

    /// All feeds with what they say, by their numbers.
    pub fn hub_feeds(&self) -> HubFeeds<'_>
        ensures { result ≡ rule.hub_feeds self.entry.now.plans.feeds (folds_of self.entry.now) }
    {
        self.sound();
        HubFeeds::over(self.plans().feeds(), self.feeds())
    }

    /// The feeds of the schedule of that number.
    pub fn feeds_of(&self, schedule: u32) -> ScheduleFeeds<'_>
        ensures { result
            ≡ rule.schedule_feeds schedule self.entry.now.plans.feeds (folds_of self.entry.now) }
    {
        ScheduleFeeds::among(schedule, self.hub_feeds())
    }

    /// What these feeds hold, by feed and then by id.
    pub fn entities_of(&self, schedule: u32) -> HeldEntities<'_>
        ensures { result
            ≡ rule.schedule_entities schedule self.entry.now.plans.feeds (folds_of self.entry.now) }
    {
        HeldEntities::over(self.feeds_of(schedule), false)
    }

    /// What of it has an alert.
    pub fn alerts_of(&self, schedule: u32) -> HeldEntities<'_>
        ensures { result
            ≡ walked_in true
            (rule.schedule_feeds schedule self.entry.now.plans.feeds (folds_of self.entry.now)) }
    {
        HeldEntities::over(self.feeds_of(schedule), true)
    }

    /// How many messages of all feeds were accepted.
    pub fn entries(&self) -> u64
        ensures { result ≡ self.now.entries }
    {
        self.entries
    }

    /// Does nothing; its contract tells what is true of every view of a hub.
    pub fn sound(&self)
        ensures hub { IsHub self.now }
        ensures plans { AreSchedules self.now.plans }
    {
        self.plans.sound();
    }
}

/// The views of so many feeds that sent nothing, all one.
fn empty_feeds(alloc: Global, count: usize) -> Result<Vec<Arc<FeedView>>, NoMemory>
    ensures { IfOk result (λ feeds. map arc_value feeds.items ≡ replicate count nothing_seen) }
{
    let empty = Arc::new(alloc, FeedView::empty(alloc))?;
    let mut feeds = Vec::with_capacity(alloc, count)?;
    for _ in 0..count {
        feeds.push(Arc::try_clone(&empty)?)?;
    }
    Ok(feeds)
}

/// The same views with one owner more each.
fn shares(alloc: Global, feeds: &[Arc<FeedView>]) -> Result<Vec<Arc<FeedView>>, NoMemory>
    ensures { IfOk result (λ same. map arc_value same.items ≡ map arc_value feeds.now) }
{
    let mut same = Vec::with_capacity(alloc, feeds.len())?;
    for feed in feeds {
        same.push(Arc::try_clone(feed)?)?;
    }
    Ok(same)
}
