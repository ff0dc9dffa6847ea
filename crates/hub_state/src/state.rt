//! The state, and its step.

ghost use Rattle.std.specs.Prelude.{◌≡◌, ◌<◌, List, [], ◌∷◌, ◌++◌, length, true, IfOk, IsTrue};
ghost use Rattle.std.specs.Arc.{arc_value};
ghost use Rattle.feed_defs.specs.declared.history.Entry.{Entry};
ghost use Rattle.feed_defs.specs.History.{is_full, stamp_of};
ghost use Rattle.text_defs.specs.Moments.{is_stamp};
ghost use Rattle.board_defs.specs.Views.{StandsFor, feed_at, hub_first, hub_after};

use crate::NoMemory;
use board_parts::HubView;
use rt_types::FeedMessage;
use sched_types::Plans;
use std::alloc::Global;
use std::marker::Model;
use std::sync::Arc;
use std::thread::Threads;

/// The state of a hub. A contract sees it as the `HubKept` of its view.
#[derive(Drop)]
pub struct HubCore {
    newest: Arc<HubView>,
}

impl Model for HubCore {
    ghost use Rattle.board_defs.specs.Views.{HubKept};

    ghost Value = { HubKept };

    ghost view = { λ core. core.newest.value };
}

impl HubCore {
    /// A hub with those timetables and feeds that accepted nothing; or out of memory.
    pub fn new(alloc: Global, plans: Arc<Plans>) -> Result<HubCore, NoMemory>
        ensures first { IfOk result (λ core. core ≡ hub_first (arc_value plans)) }
        ensures stands { IfOk result (λ core. StandsFor [] core) }
    {
        let first = HubView::first(alloc, plans)?;
        Ok(HubCore {
            newest: Arc::new(alloc, first)?,
        })
    }

    /// The view after one message more of the feed of that number, whose stamp is a moment after
    /// that feed's last one; or out of memory. The state stays as it is.
    pub fn prepare(
        &self,
        alloc: Global,
        feed: u32,
        message: FeedMessage,
    ) -> Result<Arc<HubView>, NoMemory>
        requires feed { feed < length self.now.plans.feeds }
        requires moment { IsTrue (is_stamp (stamp_of message)) }
        requires newer { (feed_at self.now feed).fold.stamp < stamp_of message }
        ensures after { IfOk result (λ next. arc_value next ≡ hub_after feed message self.now) }
        ensures stands { (h : List Entry) → StandsFor h self.now → IfOk result (λ next.
            StandsFor (h ++ record { feed = feed; message = message } ∷ []) (arc_value next)) }
    {
        let next = self.newest.after(alloc, feed, message)?;
        Ok(Arc::new(alloc, next)?)
    }

    /// What [`HubCore::prepare`] gives of a whole data set, made on as many threads as the machine
    /// has processors. It is worth the threads from some thousand entities on.
    pub fn prepare_full(
        &self,
        rt: &(impl Threads + Sync),
        alloc: Global,
        feed: u32,
        message: FeedMessage,
    ) -> Result<Arc<HubView>, NoMemory>
        requires whole { is_full message ≡ true }
        requires feed { feed < length self.now.plans.feeds }
        requires moment { IsTrue (is_stamp (stamp_of message)) }
        requires newer { (feed_at self.now feed).fold.stamp < stamp_of message }
        ensures after { IfOk result (λ next. arc_value next ≡ hub_after feed message self.now) }
        ensures stands { (h : List Entry) → StandsFor h self.now → IfOk result (λ next.
            StandsFor (h ++ record { feed = feed; message = message } ∷ []) (arc_value next)) }
    {
        let next = self.newest.after_whole(rt, alloc, feed, message)?;
        Ok(Arc::new(alloc, next)?)
    }

    /// Takes the view as the newest one. It takes no memory.
    pub fn commit(&mut self, view: Arc<HubView>)
        ensures { self.new ≡ arc_value view }
    {
        self.newest = view;
    }

    /// The newest view.
    pub fn view(&self) -> &Arc<HubView>
        ensures { arc_value result.now ≡ self.now }
    {
        &self.newest
    }
}
