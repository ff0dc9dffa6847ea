//! What lies under the hub's lock.

ghost use Rattle.std.specs.Prelude.{◌≡◌, ◌<◌, ◌≤◌, List, [], ◌∷◌, ◌++◌, true, length, IfOk, IsTrue, OnErr};
ghost use Rattle.std.specs.Arc.{arc_value};
ghost use Rattle.text_defs.specs.Moments.{is_stamp};
ghost use Rattle.feed_defs.specs.declared.history.Entry.{Entry};
ghost use Rattle.feed_defs.specs.History.{is_sound, stamp_of};
ghost use Rattle.board_defs.specs.Views.{feed_at, hub_after, StandsFor};
ghost use Rattle.hub_shared.specs.Calls.{Takes};

use crate::NoMemory;
use crate::publishing::publish;
use crate::seat::FeedSeat;
use crate::tag::Tag;
use board_parts::HubView;
use feed_permits::Desk;
use feed_view::is_whole;
use hub_state::HubCore;
use keyed_lock::Keyed;
use rt_types::FeedMessage;
use snapshot_cell::{Publisher, Receipt};
use std::alloc::Global;
use std::marker::Model;
use std::snapshot::Snapshot;
use std::sync::{Arc, Wait};
use std::thread::Threads;

/// The newest view, who shows it, and how many messages each feed has. A contract sees which hub it
/// is.
pub(crate) struct Locked {
    pub(crate) core: HubCore,
    pub(crate) publisher: Publisher,
    pub(crate) desk: Desk,
}

impl Model for Locked {
    ghost use Rattle.hub_shared.specs.Seats.{Ties};
    ghost use Rattle.hub_shared.specs.Kept.{IsLocked};

    ghost Value = { Ties };

    ghost view = { λ locked. record {
      book = locked.publisher.line.book;
      table = locked.desk.table;
      plans = locked.core.plans;
    } };

    ghost invariant = { λ locked. IsLocked locked.core locked.publisher locked.desk };
}

impl Keyed<Tag> for Locked {
    ghost use Rattle.std.specs.Prelude.{◌≡◌};

    ghost fits = { λ tag locked. locked ≡ tag };
}

impl Locked {
    /// Takes the message in: shows the view with it, tells the seat its receipt and raises the
    /// feed's count. Where no memory is found, nothing was published and the seat is as it was.
    pub(crate) fn take_in<R: Threads + Wait + Sync>(
        &mut self,
        rt: &R,
        alloc: Global,
        seat: &mut FeedSeat,
        message: FeedMessage,
    ) -> Result<Receipt, NoMemory>
        requires tie { seat.old.ties ≡ self.old }
        requires sound { is_sound message ≡ true }
        requires newer { seat.old.last < stamp_of message }
        ensures same { self.new ≡ self.old }
        ensures taken { IfOk result (λ receipt. Takes seat.old message seat.new receipt) }
        ensures kept { OnErr result (seat.new ≡ seat.old) }
    {
        seat.level(&mut self.publisher, &mut self.desk);
        let feed = seat.feed();
        let stamp = message.header.timestamp.unwrap_or(0);
        counts_few(self.core.view(), feed);
        let noted = Snapshot::of(&message);
        let next = next_view(rt, alloc, &self.core, feed, message)?;
        let shown = Arc::try_clone(&next)?;
        let receipt = publish(rt, &mut self.publisher, feed, shown, &noted)?;
        self.core.commit(next);
        seat.count(&mut self.publisher, &mut self.desk, stamp);
        Ok(receipt)
    }
}

/// From how many entities on a whole data set is worth several threads.
const MANY_ENTITIES: usize = 2048;

/// The view after the message, which is made on several threads where that pays; or out of memory.
fn next_view(
    rt: &(impl Threads + Sync),
    alloc: Global,
    core: &HubCore,
    feed: u32,
    message: FeedMessage,
) -> Result<Arc<HubView>, NoMemory>
    requires feed { feed < length core.now.plans.feeds }
    requires moment { IsTrue (is_stamp (stamp_of message)) }
    requires newer { (feed_at core.now feed).fold.stamp < stamp_of message }
    ensures after { IfOk result (λ next. arc_value next ≡ hub_after feed message core.now) }
    ensures stands { (h : List Entry) → StandsFor h core.now → IfOk result (λ next.
        StandsFor (h ++ record { feed = feed; message = message } ∷ []) (arc_value next)) }
{
    if message.entity.as_slice().len() >= MANY_ENTITIES && is_whole(&message) {
        core.prepare_full(rt, alloc, feed, message)
    } else {
        core.prepare(alloc, feed, message)
    }
}

/// Does nothing; its contract tells that a feed has no more messages than its last stamp says.
fn counts_few(view: &HubView, feed: u32)
    requires { feed < length view.now.plans.feeds }
    ensures { (feed_at view.now feed).fold.count ≤ (feed_at view.now feed).fold.stamp }
{
    view.sound();
    let _count = view.feed(feed).count();
}
