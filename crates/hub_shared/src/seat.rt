//! The seats of the feeds.

ghost use Rattle.std.specs.Prelude.{◌≡◌, ℕ, ◌+◌, ◌<◌, ◌≤◌, [], length, slice_index, slice_set, Some, option_map};
ghost use Rattle.feed_defs.specs.History.{IsLegal, messages_of, last_stamp};
ghost use Rattle.feed_permits.specs.Seen.{fresh_key};
ghost use Rattle.hub_history.specs.Told.{history_of};
ghost use Rattle.hub_shared.specs.Seats.{IsOf, Begins, history_at, count_of, fresh_seat, last_feed};
ghost use Rattle.hub_shared.specs.Calls.{IsSound};

use feed_permits::{Desk, Key};
use snapshot_cell::{Pass, Publisher, Receipt};
use std::marker::Model;

/// The right to bring in messages of one feed. A contract sees which hub's it is, the feed's
/// number, how many of its messages were accepted, the stamp of the last one, and what its receipt
/// knows.
#[derive(Drop)]
pub struct FeedSeat {
    key: Key,
    pass: Pass,
    feed: u32,
    accepted: u64,
    last: u64,
    receipt: Option<Receipt>,
}

impl Model for FeedSeat {
    ghost use Rattle.hub_shared.specs.Seats.{SeatSeen};
    ghost use Rattle.hub_shared.specs.Kept.{IsSeat};

    ghost Value = { SeatSeen };

    ghost view = { λ seat. record {
      ties = record {
        book = seat.pass.line.book;
        table = seat.key.table;
        plans = seat.pass.shown.plans;
      };
      feed = seat.feed;
      accepted = seat.accepted;
      last = seat.last;
      receipt = seat.receipt;
    } };

    ghost invariant = { λ seat. IsSeat seat.key seat.pass seat.feed seat.accepted seat.last
        seat.receipt };
}

impl FeedSeat {
    /// The seat of a feed that sent nothing.
    pub(crate) fn new(key: Key, pass: Pass, feed: u32) -> FeedSeat
        requires key { key ≡ fresh_key key.table feed }
        requires log { pass.line.log ≡ [] }
        requires feeds { pass.line.feeds ≡ length pass.shown.plans.feeds }
        requires one { feed < pass.line.feeds }
        requires few { pass.line.feeds ≤ 64 }
        ensures { result ≡ fresh_seat (record {
          book = pass.line.book;
          table = key.table;
          plans = pass.shown.plans;
        }) feed }
    {
        FeedSeat {
            key,
            pass,
            feed,
            accepted: 0,
            last: 0,
            receipt: None,
        }
    }

    /// The number of its feed.
    pub fn feed(&self) -> u32
        ensures { result ≡ self.now.feed }
    {
        self.feed
    }

    /// How many messages of the feed were accepted.
    pub fn accepted(&self) -> u64
        ensures { result ≡ self.now.accepted }
    {
        self.accepted
    }

    /// The stamp of the last one, in seconds since 1970; 0 if there is none.
    pub fn last(&self) -> u64
        ensures { result ≡ self.now.last }
    {
        self.last
    }

    /// The receipt of the last one.
    pub fn receipt(&self) -> Option<&Receipt>
        ensures { option_map (λ receipt. receipt.now) result ≡ self.now.receipt }
    {
        self.receipt.as_ref()
    }

    /// Does nothing; its contract tells what is true of every seat.
    pub fn sound(&self)
        ensures { IsSound self.now }
    {
        let _ = &self.feed;
    }

    /// The history that was published begins with what the seat's receipt knows, and has no other
    /// message of its feed; the desk's count is the seat's. Nothing changes. It takes no memory.
    pub(crate) fn level(&mut self, publisher: &mut Publisher, desk: &mut Desk)
        requires hub { IsOf publisher.old.line self.old.ties }
        requires table { desk.old.table ≡ self.old.ties.table }
        requires counts { (feed : ℕ) → feed < 64 → slice_index desk.old.counts feed
            ≡ count_of feed (history_of publisher.old.line) }
        ensures seat { self.new ≡ self.old }
        ensures publisher { publisher.new ≡ publisher.old }
        ensures desk { desk.new ≡ desk.old }
        ensures begins { Begins (history_at self.old.receipt) (history_of publisher.old.line) }
        ensures own { messages_of self.old.feed (history_of publisher.old.line)
            ≡ messages_of self.old.feed (history_at self.old.receipt) }
        ensures counted { count_of self.old.feed (history_of publisher.old.line)
            ≡ self.old.accepted }
        ensures last { last_stamp self.old.feed (history_of publisher.old.line) ≡ self.old.last }
        ensures one { self.old.feed < length self.old.ties.plans.feeds }
        ensures few { self.old.feed < 64 }
    {
        publisher.show(&mut self.pass);
        desk.agree(&mut self.key);
    }

    /// The seat knows the history that was published, which ends with a message of its feed of that
    /// stamp, and the desk counts it. It takes no memory.
    pub(crate) fn count(&mut self, publisher: &mut Publisher, desk: &mut Desk, stamp: u64)
        requires hub { IsOf publisher.old.line self.old.ties }
        requires table { desk.old.table ≡ self.old.ties.table }
        requires level { slice_index desk.old.counts self.old.feed ≡ self.old.accepted }
        requires room { self.old.accepted < 253402300799 }
        requires more { count_of self.old.feed (history_of publisher.old.line)
            ≡ self.old.accepted + 1 }
        requires last { last_stamp self.old.feed (history_of publisher.old.line) ≡ stamp }
        requires ends { last_feed (history_of publisher.old.line) ≡ Some self.old.feed }
        requires legal { IsLegal publisher.old.line.feeds (history_of publisher.old.line) }
        ensures seat { self.new ≡ record self.old {
          accepted = self.old.accepted + 1;
          last = stamp;
          receipt = Some publisher.old.line;
        } }
        ensures publisher { publisher.new ≡ publisher.old }
        ensures desk { desk.new ≡ record desk.old {
          counts = slice_set desk.old.counts self.old.feed (self.old.accepted + 1);
        } }
    {
        publisher.show(&mut self.pass);
        self.receipt = Some(publisher.tell());
        desk.raise(&mut self.key);
        self.accepted += 1;
        self.last = stamp;
    }
}
