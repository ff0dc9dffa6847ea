//! A beginning of the history.

ghost use Rattle.std.specs.Prelude.{◌≡◌, ◌⊎◌, true, length, nat_lt};
ghost use mathlib.Core.List.{IsPrefix};
ghost use Rattle.feed_defs.specs.History.{IsLegal};
ghost use Rattle.hub_history.specs.Log.{is_ended, is_orderly};
ghost use Rattle.hub_history.specs.Told.{history_of, AreOne};

use crate::item::LogItem;
use crate::law::Law;
use logbook::Seen;
use std::marker::Model;

/// A beginning of a hub's history that was seen. A contract sees which history it is of, for how
/// many feeds, and the log so far.
#[derive(Drop)]
pub struct Line {
    // How many items of the log were seen, and how many of these are accepted messages.
    pub(crate) items: u64,
    pub(crate) entries: u64,
    pub(crate) feeds: u32,
    pub(crate) seen: Seen<LogItem, u64, Law>,
}

impl Model for Line {
    ghost use Rattle.hub_history.specs.Told.{Told, IsLine};

    ghost Value = { Told };

    ghost view = { λ line. record {
      book = line.seen.book;
      feeds = line.feeds;
      log = line.seen.log;
    } };

    ghost invariant = { λ line. IsLine line.items line.entries line.feeds line.seen.log };
}

impl Line {
    /// How many accepted messages it knows.
    pub fn number(&self) -> u64
        ensures { result ≡ length (history_of self.now) }
    {
        self.entries
    }

    /// Whether it knows less of the log than the other.
    pub fn is_behind(&self, other: &Line) -> bool
        ensures { result ≡ nat_lt (length self.now.log) (length other.now.log) }
    {
        self.items < other.items
    }

    /// Does nothing; its contract tells what is true of every line.
    pub fn sound(&self)
        ensures legal { IsLegal self.now.feeds (history_of self.now) }
        ensures orderly { is_orderly self.now.log ≡ true }
    {
        let _ = &self.items;
    }

    /// A copy. It takes no memory.
    pub fn again(&self) -> Line
        ensures { result ≡ self.now }
    {
        Line {
            items: self.items,
            entries: self.entries,
            feeds: self.feeds,
            seen: self.seen.again(),
        }
    }

    /// Knows what both knew: the longer of the two, which both begin. It takes no memory.
    pub fn learn(&mut self, other: &Line)
        requires { AreOne other.now self.old }
        ensures one { (self.new ≡ self.old) ⊎ (self.new ≡ other.now) }
        ensures begins { IsPrefix self.old.log self.new.log }
        ensures other_begins { IsPrefix other.now.log self.new.log }
    {
        let longer = self.longer(other);
        *self = longer;
    }

    /// The longer of two lines of one history.
    fn longer(&self, other: &Line) -> Line
        requires { AreOne other.now self.now }
        ensures one { (result ≡ self.now) ⊎ (result ≡ other.now) }
        ensures begins { IsPrefix self.now.log result.log }
        ensures other_begins { IsPrefix other.now.log result.log }
    {
        let mut both = self.seen.again();
        both.learn(&other.seen);
        if self.items < other.items {
            other.again()
        } else {
            self.again()
        }
    }

    /// Knows the whole of a history that has ended, which begins with all that it knew.
    pub fn finish(&mut self, ended: &Line)
        requires one { AreOne ended.now self.old }
        requires ended { is_ended ended.now.log ≡ true }
        ensures whole { self.new ≡ ended.now }
        ensures begins { IsPrefix self.old.log ended.now.log }
    {
        let mut both = self.seen.again();
        both.learn(&ended.seen);
        *self = ended.again();
    }
}
