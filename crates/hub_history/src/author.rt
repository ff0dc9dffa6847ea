//! The author of a history.

ghost use Rattle.std.specs.Prelude.{◌≡◌, ◌≤◌, false, [], ◌∷◌, ◌++◌, length, IfSome};
ghost use Rattle.std.specs.Bool.{OnTrue, OnFalse};
ghost use mathlib.Core.List.{IsPrefix};
ghost use Rattle.feed_defs.specs.History.{IsLegal};
ghost use Rattle.hub_history.specs.declared.item.LogItem.TheVariants.{Accepted, Ended};
ghost use Rattle.hub_history.specs.Log.{is_ended};
ghost use Rattle.hub_history.specs.Told.{history_of, AreOne};

use crate::item::LogItem;
use crate::law::{Accepts, Closes, Law, Naming};
use crate::line::Line;
use crate::steps::{add, another, confirm, written};
use logbook::{Pen, Seen, Start, Word};
use std::marker::Model;

/// More items than any hub accepts: feeds are few and their stamps rise.
const MOST_ITEMS: u64 = 1 << 62;

/// The one who adds to a history, and so knows the whole of it. A contract sees what it knows.
#[derive(Drop)]
pub struct Author {
    head: Word<LogItem, u64, Law>,
    count: Word<LogItem, u64, Law>,
    pen: Pen,
    items: u64,
    entries: u64,
    feeds: u32,
    seen: Seen<LogItem, u64, Law>,
}

impl Model for Author {
    ghost use Rattle.std.specs.Prelude.{◌≤◌, ◌^◌};
    ghost use Rattle.hub_history.specs.Told.{Told, IsLine};
    ghost use Rattle.hub_history.specs.Authors.{IsAuthor};

    ghost Value = { Told };

    ghost view = { λ a. record { book = a.seen.book; feeds = a.feeds; log = a.seen.log } };

    ghost invariant = { λ a. record {
      line : IsLine a.items a.entries a.feeds a.seen.log;
      words : IsAuthor a.head a.count a.pen.book a.pen.nib a.seen.book a.seen.log;
      few : a.items ≤ 2 ^ 62;
    } };
}

impl Author {
    /// The author of a history of so many feeds in which nothing stands; or none, where the book
    /// could not be opened, which does not happen.
    pub fn open(feeds: u32) -> Option<Author>
        ensures log { IfSome result (λ author. author.log ≡ []) }
        ensures feeds { IfSome result (λ author. author.feeds ≡ feeds) }
    {
        let (seen, mut first, mut second) = Seen::open(Start::alone(), 0, 0);
        let head = Word::tracked(0, &mut first);
        let count = Word::tracked(0, &mut second);
        let pen = written(another(&count, &seen, 0)?);
        Some(Author {
            head,
            count,
            pen,
            items: 0,
            entries: 0,
            feeds,
            seen,
        })
    }

    /// What it knows, for another holder. It takes no memory.
    pub fn line(&self) -> Line
        ensures { result ≡ self.now }
    {
        Line {
            items: self.items,
            entries: self.entries,
            feeds: self.feeds,
            seen: self.seen.again(),
        }
    }

    /// Adds the message that the contract names, and answers whether it did. That it did not does
    /// not happen; then nothing was added.
    pub fn extend<E: Naming>(&mut self) -> bool
        requires legal { IsLegal self.old.feeds (history_of self.old ++ E.entry ∷ []) }
        requires goes_on { is_ended self.old.log ≡ false }
        ensures added { OnTrue result (self.new
            ≡ record self.old { log = self.old.log ++ Accepted E.entry ∷ [] }) }
        ensures kept { OnFalse result (self.new ≡ self.old) }
    {
        if self.items >= MOST_ITEMS {
            return false;
        }
        let Some(pen) = another(&self.count, &self.seen, self.items + 1) else {
            return false;
        };
        add::<Accepts<E>>(&self.head, &mut self.seen, &mut self.pen, self.items);
        self.items += 1;
        self.entries += 1;
        self.pen = written(pen);
        true
    }

    /// Marks the end, and answers whether it did, as `extend` does.
    pub fn end(&mut self) -> bool
        requires { is_ended self.old.log ≡ false }
        ensures added { OnTrue result (self.new
            ≡ record self.old { log = self.old.log ++ Ended ∷ [] }) }
        ensures kept { OnFalse result (self.new ≡ self.old) }
    {
        if self.items >= MOST_ITEMS {
            return false;
        }
        let Some(pen) = another(&self.count, &self.seen, self.items + 1) else {
            return false;
        };
        add::<Closes>(&self.head, &mut self.seen, &mut self.pen, self.items);
        self.items += 1;
        self.pen = written(pen);
        true
    }

    /// What another line knows begins what the author knows. It takes no memory and waits for
    /// nobody.
    pub fn shows(&mut self, line: &Line)
        requires { AreOne line.now self.old }
        ensures same { self.new ≡ self.old }
        ensures begins { IsPrefix line.now.log self.new.log }
    {
        let mut both = self.seen.again();
        both.learn(&line.seen);
        confirm(&self.head, &mut both, &mut self.pen, self.items);
    }
}
