//! What is left of a table.

ghost use Rattle.std.specs.Prelude.{◌≡◌, true, slice_get};
ghost use Rattle.std.specs.Option.{option_copied};
ghost use Rattle.delta_feed.specs.Pairs.{are_rising, by_own_id, first_under, past};

use entity_table::{Stored, Table, TableIter};
use std::marker::Model;

/// What is left of a table, by id, with the first of it at hand. A contract sees the list of it.
#[derive(Drop)]
pub(crate) struct Left<'a> {
    /// `None` only where nothing is left.
    first: Option<&'a Stored>,
    rest: TableIter<'a>,
}

impl<'a> Model for Left<'a> {
    ghost use Rattle.std.specs.Prelude.{◌≡◌, List, true};
    ghost use Rattle.std.specs.List.{cons_option};
    ghost use Rattle.std.specs.Option.{option_copied};
    ghost use Rattle.feed_defs.specs.declared.history.Stored.{Stored};
    ghost use Rattle.delta_feed.specs.Pairs.{is_headed};

    ghost Value = { List Stored };

    ghost view = { λ left. cons_option (option_copied left.first) left.rest };

    ghost invariant = { λ left. is_headed (option_copied left.first) left.rest ≡ true };
}

impl<'a> Left<'a> {
    /// All of a table.
    pub(crate) fn of(table: &'a Table) -> Left<'a>
        ensures all { by_own_id result ≡ table.entry.now }
        ensures rising { are_rising result ≡ true }
    {
        let mut rest = table.iter();
        let first = rest.next();
        Left { first, rest }
    }

    /// The first of it, if there is any. It stays.
    pub(crate) fn first(&self) -> Option<&'a Stored>
        ensures { option_copied result ≡ slice_get self.entry.now 0 }
    {
        self.first
    }

    /// The first of it, which goes, if it has that id.
    pub(crate) fn take_under(&mut self, id: &str) -> Option<&'a Stored>
        ensures taken { option_copied result ≡ first_under id.now self.old }
        ensures left { self.new ≡ past id.now self.old }
    {
        let first = self.first?;
        if first.entity.id.as_str() != id {
            return None;
        }
        self.first = self.rest.next();
        Some(first)
    }
}
