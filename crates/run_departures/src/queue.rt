//! The departures of a source, of which the first was taken out.

ghost use Rattle.std.specs.Prelude.{◌≡◌, slice_get};
ghost use Rattle.std.specs.Iterator.{YieldsFirst};
ghost use Rattle.run_departures.specs.Queued.{left_in};

use crate::departure::Departure;
use crate::source::Source;
use std::marker::Model;

/// Departures at one stop, in order. A contract sees the list of those that are left.
#[derive(Drop)]
pub(crate) struct Queue<'a> {
    /// The first of them; `None` only where there is none.
    head: Option<Departure>,
    rest: Source<'a>,
}

impl<'a> Model for Queue<'a> {
    ghost use Rattle.std.specs.Prelude.{◌≡◌, List, true};
    ghost use Rattle.std.specs.List.{cons_option};
    ghost use Rattle.run_departures.specs.declared.departure.Departure.{Departure};

    ghost Value = { List Departure };

    ghost use Rattle.run_departures.specs.Queued.{left_in, is_headed};

    ghost view = { λ q. cons_option q.head (left_in q.rest) };

    ghost invariant = { λ q. is_headed q.head (left_in q.rest) ≡ true };
}

impl<'a> Queue<'a> {
    /// Those of a source.
    pub(crate) fn over(source: Source<'a>) -> Queue<'a>
        ensures { result ≡ left_in source.entry }
    {
        let mut rest = source;
        let head = rest.next();
        Queue { head, rest }
    }

    /// The first of them, if there is one. It stays.
    pub(crate) fn head(&self) -> Option<Departure>
        ensures { result ≡ slice_get self.entry.now 0 }
    {
        self.head
    }

    /// The first of them, which goes.
    pub(crate) fn take(&mut self) -> Option<Departure>
        ensures { YieldsFirst (λ left. left) self.old result self.new }
    {
        let head = self.head;
        self.head = self.rest.next();
        head
    }
}
