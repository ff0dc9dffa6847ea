//! Where departures at a stop come from.

ghost use Rattle.std.specs.Iterator.{YieldsFirst};
ghost use Rattle.run_departures.specs.Queued.{left_in};

use crate::departure::Departure;
use crate::live::Live;
use crate::scheduled::Scheduled;

/// Departures at one stop, in order.
#[derive(Drop)]
pub(crate) enum Source<'a> {
    /// By the timetable.
    Scheduled(Scheduled<'a>),
    /// By the updates of a feed.
    Live(Live<'a>),
}

impl<'a> Source<'a> {
    /// The first of those that are left.
    pub(crate) fn next(&mut self) -> Option<Departure>
        ensures { YieldsFirst left_in self.old result self.new }
    {
        match self {
            Source::Scheduled(left) => left.next(),
            Source::Live(left) => left.next(),
        }
    }
}
