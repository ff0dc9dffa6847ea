//! How far an iterator over departures has come.

ghost use Rattle.std.specs.Prelude.{◌≡◌};
ghost use Rattle.stop_index.specs.Left as rule;

use crate::slot::Slot;

/// Where an iterator over departures is.
#[derive(Clone, Copy)]
pub(crate) enum Reached {
    /// Before all that leave from that instant on, in seconds of the Unix epoch.
    Instant(i64),
    /// After that departure.
    Departure(Slot),
}

impl Reached {
    /// Whether the departure is still to come.
    pub(crate) fn is_before(&self, slot: &Slot) -> bool
        ensures { result ≡ rule.is_ahead self.now slot.now }
    {
        match self {
            Reached::Instant(start) => *start <= slot.at,
            Reached::Departure(last) => last.order(slot).is_lt(),
        }
    }

    /// The instant before which none is to come.
    pub(crate) fn instant(&self) -> i64
        ensures { result ≡ rule.instant_of self.now }
    {
        match self {
            Reached::Instant(start) => *start,
            Reached::Departure(last) => last.at,
        }
    }
}
