//! Which refusals of a feed's messages are told.

ghost use Rattle.std.specs.Prelude.{◌≡◌};
ghost use Rattle.hub_ports.specs.Pacing.{new_refusals, told_of, refusals_after};

use crate::pacing::Pace;
use hub_core::Refusal;

/// The messages of a feed that were refused, so far as that is told: those for which there was no
/// memory at a pace of their own.
#[derive(Clone, Copy, Debug, PartialEq, Eq)]
pub struct Refusals {
    is_polled: bool,
    pub(crate) refused: Pace,
    pub(crate) starved: Pace,
}

impl Refusals {
    /// Nothing was refused yet, of an address that is asked again and again or of another feed.
    pub fn new(is_polled: bool) -> Refusals
        ensures { result ≡ new_refusals is_polled }
    {
        Refusals {
            is_polled,
            refused: Pace::new(),
            starved: Pace::new(),
        }
    }

    /// One more is refused, at a moment in seconds of a clock that never goes back. Where that is
    /// to be told now: of how many. An address that has nothing new repeats its message, which
    /// isn't told.
    pub fn count(&mut self, refusal: &Refusal, now: u64) -> Option<u64>
        ensures told { result ≡ told_of self.old refusal.now now }
        ensures after { self.new ≡ refusals_after self.old refusal.now now }
    {
        match refusal {
            Refusal::NoMemory => self.starved.count(now),
            Refusal::Stale { last, got } if self.is_polled && got == last => None,
            Refusal::TooLong { .. }
            | Refusal::Malformed { .. }
            | Refusal::Version(_)
            | Refusal::BadStamp { .. }
            | Refusal::Stale { .. } => self.refused.count(now),
        }
    }
}
