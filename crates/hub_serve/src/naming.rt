//! Which hub a reader is at, and which place a thread has.

use std::marker::Brand;

/// A hub. A contract says which; no value of it is made.
pub(crate) trait OfHub {
    ghost use Rattle.hub_shared.specs.Seats.{Ties};

    ghost ties: { Ties };
}

impl OfHub for Brand {
    ghost use Rattle.hub_serve.specs.Ties.{some_hub};

    ghost ties = { some_hub };
}

/// The number of a place, as a gate is told it. There are 64 places at most.
pub(crate) fn number_of(place: usize) -> u32 {
    u32::try_from(place).unwrap_or(u32::MAX)
}
