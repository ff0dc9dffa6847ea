//! The times of a trip.

ghost use Rattle.std.specs.Prelude.{◌≡◌};

use std::marker::Model;

/// When a trip is at a place, in seconds since noon less twelve hours of the service day, which may
/// pass 24 hours (GTFS Schedule, "Field Types", Time).
#[derive(Clone, Copy, Debug, PartialEq, Eq)]
pub struct PlaceTime {
    /// When the place is reached, in seconds.
    pub arrival: u32,
    /// When it is left, in seconds.
    pub departure: u32,
}

/// The times of a trip at its places, in their order.
#[derive(Debug, Drop)]
pub struct Times {
    items: Vec<PlaceTime>,
}

impl Model for Times {
    ghost use Rattle.std.specs.Prelude.{List};
    ghost use Rattle.freq_runs.specs.declared.times.PlaceTime.{PlaceTime};

    ghost Value = { List PlaceTime };

    ghost view = { λ times. times.items.items };
}

impl Times {
    /// These times. It takes no memory.
    pub fn new(items: Vec<PlaceTime>) -> Times
        ensures { result ≡ items.items }
    {
        Times { items }
    }

    /// The times, in order.
    pub fn as_slice(&self) -> &[PlaceTime]
        ensures { result.now ≡ self.now }
    {
        self.items.as_slice()
    }
}
