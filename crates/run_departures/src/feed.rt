//! A feed as departures are asked of it.

ghost use Rattle.std.specs.Prelude.{◌≡◌};

use run_overlay::Overlay;
use std::marker::Model;

/// A feed: its number among all feeds, its `max_age`, and the overlay of what it holds. A contract
/// sees it as `LiveFeed`.
#[derive(Drop)]
pub struct LiveFeed<'a> {
    number: u32,
    max_age: u64,
    overlay: &'a Overlay,
}

impl<'a> Model for LiveFeed<'a> {
    ghost use Rattle.run_departures.specs.Bids.{LiveFeed};

    ghost Value = { LiveFeed };

    ghost view = { λ f.
        record { number = f.number; max_age = f.max_age; overlay = f.overlay.now } };
}

impl<'a> LiveFeed<'a> {
    /// The feed of that number. Its updates count for `max_age` seconds after their stamps; 0 is no
    /// end.
    pub fn new(number: u32, max_age: u64, overlay: &'a Overlay) -> LiveFeed<'a>
        ensures { result
            ≡ record { number = number; max_age = max_age; overlay = overlay.entry.now } }
    {
        LiveFeed {
            number,
            max_age,
            overlay,
        }
    }

    /// Its number among all feeds.
    pub fn number(&self) -> u32
        ensures { result ≡ self.entry.now.number }
    {
        self.number
    }

    /// For how many seconds its updates count; 0 is no end.
    pub fn max_age(&self) -> u64
        ensures { result ≡ self.entry.now.max_age }
    {
        self.max_age
    }

    /// What its updates come to.
    pub fn overlay(&self) -> &'a Overlay
        ensures { result.now ≡ self.entry.now.overlay }
    {
        self.overlay
    }
}
