//! Numbers that look random, and are the same in every run.

ghost use Rattle.std.specs.Prelude.{◌≤◌};

/// A linear congruential generator of 64 bits.
#[derive(Clone, Copy)]
pub struct Dice {
    state: u64,
}

impl Dice {
    /// A generator that begins at this number.
    pub fn new(state: u64) -> Dice {
        Dice { state }
    }

    /// A number below the given one, 0 below 0. The high bits are taken, since the low ones repeat
    /// soon.
    pub fn below(&mut self, limit: u32) -> u32
        ensures { result ≤ limit }
    {
        self.state = self
            .state
            .wrapping_mul(6_364_136_223_846_793_005)
            .wrapping_add(1_442_695_040_888_963_407);
        let high = (self.state >> 32) as u32;
        if limit == 0 { 0 } else { high % limit }
    }

    /// Whether one of so many throws is a hit.
    pub fn one_in(&mut self, throws: u32) -> bool {
        self.below(throws) == 0
    }
}
