//! The calls of a form in memory, each numbered from 1 on, of which the listed ones fail.
ghost use Rattle.std.specs.Prelude.{◌≡◌, ◌≤◌, if◌then◌else◌};
ghost use Rattle.hub_outside.specs.Count.{one_more};
ghost use Rattle.hub_outside.specs.Calls.{no_calls, is_failing, with_call, with_fault, cut_at};

use std::marker::Model;

/// The calls of a form in memory. A contract sees how many there were, how many of them were
/// faults, and which fail.
#[derive(Drop)]
pub struct Calls {
    failing: Vec<u64>,
    calls: u64,
    faults: u64,
}

impl Model for Calls {
    ghost use Rattle.hub_outside.specs.Calls.{CallCounts};

    ghost Value = { CallCounts };

    ghost view = { λ c. record { failing = c.failing.items; calls = c.calls; faults = c.faults } };
}

impl Calls {
    /// No call yet. The calls whose numbers, from 1 on, are in `failing` fail. It takes no memory.
    pub fn new(failing: Vec<u64>) -> Calls
        ensures { result ≡ no_calls failing.items }
    {
        Calls {
            failing,
            calls: 0,
            faults: 0,
        }
    }

    /// How many calls there were.
    pub(crate) fn count(&self) -> u64
        ensures { result ≡ self.now.calls }
    {
        self.calls
    }

    /// Counts a call, and says whether it is to fail. One that fails is counted as a fault too.
    pub fn begin(&mut self) -> bool
        ensures fails { result ≡ is_failing self.old }
        ensures after { self.new ≡ (if result then with_fault self.old else with_call self.old) }
        ensures faults { self.old.faults ≤ self.new.faults }
    {
        self.calls = self.calls.saturating_add(1);
        let fails = self.failing.contains(&self.calls);
        if fails {
            self.faults = self.faults.saturating_add(1);
        }
        fails
    }

    /// Counts a fault of the call that was counted last.
    pub(crate) fn fault(&mut self)
        ensures after { self.new ≡ record self.old { faults = one_more self.old.faults } }
        ensures faults { self.old.faults ≤ self.new.faults }
    {
        self.faults = self.faults.saturating_add(1);
    }
}

/// How many of `most` bytes the call after `calls` others moves.
pub(crate) fn cut(pieces: &[u32], calls: u64, most: usize) -> usize
    ensures { result ≡ cut_at pieces.now calls most }
{
    match pieces.get(calls as usize) {
        Some(size) => ((*size).max(1) as usize).min(most),
        None => most,
    }
}
