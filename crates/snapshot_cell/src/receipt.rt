//! Receipts.

ghost use Rattle.std.specs.Prelude.{◌≡◌, length};
ghost use Rattle.hub_history.specs.Told.{history_of};

use hub_history::Line;
use std::marker::Model;

/// A receipt of an accepted message: it knows the history up to that message. A contract sees what
/// it knows.
#[derive(Drop)]
pub struct Receipt {
    pub(crate) line: Line,
}

impl Model for Receipt {
    ghost use Rattle.hub_history.specs.Told.{Told};

    ghost Value = { Told };

    ghost view = { λ receipt. receipt.line };
}

impl Receipt {
    /// How many messages were accepted up to this one.
    pub fn number(&self) -> u64
        ensures { result ≡ length (history_of self.now) }
    {
        self.line.number()
    }

    /// A second receipt of the same history. It takes no memory.
    pub fn again(&self) -> Receipt
        ensures { result ≡ self.now }
    {
        Receipt {
            line: self.line.again(),
        }
    }
}
