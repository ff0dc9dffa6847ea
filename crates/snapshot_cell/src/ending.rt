//! Endings.

ghost use Rattle.std.specs.Prelude.{◌≡◌, length};
ghost use Rattle.hub_history.specs.Told.{history_of};

use crate::copies::SnapWriter;
use hub_history::Line;
use std::marker::Model;
use std::sync::Wait;

/// The end of a hub's history. A contract sees the ended log. It keeps the copies, so passes may
/// still look; it is not dropped, but ends by `end`.
pub struct Ending {
    pub(crate) line: Line,
    pub(crate) writer: SnapWriter,
}

impl Model for Ending {
    ghost use Rattle.std.specs.Prelude.{◌≡◌, true};
    ghost use Rattle.hub_history.specs.Log.{is_ended};
    ghost use Rattle.hub_history.specs.Told.{Told};

    ghost Value = { Told };

    ghost view = { λ ending. ending.line };

    ghost invariant = { λ ending. is_ended ending.line.log ≡ true };
}

impl Ending {
    /// How many messages were accepted.
    pub fn number(&self) -> u64
        ensures { result ≡ length (history_of self.now) }
    {
        self.line.number()
    }

    /// Takes the copies apart. It waits for those that still read them, and takes no memory.
    pub fn end<R: Wait>(self, rt: &R) {
        let Ending { line: _, writer } = self;
        writer.take(rt);
    }
}
