//! The law of the book in which the log is kept, and the kinds of step.

use crate::item::LogItem;
use logbook::{Gain, Plain, Play, Rule};
use std::marker::{Brand, PhantomData};

/// The law of the book (`specs/Rules`).
pub struct Law;

impl Rule<LogItem, u64> for Law {
    ghost use Rattle.std.specs.Prelude.{[]};
    ghost use base.Fml.{ftrue};
    ghost use Rattle.hub_history.specs.Rules.{IsKept};

    ghost holds = { λ cells log. IsKept cells log };

    ghost first = { [] };

    ghost hinted = { λ n log. Unit {0} };

    ghost shows = { λ log. [] };

    ghost keeps = { λ names log. ftrue };

    ghost moves = { λ ask before after answer. Unit {0} };
}

/// Callers trade nothing.
pub(crate) struct Nothing;

impl Gain<LogItem, u64> for Nothing {
    ghost use base.Fml.{ftrue};

    ghost after = { λ names about answer. ftrue };
}

/// A step that makes a cell.
pub(crate) struct Grows;

impl Play<LogItem, u64> for Grows {
    ghost use Rattle.hub_history.specs.Rules.{Grown};

    ghost then = { Grown };
}

/// A step that adds an item.
pub(crate) struct Adds;

impl Play<LogItem, u64> for Adds {
    ghost use Rattle.hub_history.specs.Rules.{Added};

    ghost then = { Added };
}

/// A step that looks whether the log is as long as was seen.
pub(crate) struct Confirms;

impl Play<LogItem, u64> for Confirms {
    ghost use Rattle.hub_history.specs.Rules.{Confirmed};

    ghost then = { Confirmed };
}

/// Which message is accepted. A contract says it; no value of it is made.
pub trait Naming {
    ghost use Rattle.feed_defs.specs.declared.history.Entry.{Entry};

    ghost entry: { Entry };
}

impl Naming for Brand {
    ghost use Rattle.hub_history.specs.Log.{some_entry};

    ghost entry = { some_entry };
}

/// A step asks for the named message.
pub(crate) struct Accepts<E: Naming> {
    of: PhantomData<E>,
}

impl<E: Naming> Plain<(), LogItem, u64> for Accepts<E> {
    ghost use Rattle.std.specs.Prelude.{None};
    ghost use Rattle.hub_history.specs.declared.item.LogItem.TheVariants.{Accepted};

    ghost ask = { λ about. Accepted E.entry };

    ghost state = { λ about. None };
}

/// A step asks for the end.
pub(crate) struct Closes;

impl Plain<(), LogItem, u64> for Closes {
    ghost use Rattle.std.specs.Prelude.{None};
    ghost use Rattle.hub_history.specs.declared.item.LogItem.TheVariants.{Ended};

    ghost ask = { λ about. Ended };

    ghost state = { λ about. None };
}
