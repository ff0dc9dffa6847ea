//! The rule of the copies, and the kinds of step.

use crate::shown::{Shown, View};
use atomic_table::{Join, Split};
use crossbeam_utils::rule::{Outcome, Protocol};
use std::marker::{Brand, PhantomData};

/// The rule of the copies (`specs/Rule`).
pub struct Rule;

impl Protocol<Shown, View> for Rule {
    ghost use Rattle.snapshot_cell.specs.Rule.{Kept, newcomer};

    ghost holds = { Kept };

    ghost first = { newcomer };
}

/// How much of the log a pass knows. A contract says it; no value of it is made.
pub trait Behind {
    ghost use Rattle.std.specs.Prelude.{ℕ};

    ghost items: { ℕ };
}

impl Behind for Brand {
    ghost items = { 0 };
}

/// A look.
pub struct Looks<B: Behind> {
    of: PhantomData<B>,
}

impl<B: Behind> Outcome<Shown, View> for Looks<B> {
    ghost use Rattle.snapshot_cell.specs.Rule.{Looked};

    ghost then = { Looked B.items };
}

/// A publishing step.
pub struct Puts;

impl Outcome<Shown, View> for Puts {
    ghost use Rattle.snapshot_cell.specs.Rule.{Put};

    ghost then = { Put };
}

/// The writer tells a new reader which hub it is at.
pub struct Tells;

impl Split<View> for Tells {
    ghost use Rattle.snapshot_cell.specs.Rule.{note};

    ghost left = { λ v. v };

    ghost right = { note };
}

impl Join<View> for Tells {
    ghost use Rattle.snapshot_cell.specs.Rule.{taught, spent_note};

    ghost both = { taught };

    ghost spent = { spent_note };
}
