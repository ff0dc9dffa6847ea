//! The kinds of step that the rule allows.

ghost use Rattle.std.specs.Prelude.{◌≡◌};
ghost use Rattle.feed_permits.specs.Rule.{Kept};
ghost use Rattle.feed_permits.specs.Views.{first_view, dealt, new_key, counts_note, grant_note, with_counts, with_low, spent_note};
ghost use Rattle.feed_permits.specs.Plays.{Tested, Granted, Counted};

use crate::view::View;
use atomic_table::{Join, Play, Split, TableRule};

/// The rule of the permits (`specs/Rule`).
pub struct Rule;

impl TableRule<(), View, ()> for Rule {
    ghost holds = { λ key s. Kept s };

    ghost first = { λ key. first_view };
}

/// The desk hands out a key.
pub(crate) struct Deals;

impl Split<View> for Deals {
    ghost left = { dealt };

    ghost right = { new_key };
}

/// The desk's counts go into a note, and from there into a key.
pub(crate) struct Tells;

impl Split<View> for Tells {
    ghost left = { λ v. v };

    ghost right = { counts_note };
}

impl Join<View> for Tells {
    ghost both = { with_counts };

    ghost spent = { spent_note };
}

/// What a key was granted goes into a note, and from there into the desk.
pub(crate) struct Vouches;

impl Split<View> for Vouches {
    ghost left = { λ v. v };

    ghost right = { grant_note };
}

impl Join<View> for Vouches {
    ghost both = { with_low };

    ghost spent = { spent_note };
}

/// A key looks at the table, and learns that its count is at most what it was granted.
pub(crate) struct Tests;

impl Play<(), View> for Tests {
    ghost then = { Tested };
}

/// A key is granted once more.
pub(crate) struct Grants;

impl Play<(), View> for Grants {
    ghost then = { Granted };
}

/// The desk counts what a key was granted.
pub(crate) struct Counts;

impl Play<(), View> for Counts {
    ghost then = { Counted };
}
