//! How often a hub was looked at.

ghost use Rattle.std.specs.Prelude.{◌≡◌, ◌+◌};

use boxcar::tag::{Names, Tag};
use std::marker::Model;

/// A count that contracts alone see. It takes no bytes, so that it never comes to an end.
#[derive(Drop)]
pub(crate) struct Looks {
    // A list that only contracts see, with an item for each look.
    tag: Tag,
}

impl Model for Looks {
    ghost use Rattle.std.specs.Prelude.{ℕ, length};

    ghost Value = { ℕ };

    ghost view = { λ looks. length looks.tag.numbers };
}

impl Looks {
    /// No looks yet.
    pub(crate) fn none() -> Looks
        ensures { result ≡ 0 }
    {
        Looks { tag: Tag::empty() }
    }

    /// One look more.
    pub(crate) fn tick(&mut self)
        ensures { self.new ≡ self.old + 1 }
    {
        self.tag = Tag::of::<Tag, OneMore>(&self.tag);
    }
}

/// The list with an item more.
struct OneMore;

impl Names<Tag> for OneMore {
    ghost use Rattle.std.specs.Prelude.{◌∷◌};

    ghost numbers = { λ tag. 0 ∷ tag.numbers };
}
