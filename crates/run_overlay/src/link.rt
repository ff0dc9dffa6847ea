//! Updates about runs, by the ids of their entities.

ghost use Rattle.std.specs.Cmp.Lexicographic.{slice_cmp, nat_list_cmp_total};
ghost use Rattle.std.specs.FinMap.{slice_cmp-IsAntisymmetric, nat_cmp-IsAntisymmetric};
ghost use Rattle.std.specs.Ordering.{nat_cmp};

use crate::NoMemory;
use crate::mention::Mention;
use copying::Copied;
use rt_types::Text;
use shared_list::{KeyFor, Keyed};
use std::cmp::Ordering;

/// The run that the update of an entity is about.
#[derive(Drop)]
pub(crate) struct Link {
    /// The id of the entity.
    pub(crate) id: Text,
    pub(crate) mention: Mention,
}

impl Copied for Link {
    fn copy(&self) -> Result<Self, NoMemory> {
        Ok(Link {
            id: self.id.copy()?,
            mention: self.mention,
        })
    }
}

impl Keyed for Link {
    type Key = Text;

    ghost key_of = { λ link. link.id };

    ghost key_cmp = { slice_cmp nat_cmp };

    // Nobody asks which are newer.
    ghost stamp_of = { λ _. 0 };

    fn stamp(&self) -> u64 {
        0
    }

    fn order(&self, other: &Self) -> Ordering {
        self.id.order(other.id.as_str())
    }

    ghost total = { nat_list_cmp_total };

    ghost exact = { slice_cmp-IsAntisymmetric nat_cmp-IsAntisymmetric };
}

/// A link is found by the id of the entity.
impl<'a> KeyFor<Link> for &'a str {
    ghost sought = { λ id. id.now };

    fn order_of(&self, link: &Link) -> Ordering {
        link.id.order(*self)
    }
}
