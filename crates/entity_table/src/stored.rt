//! A stored entity that several tables may hold.

ghost use Rattle.std.specs.Prelude.{◌≡◌, IfOk};
ghost use Rattle.std.specs.Cmp.Lexicographic.{slice_cmp, nat_list_cmp_total};
ghost use Rattle.std.specs.FinMap.{slice_cmp-IsAntisymmetric, nat_cmp-IsAntisymmetric};
ghost use Rattle.std.specs.Ordering.{nat_cmp};

use crate::NoMemory;
use feed_defs::Stored;
use rt_types::{Copied, Shared, Text};
use shared_list::{KeyFor, Keyed};
use std::alloc::Global;
use std::cmp::Ordering;
use std::marker::Model;

/// A share of an entity with its stamp, which are on the heap once for all tables that hold them: a
/// copy is a further share, and takes no memory. A contract sees the entity and the stamp.
#[derive(Drop)]
pub struct SharedStored {
    inner: Shared<Stored>,
}

impl Model for SharedStored {
    ghost use Rattle.feed_defs.specs.declared.history.Stored.{Stored};

    ghost Value = { Stored };

    ghost view = { λ shared. shared.inner };
}

impl SharedStored {
    /// The first share, or want of memory.
    pub fn new(alloc: Global, stored: Stored) -> Result<Self, NoMemory>
        ensures { IfOk result (λ shared. shared ≡ stored) }
    {
        Ok(SharedStored {
            inner: Shared::new(alloc, stored)?,
        })
    }

    /// The entity and its stamp.
    pub fn get(&self) -> &Stored
        ensures { result.now ≡ self.now }
    {
        self.inner.get()
    }
}

impl Copied for SharedStored {
    fn copy(&self) -> Result<Self, NoMemory> {
        Ok(SharedStored {
            inner: self.inner.copy()?,
        })
    }
}

impl Keyed for SharedStored {
    type Key = Text;

    ghost key_of = { λ stored. stored.entity.id };

    ghost key_cmp = { slice_cmp nat_cmp };

    ghost stamp_of = { λ stored. stored.stamp };

    fn stamp(&self) -> u64 {
        self.get().stamp
    }

    fn order(&self, other: &Self) -> Ordering {
        self.get().entity.id.order(other.get().entity.id.as_str())
    }

    ghost total = { nat_list_cmp_total };

    ghost exact = { slice_cmp-IsAntisymmetric nat_cmp-IsAntisymmetric };
}

/// An entity is found by its id.
impl<'a> KeyFor<SharedStored> for &'a str {
    ghost sought = { λ id. id.now };

    fn order_of(&self, stored: &SharedStored) -> Ordering {
        stored.get().entity.id.order(*self)
    }
}
