//! Items that have a key, and keys by which they are found.

ghost use Rattle.std.specs.Prelude.{◌≡◌, ℕ, IfOk};
ghost use Rattle.std.specs.Cmp.{IsTotalOrder};
ghost use Rattle.std.specs.FinMap.{IsAntisymmetric};
ghost use Rattle.std.specs.declared.cmp.Ordering.{Ordering};

use crate::NoMemory;
use copying::Copied;
use std::cmp::Ordering;

/// An item of a list that is ordered by keys. A copy of it should cost little: share what is large.
pub trait Keyed: Copied {
    /// What a contract sees as its key. Items are compared where they stand, so none is made for
    /// that.
    type Key;

    ghost key_of: { Self → Self.Key };

    // How a key stands to another.
    ghost key_cmp: { Self.Key → Self.Key → Ordering };

    // When it came, as a number that rises.
    ghost stamp_of: { Self → ℕ };

    /// Its stamp; 0 where nobody asks for what is newer.
    fn stamp(&self) -> u64
        ensures { result ≡ stamp_of self.now };

    /// How its key stands to that of another item.
    fn order(&self, other: &Self) -> Ordering
        ensures { result ≡ key_cmp (key_of self.now) (key_of other.now) };

    /// The same items, with room for so many more; or out of memory. Each is copied by itself,
    /// unless the type of the items can have all of them copied at once.
    fn copies(items: &Vec<Self>, more: usize) -> Result<Vec<Self>, NoMemory>
        ensures { IfOk result (λ same. same.items ≡ items.now.items) }
    {
        let mut same = Vec::with_capacity(*items.allocator(), items.len().saturating_add(more))?;
        for item in items {
            same.push(item.copy()?)?;
        }
        Ok(same)
    }

    // Keys are in a total order, in which no two of them tie.
    ghost total: { IsTotalOrder key_cmp };

    ghost exact: { IsAntisymmetric key_cmp };
}

/// A key by which items are found, in whatever form it is at hand: a text, a struct of numbers, or
/// an item that has it.
pub trait KeyFor<T: Keyed>: Copy {
    // The key that it is.
    ghost sought: { Self → T.Key };

    /// How the key of an item stands to it.
    fn order_of(&self, item: &T) -> Ordering
        ensures { result ≡ T.key_cmp (T.key_of item.now) (sought self.now) };
}

impl<'a, T: Keyed> KeyFor<T> for &'a T {
    ghost sought = { λ item. T.key_of item.now };

    fn order_of(&self, item: &T) -> Ordering {
        item.order(*self)
    }
}
