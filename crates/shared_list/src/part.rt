//! What a part of a list is, whether items stand in it or parts again.

ghost use Rattle.std.specs.Prelude.{◌≡◌, ℕ, ◌<◌, ◌++◌, List, [], ◌∷◌, length, IfSome, IfOk, OnOk};
ghost use Rattle.std.specs.FinMap.{put};
ghost use Rattle.std.specs.Option.{option_copied};
ghost use Rattle.std.specs.declared.cmp.Ordering.{Ordering};
ghost use Rattle.shared_list.specs.Order.{at_first, entries, item_with, without, Rises};
ghost use Rattle.shared_list.specs.Parts.{items_if_some, TellsLeft};
ghost use Rattle.shared_list.specs.Stamps.{NoneAbove};

use crate::NoMemory;
use crate::keyed::{KeyFor, Keyed};
use std::alloc::Global;
use std::cmp::Ordering;

/// What a part says of an item that was put into it.
#[derive(Drop)]
pub(crate) struct PutOutcome<P, T> {
    /// The item with its key, whose place the item took.
    pub(crate) replaced: Option<T>,
    /// The back of the part, which was taken off where the part had become too long.
    pub(crate) back: Option<P>,
}

/// What a part says of a key whose item was to be taken out.
#[derive(Drop)]
pub(crate) struct TakeOutcome<T> {
    /// The item with that key, if there was one.
    pub(crate) taken: Option<T>,
    /// Whether the part has no items left.
    pub(crate) none_left: bool,
}

/// A part of a list: some items in the order of their keys.
pub(crate) trait Part: Drop {
    /// What stands in it.
    type Item: Keyed;

    // Its items in order.
    ghost items: { Self → List Self.Item };

    // What holds of it beside the order of its items: no part within it is empty, and no item is
    // newer than it says.
    ghost sound: { Self → Type 0 };

    // How the key of its first item stands to another.
    ghost lead_cmp: { Self → Self.Item.Key → Ordering };

    /// A part with that one item.
    fn of_one(alloc: Global, item: Self::Item) -> Result<Self, NoMemory>
        ensures items { IfOk result (λ part. items part ≡ item ∷ []) }
        ensures sound { IfOk result (λ part. sound part) };

    /// How its first key stands to another. A part with no items is below all keys.
    fn lead_order<K: KeyFor<Self::Item>>(&self, key: K) -> Ordering
        ensures { result ≡ lead_cmp self.now (K.sought key) };

    /// The item with that key.
    fn item_of<K: KeyFor<Self::Item>>(&self, key: K) -> Option<&Self::Item>
        requires sound { sound self.now }
        requires rising { Rises Self.Item.key_cmp Self.Item.key_of (items self.now) }
        ensures { option_copied result
            ≡ item_with Self.Item.key_cmp Self.Item.key_of (K.sought key) (items self.entry.now) };

    /// A stamp that none of its items is above. It was the greatest of them when the part was made.
    fn newest(&self) -> u64
        requires sound { sound self.now }
        ensures { NoneAbove Self.Item.stamp_of result (items self.now) };

    /// A part with the same items and room for so many more, which shares with this one what it
    /// can.
    fn copied(&self, more: usize) -> Result<Self, NoMemory>
        requires sound { sound self.now }
        ensures items { IfOk result (λ same. items same ≡ items self.now) }
        ensures sound { IfOk result (λ same. sound same) };

    /// Puts the item in its place, and takes the back of the part off where it has become too long.
    fn put_item(&mut self, item: Self::Item) -> Result<PutOutcome<Self, Self::Item>, NoMemory>
        requires sound { sound self.old }
        requires rising { Rises Self.Item.key_cmp Self.Item.key_of (items self.old) }
        ensures put { IfOk result (λ outcome.
            entries Self.Item.key_of (items self.new ++ items_if_some items outcome.back)
            ≡ put Self.Item.key_cmp (Self.Item.key_of item) item
            (entries Self.Item.key_of (items self.old))) }
        ensures replaced { IfOk result (λ outcome. outcome.replaced
            ≡ item_with Self.Item.key_cmp Self.Item.key_of (Self.Item.key_of item)
            (items self.old)) }
        ensures front { OnOk result (0 < length (items self.new)) }
        ensures sound { OnOk result (sound self.new) }
        ensures back { IfOk result (λ outcome.
            IfSome outcome.back (λ back. 0 < length (items back))) }
        ensures back_sound { IfOk result (λ outcome. IfSome outcome.back (λ back. sound back)) };

    /// Takes the item with that key out, if there is one.
    fn take_out<K: KeyFor<Self::Item>>(
        &mut self,
        key: K,
    ) -> Result<TakeOutcome<Self::Item>, NoMemory>
        requires sound { sound self.old }
        requires rising { Rises Self.Item.key_cmp Self.Item.key_of (items self.old) }
        ensures without { OnOk result (entries Self.Item.key_of (items self.new)
            ≡ without Self.Item.key_cmp (K.sought key)
            (entries Self.Item.key_of (items self.old))) }
        ensures sound { OnOk result (sound self.new) }
        ensures taken { IfOk result (λ outcome. outcome.taken
            ≡ item_with Self.Item.key_cmp Self.Item.key_of (K.sought key) (items self.old)) }
        ensures left { IfOk result (λ outcome. TellsLeft outcome.none_left (items self.new)) };

    ghost leads: { (k : Self.Item.Key) (part : Self) → sound part → lead_cmp part k
        ≡ at_first (λ item. Self.Item.key_cmp (Self.Item.key_of item) k) (items part) };
}
