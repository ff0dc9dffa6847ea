//! How many items are copied when several changes are done together.

ghost use Rattle.std.specs.Prelude.{◌≡◌, IfOk};
ghost use Rattle.std.specs.FinMap.{nat_cmp-IsAntisymmetric};
ghost use Rattle.std.specs.Ordering.{nat_cmp};
ghost use Rattle.std.proofs.lemmas.Cmp.{nat_cmp_total};

use copying::Copied;
use shared_list::{Change, KeyFor, Keyed, NoMemory, SharedList};
use std::alloc::Global;
use std::cell::Cell;
use std::cmp::Ordering;
use std::marker::Model;
use std::rc::Rc;
use std::test::Fail;

/// A number that is its own key, and the count of copies that were made of any. A contract sees the
/// number.
#[derive(Drop)]
struct Tallied {
    number: u32,
    copies: Rc<Cell<usize>>,
}

impl Model for Tallied {
    ghost use Rattle.std.specs.Prelude.{ℕ};

    ghost Value = { ℕ };

    ghost view = { λ item. item.number };
}

impl Tallied {
    /// A number, counted with others.
    fn new(number: u32, copies: &Rc<Cell<usize>>) -> Result<Self, NoMemory>
        ensures { IfOk result (λ item. item ≡ number) }
    {
        Ok(Tallied {
            number,
            copies: copies.clone()?,
        })
    }
}

impl Copied for Tallied {
    fn copy(&self) -> Result<Self, NoMemory> {
        self.copies.set(self.copies.get().wrapping_add(1));
        Tallied::new(self.number, &self.copies)
    }
}

impl Keyed for Tallied {
    type Key = u32;

    ghost key_of = { λ item. item };

    ghost key_cmp = { nat_cmp };

    // Nobody asks which are newer.
    ghost stamp_of = { λ _. 0 };

    fn stamp(&self) -> u64 {
        0
    }

    fn order(&self, other: &Self) -> Ordering {
        self.number.cmp(&other.number)
    }

    ghost total = { nat_cmp_total };

    ghost exact = { nat_cmp-IsAntisymmetric };
}

impl KeyFor<Tallied> for u32 {
    ghost sought = { λ number. number };

    fn order_of(&self, item: &Tallied) -> Ordering {
        item.number.cmp(self)
    }
}

/// A list of the numbers below 1024, which fill each leaf and each node.
fn full(alloc: Global, copies: &Rc<Cell<usize>>) -> Result<SharedList<Tallied>, NoMemory> {
    let mut list = SharedList::empty(alloc);
    for number in 0..1024u32 {
        list = list.with(Tallied::new(number, copies)?)?.list;
    }
    Ok(list)
}

/// How many items are copied when a version of the list is changed at so many numbers, each so far
/// above the one before: every second one is replaced, and the others are taken out.
fn copies_made(alloc: Global, count: u32, step: u32) -> Result<usize, NoMemory> {
    let copies = Rc::new(alloc, Cell::new(0usize))?;
    let old = full(alloc, &copies)?;
    let mut changes = Vec::new(alloc);
    for n in 0..count {
        let number = n.wrapping_mul(step);
        changes.push(if n % 2 == 0 {
            Change::Put(Tallied::new(number, &copies)?)
        } else {
            Change::Remove(number)
        })?;
    }
    let before = copies.get();
    let new = old.share()?.with_all(changes)?;
    let made = copies.get().wrapping_sub(before);
    let lost = old.len().wrapping_sub(new.len());
    Ok(if lost == count as usize / 2 { made } else { 0 })
}

#[test]
fn each_leaf_is_copied_once(rt: HostRuntime) -> Result<(), Fail> {
    let alloc = rt.alloc();
    assert_eq!(rt; copies_made(alloc, 20, 1)?, 32);
    assert_eq!(rt; copies_made(alloc, 20, 32)?, 320);
    assert_eq!(rt; copies_made(alloc, 40, 16)?, 640);
    Ok(())
}
