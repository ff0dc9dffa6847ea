//! A list of plain values, which are copied all at once.

ghost use Rattle.std.specs.FinMap.{nat_cmp-IsAntisymmetric};
ghost use Rattle.std.specs.Ordering.{nat_cmp};
ghost use Rattle.std.proofs.lemmas.Cmp.{nat_cmp_total};

use copying::Copied;
use shared_list::{Change, KeyFor, Keyed, NoMemory, SharedList};
use std::alloc::Global;
use std::cmp::Ordering;
use std::test::Fail;

/// A number with a weight.
#[derive(Clone, Copy)]
struct Weight {
    number: u32,
    weight: u32,
}

/// The number by which a weight is found.
#[derive(Clone, Copy)]
struct Number {
    number: u32,
}

impl Copied for Weight {
    fn copy(&self) -> Result<Self, NoMemory> {
        Ok(*self)
    }
}

impl Keyed for Weight {
    type Key = u32;

    ghost key_of = { λ item. item.number };

    ghost key_cmp = { nat_cmp };

    // Nobody asks which are newer.
    ghost stamp_of = { λ _. 0 };

    fn stamp(&self) -> u64 {
        0
    }

    fn order(&self, other: &Self) -> Ordering {
        self.number.cmp(&other.number)
    }

    fn copies(items: &Vec<Self>, more: usize) -> Result<Vec<Self>, NoMemory> {
        let mut same = Vec::with_capacity(*items.allocator(), items.len().saturating_add(more))?;
        same.extend_from_slice(items.as_slice())?;
        Ok(same)
    }

    ghost total = { nat_cmp_total };

    ghost exact = { nat_cmp-IsAntisymmetric };
}

impl KeyFor<Weight> for Number {
    ghost sought = { λ key. key.number };

    fn order_of(&self, item: &Weight) -> Ordering {
        item.number.cmp(&self.number)
    }
}

/// So many numbers from 0 on, each with a weight of 1.
fn numbers(alloc: Global, count: u32) -> Result<SharedList<Weight>, NoMemory> {
    let mut list = SharedList::empty(alloc);
    for number in 0..count {
        list = list.with(Weight { number, weight: 1 })?.list;
    }
    Ok(list)
}

/// The sum of the weights.
fn weight_of(list: &SharedList<Weight>) -> u32 {
    let mut sum = 0u32;
    for item in list.iter() {
        sum = sum.wrapping_add(item.weight);
    }
    sum
}

/// The list after changes of every 16th of so many numbers: the weight of one becomes 3, the next
/// one goes.
fn changed(
    alloc: Global,
    list: &SharedList<Weight>,
    count: u32,
) -> Result<SharedList<Weight>, NoMemory> {
    let mut changes = Vec::new(alloc);
    for n in 0..count {
        let number = n.wrapping_mul(16);
        changes.push(if n % 2 == 0 {
            Change::Put(Weight { number, weight: 3 })
        } else {
            Change::Remove(Number { number })
        })?;
    }
    list.share()?.with_all(changes)
}

#[test]
fn versions_of_plain_values(rt: HostRuntime) -> Result<(), Fail> {
    let alloc = rt.alloc();
    let old = numbers(alloc, 1024)?;
    let new = changed(alloc, &old, 40)?;
    assert_eq!(rt; weight_of(&old), 1024);
    assert_eq!(rt; weight_of(&new), 1044);
    assert_eq!(rt; new.len(), 1004);
    Ok(())
}
