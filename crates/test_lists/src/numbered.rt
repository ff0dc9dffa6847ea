//! A list of plain items by a text, with ample memory.

ghost use Rattle.std.specs.Cmp.Lexicographic.{slice_cmp, nat_list_cmp_total};
ghost use Rattle.std.specs.FinMap.{slice_cmp-IsAntisymmetric, nat_cmp-IsAntisymmetric};
ghost use Rattle.std.specs.Ordering.{nat_cmp};

use copying::Copied;
use keyed_lists::changed;
use shared_list::{Change, KeyFor, Keyed, NoMemory, SharedList};
use std::alloc::Global;
use std::cmp::Ordering;
use std::test::Fail;
use texts::ShortText;

/// A name with a number.
#[derive(Drop)]
struct Numbered {
    name: ShortText,
    number: u32,
}

impl Copied for Numbered {
    fn copy(&self) -> Result<Self, NoMemory> {
        Ok(Numbered {
            name: self.name.copy()?,
            number: self.number,
        })
    }
}

impl Keyed for Numbered {
    type Key = ShortText;

    ghost key_of = { λ item. item.name };

    ghost key_cmp = { slice_cmp nat_cmp };

    ghost stamp_of = { λ item. item.number };

    fn stamp(&self) -> u64 {
        u64::from(self.number)
    }

    fn order(&self, other: &Self) -> Ordering {
        self.name.order(other.name.as_str())
    }

    ghost total = { nat_list_cmp_total };

    ghost exact = { slice_cmp-IsAntisymmetric nat_cmp-IsAntisymmetric };
}

impl<'a> KeyFor<Numbered> for &'a str {
    ghost sought = { λ name. name.now };

    fn order_of(&self, item: &Numbered) -> Ordering {
        item.name.order(*self)
    }
}

/// That number under that name.
fn item_of(alloc: Global, name: &str, number: u32) -> Result<Numbered, NoMemory> {
    let name = ShortText::new(alloc, name)?;
    Ok(Numbered { name, number })
}

/// The list with that name and number.
fn with(
    alloc: Global,
    list: SharedList<Numbered>,
    name: &str,
    number: u32,
) -> Result<SharedList<Numbered>, NoMemory> {
    Ok(list.with(item_of(alloc, name, number)?)?.list)
}

/// The sum of the numbers, each times its place from 1.
fn weighed(list: &SharedList<Numbered>) -> u32 {
    let mut place = 0u32;
    let mut sum = 0u32;
    for item in list.iter() {
        place = place.wrapping_add(1);
        sum = sum.wrapping_add(place.wrapping_mul(item.number));
    }
    sum
}

/// Whether a version that is changed leaves the other as it was.
fn versions(alloc: Global) -> Result<bool, NoMemory> {
    let old = with(
        alloc,
        with(alloc, SharedList::empty(alloc), "b", 10)?,
        "a",
        1,
    )?;
    let new = with(alloc, old.share()?.without("a")?.list, "c", 100)?;
    let found = new.get("c").map(|item| item.number) == Some(100) && new.get("a").is_none();
    Ok(found && weighed(&old) == 21 && weighed(&new) == 210 && old.len() == 2 && new.len() == 2)
}

#[test]
fn versions_share_what_they_have_in_common(rt: HostRuntime) -> Result<(), Fail> {
    assert!(rt; versions(rt.alloc())?);
    Ok(())
}

/// Whether the list has just those numbers from a name on.
fn from_name(list: &SharedList<Numbered>, name: &str, told: &[u32]) -> bool {
    let mut place = 0usize;
    for item in list.from(name) {
        if told.get(place) != Some(&item.number) {
            return false;
        }
        place = place.wrapping_add(1);
    }
    place == told.len()
}

/// Whether the items from a name on are those whose names are not below it in byte order.
fn parts_by_name(alloc: Global) -> Result<bool, NoMemory> {
    let none = SharedList::empty(alloc);
    let empty = from_name(&none, "", &[]);
    let list = with(alloc, with(alloc, none, "d", 2)?, "b", 1)?;
    Ok(
        empty
            && from_name(&list, "", &[1, 2])
            && from_name(&list, "b", &[1, 2])
            && from_name(&list, "ba", &[2])
            && from_name(&list, "d", &[2])
            && from_name(&list, "e", &[]),
    )
}

#[test]
fn a_part_of_a_list_begins_at_a_name(rt: HostRuntime) -> Result<(), Fail> {
    assert!(rt; parts_by_name(rt.alloc())?);
    Ok(())
}

/// How many numbers are put; a prime.
const NUMBERS: u32 = 3001;

/// The numbers below `NUMBERS`, each at one place below it, in an order that jumps.
fn jumping(place: u32) -> u32 {
    place.wrapping_mul(1009) % NUMBERS
}

/// The number as a key, so that the order of keys is that of numbers below 9,000.
fn key_of(alloc: Global, number: u32) -> Result<String, NoMemory> {
    let key = number.wrapping_add(1000);
    format!(in alloc; "{key}")
}

/// The list with the numbers at those places, each under its key.
fn with_places(
    alloc: Global,
    list: SharedList<Numbered>,
    from: u32,
    to: u32,
) -> Result<SharedList<Numbered>, NoMemory> {
    let mut list = list;
    for place in from..to {
        let number = jumping(place);
        list = with(alloc, list, key_of(alloc, number)?.as_str(), number)?;
    }
    Ok(list)
}

/// The list without the numbers from the one and below the other.
fn without_numbers(
    alloc: Global,
    list: SharedList<Numbered>,
    from: u32,
    to: u32,
) -> Result<SharedList<Numbered>, NoMemory> {
    let mut list = list;
    for number in from..to {
        list = list.without(key_of(alloc, number)?.as_str())?.list;
    }
    Ok(list)
}

/// How many of all numbers are found under their keys.
fn found_in(alloc: Global, list: &SharedList<Numbered>) -> Result<u32, NoMemory> {
    let mut count = 0u32;
    for number in 0..NUMBERS {
        let found = list.get(key_of(alloc, number)?.as_str());
        if found.map(|item| item.number) == Some(number) {
            count = count.wrapping_add(1);
        }
    }
    Ok(count)
}

/// Whether a list of so many items that it has several nodes keeps them in order, as they come and
/// go, while a version of it stays.
fn many(alloc: Global) -> Result<bool, NoMemory> {
    let old = with_places(alloc, SharedList::empty(alloc), 0, NUMBERS)?;
    let back = without_numbers(alloc, old.share()?, 0, 2000)?;
    let gap = without_numbers(alloc, old.share()?, 500, 2500)?;
    let whole = with_places(alloc, gap.share()?, 0, NUMBERS)?;
    Ok(
        weighed(&old) == 419_067_408
            && weighed(&whole) == 419_067_408
            && weighed(&back) == 1_337_336_000
            && weighed(&gap) == 1_086_836_000
            && old.len() == 3001
            && back.len() == 1001
            && gap.len() == 1001
            && whole.len() == 3001
            && found_in(alloc, &old)? == 3001
            && found_in(alloc, &back)? == 1001
            && found_in(alloc, &gap)? == 1001,
    )
}

#[test]
fn many_items_stand_in_order(rt: HostRuntime) -> Result<(), Fail> {
    assert!(rt; many(rt.alloc())?);
    Ok(())
}

/// The numbers at the first places, each under its key.
fn items_at(alloc: Global, places: u32) -> Result<Vec<Numbered>, NoMemory> {
    let mut items = Vec::new(alloc);
    for place in 0..places {
        let number = jumping(place);
        items.push(item_of(alloc, key_of(alloc, number)?.as_str(), number)?)?;
    }
    Ok(items)
}

/// The list that has those items put in.
fn list_of(alloc: Global, items: Vec<Numbered>) -> Result<SharedList<Numbered>, NoMemory> {
    let mut changes: Vec<Change<Numbered, &str>> = Vec::new(alloc);
    for item in items {
        changes.push(Change::Put(item))?;
    }
    changed(&SharedList::empty(alloc), changes)
}

/// Whether a list that is made at once, of items in whatever order, is the one that has them put
/// in: of so many that it has several nodes, of one leaf, and of none; and with two items of one
/// key, of which the last stays.
fn at_once(alloc: Global) -> Result<bool, NoMemory> {
    let all = list_of(alloc, items_at(alloc, NUMBERS)?)?;
    let back = without_numbers(alloc, all.share()?, 0, 2000)?;
    let one = list_of(alloc, items_at(alloc, 1)?)?;
    let mut twice = items_at(alloc, 1)?;
    twice.push(item_of(alloc, "b", 7)?)?;
    twice.push(item_of(alloc, "a", 5)?)?;
    twice.push(item_of(alloc, "b", 9)?)?;
    Ok(
        weighed(&all) == 419_067_408
            && all.len() == 3001
            && found_in(alloc, &all)? == 3001
            && weighed(&back) == 1_337_336_000
            && one.len() == 1
            && list_of(alloc, items_at(alloc, 0)?)?.len() == 0
            && from_name(&list_of(alloc, twice)?, "a", &[5, 9]),
    )
}

#[test]
fn a_list_is_made_at_once(rt: HostRuntime) -> Result<(), Fail> {
    assert!(rt; at_once(rt.alloc())?);
    Ok(())
}

/// The same sum of the numbers of those items whose stamps are above the given one.
fn newer_weighed(list: &SharedList<Numbered>, than: u64) -> u32 {
    let mut place = 0u32;
    let mut sum = 0u32;
    for item in list.newer(than) {
        place = place.wrapping_add(1);
        sum = sum.wrapping_add(place.wrapping_mul(item.number));
    }
    sum
}

/// What is newer in a list of several nodes: nothing, its end, and all but its first item; when one
/// in its middle is newer, and one more at its end; and when the one in its middle is gone again.
fn newer_ones(alloc: Global) -> Result<[u32; 6], NoMemory> {
    let old = with_places(alloc, SharedList::empty(alloc), 0, NUMBERS)?;
    let middle = key_of(alloc, 500)?;
    let replaced = with(alloc, old.share()?, middle.as_str(), 9000)?;
    let new = with(alloc, replaced, "b", 9001)?;
    let gone = new.share()?.without(middle.as_str())?.list;
    Ok([
        newer_weighed(&old, 3000),
        newer_weighed(&old, 2997),
        newer_weighed(&old, 0),
        newer_weighed(&new, 3000),
        newer_weighed(&new, 9000),
        newer_weighed(&gone, 3000),
    ])
}

#[test]
fn newer_items_are_found(rt: HostRuntime) -> Result<(), Fail> {
    let told = [0, 17_996, 414_565_908, 27_002, 9001, 9001];
    assert_eq!(rt; newer_ones(rt.alloc())?, told);
    Ok(())
}
