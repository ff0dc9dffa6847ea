//! Lists by a key of two numbers and a text: their parts from a key on, and changes that are done
//! together.

ghost use Rattle.std.specs.Prelude.{◌≡◌, ℕ, ℤ, List};
ghost use Rattle.std.specs.Cmp.Lexicographic.{slice_cmp};
ghost use Rattle.std.specs.Ordering.{nat_cmp, int_cmp, ordering_then};
ghost use Rattle.std.proofs.lemmas.Cmp.{
  on_total,
  then_total,
  nat_cmp_total,
  int_cmp_total,
  nat_list_cmp_total,
};
ghost use Rattle.std.proofs.lemmas.Map.Lookups.{
  exact_pairs,
  exact_unsigned,
  exact_signed,
  exact_bytes,
};

use copying::Copied;
use shared_list::{Change, KeyFor, Keyed, NoMemory, SharedList};
use std::alloc::Global;
use std::cmp::Ordering;
use std::test::Fail;
use texts::ShortText;

/// A departure: of which stop, when and of which line, and a number that tells two of one key
/// apart.
#[derive(Drop)]
struct Due {
    stop: u32,
    at: i64,
    line: ShortText,
    number: u32,
}

/// The stop, the time and the line by which a departure is found.
#[derive(Clone, Copy)]
struct DueKey<'a> {
    stop: u32,
    at: i64,
    line: &'a str,
}

/// By the stop, then by the time, then by the line.
fn in_turn(stop: Ordering, at: Ordering, line: Ordering) -> Ordering
    ensures { result ≡ ordering_then stop (ordering_then at line) }
{
    stop.then(at.then(line))
}

impl Copied for Due {
    fn copy(&self) -> Result<Self, NoMemory> {
        Ok(Due {
            stop: self.stop,
            at: self.at,
            line: self.line.copy()?,
            number: self.number,
        })
    }
}

impl Keyed for Due {
    type Key = (u32, (i64, ShortText));

    ghost key_of = { λ due. (due.stop, (due.at, due.line)) };

    ghost key_cmp = { λ a b. ordering_then (nat_cmp a.0 b.0)
        (ordering_then (int_cmp a.1.0 b.1.0) (slice_cmp nat_cmp a.1.1 b.1.1)) };

    // Nobody asks which are newer.
    ghost stamp_of = { λ _. 0 };

    fn stamp(&self) -> u64 {
        0
    }

    fn order(&self, other: &Self) -> Ordering {
        in_turn(
            self.stop.cmp(&other.stop),
            self.at.cmp(&other.at),
            self.line.order(other.line.as_str()),
        )
    }

    ghost total = { then_total (on_total (λ (k : ℕ × (ℤ × List ℕ)). k.0) nat_cmp_total)
        (on_total (λ (k : ℕ × (ℤ × List ℕ)). k.1)
        (then_total (on_total (λ (k : ℤ × List ℕ). k.0) int_cmp_total)
        (on_total (λ (k : ℤ × List ℕ). k.1) nat_list_cmp_total))) };

    ghost exact = { exact_pairs nat_cmp (λ a b. ordering_then (int_cmp a.0 b.0)
        (slice_cmp nat_cmp a.1 b.1)) exact_unsigned
        (exact_pairs int_cmp (slice_cmp nat_cmp) exact_signed exact_bytes) };
}

impl<'a> KeyFor<Due> for DueKey<'a> {
    ghost sought = { λ key. (key.stop, (key.at, key.line.now)) };

    fn order_of(&self, due: &Due) -> Ordering {
        in_turn(
            due.stop.cmp(&self.stop),
            due.at.cmp(&self.at),
            due.line.order(self.line),
        )
    }
}

/// A stop, a time and a line, and a number where one is put in; else what has that key goes.
type Told<'a> = (u32, i64, &'a str, Option<u32>);

/// The change that is told.
fn change<'a>(
    alloc: Global,
    (stop, at, line, number): Told<'a>,
) -> Result<Change<Due, DueKey<'a>>, NoMemory> {
    match number {
        Some(number) => Ok(Change::Put(Due {
            stop,
            at,
            line: ShortText::new(alloc, line)?,
            number,
        })),
        None => Ok(Change::Remove(DueKey { stop, at, line })),
    }
}

/// Another version of the list, with the changes that are told done together.
fn changed<'a>(
    alloc: Global,
    list: &SharedList<Due>,
    told: &[Told<'a>],
) -> Result<SharedList<Due>, NoMemory> {
    let mut changes = Vec::new(alloc);
    for each in told {
        changes.push(change(alloc, *each)?)?;
    }
    list.share()?.with_all(changes)
}

/// Whether those are the numbers of all departures, in their order.
fn has(list: &SharedList<Due>, told: &[u32]) -> bool {
    let mut place = 0usize;
    for due in list.iter() {
        if told.get(place) != Some(&due.number) {
            return false;
        }
        place = place.wrapping_add(1);
    }
    place == told.len() && list.len() == place
}

/// Whether those are all numbers of the departures from a key on.
fn has_from(list: &SharedList<Due>, stop: u32, at: i64, line: &str, told: &[u32]) -> bool {
    let mut place = 0usize;
    for due in list.from(DueKey { stop, at, line }) {
        if told.get(place) != Some(&due.number) {
            return false;
        }
        place = place.wrapping_add(1);
    }
    place == told.len()
}

/// Four departures of two stops, of which two are at one time.
const FEW: [Told<'static>; 4] = [
    (1, 20, "b", Some(3)),
    (2, -5, "a", Some(4)),
    (1, 10, "b", Some(1)),
    (1, 20, "a", Some(2)),
];

/// Whether a part begins at the first departure that is not below the key.
fn parts(alloc: Global) -> Result<bool, NoMemory> {
    let none = SharedList::empty(alloc);
    let list = changed(alloc, &none, &FEW)?;
    Ok(
        has_from(&none, 0, 0, "", &[])
            && has_from(&list, 0, 99, "z", &[1, 2, 3, 4])
            && has_from(&list, 1, 10, "b", &[1, 2, 3, 4])
            && has_from(&list, 1, 10, "ba", &[2, 3, 4])
            && has_from(&list, 1, 20, "", &[2, 3, 4])
            && has_from(&list, 1, 20, "b", &[3, 4])
            && has_from(&list, 2, -6, "", &[4])
            && has_from(&list, 2, -5, "a", &[4])
            && has_from(&list, 2, -5, "aa", &[]),
    )
}

#[test]
fn a_part_begins_at_the_first_not_below_the_key(rt: HostRuntime) -> Result<(), Fail> {
    assert!(rt; parts(rt.alloc())?);
    Ok(())
}

/// Whether the changes that are told make a list of those numbers of the four departures, which
/// stay as they were.
fn makes(alloc: Global, changes: &[Told<'_>], numbers: &[u32]) -> Result<bool, NoMemory> {
    let old = changed(alloc, &SharedList::empty(alloc), &FEW)?;
    let new = changed(alloc, &old, changes)?;
    Ok(has(&new, numbers) && has(&old, &[1, 2, 3, 4]))
}

/// Departures that come in, change and go, and one to go that isn't there.
const MIXED: [Told<'static>; 5] = [
    (0, 7, "c", Some(5)),
    (1, 10, "b", None),
    (1, 15, "b", None),
    (1, 20, "a", Some(6)),
    (3, 0, "", Some(7)),
];

/// Changes of which two are about one key.
const TWICE: [Told<'static>; 4] = [
    (9, 9, "", Some(8)),
    (9, 9, "", None),
    (1, 20, "b", None),
    (1, 20, "b", Some(9)),
];

#[test]
fn changes_are_done_in_turn(rt: HostRuntime) -> Result<(), Fail> {
    let alloc = rt.alloc();
    assert!(rt; makes(alloc, &[], &[1, 2, 3, 4])?);
    assert!(rt; makes(alloc, &MIXED, &[5, 6, 3, 4, 7])?);
    assert!(rt; makes(alloc, &TWICE, &[1, 2, 9, 4])?);
    Ok(())
}

/// The number at a time of one stop where each even time has one.
fn at_first(at: u32) -> Option<u32> {
    if at % 2 == 0 { Some(at / 2) } else { None }
}

/// The same after every tenth was replaced, every seventh of all was taken out, and at every ninth
/// time one came in where there was none.
fn at_last(at: u32) -> Option<u32> {
    let place = at / 2;
    if at % 2 == 1 {
        return if at % 9 == 0 { Some(at) } else { None };
    }
    if place % 7 == 0 {
        None
    } else if place % 10 == 0 {
        Some(place.wrapping_add(5000))
    } else {
        Some(place)
    }
}

/// The same as at first, without those of the second and the third leaf.
fn without_leaves(at: u32) -> Option<u32> {
    if 64 <= at && at < 192 {
        None
    } else {
        at_first(at)
    }
}

/// A state of a list: what it has at each time below 2,000.
#[derive(Clone, Copy)]
enum State {
    Nothing,
    First,
    Last,
    WithoutLeaves,
}

/// The number that a list in that state has at a time.
fn number_at(state: State, at: u32) -> Option<u32> {
    match state {
        State::Nothing => None,
        State::First => at_first(at),
        State::Last => at_last(at),
        State::WithoutLeaves => without_leaves(at),
    }
}

/// The numbers that a list in that state has, in their order.
fn numbers_in(alloc: Global, state: State) -> Result<Vec<u32>, NoMemory> {
    let mut numbers = Vec::new(alloc);
    for at in 0..2000u32 {
        if let Some(number) = number_at(state, at) {
            numbers.push(number)?;
        }
    }
    Ok(numbers)
}

/// The changes that lead from one state to another: one for each time at which they differ.
fn between(alloc: Global, old: State, new: State) -> Result<Vec<Told<'static>>, NoMemory> {
    let mut changes = Vec::new(alloc);
    for at in 0..2000u32 {
        let number = number_at(new, at);
        if number != number_at(old, at) {
            changes.push((1, i64::from(at), "", number))?;
        }
    }
    Ok(changes)
}

/// Another version of a list in one state, which is brought to another state.
fn brought(
    alloc: Global,
    list: &SharedList<Due>,
    old: State,
    new: State,
) -> Result<SharedList<Due>, NoMemory> {
    let changes = between(alloc, old, new)?;
    changed(alloc, list, changes.as_slice())
}

/// Whether a list that is brought to a state is in it.
fn is_in(alloc: Global, list: &SharedList<Due>, state: State) -> Result<bool, NoMemory> {
    let numbers = numbers_in(alloc, state)?;
    Ok(has(list, numbers.as_slice()))
}

/// Whether a list of a thousand departures is brought to a state, back and to nothing, and each
/// version stays.
fn goes_to(alloc: Global, state: State) -> Result<bool, NoMemory> {
    let first = brought(
        alloc,
        &SharedList::empty(alloc),
        State::Nothing,
        State::First,
    )?;
    let other = brought(alloc, &first, State::First, state)?;
    let back = brought(alloc, &other, state, State::First)?;
    let none = brought(alloc, &other, state, State::Nothing)?;
    Ok(
        is_in(alloc, &first, State::First)?
            && is_in(alloc, &other, state)?
            && is_in(alloc, &back, State::First)?
            && none.len() == 0
            && none.iter().next().is_none(),
    )
}

#[test]
fn many_changes_reach_every_leaf(rt: HostRuntime) -> Result<(), Fail> {
    assert!(rt; goes_to(rt.alloc(), State::Last)?);
    Ok(())
}

#[test]
fn whole_leaves_go(rt: HostRuntime) -> Result<(), Fail> {
    assert!(rt; goes_to(rt.alloc(), State::WithoutLeaves)?);
    Ok(())
}

/// Whether the first departure from each time on is the one that is told.
fn first_at_each_time(alloc: Global) -> Result<bool, NoMemory> {
    let list = brought(
        alloc,
        &SharedList::empty(alloc),
        State::Nothing,
        State::First,
    )?;
    for at in 0..2000u32 {
        let key = DueKey {
            stop: 1,
            at: i64::from(at),
            line: "",
        };
        let first = list.from(key).next().map(|due| due.number);
        let told = (at + 1) / 2;
        if first != (if told < 1000 { Some(told) } else { None }) {
            return Ok(false);
        }
    }
    Ok(has_from(&list, 1, 1993, "", &[997, 998, 999]))
}

#[test]
fn a_part_of_many_begins_at_each_time(rt: HostRuntime) -> Result<(), Fail> {
    assert!(rt; first_at_each_time(rt.alloc())?);
    Ok(())
}
