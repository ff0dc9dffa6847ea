//! Parts that several versions of a list may share. One that is shared is copied before it is
//! changed.

ghost use Rattle.std.specs.Prelude.{◌≡◌, ◌<◌, ◌++◌, length, IfSome, IfOk, OnOk};
ghost use Rattle.std.specs.FinMap.{put};
ghost use Rattle.std.specs.Option.{option_copied};
ghost use Rattle.shared_list.specs.Order.{
  entries,
  item_with,
  items_from,
  without,
  IsHome,
  Rises,
};
ghost use Rattle.shared_list.specs.Parts.{parts_of, items_in, items_if_some, AreSound, TellsLeft};

use crate::NoMemory;
use crate::keyed::KeyFor;
use crate::part::{Part, PutOutcome, TakeOutcome};
use crate::split::Arrival;
use std::alloc::Global;
use std::sync::Arc;

/// The number of the part in which the key stands, if it stands anywhere.
fn home<P: Part, K: KeyFor<P::Item>>(parts: &[Arc<P>], key: K) -> usize
    requires some { 0 < length parts.now }
    requires sound { AreSound P.items P.sound parts.now }
    requires rising { Rises P.Item.key_cmp P.Item.key_of (items_in P.items parts.now) }
    ensures { IsHome P.Item.key_cmp P.Item.key_of (K.sought key) (parts_of P.items parts.now)
        result }
{
    match parts.binary_search_by(|part| part.lead_order(key)) {
        Ok(at) => at,
        Err(at) => at.saturating_sub(1),
    }
}

/// The item with that key.
pub(crate) fn item_in<'a, P: Part, K: KeyFor<P::Item>>(
    parts: &'a [Arc<P>],
    key: K,
) -> Option<&'a P::Item>
    requires sound { AreSound P.items P.sound parts.now }
    requires rising { Rises P.Item.key_cmp P.Item.key_of (items_in P.items parts.now) }
    ensures { option_copied result
        ≡ item_with P.Item.key_cmp P.Item.key_of (K.sought key)
        (items_in P.items parts.entry.now) }
{
    if parts.is_empty() {
        return None;
    }
    parts[home(parts, key)].item_of(key)
}

/// The part in which the key stands, if it stands anywhere, and the parts after it. From the key on
/// stand what that part has from it on, and all of the others.
pub(crate) fn part_and_rest<'a, P: Part, K: KeyFor<P::Item>>(
    parts: &'a [Arc<P>],
    key: K,
) -> (&'a P, &'a [Arc<P>])
    requires some { 0 < length parts.now }
    requires sound { AreSound P.items P.sound parts.now }
    requires rising { Rises P.Item.key_cmp P.Item.key_of (items_in P.items parts.now) }
    ensures from { items_from P.Item.key_cmp P.Item.key_of (K.sought key)
        (items_in P.items parts.entry.now)
        ≡ items_from P.Item.key_cmp P.Item.key_of (K.sought key) (P.items result.0.now)
        ++ items_in P.items result.1.now }
    ensures some { 0 < length (P.items result.0.now) }
    ensures sound { P.sound result.0.now }
    ensures rising { Rises P.Item.key_cmp P.Item.key_of (P.items result.0.now) }
    ensures rest { AreSound P.items P.sound result.1.now }
{
    let at = home(parts, key);
    (&*parts[at], &parts[at + 1..])
}

/// Puts the item in its place in the part, and takes the back of the part off where it has become
/// too long.
fn put_in<P: Part>(
    alloc: Global,
    part: &mut Arc<P>,
    item: P::Item,
) -> Result<PutOutcome<P, P::Item>, NoMemory>
    requires sound { P.sound part.old.value }
    requires rising { Rises P.Item.key_cmp P.Item.key_of (P.items part.old.value) }
    ensures put { IfOk result (λ outcome.
        entries P.Item.key_of (P.items part.new.value ++ items_if_some P.items outcome.back)
        ≡ put P.Item.key_cmp (P.Item.key_of item) item
        (entries P.Item.key_of (P.items part.old.value))) }
    ensures replaced { IfOk result (λ outcome. outcome.replaced
        ≡ item_with P.Item.key_cmp P.Item.key_of (P.Item.key_of item) (P.items part.old.value)) }
    ensures front { OnOk result (0 < length (P.items part.new.value)) }
    ensures sound { OnOk result (P.sound part.new.value) }
    ensures back { IfOk result (λ outcome.
        IfSome outcome.back (λ back. 0 < length (P.items back))) }
    ensures back_sound { IfOk result (λ outcome. IfSome outcome.back (λ back. P.sound back)) }
{
    if let Some(own) = Arc::get_mut(part) {
        return own.put_item(item);
    }
    let mut own = part.copied(1)?;
    let outcome = own.put_item(item)?;
    *part = Arc::new(alloc, own)?;
    Ok(outcome)
}

/// Takes the item with that key out of the part, if there is one. A part that has none stays
/// shared.
fn take_from<P: Part, K: KeyFor<P::Item>>(
    alloc: Global,
    part: &mut Arc<P>,
    key: K,
) -> Result<TakeOutcome<P::Item>, NoMemory>
    requires some { 0 < length (P.items part.old.value) }
    requires sound { P.sound part.old.value }
    requires rising { Rises P.Item.key_cmp P.Item.key_of (P.items part.old.value) }
    ensures without { OnOk result (entries P.Item.key_of (P.items part.new.value)
        ≡ without P.Item.key_cmp (K.sought key) (entries P.Item.key_of (P.items part.old.value))) }
    ensures sound { OnOk result (P.sound part.new.value) }
    ensures taken { IfOk result (λ outcome. outcome.taken
        ≡ item_with P.Item.key_cmp P.Item.key_of (K.sought key) (P.items part.old.value)) }
    ensures left { IfOk result (λ outcome. TellsLeft outcome.none_left (P.items part.new.value)) }
{
    if let Some(own) = Arc::get_mut(part) {
        return own.take_out(key);
    }
    if part.item_of(key).is_none() {
        return Ok(TakeOutcome {
            taken: None,
            none_left: false,
        });
    }
    let mut own = part.copied(0)?;
    let outcome = own.take_out(key)?;
    *part = Arc::new(alloc, own)?;
    Ok(outcome)
}

/// Puts the item in its place in its part, whose back becomes a part of its own where it is taken
/// off.
pub(crate) fn put_shared<P: Part>(
    parts: &mut Vec<Arc<P>>,
    item: P::Item,
) -> Result<Arrival<P::Item>, NoMemory>
    requires sound { AreSound P.items P.sound parts.old.items }
    requires rising { Rises P.Item.key_cmp P.Item.key_of (items_in P.items parts.old.items) }
    ensures put { OnOk result (entries P.Item.key_of (items_in P.items parts.new.items)
        ≡ put P.Item.key_cmp (P.Item.key_of item) item
        (entries P.Item.key_of (items_in P.items parts.old.items))) }
    ensures replaced { IfOk result (λ arrival. arrival.replaced
        ≡ item_with P.Item.key_cmp P.Item.key_of (P.Item.key_of item)
        (items_in P.items parts.old.items)) }
    ensures some { OnOk result (0 < length parts.new.items) }
    ensures sound { OnOk result (AreSound P.items P.sound parts.new.items) }
{
    let alloc = *parts.allocator();
    if parts.is_empty() {
        parts.push(Arc::new(alloc, P::of_one(alloc, item)?)?)?;
        return Ok(Arrival {
            replaced: None,
            at_end: true,
        });
    }
    let at = home(parts.as_slice(), &item);
    let PutOutcome { replaced, back } = put_in(alloc, &mut parts[at], item)?;
    match back {
        Some(back) => {
            let at_end = at + 1 == parts.len();
            parts.insert(at + 1, Arc::new(alloc, back)?)?;
            Ok(Arrival { replaced, at_end })
        }
        None => Ok(Arrival {
            replaced,
            at_end: false,
        }),
    }
}

/// Takes the item with that key out of its part, if there is one, and the part out where nothing is
/// left in it.
pub(crate) fn take_out_shared<P: Part, K: KeyFor<P::Item>>(
    parts: &mut Vec<Arc<P>>,
    key: K,
) -> Result<Option<P::Item>, NoMemory>
    requires sound { AreSound P.items P.sound parts.old.items }
    requires rising { Rises P.Item.key_cmp P.Item.key_of (items_in P.items parts.old.items) }
    ensures without { OnOk result (entries P.Item.key_of (items_in P.items parts.new.items)
        ≡ without P.Item.key_cmp (K.sought key)
        (entries P.Item.key_of (items_in P.items parts.old.items))) }
    ensures taken { IfOk result (λ taken. taken
        ≡ item_with P.Item.key_cmp P.Item.key_of (K.sought key)
        (items_in P.items parts.old.items)) }
    ensures sound { OnOk result (AreSound P.items P.sound parts.new.items) }
{
    if parts.is_empty() {
        return Ok(None);
    }
    let alloc = *parts.allocator();
    let at = home(parts.as_slice(), key);
    let TakeOutcome { taken, none_left } = take_from(alloc, &mut parts[at], key)?;
    if none_left {
        parts.remove(at);
        Ok(taken)
    } else {
        Ok(taken)
    }
}

/// The same parts, each shared, with room for so many more.
pub(crate) fn share<P: Part>(parts: &Vec<Arc<P>>, more: usize) -> Result<Vec<Arc<P>>, NoMemory>
    requires { AreSound P.items P.sound parts.now.items }
    ensures items { IfOk result (λ same.
        items_in P.items same.items ≡ items_in P.items parts.now.items) }
    ensures sound { IfOk result (λ same. AreSound P.items P.sound same.items) }
{
    let mut same = Vec::with_capacity(*parts.allocator(), parts.len().saturating_add(more))?;
    for part in parts {
        same.push(Arc::try_clone(part)?)?;
    }
    Ok(same)
}
