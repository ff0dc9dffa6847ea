//! Lists of items that are at hand.

ghost use Rattle.std.specs.Bool.{OnTrue};
ghost use Rattle.std.specs.Prelude.{◌≡◌, IfOk};
ghost use Rattle.shared_list.specs.Order.{Rises};
ghost use Rattle.keyed_lists.specs.Keyed.{by_key};

use crate::NoMemory;
use shared_list::{Keyed, SharedList};

/// Whether keys strictly rise.
pub(crate) fn rises<T: Keyed>(items: &[T]) -> bool
    ensures { OnTrue result (Rises T.key_cmp T.key_of items.now) }
{
    for i in 1..items.len() {
        if !items[i - 1].order(&items[i]).is_lt() {
            return false;
        }
    }
    true
}

/// The list that putting the items in, one after another, makes of nothing; or out of memory.
fn put_all<T: Keyed>(items: Vec<T>) -> Result<SharedList<T>, NoMemory>
    ensures { IfOk result (λ list. list ≡ by_key T.key_cmp T.key_of items.items) }
{
    let mut list = SharedList::empty(*items.allocator());
    for item in items {
        list = list.with(item)?.list;
    }
    Ok(list)
}

/// The list of the items by their keys, of several with one key the last; or out of memory. The
/// items are sorted first, since they may be in any order. Where each key is there once, as it
/// mostly is, they are not searched for.
pub(crate) fn listed<T: Keyed>(items: Vec<T>) -> Result<SharedList<T>, NoMemory>
    ensures { IfOk result (λ list. list ≡ by_key T.key_cmp T.key_of items.items) }
{
    let mut items = items;
    items.sort_by(|a, b| a.order(b))?;
    if rises(items.as_slice()) {
        SharedList::of_sorted(*items.allocator(), items)
    } else {
        put_all(items)
    }
}

/// The list of the items by their keys, of several with one key the last; or out of memory. Those
/// whose keys rise are compared once with their neighbours, and others are sorted.
pub fn listed_by_key<T: Keyed>(items: Vec<T>) -> Result<SharedList<T>, NoMemory>
    ensures { IfOk result (λ list. list ≡ by_key T.key_cmp T.key_of items.items) }
{
    if rises(items.as_slice()) {
        SharedList::of_sorted(*items.allocator(), items)
    } else {
        listed(items)
    }
}
