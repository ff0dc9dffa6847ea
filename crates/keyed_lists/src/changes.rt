//! Lists after changes.

ghost use Rattle.std.specs.Prelude.{◌≡◌, IfOk};
ghost use Rattle.keyed_lists.specs.Keyed as rule;
ghost use Rattle.keyed_lists.specs.Keyed.{naming_keys};

use crate::NoMemory;
use crate::listed::listed_by_key;
use shared_list::{Change, KeyFor, Keyed, SharedList};

/// Whether each change puts an item in.
fn are_puts<T: Keyed, K: KeyFor<T>>(changes: &[Change<T, K>]) -> bool
    ensures { result ≡ rule.are_puts changes.now }
{
    for change in changes {
        match change {
            Change::Put(_) => {}
            Change::Remove(_) => return false,
        }
    }
    true
}

/// The items that changes put in.
fn items_put<T: Keyed, K: KeyFor<T>>(changes: Vec<Change<T, K>>) -> Result<Vec<T>, NoMemory>
    ensures { IfOk result (λ items. items.items ≡ rule.items_put changes.items) }
{
    let mut items = Vec::with_capacity(*changes.allocator(), changes.len())?;
    for change in changes {
        if let Change::Put(item) = change {
            items.push(item)?;
        }
    }
    Ok(items)
}

/// The list after the changes, one after another; or out of memory. The given list stays as it is,
/// and the two share what is not changed. Where items are put into a list of none, they are not
/// searched for one by one.
pub fn changed<T: Keyed, K: KeyFor<T>>(
    list: &SharedList<T>,
    changes: Vec<Change<T, K>>,
) -> Result<SharedList<T>, NoMemory>
    ensures { IfOk result (λ next. next
        ≡ rule.changed T.key_cmp T.key_of list.now (naming_keys K.sought changes.items)) }
{
    if list.len() == 0 && are_puts(changes.as_slice()) {
        return listed_by_key(items_put(changes)?);
    }
    list.share()?.with_all(changes)
}
