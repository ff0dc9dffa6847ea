//! How long a part of a list may be, and where it is cut.

ghost use Rattle.std.specs.Prelude.{◌≡◌, ◌<◌, ◌≤◌, ◌++◌, length, IfSome, IfOk, OnOk};
ghost use Rattle.shared_list.specs.Parts.{items_if_some};

use crate::NoMemory;

/// How an item came among others, or a part among parts.
#[derive(Drop)]
pub(crate) struct Arrival<T> {
    /// The item with its key, whose place the item took.
    pub(crate) replaced: Option<T>,
    /// Whether there is one more at the end.
    pub(crate) at_end: bool,
}

/// The most items of a leaf. Changes that are spread over a long list are in leaves of their own,
/// of which all items are copied: so a leaf has few.
pub(crate) const LEAF_MOST: usize = 16;

/// The most parts of a node. Of a node that is changed all parts are shared once more, and of a list
/// that is changed all nodes: more parts cost the first, fewer the second.
pub(crate) const NODE_MOST: usize = 16;

/// Takes the back of a part that has more than so many items off, by whether the newest is the
/// last.
pub(crate) fn split_off<X>(
    items: &mut Vec<X>,
    most: usize,
    at_end: bool,
) -> Result<Option<Vec<X>>, NoMemory>
    requires { 1 < most }
    ensures parts { IfOk result (λ rest.
        items.new.items ++ items_if_some (λ back. back.items) rest ≡ items.old.items) }
    ensures front { OnOk result (0 < length items.old.items → 0 < length items.new.items) }
    ensures back { IfOk result (λ rest. IfSome rest (λ back. 0 < length back.items)) }
{
    if items.len() <= most {
        return Ok(None);
    }
    Ok(Some(items.split_off(kept_count(most, at_end))?))
}

/// How many items stay in a part that has one too many. Where the newest is the last, all others
/// stay, so that keys which come in rising order leave full parts; else about half of them.
fn kept_count(most: usize, at_end: bool) -> usize
    requires { 1 < most }
    ensures some { 0 < result }
    ensures within { result ≤ most }
{
    if at_end { most } else { most / 2 }
}
