//! What changed in a feed.

ghost use Rattle.std.specs.Prelude.{◌≡◌, ◌+◌, ◌==◌, ◌++◌, map, OnOk};
ghost use Rattle.std.specs.List.{flat_map, AllByRecursion};
ghost use Rattle.delta_defs.specs.OneHistory.{HoldsSince};
ghost use Rattle.delta_feed.specs.Newer as rule;
ghost use Rattle.delta_feed.specs.Newer.{added_count, newer_pairs};
ghost use Rattle.delta_feed.specs.Pairs.{by_own_id, pairs_of};
ghost use Rattle.delta_feed.specs.Sent.{pair_field, IsShortPair};

use crate::NoMemory;
use crate::pairs::{Pair, Pairs};
use crate::sent::{push_pair, push_unless_settled};
use entity_table::Table;

/// Appends what changed in the feed of that name, which held the one up to that stamp and holds the
/// other, by id; or as much as memory allows. The ids of the timetable are behind the prefix. Where
/// nothing is gone, only what has a newer stamp is looked at, and else all that there was and is.
pub fn push_feed(
    feed: &str,
    prefix: &str,
    old: &Table,
    stamp: u64,
    new: &Table,
    out: &mut Vec<u8>,
) -> Result<(), NoMemory>
    requires { HoldsSince stamp old.now new.now }
    ensures sent { OnOk result (out.new.items
        ≡ out.old.items ++ flat_map (pair_field prefix.now feed.now) (pairs_of old.now new.now)) }
    ensures short { OnOk result (AllByRecursion (IsShortPair prefix.now feed.now)
        (pairs_of old.now new.now)) }
{
    old.sound();
    new.sound();
    is_by_own_id(new);
    if has_lost_none(old, stamp, new) {
        push_newer(feed, prefix, old, stamp, new, out)
    } else {
        push_all(feed, prefix, old, stamp, new, out)
    }
}

/// Does nothing; its contract tells that a table has each entity under its own id.
fn is_by_own_id(table: &Table)
    ensures { by_own_id (map (λ change. change.1) table.now) ≡ table.now }
{
    let _entities = table.iter();
}

/// Whether nothing that was held is gone: there are as many more as were added.
fn has_lost_none(old: &Table, stamp: u64, new: &Table) -> bool
    ensures { result ≡ rule.has_lost_none stamp old.now new.now }
{
    match new.len().checked_sub(old.len()) {
        Some(more) => were_added(old, stamp, new, more),
        None => false,
    }
}

/// Whether just that many of what has a newer stamp are of ids under which nothing was held. It
/// looks no further than to the first that is one too many.
fn were_added(old: &Table, stamp: u64, new: &Table, many: usize) -> bool
    ensures { result ≡ (added_count stamp old.now new.now == many) }
{
    let mut left = many;
    for one in new.newer(stamp) {
        if old.get(one.entity.id.as_str()).is_none() {
            let Some(fewer) = left.checked_sub(1) else {
                return false;
            };
            left = fewer;
        }
    }
    left == 0
}

/// Appends what is sent of what has a newer stamp; or as much as memory allows.
fn push_newer(
    feed: &str,
    prefix: &str,
    old: &Table,
    stamp: u64,
    new: &Table,
    out: &mut Vec<u8>,
) -> Result<(), NoMemory>
    ensures sent { OnOk result (out.new.items ≡ out.old.items
        ++ flat_map (pair_field prefix.now feed.now) (newer_pairs stamp old.now new.now)) }
    ensures short { OnOk result (AllByRecursion (IsShortPair prefix.now feed.now)
        (newer_pairs stamp old.now new.now)) }
{
    let mut spare = Vec::new(*out.allocator());
    for one in new.newer(stamp) {
        let id = one.entity.id.as_str();
        let pair = Pair {
            id,
            was: old.get(id),
            is: Some(one),
        };
        push_pair(feed, prefix, &pair, &mut spare, out)?;
    }
    Ok(())
}

/// Appends what is sent of all that was held and is held; or as much as memory allows.
#[tactic(auto, using(crate::proofs::SettledLemmas::all_settled))]
fn push_all(
    feed: &str,
    prefix: &str,
    old: &Table,
    stamp: u64,
    new: &Table,
    out: &mut Vec<u8>,
) -> Result<(), NoMemory>
    requires { HoldsSince stamp old.now new.now }
    ensures sent { OnOk result (out.new.items
        ≡ out.old.items ++ flat_map (pair_field prefix.now feed.now) (pairs_of old.now new.now)) }
    ensures short { OnOk result (AllByRecursion (IsShortPair prefix.now feed.now)
        (pairs_of old.now new.now)) }
{
    let mut spare = Vec::new(*out.allocator());
    for pair in Pairs::of(old, new) {
        push_unless_settled(feed, prefix, stamp, &pair, &mut spare, out)?;
    }
    Ok(())
}
