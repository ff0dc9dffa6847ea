//! What is sent of each id of a feed.

ghost use Rattle.std.specs.Prelude.{◌≡◌, ◌≤◌, ◌++◌, [], length, drop, take, OnOk, if◌then◌else◌};
ghost use Rattle.std.specs.Str.{bytes_eq};
ghost use Rattle.feed_defs.specs.Combined.{entity_under_feed, gone};
ghost use Rattle.feed_write.specs.Entities.{entity_field};
ghost use Rattle.delta_defs.specs.Changes.{is_same};
ghost use Rattle.delta_feed.specs.Sent as rule;
ghost use Rattle.delta_feed.specs.Sent.{named_entity, pair_field, IsShort, IsShortPair, IsSettled};

use crate::NoMemory;
use crate::pairs::Pair;
use feed_write::write_under_feed;
use rt_types::{Bytes, Entity, Text};

/// Appends what is sent of an id, of which what is no newer than the stamp was held. `spare` is for
/// the bytes of what was held.
pub(crate) fn push_unless_settled(
    feed: &str,
    prefix: &str,
    stamp: u64,
    pair: &Pair<'_>,
    spare: &mut Vec<u8>,
    out: &mut Vec<u8>,
) -> Result<(), NoMemory>
    requires { IsSettled stamp pair.now }
    ensures sent { OnOk result (out.new.items
        ≡ out.old.items ++ pair_field prefix.now feed.now pair.now) }
    ensures short { OnOk result (IsShortPair prefix.now feed.now pair.now) }
{
    if is_no_newer(stamp, pair) {
        return Ok(());
    }
    push_pair(feed, prefix, pair, spare, out)
}

/// Whether something was held under the id, and what is held is no newer than the stamp: so it is
/// the same, and its bytes need not be compared.
fn is_no_newer(stamp: u64, pair: &Pair<'_>) -> bool
    ensures { result ≡ rule.is_no_newer stamp pair.now }
{
    match (pair.was, pair.is) {
        (Some(_), Some(is)) => is.stamp <= stamp,
        _ => false,
    }
}

/// Appends what is sent of an id, whatever the stamps are.
#[tactic(auto, using(crate::proofs::SettledLemmas::compared_short))]
pub(crate) fn push_pair(
    feed: &str,
    prefix: &str,
    pair: &Pair<'_>,
    spare: &mut Vec<u8>,
    out: &mut Vec<u8>,
) -> Result<(), NoMemory>
    ensures sent { OnOk result (out.new.items
        ≡ out.old.items ++ pair_field prefix.now feed.now pair.now) }
    ensures short { OnOk result (IsShortPair prefix.now feed.now pair.now) }
{
    match (pair.was, pair.is) {
        (Some(was), Some(is)) => { push_changed(feed, prefix, &was.entity, &is.entity, spare, out) }
        (Some(_), None) => push_gone(feed, pair.id, out),
        (None, Some(is)) => write_under_feed(feed, prefix, &is.entity, out),
        (None, None) => Ok(()),
    }
}

/// Appends an entity as it is, unless its bytes are those that it had.
fn push_changed(
    feed: &str,
    prefix: &str,
    was: &Entity,
    is: &Entity,
    spare: &mut Vec<u8>,
    out: &mut Vec<u8>,
) -> Result<(), NoMemory>
    ensures sent { OnOk result (out.new.items ≡ out.old.items
        ++ (if is_same (named_entity prefix.now feed.now was.now)
        (named_entity prefix.now feed.now is.now) then []
        else entity_field (named_entity prefix.now feed.now is.now))) }
    ensures short { OnOk result (IsShort (named_entity prefix.now feed.now was.now)
        × IsShort (named_entity prefix.now feed.now is.now)) }
{
    let start = out.len();
    write_under_feed(feed, prefix, is, out)?;
    spare.clear();
    write_under_feed(feed, prefix, was, spare)?;
    take_back(out, start, spare.as_slice());
    Ok(())
}

/// Takes back what is behind a place, if it is just these bytes.
fn take_back(out: &mut Vec<u8>, start: usize, bytes: &[u8])
    requires { start ≤ length out.old.items }
    ensures { out.new.items ≡ (if bytes_eq (drop start out.old.items) bytes.now
        then take start out.old.items else out.old.items) }
{
    if &out[start..] == bytes {
        out.truncate(start);
    }
}

/// Appends an entity that says that its id is gone.
fn push_gone(feed: &str, id: &str, out: &mut Vec<u8>) -> Result<(), NoMemory>
    ensures { OnOk result (out.new.items
        ≡ out.old.items ++ entity_field (entity_under_feed feed.now (gone id.now))) }
{
    let alloc = *out.allocator();
    let gone = Entity {
        id: Text::new(alloc, id)?,
        is_deleted: Some(true),
        trip_update: None,
        vehicle: None,
        alert: None,
        unknown: Bytes::new(alloc, b"")?,
    };
    write_under_feed(feed, "", &gone, out)
}
