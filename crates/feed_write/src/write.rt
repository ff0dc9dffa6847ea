//! The bytes of a message, and of a single entity in a feed that is made of several.

ghost use Rattle.std.specs.Prelude.{◌≡◌, ℕ, List, ◌++◌, OnOk, OnErr};
ghost use Rattle.pb_wire_defs.specs.Spelling.{AreBytes};
ghost use Rattle.feed_defs.specs.Combined.{entity_under_feed};
ghost use Rattle.feed_defs.specs.Renamed.{renamed_entity};
ghost use Rattle.feed_defs.specs.Rows.{message_bytes};
ghost use Rattle.feed_defs.specs.Table as rows;
ghost use Rattle.feed_defs.specs.Table.{read, write};
ghost use Rattle.feed_write.specs.Entities.{entity_field};
ghost use Rattle.feed_write.specs.Puts.{StartsWith};

use crate::NoMemory;
use crate::feed::put_content;
use crate::fields::{open_long_message, open_message};
use crate::ids::put_joined;
use crate::message::Message;
use pb_wire::{write_length, write_long_length};
use rt_types::{Entity, FeedMessage};

/// Appends the bytes of the message. Want of memory leaves `out` as it was. A message that reading
/// gives is read again from what is appended.
pub fn write_message(message: &FeedMessage, out: &mut Vec<u8>) -> Result<(), NoMemory>
    ensures written { OnOk result (out.new.items ≡ out.old.items ++ write message.now) }
    ensures again { OnOk result ((bytes : List ℕ) → AreBytes bytes
        → read bytes ≡ Ok message.now → read (write message.now) ≡ Ok message.now) }
    ensures kept { OnErr result (out.new.items ≡ out.old.items) }
{
    let length = out.len();
    let answer = message.put("", out);
    if answer.is_err() {
        out.truncate(length);
    }
    answer
}

/// Appends the entity as a field of its message (GTFS Realtime 2.0, FeedMessage), its own id under
/// the name of its feed as `<feed>:<id>`, and the ids of the timetable in it behind the prefix. So
/// a message grows entity by entity, and no entity is copied. Want of memory leaves `out` as it
/// was.
pub fn write_under_feed(
    feed: &str,
    prefix: &str,
    entity: &Entity,
    out: &mut Vec<u8>,
) -> Result<(), NoMemory>
    ensures written { OnOk result (out.new.items
        ≡ out.old.items
        ++ entity_field (entity_under_feed feed.now (renamed_entity prefix.now entity.now))) }
    ensures kept { OnErr result (out.new.items ≡ out.old.items) }
{
    let length = out.len();
    let answer = put_under_feed(feed, prefix, entity, out);
    if answer.is_err() {
        out.truncate(length);
    }
    answer
}

/// The same, where want of memory leaves what was written so far.
fn put_under_feed(
    feed: &str,
    prefix: &str,
    entity: &Entity,
    out: &mut Vec<u8>,
) -> Result<(), NoMemory>
    ensures written { OnOk result (out.new.items
        ≡ out.old.items
        ++ entity_field (entity_under_feed feed.now (renamed_entity prefix.now entity.now))) }
    ensures begins { StartsWith out.old.items out.new.items }
{
    if entity.is_long() {
        let place = open_long_message(2, out)?;
        put_named(feed, prefix, entity, out)?;
        return write_long_length(place, out);
    }
    let place = open_message(2, out)?;
    put_named(feed, prefix, entity, out)?;
    write_length(place, out)
}

/// Appends the fields of the entity, its own id under the name of its feed.
fn put_named(feed: &str, prefix: &str, entity: &Entity, out: &mut Vec<u8>) -> Result<(), NoMemory>
    ensures written { OnOk result (out.new.items
        ≡ out.old.items
        ++ message_bytes rows.entity
        (entity_under_feed feed.now (renamed_entity prefix.now entity.now))) }
    ensures begins { StartsWith out.old.items out.new.items }
{
    put_joined(1, feed, ":", entity.id.as_str(), out)?;
    put_content(entity, prefix, out)
}
