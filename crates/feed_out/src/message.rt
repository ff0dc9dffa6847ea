//! The message, and its bytes.

ghost use Rattle.std.specs.Prelude.{◌≡◌, ◌<◌, ◌++◌, List, length, true, Ok, IfOk, OnOk, OnErr};
ghost use Rattle.std.specs.Io.{StartsWith};
ghost use Rattle.std.specs.Str.{is_utf8};
ghost use Rattle.feed_defs.specs.declared.history.Entry.{Entry};
ghost use Rattle.feed_defs.specs.History.{WereRead};
ghost use Rattle.feed_defs.specs.Table.{read, write};
ghost use Rattle.board_defs.specs.Feed.{newest_of, combined_feed};
ghost use Rattle.board_defs.specs.Fold.{fold_of};
ghost use Rattle.board_defs.specs.Views.{StandsFor, folds_of};
ghost use Rattle.feed_out.specs.Fields.{schedule_message, header_of};

use crate::NoMemory;
use crate::entities::push_entities;
use board_parts::{HubView, ScheduleFeeds};
use feed_write::write_message;
use rt_types::{Bytes, Entities, FeedMessage, Header, Incrementality, Text};
use std::alloc::Global;

/// The bytes of the combined feed of the schedule of that number by themselves: what
/// [`push_combined`] appends; or out of memory.
pub fn combined(alloc: Global, view: &HubView, plan: u32) -> Result<Vec<u8>, NoMemory>
    requires { plan < length view.now.plans.plans }
    ensures feed { IfOk result (λ bytes. bytes.items
        ≡ combined_feed view.now.plans plan (folds_of view.now)) }
    ensures stands { (h : List Entry) → StandsFor h view.now → IfOk result (λ bytes. bytes.items
        ≡ combined_feed view.now.plans plan (fold_of (length view.now.plans.feeds) h)) }
    ensures again { (h : List Entry) → WereRead h → StandsFor h view.now → IfOk result (λ bytes.
        read bytes.items ≡ Ok (schedule_message view.now.plans plan (folds_of view.now))) }
{
    let mut bytes = Vec::new(alloc);
    push_combined(view, plan, &mut bytes)?;
    Ok(bytes)
}

/// Appends the combined feed of the schedule of that number (GTFS Realtime 2.0, FeedMessage), of
/// what the hub's feeds hold. Where the hub's messages were read, it reads as the message that it
/// is written of. Out of memory leaves `out` as it was.
pub fn push_combined(view: &HubView, plan: u32, out: &mut Vec<u8>) -> Result<(), NoMemory>
    requires { plan < length view.now.plans.plans }
    ensures feed { OnOk result (out.new.items
        ≡ out.old.items ++ combined_feed view.now.plans plan (folds_of view.now)) }
    ensures stands { (h : List Entry) → StandsFor h view.now → OnOk result (out.new.items
        ≡ out.old.items ++ combined_feed view.now.plans plan
        (fold_of (length view.now.plans.feeds) h)) }
    ensures again { (h : List Entry) → WereRead h → StandsFor h view.now → OnOk result
        (read (combined_feed view.now.plans plan (folds_of view.now))
        ≡ Ok (schedule_message view.now.plans plan (folds_of view.now))) }
    ensures kept { OnErr result (out.new.items ≡ out.old.items) }
{
    let before = out.len();
    match push_message(view, plan, out) {
        Ok(()) => Ok(()),
        Err(fault) => {
            out.truncate(before);
            Err(fault)
        }
    }
}

/// Appends it, or as much of it as memory allows.
fn push_message(view: &HubView, plan: u32, out: &mut Vec<u8>) -> Result<(), NoMemory>
    requires { plan < length view.now.plans.plans }
    ensures feed { OnOk result (out.new.items
        ≡ out.old.items ++ combined_feed view.now.plans plan (folds_of view.now)) }
    ensures again { (h : List Entry) → WereRead h → StandsFor h view.now → OnOk result
        (read (combined_feed view.now.plans plan (folds_of view.now))
        ≡ Ok (schedule_message view.now.plans plan (folds_of view.now))) }
    ensures begins { StartsWith out.new.items out.old.items }
{
    view.sound();
    let prefix = view.plans().plans()[plan as usize].prefix.as_str();
    is_text(prefix);
    let newest = newest_stamp(view.feeds_of(plan));
    push_header(Incrementality::FullDataset, newest, out)?;
    push_entities(prefix, view.entities_of(plan), out)
}

/// Does nothing; its contract tells that a text is UTF-8.
fn is_text(_text: &str)
    ensures { is_utf8 _text.now ≡ true }
{}

/// Appends the header of a message of version 2.0 (GTFS Realtime 2.0, FeedHeader) with that stamp,
/// in seconds since 1970: a message of no entities, which may follow it as further fields.
pub fn push_header(
    incrementality: Incrementality,
    stamp: u64,
    out: &mut Vec<u8>,
) -> Result<(), NoMemory>
    ensures written { OnOk result (out.new.items
        ≡ out.old.items ++ write (header_of incrementality stamp)) }
    ensures begins { StartsWith out.new.items out.old.items }
{
    let alloc = *out.allocator();
    let message = FeedMessage {
        header: Header {
            version: Text::new(alloc, "2.0")?,
            incrementality: Some(incrementality),
            timestamp: Some(stamp),
            unknown: Bytes::new(alloc, b"")?,
        },
        entity: Entities::new(Vec::new(alloc)),
        unknown: Bytes::new(alloc, b"")?,
    };
    write_message(&message, out)
}

/// The greatest last stamp of some feeds, 0 if there are none.
pub fn newest_stamp(feeds: ScheduleFeeds<'_>) -> u64
    ensures { result ≡ newest_of feeds.entry }
{
    let mut newest = 0;
    for feed in feeds {
        newest = newest.max(feed.view().stamp());
    }
    newest
}
