//! What changed in the combined feed of a schedule since an earlier view.

ghost use Rattle.std.specs.Prelude.{◌≡◌, ◌<◌, ◌++◌, [], ◌∷◌, List, Some, Ok, length, true, slice_index_or, IfOk, OnOk, IsSome};
ghost use Rattle.std.specs.List.{flat_map, AllByRecursion};
ghost use Rattle.std.specs.Str.{is_utf8};
ghost use Rattle.feed_defs.specs.declared.history.Entry.{Entry};
ghost use Rattle.feed_defs.specs.History.{WereRead};
ghost use Rattle.feed_defs.specs.Table.{read};
ghost use Rattle.board_defs.specs.Fold.{FeedFold, fold_of};
ghost use Rattle.board_defs.specs.Views.{StandsFor, folds_of, no_fold};
ghost use Rattle.delta_defs.specs.Applied.{BringsTo};
ghost use Rattle.delta_defs.specs.Changes.{changes, changes_bytes};
ghost use Rattle.delta_defs.specs.Kept.{folds_at};
ghost use Rattle.delta_defs.specs.OneHistory.{AreOfOneHistory, FeedHoldsSince};
ghost use Rattle.delta_out.specs.Feeds.{feed_field, IsShortFeed};

use crate::NoMemory;
use crate::kept::{Kept, KeptFeed, KeptView};
use board_parts::{HubView, ScheduleFeeds};
use delta_feed::push_feed;
use entity_table::Table;
use feed_out::{newest_stamp, push_header};
use rt_types::Incrementality;
use std::alloc::Global;

/// The bytes of what changed in the combined feed of the schedule of that number between a kept
/// view, by its number of messages, and the given one of the same history (GTFS Realtime 2.0,
/// FeedHeader, DIFFERENTIAL); or out of memory. The stamps of a feed rise, so what has none above
/// the one that its feed had is the same as it was and is passed over. Where the messages of both
/// were read, the bytes read as a message, and who has the combined feed of the kept view and
/// applies it has that of the given one.
pub fn since(
    alloc: Global,
    kept: &Kept,
    view: &HubView,
    plan: u32,
    number: u64,
) -> Result<Vec<u8>, NoMemory>
    requires kept { IsSome (folds_at number kept.now) }
    requires one_history { AreOfOneHistory kept.now view.now }
    requires plan { plan < length view.now.plans.plans }
    ensures changes { (old : List FeedFold) → folds_at number kept.now ≡ Some old
        → IfOk result (λ bytes. bytes.items
        ≡ changes_bytes view.now.plans plan old (folds_of view.now)) }
    ensures brings { (old : List FeedFold) → folds_at number kept.now ≡ Some old
        → (g h : List Entry) → WereRead g → WereRead h
        → old ≡ fold_of (length view.now.plans.feeds) g → StandsFor h view.now
        → OnOk result (BringsTo view.now.plans plan old (folds_of view.now)
        (changes view.now.plans plan old (folds_of view.now))) }
    ensures reads { (old : List FeedFold) → folds_at number kept.now ≡ Some old
        → (g h : List Entry) → WereRead g → WereRead h
        → old ≡ fold_of (length view.now.plans.feeds) g → StandsFor h view.now
        → IfOk result (λ bytes. read bytes.items
        ≡ Ok (changes view.now.plans plan old (folds_of view.now))) }
{
    match kept.at(number) {
        Some(old) => changed_since(alloc, old, view, plan),
        None => Ok(Vec::new(alloc)),
    }
}

/// The bytes of what changed since a kept view, or out of memory.
fn changed_since(
    alloc: Global,
    old: &KeptView,
    view: &HubView,
    plan: u32,
) -> Result<Vec<u8>, NoMemory>
    requires one_history { AreOfOneHistory (old.now ∷ []) view.now }
    requires plan { plan < length view.now.plans.plans }
    ensures changes { IfOk result (λ bytes. bytes.items
        ≡ changes_bytes view.now.plans plan old.now.folds (folds_of view.now)) }
    ensures brings { (g h : List Entry) → WereRead g → WereRead h
        → old.now.folds ≡ fold_of (length view.now.plans.feeds) g → StandsFor h view.now
        → OnOk result (BringsTo view.now.plans plan old.now.folds (folds_of view.now)
        (changes view.now.plans plan old.now.folds (folds_of view.now))) }
    ensures reads { (g h : List Entry) → WereRead g → WereRead h
        → old.now.folds ≡ fold_of (length view.now.plans.feeds) g → StandsFor h view.now
        → IfOk result (λ bytes. read bytes.items
        ≡ Ok (changes view.now.plans plan old.now.folds (folds_of view.now))) }
{
    let mut bytes = Vec::new(alloc);
    push_changes(old, view, plan, &mut bytes)?;
    Ok(bytes)
}

/// Appends what changed since a kept view, or as much of it as memory allows.
fn push_changes(
    old: &KeptView,
    view: &HubView,
    plan: u32,
    out: &mut Vec<u8>,
) -> Result<(), NoMemory>
    requires one_history { AreOfOneHistory (old.now ∷ []) view.now }
    requires plan { plan < length view.now.plans.plans }
    ensures sent { OnOk result (out.new.items ≡ out.old.items
        ++ changes_bytes view.now.plans plan old.now.folds (folds_of view.now)) }
    ensures brings { (g h : List Entry) → WereRead g → WereRead h
        → old.now.folds ≡ fold_of (length view.now.plans.feeds) g → StandsFor h view.now
        → OnOk result (BringsTo view.now.plans plan old.now.folds (folds_of view.now)
        (changes view.now.plans plan old.now.folds (folds_of view.now))) }
    ensures reads { (g h : List Entry) → WereRead g → WereRead h
        → old.now.folds ≡ fold_of (length view.now.plans.feeds) g → StandsFor h view.now
        → OnOk result (read (changes_bytes view.now.plans plan old.now.folds (folds_of view.now))
        ≡ Ok (changes view.now.plans plan old.now.folds (folds_of view.now))) }
{
    view.sound();
    let prefix = view.plans().plans()[plan as usize].prefix.as_str();
    is_text(prefix);
    let stamp = newest_stamp(view.feeds_of(plan));
    push_header(Incrementality::Differential, stamp, out)?;
    push_feeds(prefix, old.feeds(), view.feeds_of(plan), out)
}

/// Does nothing; its contract tells that a text is UTF-8.
fn is_text(_text: &str)
    ensures { is_utf8 _text.now ≡ true }
{}

/// Appends what changed in some feeds, or as much of it as memory allows.
fn push_feeds(
    prefix: &str,
    old: &[KeptFeed],
    feeds: ScheduleFeeds<'_>,
    out: &mut Vec<u8>,
) -> Result<(), NoMemory>
    requires { AllByRecursion (FeedHoldsSince old.now) feeds }
    ensures sent { OnOk result (out.new.items
        ≡ out.old.items ++ flat_map (feed_field prefix.now old.now) feeds.entry) }
    ensures short { OnOk result (AllByRecursion (IsShortFeed prefix.now old.now) feeds.entry) }
{
    let nothing = Table::empty(*out.allocator());
    for one in feeds {
        let before = table_at(old, one.number(), &nothing);
        push_feed(
            one.feed().name.as_str(),
            prefix,
            before,
            stamp_at(old, one.number()),
            one.view().table(),
            out,
        )?;
    }
    Ok(())
}

/// What the feed of that number held, or else the given table.
fn table_at<'a>(feeds: &'a [KeptFeed], number: u32, other: &'a Table) -> &'a Table
    requires { other.now ≡ [] }
    ensures { result.now ≡ (slice_index_or feeds.entry.now number no_fold).entities }
{
    match feeds.get(number as usize) {
        Some(feed) => feed.table(),
        None => other,
    }
}

/// The stamp of the last message of the feed of that number; 0 where it had none.
fn stamp_at(feeds: &[KeptFeed], number: u32) -> u64
    ensures { result ≡ (slice_index_or feeds.now number no_fold).stamp }
{
    match feeds.get(number as usize) {
        Some(feed) => feed.stamp(),
        None => 0,
    }
}
