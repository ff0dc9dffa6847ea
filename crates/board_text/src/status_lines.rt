//! The status of a hub as text.

ghost use Rattle.std.specs.Prelude.{◌≡◌, [], ◌∷◌, ◌++◌, codes, OnOk, OnErr};
ghost use Rattle.std.specs.Fmt.{decimal};
ghost use Rattle.std.specs.Io.{StartsWith};
ghost use Rattle.std.specs.List.{flat_map};
ghost use Rattle.board_defs.specs.Views.{folds_of};
ghost use Rattle.board_text_defs.specs.Lines.{line_of_fields};
ghost use Rattle.board_text_defs.specs.Status.{status_columns, status_line, status_text};

use crate::NoMemory;
use crate::lines::push_line;
use board_parts::{HubFeed, HubFeeds, HubView};
use itoa::Buffer;

/// Appends the status of a hub: a line with how many messages it accepted, a line with the names of
/// the columns, and a line for each feed with its name, how many of its messages were accepted, the
/// stamp of the last, in seconds since 1970, and how many entities it holds. Want of memory leaves
/// `out` as it was.
pub fn status_text(view: &HubView, out: &mut Vec<u8>) -> Result<(), NoMemory>
    ensures written { OnOk result
        (out.new.items ≡ out.old.items ++ status_text view.now.plans.feeds (folds_of view.now)) }
    ensures kept { OnErr result (out.new.items ≡ out.old.items) }
{
    let before = out.len();
    let written = push_status(view, out);
    if written.is_err() {
        out.truncate(before);
    }
    written
}

/// Appends the status, or as much of it as memory allows.
#[tactic(auto, unfolding(board_text_defs::specs::Status::status_text))]
fn push_status(view: &HubView, out: &mut Vec<u8>) -> Result<(), NoMemory>
    ensures written { OnOk result
        (out.new.items ≡ out.old.items ++ status_text view.now.plans.feeds (folds_of view.now)) }
    ensures begins { StartsWith out.new.items out.old.items }
{
    view.sound();
    push_entries(view.entries(), out)?;
    push_columns(out)?;
    push_feeds(view.hub_feeds(), out)
}

/// Appends the line with how many messages were accepted.
fn push_entries(entries: u64, out: &mut Vec<u8>) -> Result<(), NoMemory>
    ensures written { OnOk result (out.new.items ≡ out.old.items
        ++ line_of_fields (codes "entries" ∷ decimal entries ∷ [])) }
    ensures begins { StartsWith out.new.items out.old.items }
{
    let mut buffer = Buffer::new();
    push_pair(buffer.format(entries), out)
}

/// The same of a number that is spelled already.
fn push_pair<'a>(entries: &'a str, out: &mut Vec<u8>) -> Result<(), NoMemory>
    ensures written { OnOk result (out.new.items ≡ out.old.items
        ++ line_of_fields (codes "entries" ∷ entries.now ∷ [])) }
    ensures begins { StartsWith out.new.items out.old.items }
{
    push_line(&["entries", entries], out)
}

/// Appends the line with the names of the columns.
fn push_columns(out: &mut Vec<u8>) -> Result<(), NoMemory>
    ensures written { OnOk result (out.new.items ≡ out.old.items ++ line_of_fields status_columns) }
    ensures begins { StartsWith out.new.items out.old.items }
{
    push_line(&["feed", "accepted", "last", "entities"], out)
}

/// Appends a line for each feed.
fn push_feeds(feeds: HubFeeds<'_>, out: &mut Vec<u8>) -> Result<(), NoMemory>
    ensures written { OnOk result
        (out.new.items ≡ out.old.items ++ flat_map status_line feeds.entry) }
    ensures begins { StartsWith out.new.items out.old.items }
{
    for feed in feeds {
        push_feed(&feed, out)?;
    }
    Ok(())
}

/// Appends the line of a feed.
fn push_feed(feed: &HubFeed<'_>, out: &mut Vec<u8>) -> Result<(), NoMemory>
    ensures written { OnOk result (out.new.items ≡ out.old.items ++ status_line feed.now) }
    ensures begins { StartsWith out.new.items out.old.items }
{
    let view = feed.view();
    let (mut count, mut stamp, mut entities) = (Buffer::new(), Buffer::new(), Buffer::new());
    push_cells(
        feed.feed().name.as_str(),
        count.format(view.count()),
        stamp.format(view.stamp()),
        entities.format(view.table().len()),
        out,
    )
}

/// The same of numbers that are spelled already.
fn push_cells<'a>(
    name: &'a str,
    count: &'a str,
    stamp: &'a str,
    entities: &'a str,
    out: &mut Vec<u8>,
) -> Result<(), NoMemory>
    ensures written { OnOk result (out.new.items ≡ out.old.items
        ++ line_of_fields (name.now ∷ count.now ∷ stamp.now ∷ entities.now ∷ [])) }
    ensures begins { StartsWith out.new.items out.old.items }
{
    push_line(&[name, count, stamp, entities], out)
}
