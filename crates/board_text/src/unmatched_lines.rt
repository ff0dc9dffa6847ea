//! A list of unmatched trips as text.

ghost use Rattle.std.specs.Prelude.{◌≡◌, [], ◌∷◌, ◌++◌, OnOk, OnErr};
ghost use Rattle.std.specs.Io.{StartsWith};
ghost use Rattle.std.specs.List.{flat_map};
ghost use Rattle.board_text_defs.specs.Lines.{line_of_fields};
ghost use Rattle.board_text_defs.specs.UnmatchedText.{why_word, kind_word, unmatched_columns, unmatched_line, unmatched_text};

use crate::NoMemory;
use crate::cells::feed_name;
use crate::lines::push_line;
use alert_defs::Unmatched;
use board_parts::HubView;
use sched_types::NamedFeed;
use trip_match_defs::Why;

/// Appends the list of unmatched trips of a view's feeds: a line with the names of the columns, and
/// a line for each row, with the name of its feed. Want of memory leaves `out` as it was.
pub fn unmatched_text(view: &HubView, rows: &[Unmatched], out: &mut Vec<u8>) -> Result<(), NoMemory>
    ensures written { OnOk result
        (out.new.items ≡ out.old.items ++ unmatched_text view.now.plans.feeds rows.now) }
    ensures kept { OnErr result (out.new.items ≡ out.old.items) }
{
    let before = out.len();
    let written = push_unmatched(view.plans().feeds(), rows, out);
    if written.is_err() {
        out.truncate(before);
    }
    written
}

/// Appends the list, or as much of it as memory allows.
#[tactic(auto, unfolding(board_text_defs::specs::UnmatchedText::unmatched_text))]
fn push_unmatched(
    feeds: &[NamedFeed],
    rows: &[Unmatched],
    out: &mut Vec<u8>,
) -> Result<(), NoMemory>
    ensures written { OnOk result
        (out.new.items ≡ out.old.items ++ unmatched_text feeds.now rows.now) }
    ensures begins { StartsWith out.new.items out.old.items }
{
    push_columns(out)?;
    push_rows(feeds, rows, out)
}

/// Appends the line with the names of the columns.
fn push_columns(out: &mut Vec<u8>) -> Result<(), NoMemory>
    ensures written { OnOk result
        (out.new.items ≡ out.old.items ++ line_of_fields unmatched_columns) }
    ensures begins { StartsWith out.new.items out.old.items }
{
    push_line(&["feed", "id", "kind", "reason"], out)
}

/// Appends a line for each row.
fn push_rows(feeds: &[NamedFeed], rows: &[Unmatched], out: &mut Vec<u8>) -> Result<(), NoMemory>
    ensures written { OnOk result
        (out.new.items ≡ out.old.items ++ flat_map (unmatched_line feeds.now) rows.now) }
    ensures begins { StartsWith out.new.items out.old.items }
{
    for row in rows {
        push_row(feed_name(feeds, row.feed), row, out)?;
    }
    Ok(())
}

/// Appends the line of a row of the feed of that name.
fn push_row<'a>(feed: &'a str, row: &'a Unmatched, out: &mut Vec<u8>) -> Result<(), NoMemory>
    ensures written { OnOk result (out.new.items ≡ out.old.items
        ++ line_of_fields (feed.now ∷ row.now.id ∷ kind_word row.now.vehicle ∷ why_word row.now.why
        ∷ [])) }
    ensures begins { StartsWith out.new.items out.old.items }
{
    let kind: &'a str = kind_of(row.vehicle);
    let why: &'a str = word_of(row.why);
    push_line(&[feed, row.id.as_str(), kind, why], out)
}

/// The word of what names the trip.
fn kind_of(vehicle: bool) -> &'static str
    ensures { result.now ≡ kind_word vehicle }
{
    if vehicle { "vehicle" } else { "trip" }
}

/// The word of why no run was found.
fn word_of(why: Why) -> &'static str
    ensures { result.now ≡ why_word why }
{
    match why {
        Why::NoTrip => "notrip",
        Why::NoDay => "noday",
        Why::NotActive => "notactive",
        Why::Several => "several",
        Why::Relation => "relation",
        Why::BadText => "text",
    }
}
