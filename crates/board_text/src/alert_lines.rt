//! A list of alerts as text.

ghost use Rattle.std.specs.Prelude.{◌≡◌, [], ◌∷◌, ◌++◌, OnOk, OnErr};
ghost use Rattle.std.specs.Io.{StartsWith};
ghost use Rattle.std.specs.List.{flat_map};
ghost use Rattle.board_text_defs.specs.Alerts.{feed_name, signed, alert_columns, alert_line, alerts_text};
ghost use Rattle.board_text_defs.specs.Lines.{line_of_fields, number_or_dash};

use crate::NoMemory;
use crate::cells::{feed_name, number_text, signed};
use crate::lines::push_line;
use alert_defs::AlertRow;
use board_parts::HubView;
use itoa::Buffer;
use sched_types::NamedFeed;

/// Appends the list of alerts of a view's feeds: a line with the names of the columns, and a line
/// for each row, with the name of its feed. Want of memory leaves `out` as it was.
pub fn alerts_text(view: &HubView, rows: &[AlertRow], out: &mut Vec<u8>) -> Result<(), NoMemory>
    ensures written { OnOk result
        (out.new.items ≡ out.old.items ++ alerts_text view.now.plans.feeds rows.now) }
    ensures kept { OnErr result (out.new.items ≡ out.old.items) }
{
    let before = out.len();
    let written = push_alerts(view.plans().feeds(), rows, out);
    if written.is_err() {
        out.truncate(before);
    }
    written
}

/// Appends the list, or as much of it as memory allows.
#[tactic(auto, unfolding(board_text_defs::specs::Alerts::alerts_text))]
fn push_alerts(feeds: &[NamedFeed], rows: &[AlertRow], out: &mut Vec<u8>) -> Result<(), NoMemory>
    ensures written { OnOk result
        (out.new.items ≡ out.old.items ++ alerts_text feeds.now rows.now) }
    ensures begins { StartsWith out.new.items out.old.items }
{
    push_columns(out)?;
    push_rows(feeds, rows, out)
}

/// Appends the line with the names of the columns.
fn push_columns(out: &mut Vec<u8>) -> Result<(), NoMemory>
    ensures written { OnOk result (out.new.items ≡ out.old.items ++ line_of_fields alert_columns) }
    ensures begins { StartsWith out.new.items out.old.items }
{
    push_line(&["feed", "id", "cause", "effect", "header"], out)
}

/// Appends a line for each row.
fn push_rows(feeds: &[NamedFeed], rows: &[AlertRow], out: &mut Vec<u8>) -> Result<(), NoMemory>
    ensures written { OnOk result
        (out.new.items ≡ out.old.items ++ flat_map (alert_line feeds.now) rows.now) }
    ensures begins { StartsWith out.new.items out.old.items }
{
    for row in rows {
        push_row(feeds, row, out)?;
    }
    Ok(())
}

/// Appends the line of a row.
fn push_row(feeds: &[NamedFeed], row: &AlertRow, out: &mut Vec<u8>) -> Result<(), NoMemory>
    ensures written { OnOk result (out.new.items ≡ out.old.items ++ alert_line feeds.now row.now) }
    ensures begins { StartsWith out.new.items out.old.items }
{
    let (mut cause, mut effect) = (Buffer::new(), Buffer::new());
    push_cells(
        feed_name(feeds, row.feed),
        number_text(signed(row.cause), &mut cause),
        number_text(signed(row.effect), &mut effect),
        row,
        out,
    )
}

/// Appends the line of a row, whose numbers are spelled already.
fn push_cells<'a>(
    feed: &'a str,
    cause: &'a str,
    effect: &'a str,
    row: &'a AlertRow,
    out: &mut Vec<u8>,
) -> Result<(), NoMemory>
    ensures written { OnOk result (out.new.items ≡ out.old.items
        ++ line_of_fields (feed.now ∷ row.now.id ∷ cause.now ∷ effect.now ∷ row.now.header ∷ [])) }
    ensures begins { StartsWith out.new.items out.old.items }
{
    push_line(
        &[feed, row.id.as_str(), cause, effect, row.header.as_str()],
        out,
    )
}
