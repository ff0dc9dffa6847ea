//! A list of alerts as JSON.

ghost use Rattle.std.specs.Prelude.{◌≡◌, [], ◌∷◌, ◌++◌, OnOk, OnErr, codes};
ghost use Rattle.std.specs.List.{flat_map};
ghost use Rattle.json.specs.Token.{begin_array, end_array, key};
ghost use Rattle.board_text_defs.specs.Alerts.{alert_tokens, alerts_tokens, alerts_json};

use crate::NoMemory;
use crate::as_json::{put_number, put_text};
use crate::cells::{feed_name, signed};
use alert_defs::AlertRow;
use board_parts::HubView;
use json::Writer;
use sched_types::NamedFeed;
use std::mem;

/// Appends the list of alerts of a view's feeds beside the board of the stop of that id, as one
/// JSON value (RFC 8259) with no spaces, the keys of each object in byte order. Want of memory
/// leaves `out` as it was.
pub fn alerts_json(
    view: &HubView,
    stop: &str,
    rows: &[AlertRow],
    out: &mut Vec<u8>,
) -> Result<(), NoMemory>
    ensures written { OnOk result
        (out.new.items ≡ out.old.items ++ alerts_json view.now.plans.feeds stop.now rows.now) }
    ensures kept { OnErr result (out.new.items ≡ out.old.items) }
{
    spell_alerts(view.plans().feeds(), stop, rows, out)
}

/// The same, of the feeds of those names.
#[tactic(auto, unfolding(board_text_defs::specs::Alerts::alerts_json))]
fn spell_alerts(
    feeds: &[NamedFeed],
    stop: &str,
    rows: &[AlertRow],
    out: &mut Vec<u8>,
) -> Result<(), NoMemory>
    ensures written { OnOk result
        (out.new.items ≡ out.old.items ++ alerts_json feeds.now stop.now rows.now) }
    ensures kept { OnErr result (out.new.items ≡ out.old.items) }
{
    let before = out.len();
    let empty = Vec::new(*out.allocator());
    let mut writer = Writer::new(mem::replace(out, empty));
    let written = put_alerts(feeds, stop, rows, &mut writer);
    *out = writer.into_inner();
    if written.is_err() {
        out.truncate(before);
    }
    written
}

/// Writes the list, or as many of its tokens as memory allows.
fn put_alerts(
    feeds: &[NamedFeed],
    stop: &str,
    rows: &[AlertRow],
    writer: &mut Writer,
) -> Result<(), NoMemory>
    ensures tokens { OnOk result
        (writer.new.tokens ≡ writer.old.tokens ++ alerts_tokens feeds.now stop.now rows.now) }
    ensures before { writer.new.before ≡ writer.old.before }
{
    writer.begin_object()?;
    put_rows(feeds, rows, writer)?;
    put_text("stop", stop, writer)?;
    writer.end_object()
}

/// Writes the member with the rows.
fn put_rows(feeds: &[NamedFeed], rows: &[AlertRow], writer: &mut Writer) -> Result<(), NoMemory>
    ensures tokens { OnOk result (writer.new.tokens ≡ writer.old.tokens
        ++ (key (codes "alerts") ∷ begin_array
        ∷ (flat_map (alert_tokens feeds.now) rows.now ++ end_array ∷ []))) }
    ensures before { writer.new.before ≡ writer.old.before }
{
    writer.key("alerts")?;
    writer.begin_array()?;
    put_each(feeds, rows, writer)?;
    writer.end_array()
}

/// Writes the rows, one object each.
fn put_each(feeds: &[NamedFeed], rows: &[AlertRow], writer: &mut Writer) -> Result<(), NoMemory>
    ensures tokens { OnOk result
        (writer.new.tokens ≡ writer.old.tokens ++ flat_map (alert_tokens feeds.now) rows.now) }
    ensures before { writer.new.before ≡ writer.old.before }
{
    for row in rows {
        put_row(feeds, row, writer)?;
    }
    Ok(())
}

/// Writes a row: one object.
fn put_row(feeds: &[NamedFeed], row: &AlertRow, writer: &mut Writer) -> Result<(), NoMemory>
    ensures tokens { OnOk result
        (writer.new.tokens ≡ writer.old.tokens ++ alert_tokens feeds.now row.now) }
    ensures before { writer.new.before ≡ writer.old.before }
{
    writer.begin_object()?;
    put_number("cause", signed(row.cause), writer)?;
    put_number("effect", signed(row.effect), writer)?;
    put_text("feed", feed_name(feeds, row.feed), writer)?;
    put_text("header", row.header.as_str(), writer)?;
    put_text("id", row.id.as_str(), writer)?;
    writer.end_object()
}
