//! A board as JSON.

ghost use Rattle.std.specs.Prelude.{◌≡◌, [], ◌∷◌, ◌++◌, OnOk, OnErr, codes};
ghost use Rattle.std.specs.List.{flat_map};
ghost use Rattle.json.specs.Token.{begin_array, end_array, key};
ghost use Rattle.board_text_defs.specs.BoardJson.{text_member, number_member, row_tokens, board_tokens, board_json};

use crate::NoMemory;
use crate::words::word_of;
use board_defs::Row;
use json::Writer;
use std::mem;

/// Appends the board of the stop of that id and name as one JSON value (RFC 8259) with no spaces,
/// the keys of each object in byte order. Want of memory leaves `out` as it was.
#[tactic(auto, unfolding(board_text_defs::specs::BoardJson::board_json))]
pub fn board_json(stop: &str, name: &str, rows: &[Row], out: &mut Vec<u8>) -> Result<(), NoMemory>
    ensures written { OnOk result
        (out.new.items ≡ out.old.items ++ board_json stop.now name.now rows.now) }
    ensures kept { OnErr result (out.new.items ≡ out.old.items) }
{
    let before = out.len();
    let empty = Vec::new(*out.allocator());
    let mut writer = Writer::new(mem::replace(out, empty));
    let written = put_board(stop, name, rows, &mut writer);
    *out = writer.into_inner();
    if written.is_err() {
        out.truncate(before);
    }
    written
}

/// Writes the board, or as many of its tokens as memory allows.
fn put_board(stop: &str, name: &str, rows: &[Row], writer: &mut Writer) -> Result<(), NoMemory>
    ensures tokens { OnOk result
        (writer.new.tokens ≡ writer.old.tokens ++ board_tokens stop.now name.now rows.now) }
    ensures before { writer.new.before ≡ writer.old.before }
{
    writer.begin_object()?;
    put_text("name", name, writer)?;
    put_rows(rows, writer)?;
    put_text("stop", stop, writer)?;
    writer.end_object()
}

/// Writes the member with the rows.
fn put_rows(rows: &[Row], writer: &mut Writer) -> Result<(), NoMemory>
    ensures tokens { OnOk result (writer.new.tokens ≡ writer.old.tokens
        ++ (key (codes "rows") ∷ begin_array ∷ (flat_map row_tokens rows.now ++ end_array ∷ []))) }
    ensures before { writer.new.before ≡ writer.old.before }
{
    writer.key("rows")?;
    writer.begin_array()?;
    put_each(rows, writer)?;
    writer.end_array()
}

/// Writes the rows, one object each.
fn put_each(rows: &[Row], writer: &mut Writer) -> Result<(), NoMemory>
    ensures tokens { OnOk result
        (writer.new.tokens ≡ writer.old.tokens ++ flat_map row_tokens rows.now) }
    ensures before { writer.new.before ≡ writer.old.before }
{
    for row in rows {
        put_row(row, writer)?;
    }
    Ok(())
}

/// Writes a row: one object.
fn put_row(row: &Row, writer: &mut Writer) -> Result<(), NoMemory>
    ensures tokens { OnOk result
        (writer.new.tokens ≡ writer.old.tokens ++ row_tokens row.now) }
    ensures before { writer.new.before ≡ writer.old.before }
{
    writer.begin_object()?;
    put_text("date", row.date.as_str(), writer)?;
    put_number("delay", row.delay, writer)?;
    put_number("expected", Some(row.expected), writer)?;
    put_text("headsign", row.headsign.as_str(), writer)?;
    put_text("platform", row.platform.as_str(), writer)?;
    put_text("route", row.route.as_str(), writer)?;
    put_number("scheduled", row.scheduled, writer)?;
    put_text("state", word_of(row.state), writer)?;
    put_text("trip", row.trip.as_str(), writer)?;
    writer.end_object()
}

/// Writes a member of an object whose value is a text.
pub(crate) fn put_text(name: &str, text: &str, writer: &mut Writer) -> Result<(), NoMemory>
    ensures tokens { OnOk result
        (writer.new.tokens ≡ writer.old.tokens ++ text_member name.now text.now) }
    ensures before { writer.new.before ≡ writer.old.before }
{
    writer.key(name)?;
    writer.string(text)
}

/// Writes a member whose value is a number, or null where it is absent.
pub(crate) fn put_number(
    name: &str,
    number: Option<i64>,
    writer: &mut Writer,
) -> Result<(), NoMemory>
    ensures tokens { OnOk result
        (writer.new.tokens ≡ writer.old.tokens ++ number_member name.now number) }
    ensures before { writer.new.before ≡ writer.old.before }
{
    writer.key(name)?;
    match number {
        Some(number) => writer.i64(number),
        None => writer.null(),
    }
}
