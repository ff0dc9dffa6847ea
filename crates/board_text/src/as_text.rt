//! A board as text.

ghost use Rattle.std.specs.Prelude.{◌≡◌, [], ◌∷◌, ◌++◌, OnOk, OnErr, codes};
ghost use Rattle.std.specs.Io.{StartsWith};
ghost use Rattle.std.specs.List.{flat_map};
ghost use Rattle.board_text_defs.specs.Lines.{line_of_fields};
ghost use Rattle.board_text_defs.specs.BoardText.{board_text, board_columns, row_line};
ghost use Rattle.board_text.specs.Fields.{texts_of, worded, IsPlain};

use crate::NoMemory;
use crate::cells::number_text;
use crate::lines::{push_line, push_plain};
use crate::words::word_of;
use board_defs::Row;
use itoa::Buffer;

/// Appends the board of the stop of that id and name: a line with both, a line with the names of
/// the columns, and a line for each row. Want of memory leaves `out` as it was.
pub fn board_text(stop: &str, name: &str, rows: &[Row], out: &mut Vec<u8>) -> Result<(), NoMemory>
    ensures written { OnOk result
        (out.new.items ≡ out.old.items ++ board_text stop.now name.now rows.now) }
    ensures kept { OnErr result (out.new.items ≡ out.old.items) }
{
    let before = out.len();
    let written = push_board(stop, name, rows, out);
    if written.is_err() {
        out.truncate(before);
    }
    written
}

/// Appends the board, or as much of it as memory allows.
#[tactic(auto, unfolding(board_text_defs::specs::BoardText::board_text))]
fn push_board(stop: &str, name: &str, rows: &[Row], out: &mut Vec<u8>) -> Result<(), NoMemory>
    ensures written { OnOk result
        (out.new.items ≡ out.old.items ++ board_text stop.now name.now rows.now) }
    ensures begins { StartsWith out.new.items out.old.items }
{
    push_title(stop, name, out)?;
    push_columns(out)?;
    push_rows(rows, out)
}

/// Appends the line with the stop.
fn push_title<'a>(stop: &'a str, name: &'a str, out: &mut Vec<u8>) -> Result<(), NoMemory>
    ensures written { OnOk result (out.new.items
        ≡ out.old.items ++ line_of_fields (codes "stop" ∷ stop.now ∷ name.now ∷ [])) }
    ensures begins { StartsWith out.new.items out.old.items }
{
    push_line(&["stop", stop, name], out)
}

/// Appends the line with the names of the columns.
fn push_columns(out: &mut Vec<u8>) -> Result<(), NoMemory>
    ensures written { OnOk result (out.new.items ≡ out.old.items ++ line_of_fields board_columns) }
    ensures begins { StartsWith out.new.items out.old.items }
{
    push_line(
        &[
            "expected",
            "scheduled",
            "delay",
            "state",
            "route",
            "headsign",
            "trip",
            "date",
            "platform",
        ],
        out,
    )
}

/// Appends a line for each row.
fn push_rows(rows: &[Row], out: &mut Vec<u8>) -> Result<(), NoMemory>
    ensures written { OnOk result (out.new.items ≡ out.old.items ++ flat_map row_line rows.now) }
    ensures begins { StartsWith out.new.items out.old.items }
{
    for row in rows {
        push_row(row, out)?;
    }
    Ok(())
}

/// Appends the line of a row.
fn push_row(row: &Row, out: &mut Vec<u8>) -> Result<(), NoMemory>
    ensures written { OnOk result (out.new.items ≡ out.old.items ++ row_line row.now) }
    ensures begins { StartsWith out.new.items out.old.items }
{
    let (mut expected, mut scheduled, mut delay) = (Buffer::new(), Buffer::new(), Buffer::new());
    push_cells(
        expected.format(row.expected),
        number_text(row.scheduled, &mut scheduled),
        number_text(row.delay, &mut delay),
        row,
        out,
    )
}

/// Appends the line of a row, whose numbers are spelled already. Words of our own and numbers have
/// no control characters and are not looked through.
fn push_cells<'a>(
    expected: &'a str,
    scheduled: &'a str,
    delay: &'a str,
    row: &'a Row,
    out: &mut Vec<u8>,
) -> Result<(), NoMemory>
    requires expected { IsPlain expected.now }
    requires scheduled { IsPlain scheduled.now }
    requires delay { IsPlain delay.now }
    ensures written { OnOk result (out.new.items ≡ out.old.items
        ++ line_of_fields (expected.now ∷ scheduled.now ∷ delay.now ∷ worded row.now)) }
    ensures begins { StartsWith out.new.items out.old.items }
{
    let state: &'a str = word_of(row.state);
    push_plain(&[expected, scheduled, delay, state], out)?;
    push_texts(row, out)
}

/// Appends the texts of a row, as a line.
fn push_texts(row: &Row, out: &mut Vec<u8>) -> Result<(), NoMemory>
    ensures written { OnOk result
        (out.new.items ≡ out.old.items ++ line_of_fields (texts_of row.now)) }
    ensures begins { StartsWith out.new.items out.old.items }
{
    push_line(
        &[
            row.route.as_str(),
            row.headsign.as_str(),
            row.trip.as_str(),
            row.date.as_str(),
            row.platform.as_str(),
        ],
        out,
    )
}
