//! The cells of a record: each column's field, judged by the column's form.

ghost use Rattle.std.specs.Prelude.{◌≡◌, MatchResult, true, false};
ghost use Rattle.std.specs.Str.{is_utf8};
ghost use Rattle.csv.specs.Records.{fields_of};
ghost use Rattle.answer_defs.specs.Defined.{AsDefined};
ghost use Rattle.gtfs_rows.specs.Files.{cause_of, field_in, place_of, trimmed_text};
ghost use Rattle.gtfs_rows.specs.Layout.{cells_of, places_in};
ghost use Rattle.gtfs_rows.specs.Tables.{cell_value, refusal};
ghost use Rattle.gtfs_rows.specs.Values.{any_text, date, id_text, number, or_empty};
ghost use Rattle.text_defs.specs.Times.{time_in};

use crate::column::{COLUMNS, Column};
use crate::fault::RowFault;
use crate::values::{read_recent_date, trim};
use csv::ByteRecord;
use std::alloc::Global;
use std::str;
use texts::{ShortText as CellText, read_number, read_time};

/// The field at a place, without blanks: empty where there is no place or no field.
#[tactic(auto, using(crate::proofs::CellLemmas::field_none), unfolding(crate::specs::Files::trimmed_text))]
fn field_at_place(from: &ByteRecord, place: Option<usize>) -> &[u8]
    ensures { result.now ≡ trimmed_text (field_in (fields_of from.entry.now) place) }
{
    let Some(place) = place else {
        return &[];
    };
    let Some(field) = from.get(place) else {
        return &[];
    };
    trim(field)
}

/// Where a column stands: at the first field of a header that is its name.
#[tactic(auto, using(crate::proofs::CellLemmas::found_here, crate::proofs::CellLemmas::passed_here))]
pub(crate) fn place_in(header: &ByteRecord, column: Column) -> Option<usize>
    ensures { result ≡ place_of (fields_of header.now) column }
{
    let name = column.name();
    for place in 0..header.len() {
        if field_at_place(header, Some(place)) == name.as_bytes() {
            return Some(place);
        }
    }
    None
}

/// The place of each column in the header of a file, by `Column::slot`.
pub(crate) type Places = [Option<usize>; COLUMNS];

/// Finds the place of each column in a header.
pub(crate) fn place_columns(header: &ByteRecord) -> Places
    ensures { result ≡ places_in (fields_of header.now) }
{
    let mut places = [None; COLUMNS];
    for slot in 0..COLUMNS {
        places[slot] = place_in(header, Column::ALL[slot]);
    }
    places
}

/// A record of a file, with the places of the columns in its header.
#[derive(Clone, Copy)]
pub(crate) struct Cells<'a> {
    /// The number of the record, the header being 1.
    pub(crate) row: u32,
    pub(crate) record: &'a ByteRecord,
    pub(crate) places: &'a Places,
}

impl<'a> Cells<'a> {
    /// The bytes of the cell in this column.
    #[tactic(auto, unfolding(crate::specs::Layout::cell_at))]
    fn bytes(self, column: Column) -> &'a [u8]
        ensures { result.now ≡ cells_of self.entry column }
    {
        field_at_place(self.record, self.places[column.slot()])
    }

    /// The cell in this column, which must be text.
    fn text_in(self, column: Column) -> Result<&'a str, RowFault>
        ensures { MatchResult result
            (λ text. (text.now ≡ cells_of self.entry column)
            × (is_utf8 (cells_of self.entry column) ≡ true))
            (λ e. (e ≡ RowFault.NotText self.entry.row column)
            × (is_utf8 (cells_of self.entry column) ≡ false)) }
    {
        let Ok(text) = str::from_utf8(self.bytes(column)) else {
            return Err(RowFault::NotText {
                row: self.row,
                column,
            });
        };
        Ok(text)
    }

    /// Why the bytes of a cell in this column are refused that aren't of its form.
    fn refused(self, column: Column, bytes: &[u8]) -> RowFault
        ensures { result ≡ refusal self.entry.row column bytes.now }
    {
        let Ok(_) = str::from_utf8(bytes) else {
            return RowFault::NotText {
                row: self.row,
                column,
            };
        };
        RowFault::BadValue {
            row: self.row,
            column,
        }
    }

    /// A text that isn't empty.
    #[tactic(auto, unfolding(crate::specs::Tables::cell_value))]
    pub(crate) fn id(self, alloc: Global, column: Column) -> Result<CellText, RowFault>
        ensures { AsDefined (λ x. x) cause_of
            (cell_value id_text self.entry.row column (cells_of self.entry column)) result }
    {
        let text = self.text_in(column)?;
        if text.is_empty() {
            return Err(RowFault::BadValue {
                row: self.row,
                column,
            });
        }
        Ok(CellText::new(alloc, text)?)
    }

    /// Any text.
    #[tactic(auto, unfolding(crate::specs::Tables::cell_value))]
    pub(crate) fn text(self, alloc: Global, column: Column) -> Result<CellText, RowFault>
        ensures { AsDefined (λ x. x) cause_of
            (cell_value any_text self.entry.row column (cells_of self.entry column)) result }
    {
        let text = self.text_in(column)?;
        Ok(CellText::new(alloc, text)?)
    }

    /// A number from `low` to `high`.
    #[tactic(auto, using(crate::proofs::AsciiLemmas::number_text), unfolding(crate::specs::Tables::cell_value, crate::specs::Values::number))]
    pub(crate) fn number(self, column: Column, low: u32, high: u32) -> Result<u32, RowFault>
        ensures { AsDefined (λ x. x) cause_of
            (cell_value (number low high) self.entry.row column
            (cells_of self.entry column)) result }
    {
        let bytes = self.bytes(column);
        let Some(value) = read_number(bytes, 10, u64::from(low), u64::from(high)) else {
            return Err(self.refused(column, bytes));
        };
        Ok(value as u32)
    }

    /// A number from 0 to `high`, or none.
    #[tactic(auto, using(crate::proofs::AsciiLemmas::number_text, crate::proofs::AsciiLemmas::empty_text), unfolding(crate::specs::Tables::cell_value, crate::specs::Values::number))]
    pub(crate) fn optional_number(self, column: Column, high: u32) -> Result<Option<u32>, RowFault>
        ensures { AsDefined (λ x. x) cause_of
            (cell_value (or_empty (number 0 high)) self.entry.row column
            (cells_of self.entry column)) result }
    {
        let bytes = self.bytes(column);
        if bytes.is_empty() {
            return Ok(None);
        }
        let Some(value) = read_number(bytes, 10, 0, u64::from(high)) else {
            return Err(self.refused(column, bytes));
        };
        Ok(Some(value as u32))
    }

    /// A date.
    #[tactic(auto, using(crate::proofs::AsciiLemmas::date_text), unfolding(crate::specs::Tables::cell_value))]
    pub(crate) fn date(self, column: Column) -> Result<u32, RowFault>
        ensures { AsDefined (λ x. x) cause_of
            (cell_value date self.entry.row column (cells_of self.entry column)) result }
    {
        let bytes = self.bytes(column);
        let Some(value) = read_recent_date(bytes) else {
            return Err(self.refused(column, bytes));
        };
        Ok(value)
    }

    /// A time in seconds.
    #[tactic(auto, using(crate::proofs::AsciiLemmas::time_text), unfolding(crate::specs::Tables::cell_value))]
    pub(crate) fn time(self, column: Column) -> Result<u32, RowFault>
        ensures { AsDefined (λ x. x) cause_of
            (cell_value time_in self.entry.row column (cells_of self.entry column)) result }
    {
        let bytes = self.bytes(column);
        let Some(value) = read_time(bytes) else {
            return Err(self.refused(column, bytes));
        };
        Ok(value)
    }

    /// A time in seconds, or none.
    #[tactic(auto, using(crate::proofs::AsciiLemmas::time_text, crate::proofs::AsciiLemmas::empty_text), unfolding(crate::specs::Tables::cell_value))]
    pub(crate) fn optional_time(self, column: Column) -> Result<Option<u32>, RowFault>
        ensures { AsDefined (λ x. x) cause_of
            (cell_value (or_empty time_in) self.entry.row column
            (cells_of self.entry column)) result }
    {
        let bytes = self.bytes(column);
        if bytes.is_empty() {
            return Ok(None);
        }
        let Some(value) = read_time(bytes) else {
            return Err(self.refused(column, bytes));
        };
        Ok(Some(value))
    }
}
