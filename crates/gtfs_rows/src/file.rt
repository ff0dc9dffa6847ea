//! The rows of a file, of whatever columns.

ghost use Rattle.std.specs.Prelude.{◌≡◌, IfOk, IfErr};
ghost use Rattle.csv.specs.Records.{fields_of};
ghost use Rattle.answer_defs.specs.Defined.{AsDefined};
ghost use Rattle.gtfs_rows.specs.Files.{cause_of, items_of, first_missing as missing_of, rows_from, rows_of};
ghost use Rattle.gtfs_rows.specs.Layout.{cell_at};
ghost use Rattle.gtfs_rows.specs.Reading.{HeaderIs, IsReading, records_left};

use crate::cells::{Cells, Places, place_columns, place_in};
use crate::column::{Column, Heading};
use crate::fault::RowFault;
use crate::records;
use crate::tables::Row;
use csv::{ByteRecord, Reader};
use std::alloc::Global;

/// The number of the first row of data: the header is row 1.
pub(crate) const FIRST_ROW: u32 = 2;

/// The number behind that of the last row that a file may have, which has 4,000,000 rows of data.
pub(crate) const END_ROW: u32 = 4_000_002;

/// The first column that a file may not do without and that its header lacks.
pub(crate) fn first_missing(headings: &[Heading], header: &ByteRecord) -> Option<Column>
    ensures { result ≡ missing_of (fields_of header.now) headings.now }
{
    for heading in headings {
        if let Heading::Required(column) = heading {
            if place_in(header, *column).is_none() {
                return Some(*column);
            }
        }
    }
    None
}

/// The rows of the records that the reader has left, the first of which is the first row of data.
fn read_data<R: Row>(
    alloc: Global,
    reader: &mut Reader<&[u8]>,
    record: &mut ByteRecord,
    places: &Places,
) -> Result<Vec<R>, RowFault>
    requires { IsReading reader.old }
    ensures { AsDefined items_of cause_of
        (rows_from R.columns (cell_at places.now) 2 (records_left reader.old)) result }
{
    let mut rows = Vec::new(alloc);
    for row in FIRST_ROW..END_ROW {
        if !records::advance(reader, record)? {
            return Ok(rows);
        }
        let cells = Cells {
            row,
            record: &*record,
            places,
        };
        rows.push(R::of_cells(alloc, cells)?)?;
    }
    if records::advance(reader, record)? {
        return Err(RowFault::TooMany);
    }
    Ok(rows)
}

/// Reads the header of a file and says whether there is one: a file without records has an empty
/// one.
pub(crate) fn read_header(
    reader: &mut Reader<&[u8]>,
    header: &mut ByteRecord,
) -> Result<bool, RowFault>
    requires { IsReading reader.old }
    ensures ok { IfOk result
        (λ found. HeaderIs (records_left reader.old) found (fields_of header.new) reader.new) }
    ensures err { IfErr result (λ e. e ≡ RowFault.NoMemory) }
{
    if records::advance(reader, header)? {
        return Ok(true);
    }
    header.clear();
    Ok(false)
}

/// The rows of a file, or its first fault.
pub(crate) fn read_rows<R: Row>(alloc: Global, bytes: &[u8]) -> Result<Vec<R>, RowFault>
    ensures { AsDefined items_of cause_of (rows_of R.columns bytes.now) result }
{
    let mut reader = records::open(alloc, bytes);
    let mut record = ByteRecord::new(alloc);
    let found = read_header(&mut reader, &mut record)?;
    if let Some(column) = first_missing(R::headings(), &record) {
        return Err(RowFault::MissingColumn(column));
    }
    if !found {
        return Ok(Vec::new(alloc));
    }
    let places = place_columns(&record);
    read_data(alloc, &mut reader, &mut record, &places)
}
