//! The rows of stop_times.txt, one at a time.

ghost use Rattle.std.specs.Prelude.{◌≡◌, ◌+◌, ◌≤◌, IfOk, OnSome};
ghost use Rattle.gtfs_rows.specs.Files.{rows_of};
ghost use Rattle.gtfs_rows.specs.StopTimes.{GivesRow, IsOpen, Opens, row_to_come, rows_to_come};
ghost use Rattle.gtfs_rows.specs.Tables.{stop_times};

use crate::cells::{Cells, Places, place_columns};
use crate::fault::RowFault;
use crate::file::{END_ROW, FIRST_ROW, first_missing, read_header};
use crate::records;
use crate::rows::StopTimeRow;
use crate::tables::Row;
use csv::{ByteRecord, Reader};
use std::alloc::Global;

/// A reader of the rows of stop_times.txt, which gives them one after another and keeps none.
#[derive(Drop)]
pub struct StopTimes<'a> {
    reader: Reader<&'a [u8]>,
    record: ByteRecord,
    places: Places,
    row: u32,
}

impl<'a> StopTimes<'a> {
    /// A reader of the rows of a file, or the fault of its header.
    ///
    /// All columns but `pickup_type` must be there.
    pub fn open(alloc: Global, bytes: &'a [u8]) -> Result<StopTimes<'a>, RowFault>
        ensures opens { Opens (rows_of stop_times bytes.entry.now) result }
        ensures open { IfOk result IsOpen }
        ensures first { IfOk result (λ rows. row_to_come rows ≡ 2) }
    {
        let mut reader = records::open(alloc, bytes);
        let mut record = ByteRecord::new(alloc);
        let found = read_header(&mut reader, &mut record)?;
        if let Some(column) = first_missing(StopTimeRow::headings(), &record) {
            return Err(RowFault::MissingColumn(column));
        }
        if !found {
            unreachable!()
        }
        let places = place_columns(&record);
        Ok(StopTimes {
            reader,
            record,
            places,
            row: FIRST_ROW,
        })
    }

    /// The next row, or the first fault of the rows to come. Where there is no row, or a fault, the
    /// reader may not be asked again.
    pub fn next(&mut self, alloc: Global) -> Result<Option<StopTimeRow>, RowFault>
        requires { IsOpen self.old }
        ensures gives { GivesRow (rows_to_come self.old) result (rows_to_come self.new) }
        ensures open { IfOk result (λ found. OnSome found (IsOpen self.new)) }
        ensures row { IfOk result
            (λ found. OnSome found (row_to_come self.new ≡ row_to_come self.old + 1)) }
        ensures few { IfOk result (λ found. OnSome found (row_to_come self.old ≤ 4000001)) }
    {
        if !records::advance(&mut self.reader, &mut self.record)? {
            return Ok(None);
        }
        if self.row == END_ROW {
            return Err(RowFault::TooMany);
        }
        let cells = Cells {
            row: self.row,
            record: &self.record,
            places: &self.places,
        };
        let row = StopTimeRow::of_cells(alloc, cells)?;
        self.row += 1;
        Ok(Some(row))
    }
}
