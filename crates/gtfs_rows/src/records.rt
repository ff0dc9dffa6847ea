//! The records of a file, one at a time, by `csv`.

ghost use Rattle.std.specs.Prelude.{◌≡◌, IfOk, IfErr};
ghost use Rattle.csv.specs.Reading.{records, default_config, strip_bom};
ghost use Rattle.csv.specs.Records.{fields_of};
ghost use Rattle.gtfs_rows.specs.Reading.{IsReading, Advances, records_left};

use crate::fault::RowFault;
use csv::{ByteRecord, Reader, ReaderBuilder};
use std::alloc::Global;

/// A reader of all records of a file, the header being an ordinary one. Records may have any
/// length.
pub(crate) fn open(alloc: Global, bytes: &[u8]) -> Reader<&[u8]>
    ensures reading { IsReading result }
    ensures left { records_left result ≡ records default_config (strip_bom bytes.entry.now) }
{
    ReaderBuilder::new()
        .has_headers(false)
        .flexible(true)
        .from_reader(alloc, bytes)
}

/// Reads the next record into `into`, and says whether there was one.
///
/// Over a slice, and with records of any length, `csv` fails for want of memory alone.
pub(crate) fn advance(reader: &mut Reader<&[u8]>, into: &mut ByteRecord) -> Result<bool, RowFault>
    requires { IsReading reader.old }
    ensures ok { IfOk result (λ found. Advances reader.old found (fields_of into.new) reader.new) }
    ensures err { IfErr result (λ e. e ≡ RowFault.NoMemory) }
{
    let Ok(found) = reader.read_byte_record(into) else {
        return Err(RowFault::NoMemory);
    };
    Ok(found)
}
