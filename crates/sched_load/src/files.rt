//! The rows of one file of a folder.

ghost use Rattle.std.specs.Prelude.{◌≡◌, ◌≤◌, ◌<◌, ℕ, List, Option, IfOk, length, true};
ghost use Rattle.gtfs_rows.specs.Tables.{stop_times};
ghost use Rattle.sched_load_defs.specs.Numbers.{by_id};
ghost use Rattle.sched_load_defs.specs.declared.fault.File.TheVariants as file;
ghost use Rattle.sched_load.specs.Gathering.{BelowAll};
ghost use Rattle.sched_load.specs.Visits.{ReadsVisits};
ghost use Rattle.sched_load_defs.specs.Files.{path_of, most_rows};
ghost use Rattle.hub_outside.specs.Files.{file_at};
ghost use Rattle.sched_load.specs.Answer.{AnswersFromFiles, fault_of, items_in};
ghost use Rattle.std.specs.String.{string_bytes};
ghost use Rattle.sched_load.specs.Listed.{file_rows};
ghost use Rattle.sched_load.specs.Stops.{StopsFile, StopsWith};

use crate::gather::gather_bytes;
use crate::visits::Gathered;
use gtfs_rows::{RowFault, StopRow, TripRow};
use hub_outside::{Buf, FileAnswer, Files};
use row_tables::{FileRow, Table};
use sched_load_defs::{File, LoadFault};
use std::alloc::{AllocError, Global};

/// The most bytes that a file may have.
const LONGEST_FILE: u64 = 268_435_456;

/// The path of a file in a folder.
fn path_of(alloc: Global, folder: &str, file: File) -> Result<String, AllocError>
    ensures { IfOk result (λ path. string_bytes path ≡ path_of folder.now file) }
{
    let mut path = String::from_str(alloc, folder)?;
    path.push_str("/")?;
    path.push_str(file.name())?;
    Ok(path)
}

/// The fault of a file that its reader gave.
fn rows_fault(file: File, fault: RowFault) -> LoadFault
    ensures { result ≡ fault_of file fault }
{
    match fault {
        RowFault::NoMemory => LoadFault::NoMemory,
        other => LoadFault::Rows(file, other),
    }
}

/// The rows of the file in the folder, or the fault that it has by itself. Its bytes are let go
/// before the answer.
pub(crate) fn read_rows<F: Files, R: FileRow>(
    alloc: Global,
    files: &mut F,
    folder: &str,
) -> Result<Vec<R>, LoadFault>
    ensures reads { AnswersFromFiles (F.contents files.old)
        (λ fs. file_rows R.required R.name R.columns (file_at fs (path_of folder.now R.name)))
        (F.faults files.old) (F.faults files.new) (items_in result) }
    ensures seen { IfOk result (λ rows. (bytes : Option (List ℕ))
        × (file_rows R.required R.name R.columns bytes ≡ Ok rows.items)) }
    ensures few { IfOk result (λ rows. length rows.items ≤ most_rows) }
    ensures same { F.contents files.new ≡ F.contents files.old }
    ensures stops { StopsWith result (StopsFile (F.last_fault files.new) folder.now R.name) }
{
    let path = path_of(alloc, folder, R::file())?;
    let mut buffer = Buf::new(alloc);
    match files.read_file(path.as_str(), LONGEST_FILE, &mut buffer) {
        FileAnswer::Read => match R::read(alloc, buffer.as_slice()) {
            Ok(rows) => Ok(rows),
            Err(fault) => Err(rows_fault(R::file(), fault)),
        },
        FileAnswer::Absent if R::is_required() => Err(LoadFault::MissingFile(R::file())),
        FileAnswer::Absent => Ok(Vec::new(alloc)),
        FileAnswer::TooLong(_) => Err(LoadFault::TooLong(R::file())),
        FileAnswer::Failed => Err(LoadFault::FileFault),
        FileAnswer::NoMemory => Err(LoadFault::NoMemory),
    }
}

/// The visits of stop_times.txt in the folder, up to the first row that refers to nothing, or the
/// fault that the file has by itself. Its bytes are let go before the answer.
pub(crate) fn read_visits<F: Files>(
    alloc: Global,
    files: &mut F,
    folder: &str,
    trips: &Table<TripRow>,
    stops: &Table<StopRow>,
) -> Result<Gathered, LoadFault>
    requires trips { length trips.now ≤ most_rows }
    requires stops { length stops.now ≤ most_rows }
    ensures reads { ReadsVisits trips.now stops.now (F.contents files.old)
        (λ fs. file_rows true file.StopTimes stop_times
        (file_at fs (path_of folder.now file.StopTimes)))
        (F.faults files.old) (F.faults files.new) result }
    ensures below { IfOk result
        (λ g. BelowAll (length (by_id (λ trip. trip.trip_id) trips.now)) g.visits.items) }
    ensures same { F.contents files.new ≡ F.contents files.old }
    ensures stops { StopsWith result
        (StopsFile (F.last_fault files.new) folder.now file.StopTimes) }
{
    let path = path_of(alloc, folder, File::StopTimes)?;
    let mut buffer = Buf::new(alloc);
    match files.read_file(path.as_str(), LONGEST_FILE, &mut buffer) {
        FileAnswer::Read => match gather_bytes(alloc, buffer.as_slice(), trips, stops) {
            Ok(gathered) => Ok(gathered),
            Err(fault) => Err(rows_fault(File::StopTimes, fault)),
        },
        FileAnswer::Absent => Err(LoadFault::MissingFile(File::StopTimes)),
        FileAnswer::TooLong(_) => Err(LoadFault::TooLong(File::StopTimes)),
        FileAnswer::Failed => Err(LoadFault::FileFault),
        FileAnswer::NoMemory => Err(LoadFault::NoMemory),
    }
}
