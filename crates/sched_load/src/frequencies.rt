//! The rows of frequencies.txt.

ghost use Rattle.std.specs.Prelude.{◌≡◌, ◌≤◌, ℕ, List, Option, IfOk, Ok, length, false};
ghost use Rattle.hub_outside.specs.Files.{file_at};
ghost use Rattle.gtfs_rows.specs.Tables.{frequencies};
ghost use Rattle.sched_load_defs.specs.Files.{path_of, most_rows};
ghost use Rattle.sched_load_defs.specs.References.{consistent_frequencies, unknown_in_frequency};
ghost use Rattle.sched_load_defs.specs.declared.fault.File.TheVariants as file;
ghost use Rattle.sched_load.specs.Answer.{AnswersFromFiles, and_next, items_in};
ghost use Rattle.sched_load.specs.Listed.{file_rows};
ghost use Rattle.sched_load.specs.Parents.{Checks};
ghost use Rattle.sched_load.specs.Stops.{StopsFile, StopsWith};

use crate::files::read_rows;
use gtfs_rows::{Column, FrequencyRow, TripRow};
use hub_outside::Files;
use row_tables::{Table, row_number};
use sched_load_defs::{File, LoadFault};
use std::alloc::Global;

/// The column of the row that refers to no row.
fn unknown_in(trips: &Table<TripRow>, row: &FrequencyRow) -> Option<Column>
    ensures { result ≡ unknown_in_frequency trips.now row.now }
{
    if trips.has(row.trip_id.as_str()) {
        None
    } else {
        Some(Column::TripId)
    }
}

/// Whether each `trip_id` is a trip's, or the first row whose is not.
fn check_trips(trips: &Table<TripRow>, rows: &[FrequencyRow]) -> Result<(), LoadFault>
    requires { length rows.now ≤ most_rows }
    ensures { Checks (consistent_frequencies trips.now rows.now) rows.now result }
{
    for (place, row) in rows.iter().enumerate() {
        if let Some(column) = unknown_in(trips, row) {
            return Err(LoadFault::UnknownRef {
                file: File::Frequencies,
                row: row_number(place),
                column,
            });
        }
    }
    Ok(())
}

/// The rows of frequencies.txt, or its first fault. They are compared with the trips, and not with
/// one another.
pub(crate) fn read_frequencies<F: Files>(
    alloc: Global,
    files: &mut F,
    folder: &str,
    trips: &Table<TripRow>,
) -> Result<Vec<FrequencyRow>, LoadFault>
    ensures reads { AnswersFromFiles (F.contents files.old)
        (λ fs. and_next
        (file_rows false file.Frequencies frequencies
        (file_at fs (path_of folder.now file.Frequencies)))
        (consistent_frequencies trips.now))
        (F.faults files.old) (F.faults files.new) (items_in result) }
    ensures seen { IfOk result (λ rows. (bytes : Option (List ℕ))
        × (file_rows false file.Frequencies frequencies bytes ≡ Ok rows.items)) }
    ensures consistent { IfOk result
        (λ rows. consistent_frequencies trips.now rows.items ≡ Ok rows.items) }
    ensures few { IfOk result (λ rows. length rows.items ≤ most_rows) }
    ensures same { F.contents files.new ≡ F.contents files.old }
    ensures stops { StopsWith result
        (StopsFile (F.last_fault files.new) folder.now file.Frequencies) }
{
    let rows: Vec<FrequencyRow> = read_rows(alloc, files, folder)?;
    check_trips(trips, rows.as_slice())?;
    Ok(rows)
}
