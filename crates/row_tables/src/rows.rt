//! What the loader asks of the rows of a file, whichever file it is.

ghost use Rattle.std.specs.Prelude.{◌≡◌, ℕ, List, Bool};
ghost use Rattle.answer_defs.specs.Defined.{AsDefined};
ghost use Rattle.gtfs_rows.specs.Files.{cause_of, items_of, rows_of};

use gtfs_rows::{
    AgencyRow, CalendarRow, ExceptionRow, FrequencyRow, RouteRow, RowFault, StopRow, TripRow,
    read_agencies, read_calendar, read_exceptions, read_frequencies, read_routes, read_stops,
    read_trips,
};
use sched_load_defs::File;
use std::alloc::Global;

/// A row of a file.
pub trait FileRow: Drop {
    ghost use Rattle.gtfs_rows.specs.Tables.{Columns};
    ghost use Rattle.sched_load_defs.specs.declared.fault.File.{File};

    /// The file's columns.
    ghost columns: { Columns Self };

    ghost name: { File };

    ghost required: { Bool };

    /// The file.
    fn file() -> File
        ensures { result ≡ name };

    /// Whether a dataset must have the file.
    fn is_required() -> bool
        ensures { result ≡ required };

    /// The rows of the file with these bytes.
    fn read(alloc: Global, bytes: &[u8]) -> Result<Vec<Self>, RowFault>
        ensures { AsDefined items_of cause_of (rows_of columns bytes.now) result };
}

/// A row that has an id of its own.
pub trait IdRow: FileRow {
    ghost id_of: { Self → List ℕ };

    /// Its id.
    fn id(&self) -> &str
        ensures { result.now ≡ id_of self.now };
}

impl FileRow for AgencyRow {
    ghost use Rattle.gtfs_rows.specs.Tables.{agency};
    ghost use Rattle.sched_load_defs.specs.declared.fault.File.TheVariants as file;
    ghost use Rattle.std.specs.Prelude.{true};

    ghost columns = { agency };

    ghost name = { file.Agency };

    ghost required = { true };

    fn file() -> File {
        File::Agency
    }

    fn is_required() -> bool {
        true
    }

    fn read(alloc: Global, bytes: &[u8]) -> Result<Vec<AgencyRow>, RowFault> {
        read_agencies(alloc, bytes)
    }
}

impl IdRow for AgencyRow {
    ghost id_of = { λ row. row.agency_id };

    fn id(&self) -> &str {
        self.agency_id.as_str()
    }
}

impl FileRow for StopRow {
    ghost use Rattle.gtfs_rows.specs.Tables.{stops};
    ghost use Rattle.sched_load_defs.specs.declared.fault.File.TheVariants as file;
    ghost use Rattle.std.specs.Prelude.{true};

    ghost columns = { stops };

    ghost name = { file.Stops };

    ghost required = { true };

    fn file() -> File {
        File::Stops
    }

    fn is_required() -> bool {
        true
    }

    fn read(alloc: Global, bytes: &[u8]) -> Result<Vec<StopRow>, RowFault> {
        read_stops(alloc, bytes)
    }
}

impl IdRow for StopRow {
    ghost id_of = { λ row. row.stop_id };

    fn id(&self) -> &str {
        self.stop_id.as_str()
    }
}

impl FileRow for RouteRow {
    ghost use Rattle.gtfs_rows.specs.Tables.{routes};
    ghost use Rattle.sched_load_defs.specs.declared.fault.File.TheVariants as file;
    ghost use Rattle.std.specs.Prelude.{true};

    ghost columns = { routes };

    ghost name = { file.Routes };

    ghost required = { true };

    fn file() -> File {
        File::Routes
    }

    fn is_required() -> bool {
        true
    }

    fn read(alloc: Global, bytes: &[u8]) -> Result<Vec<RouteRow>, RowFault> {
        read_routes(alloc, bytes)
    }
}

impl IdRow for RouteRow {
    ghost id_of = { λ row. row.route_id };

    fn id(&self) -> &str {
        self.route_id.as_str()
    }
}

impl FileRow for TripRow {
    ghost use Rattle.gtfs_rows.specs.Tables.{trips};
    ghost use Rattle.sched_load_defs.specs.declared.fault.File.TheVariants as file;
    ghost use Rattle.std.specs.Prelude.{true};

    ghost columns = { trips };

    ghost name = { file.Trips };

    ghost required = { true };

    fn file() -> File {
        File::Trips
    }

    fn is_required() -> bool {
        true
    }

    fn read(alloc: Global, bytes: &[u8]) -> Result<Vec<TripRow>, RowFault> {
        read_trips(alloc, bytes)
    }
}

impl IdRow for TripRow {
    ghost id_of = { λ row. row.trip_id };

    fn id(&self) -> &str {
        self.trip_id.as_str()
    }
}

impl FileRow for CalendarRow {
    ghost use Rattle.gtfs_rows.specs.Tables.{calendar};
    ghost use Rattle.sched_load_defs.specs.declared.fault.File.TheVariants as file;
    ghost use Rattle.std.specs.Prelude.{false};

    ghost columns = { calendar };

    ghost name = { file.Calendar };

    ghost required = { false };

    fn file() -> File {
        File::Calendar
    }

    fn is_required() -> bool {
        false
    }

    fn read(alloc: Global, bytes: &[u8]) -> Result<Vec<CalendarRow>, RowFault> {
        read_calendar(alloc, bytes)
    }
}

impl IdRow for CalendarRow {
    ghost id_of = { λ row. row.service_id };

    fn id(&self) -> &str {
        self.service_id.as_str()
    }
}

impl FileRow for ExceptionRow {
    ghost use Rattle.gtfs_rows.specs.Tables.{exceptions};
    ghost use Rattle.sched_load_defs.specs.declared.fault.File.TheVariants as file;
    ghost use Rattle.std.specs.Prelude.{false};

    ghost columns = { exceptions };

    ghost name = { file.CalendarDates };

    ghost required = { false };

    fn file() -> File {
        File::CalendarDates
    }

    fn is_required() -> bool {
        false
    }

    fn read(alloc: Global, bytes: &[u8]) -> Result<Vec<ExceptionRow>, RowFault> {
        read_exceptions(alloc, bytes)
    }
}

impl FileRow for FrequencyRow {
    ghost use Rattle.gtfs_rows.specs.Tables.{frequencies};
    ghost use Rattle.sched_load_defs.specs.declared.fault.File.TheVariants as file;
    ghost use Rattle.std.specs.Prelude.{false};

    ghost columns = { frequencies };

    ghost name = { file.Frequencies };

    ghost required = { false };

    fn file() -> File {
        File::Frequencies
    }

    fn is_required() -> bool {
        false
    }

    fn read(alloc: Global, bytes: &[u8]) -> Result<Vec<FrequencyRow>, RowFault> {
        read_frequencies(alloc, bytes)
    }
}
