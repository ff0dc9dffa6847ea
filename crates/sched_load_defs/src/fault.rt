//! Why a timetable is refused.

ghost use Rattle.std.specs.Prelude.{◌≡◌, Some};
ghost use Rattle.sched_load_defs.specs.Files.{file_name};

use gtfs_rows::{Column, RowFault};
use std::alloc::{AllocError, AllocFailed};
use std::fmt;
use thiserror::Error;

/// A file of a timetable, by its name in the GTFS Schedule Reference ("Dataset Files").
#[derive(Clone, Copy, PartialEq, Eq, Debug)]
pub enum File {
    /// `agency.txt`
    Agency,
    /// `stops.txt`
    Stops,
    /// `routes.txt`
    Routes,
    /// `trips.txt`
    Trips,
    /// `stop_times.txt`
    StopTimes,
    /// `calendar.txt`
    Calendar,
    /// `calendar_dates.txt`
    CalendarDates,
    /// `frequencies.txt`
    Frequencies,
}

impl File {
    /// The file's name.
    pub fn name(self) -> &'static str
        ensures { result.now ≡ file_name self }
    {
        match self {
            File::Agency => "agency.txt",
            File::Stops => "stops.txt",
            File::Routes => "routes.txt",
            File::Trips => "trips.txt",
            File::StopTimes => "stop_times.txt",
            File::Calendar => "calendar.txt",
            File::CalendarDates => "calendar_dates.txt",
            File::Frequencies => "frequencies.txt",
        }
    }
}

impl fmt::Display for File {
    ghost output = { λ file. Some (file_name file) };

    fn fmt<W: fmt::Write>(&self, f: &mut fmt::Formatter<W>) -> fmt::Result {
        f.write_str(self.name())
    }
}

/// The first fault of a timetable, or what hindered its loading.
///
/// A row is a number of records of its file: the header is row 1, and the first row of data is row
/// 2.
#[derive(Clone, Copy, PartialEq, Eq, Debug, Error)]
pub enum LoadFault {
    /// The zone isn't a rule of the POSIX variable TZ.
    #[error("the zone is no POSIX rule")]
    BadZone,
    /// A file isn't there that a timetable must have. Only calendar.txt, calendar_dates.txt and
    /// frequencies.txt may be absent.
    #[error("{0} is missing")]
    MissingFile(File),
    /// The file has more than 268,435,456 bytes.
    #[error("{0} is too long")]
    TooLong(File),
    /// The file by itself has this fault, which is never `NoMemory`.
    #[error("in {0}: {1}")]
    Rows(File, RowFault),
    /// The id in this column is the id of no row.
    #[error("row {row} of {file} refers to nothing in column {column}")]
    UnknownRef {
        file: File,
        row: u32,
        column: Column,
    },
    /// An earlier row of the file has the same id; of frequencies.txt, a trip that the row derives
    /// has the id of another trip.
    #[error("row {row} of {file} is there twice")]
    Duplicate {
        file: File,
        row: u32,
    },
    /// The stop times of the trip in this row of trips.txt are out of order, or its first or last
    /// place has no time.
    #[error("the trip in row {row} has bad times")]
    TripTimes {
        row: u32,
    },
    /// A file could not be read.
    #[error("a file could not be read")]
    FileFault,
    /// No memory was to be had. This may come in place of any answer.
    #[error("out of memory")]
    NoMemory,
}

impl From<AllocError> for LoadFault {
    ghost use Rattle.sched_load_defs.specs.declared.fault.LoadFault.TheVariants.{NoMemory};

    ghost from_gives = { λ _ fault. fault ≡ NoMemory };

    fn from(_: AllocError) -> Self {
        LoadFault::NoMemory
    }
}

impl<T: Drop> From<AllocFailed<T>> for LoadFault {
    ghost use Rattle.sched_load_defs.specs.declared.fault.LoadFault.TheVariants.{NoMemory};

    ghost from_gives = { λ _ fault. fault ≡ NoMemory };

    fn from(_: AllocFailed<T>) -> Self {
        LoadFault::NoMemory
    }
}
