//! The rows of the eight files of a GTFS timetable.
//!
//! There is one reader per file. It takes the bytes of the file and gives its rows, or the first
//! fault: a column that is missing, a field that isn't UTF-8 or isn't of its column's form, more
//! than 4,000,000 rows. The definitions are in `specs/`: `Tables` has the columns of each file,
//! `Values` the forms of their fields, `Files` what the rows of a file are. Each reader answers by
//! them exactly, and only want of memory may come in place of an answer. What a reference from one
//! file to another means, and which rows are duplicates, is for the layer above.
//!
//! The crate stands on `csv`, which cuts the bytes into records, and on nothing of this repository.
#![tactic(auto)]

ghost use Rattle.answer_defs.specs.Defined.{AsDefined};
ghost use Rattle.gtfs_rows.specs.Files.{cause_of, items_of, rows_of};
ghost use Rattle.gtfs_rows.specs.Tables.{agency, calendar, exceptions, frequencies, routes, stop_times, stops, trips};

mod cells;
mod column;
mod fault;
mod file;
mod records;
mod rows;
mod stop_times;
mod tables;
mod values;

pub use column::Column;
pub use fault::RowFault;
use file::read_rows;
pub use rows::{
    AgencyRow, CalendarRow, ExceptionRow, FrequencyRow, RouteRow, StopRow, StopTimeRow, TripRow,
};
pub use std::alloc::AllocError as NoMemory;
use std::alloc::Global;
pub use stop_times::StopTimes;
pub use texts::ShortText as CellText;

/// The rows of agency.txt in their order, or the first fault of the file.
///
/// `agency_id` may be absent.
pub fn read_agencies(alloc: Global, bytes: &[u8]) -> Result<Vec<AgencyRow>, RowFault>
    ensures { AsDefined items_of cause_of (rows_of agency bytes.now) result }
{
    read_rows(alloc, bytes)
}

/// The rows of stops.txt in their order, or the first fault of the file.
///
/// `stop_id` must be there; `stop_name`, `location_type` and `parent_station` may be absent.
pub fn read_stops(alloc: Global, bytes: &[u8]) -> Result<Vec<StopRow>, RowFault>
    ensures { AsDefined items_of cause_of (rows_of stops bytes.now) result }
{
    read_rows(alloc, bytes)
}

/// The rows of routes.txt in their order, or the first fault of the file.
///
/// `route_id` and `route_type` must be there; `agency_id`, `route_short_name` and `route_long_name`
/// may be absent.
pub fn read_routes(alloc: Global, bytes: &[u8]) -> Result<Vec<RouteRow>, RowFault>
    ensures { AsDefined items_of cause_of (rows_of routes bytes.now) result }
{
    read_rows(alloc, bytes)
}

/// The rows of trips.txt in their order, or the first fault of the file.
///
/// `trip_id`, `route_id` and `service_id` must be there; `trip_headsign` and `direction_id` may be
/// absent.
pub fn read_trips(alloc: Global, bytes: &[u8]) -> Result<Vec<TripRow>, RowFault>
    ensures { AsDefined items_of cause_of (rows_of trips bytes.now) result }
{
    read_rows(alloc, bytes)
}

/// The rows of stop_times.txt in their order, or the first fault of the file.
///
/// All columns but `pickup_type` must be there. An empty time is `None`.
pub fn read_stop_times(alloc: Global, bytes: &[u8]) -> Result<Vec<StopTimeRow>, RowFault>
    ensures { AsDefined items_of cause_of (rows_of stop_times bytes.now) result }
{
    read_rows(alloc, bytes)
}

/// The rows of calendar.txt in their order, or the first fault of the file.
///
/// All columns must be there.
pub fn read_calendar(alloc: Global, bytes: &[u8]) -> Result<Vec<CalendarRow>, RowFault>
    ensures { AsDefined items_of cause_of (rows_of calendar bytes.now) result }
{
    read_rows(alloc, bytes)
}

/// The rows of calendar_dates.txt in their order, or the first fault of the file.
///
/// All columns must be there.
pub fn read_exceptions(alloc: Global, bytes: &[u8]) -> Result<Vec<ExceptionRow>, RowFault>
    ensures { AsDefined items_of cause_of (rows_of exceptions bytes.now) result }
{
    read_rows(alloc, bytes)
}

/// The rows of frequencies.txt in their order, or the first fault of the file.
///
/// `trip_id`, `start_time`, `end_time` and `headway_secs` must be there, and none of them is empty;
/// `exact_times` may be absent.
pub fn read_frequencies(alloc: Global, bytes: &[u8]) -> Result<Vec<FrequencyRow>, RowFault>
    ensures { AsDefined items_of cause_of (rows_of frequencies bytes.now) result }
{
    read_rows(alloc, bytes)
}
