//! The columns of each file, in the order in which they are judged, and how a row is made of its
//! cells.

ghost use Rattle.std.specs.Prelude.{◌≡◌};
ghost use Rattle.answer_defs.specs.Defined.{AsDefined};
ghost use Rattle.gtfs_rows.specs.Files.{cause_of};
ghost use Rattle.gtfs_rows.specs.Layout.{cells_of};

use crate::cells::Cells;
use crate::column::Heading::{Optional, Required};
use crate::column::{Column, Heading};
use crate::fault::RowFault;
use crate::rows::{
    AgencyRow, CalendarRow, ExceptionRow, FrequencyRow, RouteRow, StopRow, StopTimeRow, TripRow,
};
use std::alloc::Global;

/// A row of a file.
pub(crate) trait Row: Drop {
    ghost use Rattle.gtfs_rows.specs.Tables.{Columns};

    /// The file's columns, and what a row of them is.
    ghost columns: { Columns Self };

    /// The headings of the file's columns.
    fn headings() -> &'static [Heading]
        ensures { result.now ≡ columns.headings };

    /// The row that a record's cells make, or the first fault in the order of the columns.
    fn of_cells(alloc: Global, cells: Cells<'_>) -> Result<Self, RowFault>
        ensures { AsDefined (λ x. x) cause_of
            (columns.read cells.entry.row (cells_of cells.entry)) result };
}

impl Row for AgencyRow {
    ghost use Rattle.gtfs_rows.specs.Tables.{agency};

    ghost columns = { agency };

    fn headings() -> &'static [Heading] {
        &[Optional(Column::AgencyId)]
    }

    fn of_cells(alloc: Global, cells: Cells<'_>) -> Result<AgencyRow, RowFault> {
        Ok(AgencyRow {
            agency_id: cells.text(alloc, Column::AgencyId)?,
        })
    }
}

impl Row for StopRow {
    ghost use Rattle.gtfs_rows.specs.Tables.{stops};

    ghost columns = { stops };

    fn headings() -> &'static [Heading] {
        &[
            Required(Column::StopId),
            Optional(Column::StopName),
            Optional(Column::LocationType),
            Optional(Column::ParentStation),
        ]
    }

    fn of_cells(alloc: Global, cells: Cells<'_>) -> Result<StopRow, RowFault> {
        Ok(StopRow {
            stop_id: cells.id(alloc, Column::StopId)?,
            stop_name: cells.text(alloc, Column::StopName)?,
            location_type: cells.optional_number(Column::LocationType, 4)?,
            parent_station: cells.text(alloc, Column::ParentStation)?,
        })
    }
}

impl Row for RouteRow {
    ghost use Rattle.gtfs_rows.specs.Tables.{routes};

    ghost columns = { routes };

    fn headings() -> &'static [Heading] {
        &[
            Required(Column::RouteId),
            Optional(Column::AgencyId),
            Optional(Column::RouteShortName),
            Optional(Column::RouteLongName),
            Required(Column::RouteType),
        ]
    }

    fn of_cells(alloc: Global, cells: Cells<'_>) -> Result<RouteRow, RowFault> {
        Ok(RouteRow {
            route_id: cells.id(alloc, Column::RouteId)?,
            agency_id: cells.text(alloc, Column::AgencyId)?,
            route_short_name: cells.text(alloc, Column::RouteShortName)?,
            route_long_name: cells.text(alloc, Column::RouteLongName)?,
            route_type: cells.number(Column::RouteType, 0, 9999)?,
        })
    }
}

impl Row for TripRow {
    ghost use Rattle.gtfs_rows.specs.Tables.{trips};

    ghost columns = { trips };

    fn headings() -> &'static [Heading] {
        &[
            Required(Column::TripId),
            Required(Column::RouteId),
            Required(Column::ServiceId),
            Optional(Column::TripHeadsign),
            Optional(Column::DirectionId),
        ]
    }

    fn of_cells(alloc: Global, cells: Cells<'_>) -> Result<TripRow, RowFault> {
        Ok(TripRow {
            trip_id: cells.id(alloc, Column::TripId)?,
            route_id: cells.id(alloc, Column::RouteId)?,
            service_id: cells.id(alloc, Column::ServiceId)?,
            trip_headsign: cells.text(alloc, Column::TripHeadsign)?,
            direction_id: cells.optional_number(Column::DirectionId, 1)?,
        })
    }
}

impl Row for StopTimeRow {
    ghost use Rattle.gtfs_rows.specs.Tables.{stop_times};

    ghost columns = { stop_times };

    fn headings() -> &'static [Heading] {
        &[
            Required(Column::TripId),
            Required(Column::StopId),
            Required(Column::StopSequence),
            Required(Column::ArrivalTime),
            Required(Column::DepartureTime),
            Optional(Column::PickupType),
        ]
    }

    fn of_cells(alloc: Global, cells: Cells<'_>) -> Result<StopTimeRow, RowFault> {
        Ok(StopTimeRow {
            trip_id: cells.id(alloc, Column::TripId)?,
            stop_id: cells.id(alloc, Column::StopId)?,
            stop_sequence: cells.number(Column::StopSequence, 0, u32::MAX)?,
            arrival_time: cells.optional_time(Column::ArrivalTime)?,
            departure_time: cells.optional_time(Column::DepartureTime)?,
            pickup_type: cells.optional_number(Column::PickupType, 3)?,
        })
    }
}

impl Row for CalendarRow {
    ghost use Rattle.gtfs_rows.specs.Tables.{calendar};

    ghost columns = { calendar };

    fn headings() -> &'static [Heading] {
        &[
            Required(Column::ServiceId),
            Required(Column::Monday),
            Required(Column::Tuesday),
            Required(Column::Wednesday),
            Required(Column::Thursday),
            Required(Column::Friday),
            Required(Column::Saturday),
            Required(Column::Sunday),
            Required(Column::StartDate),
            Required(Column::EndDate),
        ]
    }

    fn of_cells(alloc: Global, cells: Cells<'_>) -> Result<CalendarRow, RowFault> {
        Ok(CalendarRow {
            service_id: cells.id(alloc, Column::ServiceId)?,
            monday: cells.number(Column::Monday, 0, 1)?,
            tuesday: cells.number(Column::Tuesday, 0, 1)?,
            wednesday: cells.number(Column::Wednesday, 0, 1)?,
            thursday: cells.number(Column::Thursday, 0, 1)?,
            friday: cells.number(Column::Friday, 0, 1)?,
            saturday: cells.number(Column::Saturday, 0, 1)?,
            sunday: cells.number(Column::Sunday, 0, 1)?,
            start_date: cells.date(Column::StartDate)?,
            end_date: cells.date(Column::EndDate)?,
        })
    }
}

impl Row for ExceptionRow {
    ghost use Rattle.gtfs_rows.specs.Tables.{exceptions};

    ghost columns = { exceptions };

    fn headings() -> &'static [Heading] {
        &[
            Required(Column::ServiceId),
            Required(Column::Date),
            Required(Column::ExceptionType),
        ]
    }

    fn of_cells(alloc: Global, cells: Cells<'_>) -> Result<ExceptionRow, RowFault> {
        Ok(ExceptionRow {
            service_id: cells.id(alloc, Column::ServiceId)?,
            date: cells.date(Column::Date)?,
            exception_type: cells.number(Column::ExceptionType, 1, 2)?,
        })
    }
}

impl Row for FrequencyRow {
    ghost use Rattle.gtfs_rows.specs.Tables.{frequencies};

    ghost columns = { frequencies };

    fn headings() -> &'static [Heading] {
        &[
            Required(Column::TripId),
            Required(Column::StartTime),
            Required(Column::EndTime),
            Required(Column::HeadwaySecs),
            Optional(Column::ExactTimes),
        ]
    }

    fn of_cells(alloc: Global, cells: Cells<'_>) -> Result<FrequencyRow, RowFault> {
        Ok(FrequencyRow {
            trip_id: cells.id(alloc, Column::TripId)?,
            start_time: cells.time(Column::StartTime)?,
            end_time: cells.time(Column::EndTime)?,
            headway_secs: cells.number(Column::HeadwaySecs, 1, u32::MAX)?,
            exact_times: cells.optional_number(Column::ExactTimes, 1)?,
        })
    }
}
