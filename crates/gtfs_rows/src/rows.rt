//! The rows of the eight files, one struct a file, whose fields are named as their columns.
//!
//! The fields stand in the order in which the columns are judged. A text is without spaces and tabs
//! at both ends, and empty where its column is absent or its field empty; an id other than
//! `agency_id` of agency.txt and routes.txt is never empty. A number is 1 to 10 decimal digits in
//! the file.

use texts::ShortText as CellText;

/// A row of agency.txt.
#[derive(Debug, Drop)]
pub struct AgencyRow {
    pub agency_id: CellText,
}

/// A row of stops.txt.
#[derive(Debug, Drop)]
pub struct StopRow {
    pub stop_id: CellText,
    pub stop_name: CellText,
    /// 0 to 4.
    pub location_type: Option<u32>,
    /// The stop_id of the station that the stop belongs to, or empty.
    pub parent_station: CellText,
}

/// A row of routes.txt.
#[derive(Debug, Drop)]
pub struct RouteRow {
    pub route_id: CellText,
    pub agency_id: CellText,
    pub route_short_name: CellText,
    pub route_long_name: CellText,
    /// 0 to 9999.
    pub route_type: u32,
}

/// A row of trips.txt.
#[derive(Debug, Drop)]
pub struct TripRow {
    pub trip_id: CellText,
    pub route_id: CellText,
    pub service_id: CellText,
    pub trip_headsign: CellText,
    /// 0 or 1.
    pub direction_id: Option<u32>,
}

/// A row of stop_times.txt.
///
/// The two times are as they stand in the file, in seconds after noon minus twelve hours, and may
/// pass a day: an empty one is `None`. That an empty time of a row takes the other time of that row
/// is for the reader of the whole timetable to do.
#[derive(Debug, Drop)]
pub struct StopTimeRow {
    pub trip_id: CellText,
    pub stop_id: CellText,
    pub stop_sequence: u32,
    pub arrival_time: Option<u32>,
    pub departure_time: Option<u32>,
    /// 0 to 3.
    pub pickup_type: Option<u32>,
}

/// A row of calendar.txt. A weekday is 1 where the service runs on it and 0 where it doesn't; a
/// date is the number of its eight digits, as 20250330.
#[derive(Debug, Drop)]
pub struct CalendarRow {
    pub service_id: CellText,
    pub monday: u32,
    pub tuesday: u32,
    pub wednesday: u32,
    pub thursday: u32,
    pub friday: u32,
    pub saturday: u32,
    pub sunday: u32,
    pub start_date: u32,
    pub end_date: u32,
}

/// A row of calendar_dates.txt, whose date is the number of its eight digits, as 20250330.
#[derive(Debug, Drop)]
pub struct ExceptionRow {
    pub service_id: CellText,
    pub date: u32,
    /// 1 where the service is added on that date, 2 where it is removed.
    pub exception_type: u32,
}

/// A row of frequencies.txt, whose times are in seconds after noon minus twelve hours, and may pass
/// a day.
#[derive(Debug, Drop)]
pub struct FrequencyRow {
    pub trip_id: CellText,
    pub start_time: u32,
    pub end_time: u32,
    /// Seconds, 1 to 4294967295.
    pub headway_secs: u32,
    /// 1 where the trips run at just these times, 0 or `None` where they only come about so often.
    pub exact_times: Option<u32>,
}
