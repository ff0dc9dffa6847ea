//! The columns of the timetable files that are read.

ghost use Rattle.std.specs.Prelude.{◌≡◌, ◌<◌, Some};
ghost use Rattle.gtfs_rows.specs.Names.{column_name, slot_of};

use std::fmt;

/// How many columns there are.
pub(crate) const COLUMNS: usize = 32;

/// A column of a timetable file, by its name in the GTFS Schedule Reference.
///
/// A name that several files have, such as `trip_id`, is one column.
#[derive(Clone, Copy, PartialEq, Eq, Debug)]
pub enum Column {
    /// `agency_id`
    AgencyId,
    /// `stop_id`
    StopId,
    /// `stop_name`
    StopName,
    /// `location_type`
    LocationType,
    /// `parent_station`
    ParentStation,
    /// `route_id`
    RouteId,
    /// `route_short_name`
    RouteShortName,
    /// `route_long_name`
    RouteLongName,
    /// `route_type`
    RouteType,
    /// `trip_id`
    TripId,
    /// `service_id`
    ServiceId,
    /// `trip_headsign`
    TripHeadsign,
    /// `direction_id`
    DirectionId,
    /// `stop_sequence`
    StopSequence,
    /// `arrival_time`
    ArrivalTime,
    /// `departure_time`
    DepartureTime,
    /// `pickup_type`
    PickupType,
    /// `monday`
    Monday,
    /// `tuesday`
    Tuesday,
    /// `wednesday`
    Wednesday,
    /// `thursday`
    Thursday,
    /// `friday`
    Friday,
    /// `saturday`
    Saturday,
    /// `sunday`
    Sunday,
    /// `start_date`
    StartDate,
    /// `end_date`
    EndDate,
    /// `date`
    Date,
    /// `exception_type`
    ExceptionType,
    /// `start_time`
    StartTime,
    /// `end_time`
    EndTime,
    /// `headway_secs`
    HeadwaySecs,
    /// `exact_times`
    ExactTimes,
}

impl Column {
    /// Every column, in the order of the variants.
    pub(crate) const ALL: [Column; COLUMNS] = [
        Column::AgencyId,
        Column::StopId,
        Column::StopName,
        Column::LocationType,
        Column::ParentStation,
        Column::RouteId,
        Column::RouteShortName,
        Column::RouteLongName,
        Column::RouteType,
        Column::TripId,
        Column::ServiceId,
        Column::TripHeadsign,
        Column::DirectionId,
        Column::StopSequence,
        Column::ArrivalTime,
        Column::DepartureTime,
        Column::PickupType,
        Column::Monday,
        Column::Tuesday,
        Column::Wednesday,
        Column::Thursday,
        Column::Friday,
        Column::Saturday,
        Column::Sunday,
        Column::StartDate,
        Column::EndDate,
        Column::Date,
        Column::ExceptionType,
        Column::StartTime,
        Column::EndTime,
        Column::HeadwaySecs,
        Column::ExactTimes,
    ];

    /// The column's place in `ALL`.
    pub(crate) fn slot(self) -> usize
        ensures value { result ≡ slot_of self }
        ensures small { result < 32 }
    {
        self as usize
    }

    /// The name that heads the column in a file.
    pub fn name(self) -> &'static str
        ensures { result.now ≡ column_name self }
    {
        match self {
            Column::AgencyId => "agency_id",
            Column::StopId => "stop_id",
            Column::StopName => "stop_name",
            Column::LocationType => "location_type",
            Column::ParentStation => "parent_station",
            Column::RouteId => "route_id",
            Column::RouteShortName => "route_short_name",
            Column::RouteLongName => "route_long_name",
            Column::RouteType => "route_type",
            Column::TripId => "trip_id",
            Column::ServiceId => "service_id",
            Column::TripHeadsign => "trip_headsign",
            Column::DirectionId => "direction_id",
            Column::StopSequence => "stop_sequence",
            Column::ArrivalTime => "arrival_time",
            Column::DepartureTime => "departure_time",
            Column::PickupType => "pickup_type",
            Column::Monday => "monday",
            Column::Tuesday => "tuesday",
            Column::Wednesday => "wednesday",
            Column::Thursday => "thursday",
            Column::Friday => "friday",
            Column::Saturday => "saturday",
            Column::Sunday => "sunday",
            Column::StartDate => "start_date",
            Column::EndDate => "end_date",
            Column::Date => "date",
            Column::ExceptionType => "exception_type",
            Column::StartTime => "start_time",
            Column::EndTime => "end_time",
            Column::HeadwaySecs => "headway_secs",
            Column::ExactTimes => "exact_times",
        }
    }
}

impl fmt::Display for Column {
    ghost output = { λ c. Some (column_name c) };

    fn fmt<W: fmt::Write>(&self, f: &mut fmt::Formatter<W>) -> fmt::Result {
        f.write_str(self.name())
    }
}

/// A column of one file: whether the file may do without it.
#[derive(Clone, Copy)]
pub(crate) enum Heading {
    /// A column that the header must have.
    Required(Column),
    /// A column that may be absent; its cells are then empty.
    Optional(Column),
}
