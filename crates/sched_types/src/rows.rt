//! The rows of a timetable, which refer to one another by their numbers.
use texts::ShortText as PlanName;

/// A row of stops.txt: a stop, platform, station, entrance, node or boarding area.
#[derive(Debug, Drop)]
pub struct Stop {
    /// Its `stop_id`.
    pub id: PlanName,
    /// Its `stop_name`, which may be empty.
    pub name: PlanName,
    /// The number of the stop that it names as `parent_station`.
    pub parent: Option<u32>,
}

/// A row of routes.txt.
#[derive(Debug, Drop)]
pub struct Route {
    /// Its `route_id`.
    pub id: PlanName,
    /// The number of its agency, if it is known.
    pub agency: Option<u32>,
    /// Its `route_short_name`.
    pub short: PlanName,
    /// Its `route_long_name`.
    pub long: PlanName,
    /// Its `route_type`, 0 to 9999.
    pub kind: u32,
}

/// A row of trips.txt.
#[derive(Debug, Drop)]
pub struct Trip {
    /// Its `trip_id`.
    pub id: PlanName,
    /// The number of its route.
    pub route: u32,
    /// The number of its service.
    pub service: u32,
    /// Its `trip_headsign`, which may be empty.
    pub headsign: PlanName,
    /// Its `direction_id`, 0 or 1.
    pub direction: Option<u32>,
}

/// A row of stop_times.txt: a place of a trip. Times are seconds since noon less twelve hours of
/// the service day, and may pass 24 hours (GTFS Schedule, "Field Types", Time).
#[derive(Clone, Copy, Debug, PartialEq, Eq)]
pub struct Place {
    /// The number of its stop.
    pub stop: u32,
    /// Its `stop_sequence`.
    pub sequence: u32,
    /// When it is reached, in seconds.
    pub arrival: u32,
    /// When it is left, in seconds.
    pub departure: u32,
    /// Its `pickup_type`, 0 to 3.
    pub pickup: u8,
}

/// A trip on a day of the window, by their numbers. Runs go by the trip, and then by the day.
#[derive(Clone, Copy, Debug, PartialEq, Eq, PartialOrd, Ord)]
pub struct Run {
    /// The number of the trip, in byte order of the ids.
    pub trip: u32,
    /// The number of the day, 0 for the window's first.
    pub day: u32,
}

/// A trip that frequencies.txt names, which has no run of its own.
#[derive(Debug, Drop)]
pub struct PlanPattern {
    /// Its `trip_id`.
    pub id: PlanName,
    /// How many rows of stop_times.txt it has.
    pub places: u32,
}

/// A trip that a row of frequencies.txt gives: its pattern at a start.
#[derive(Clone, Copy, Debug, PartialEq, Eq)]
pub struct PlanDerived {
    /// The number of its pattern, in byte order of the ids.
    pub pattern: u32,
    /// When it starts, in seconds of the service day.
    pub start: u32,
    /// Its number among the trips.
    pub trip: u32,
}

/// The lists of which a timetable is made. Each list of rows stands in byte order of its ids.
#[derive(Drop)]
pub struct PlanParts {
    /// The ids of the agencies.
    pub agencies: Vec<PlanName>,
    /// The stops.
    pub stops: Vec<Stop>,
    /// The routes.
    pub routes: Vec<Route>,
    /// The trips.
    pub trips: Vec<Trip>,
    /// For each trip its places, in order of `stop_sequence`.
    pub places: Vec<Vec<Place>>,
    /// For each service, by its number, the days of the window on which it is active, rising.
    pub active: Vec<Vec<u32>>,
    /// The date of the window's first day, as the number of eight digits YYYYMMDD.
    pub first: u32,
    /// For each day of the window the instant from which its times are counted, in seconds of the
    /// Unix epoch.
    pub bases: Vec<i64>,
    /// The trips that frequencies.txt names, in byte order of their ids. They aren't among the
    /// trips.
    pub patterns: Vec<PlanPattern>,
    /// The trips that it derives of them, by the number of the pattern and then by the start.
    pub derived: Vec<PlanDerived>,
}

/// How many rows of each file a timetable has, and how many days its window has.
#[derive(Clone, Copy, Debug, PartialEq, Eq)]
pub struct Counts {
    /// The rows of agency.txt.
    pub agencies: u32,
    /// The rows of stops.txt.
    pub stops: u32,
    /// The rows of routes.txt.
    pub routes: u32,
    /// The rows of trips.txt, patterns among them and derived trips not.
    pub trips: u32,
    /// The rows of stop_times.txt, of which those of patterns count and those of derived trips
    /// don't.
    pub times: u32,
    /// The days of the window.
    pub days: u32,
}
