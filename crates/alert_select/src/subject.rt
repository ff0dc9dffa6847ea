//! What an alert may touch.

use sched_types::Run;

/// What an alert may touch. A stop is named by its number.
#[derive(Clone, Copy, Debug)]
pub enum Subject<'a> {
    /// A stop.
    Stop(u32),
    /// A row of a run, at a stop.
    Row(Run, u32),
    /// A row of an added trip, at a stop.
    AddedRow(AddedKey<'a>, u32),
}

/// Which added trip (GTFS Realtime 2.0, TripDescriptor, ADDED).
#[derive(Clone, Copy, Debug)]
pub struct AddedKey<'a> {
    /// Its trip_id.
    pub trip: &'a str,
    /// Its start_date, which may be empty.
    pub date: &'a str,
    /// The number of its route, if it names one of the timetable.
    pub route: Option<u32>,
}
