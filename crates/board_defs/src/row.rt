//! The rows of a board.

use rt_types::Text;

/// What a board says of a departure.
#[derive(Clone, Copy, Debug, PartialEq, Eq)]
pub enum RowState {
    /// It leaves by the timetable, as far as is known.
    Scheduled,
    /// Its delay is known.
    Live,
    /// The stop is skipped (StopTimeUpdate, SKIPPED).
    Skipped,
    /// The trip is canceled (TripDescriptor, CANCELED).
    Canceled,
    /// The trip was added to the timetable (TripDescriptor, ADDED).
    Added,
}

/// A departure, as a board shows it. Instants and delays are in seconds, instants since 1970.
#[derive(Debug, Drop)]
pub struct Row {
    /// When it is expected to leave.
    pub expected: i64,
    /// When it leaves by the timetable; absent for an added trip.
    pub scheduled: Option<i64>,
    /// How late it is, where that is known; negative where it is early.
    pub delay: Option<i64>,
    /// What is known of it.
    pub state: RowState,
    /// The short name of its route, else the long name, which may be empty.
    pub route: Text,
    /// The headsign of its trip; empty for an added trip.
    pub headsign: Text,
    /// Its trip_id.
    pub trip: Text,
    /// The date of its service day, as eight digits YYYYMMDD; the start_date of an added trip, or
    /// empty.
    pub date: Text,
    /// The stop_id of the stop at which it leaves.
    pub platform: Text,
}
