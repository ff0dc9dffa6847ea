//! The rows of lists beside a board.

use rt_types::Text;
use trip_match_defs::Why;

/// An alert of a feed, as a list shows it (GTFS Realtime 2.0, Alert).
#[derive(Debug, Drop)]
pub struct AlertRow {
    /// The number of the feed.
    pub feed: u32,
    /// The id of its entity.
    pub id: Text,
    /// The number of its cause, 1 to 12, if it tells one.
    pub cause: Option<u32>,
    /// The number of its effect, 1 to 11, if it tells one.
    pub effect: Option<u32>,
    /// Its heading; empty where there is none.
    pub header: Text,
}

/// A trip update or a vehicle whose trip is no run of the timetable.
#[derive(Debug, Drop)]
pub struct Unmatched {
    /// The number of the feed.
    pub feed: u32,
    /// The id of its entity.
    pub id: Text,
    /// Whether it is a vehicle, and not a trip update.
    pub vehicle: bool,
    /// Why there is no run.
    pub why: Why,
}
