//! The calls of added trips.

/// A call of an added trip (GTFS Realtime 2.0, TripDescriptor, ADDED), as its update tells it.
#[derive(Clone, Copy, Debug)]
pub struct Call {
    /// The number of the stop.
    pub stop: u32,
    /// When it leaves there, in seconds since 1970.
    pub leaves: i64,
}
