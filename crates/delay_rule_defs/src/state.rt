// What is known of a place of a run.

/// How a place of a run stands to its timetable. Delays are seconds behind it, negative where
/// before it; an unknown one is `None`.
#[derive(Clone, Copy, Debug, PartialEq, Eq)]
pub struct StopState {
    /// The vehicle doesn't stop there.
    pub skipped: bool,
    pub arrival: Option<i64>,
    pub departure: Option<i64>,
    /// The number of the stop at which the vehicle stops in place of the timetable's (GTFS
    /// Realtime, StopTimeProperties, assigned_stop_id); `None` where it stops at the timetable's.
    pub stop: Option<u32>,
}
