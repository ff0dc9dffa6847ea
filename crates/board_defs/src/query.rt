//! What a board is asked for.

use rt_types::Text;

/// A board of one stop, from a moment on.
#[derive(Debug, Drop)]
pub struct BoardQuery {
    /// The number of the schedule.
    pub plan: u32,
    /// The stop_id of the stop.
    pub stop: Text,
    /// The moment, in seconds since 1970, up to the end of the year 9999.
    pub at: u64,
    /// How many seconds from then on count, 1 to 86400.
    pub span: u32,
    /// The most rows, 1 to 1000.
    pub limit: u32,
}
