//! Which board is asked for.

/// The longest span of a board, in seconds: a day.
pub const LONGEST_SPAN: u32 = 86_400;

/// The most rows of a board.
pub const MOST_ROWS: u32 = 1000;

/// A board of one stop, of the schedule of a name. A contract sees it as `BoardAsked`, by
/// `asked_seen`.
#[derive(Clone, Copy, Debug, PartialEq, Eq)]
pub struct BoardAsked<'a> {
    /// The name of the schedule.
    pub schedule: &'a str,
    /// The stop_id of the stop.
    pub stop: &'a str,
    /// From when on, in seconds since 1970, up to the end of the year 9999.
    pub at: u64,
    /// For how many seconds, 1 to [`LONGEST_SPAN`].
    pub span: u32,
    /// How many rows at most, 1 to [`MOST_ROWS`].
    pub limit: u32,
    /// Whether as JSON, and not as text.
    pub json: bool,
}
