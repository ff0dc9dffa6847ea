//! What requests ask.

use rt_types::Text;

/// A question that a request asks, or the status that refuses it before anything is looked up.
#[derive(Drop)]
pub enum Query {
    /// The departures of a stop.
    Board {
        /// The schedule's name.
        schedule: Text,
        /// The stop's id.
        stop: Text,
        /// How many seconds from now on, 1 to 86400.
        span: u32,
        /// The most rows, 1 to 1000.
        limit: u32,
        /// Whether the answer is JSON and not lines of text.
        json: bool,
    },
    /// The alerts of a stop.
    Alerts {
        /// The schedule's name.
        schedule: Text,
        /// The stop's id.
        stop: Text,
        /// How many seconds from now on, 1 to 86400.
        span: u32,
        /// The most alerts, 1 to 1000.
        limit: u32,
        /// Whether the answer is JSON and not lines of text.
        json: bool,
    },
    /// All feeds of a schedule as one, or what changed in that since an earlier look.
    Feed {
        /// The schedule's name.
        schedule: Text,
        /// The number of that look; `None` asks for all.
        since: Option<u64>,
    },
    /// The updates of a schedule that fit no trip.
    Unmatched {
        /// The schedule's name.
        schedule: Text,
    },
    /// How the feeds are.
    Status,
    /// None: the status of the refusal, 400, 404 or 405.
    Refused(u16),
}

/// What a form asks of a board or of alerts.
#[derive(Clone, Copy, Debug, PartialEq, Eq)]
pub struct Choices {
    /// How many seconds from now on, 1 to 86400.
    pub span: u32,
    /// The most rows or alerts, 1 to 1000.
    pub limit: u32,
    /// Whether the answer is JSON and not lines of text.
    pub json: bool,
}

/// The routes that there are.
#[derive(Clone, Copy, Debug, PartialEq, Eq)]
pub enum RouteKind {
    /// `/board/{schedule}/{stop}`.
    Board,
    /// `/alerts/{schedule}/{stop}`.
    Alerts,
    /// `/feed/{schedule}`.
    Feed,
    /// `/unmatched/{schedule}`.
    Unmatched,
    /// `/status`.
    Status,
}
