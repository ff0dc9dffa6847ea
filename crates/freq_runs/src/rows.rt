//! What trips are derived of, and the derived trips.

use crate::times::Times;
use rt_types::Text;

/// A trip that frequencies.txt names.
#[derive(Debug, Drop)]
pub struct Pattern {
    /// Its `trip_id`.
    pub id: Text,
    /// Its times. They say how long it takes from place to place, and not when it runs.
    pub times: Times,
}

/// A row of frequencies.txt.
#[derive(Clone, Copy, Debug, PartialEq, Eq)]
pub struct Frequency {
    /// Its number in the file: the header is row 1.
    pub row: u32,
    /// The number of its pattern, from 0.
    pub pattern: u32,
    /// Its `start_time`, in seconds of the service day, below 3,600,000.
    pub start: u32,
    /// Its `end_time`, in seconds of the service day, below 3,600,000.
    pub end: u32,
    /// Its `headway_secs`, in seconds, 1 at least.
    pub headway: u32,
    /// Whether its `exact_times` is 1, so that its trips run at just these times.
    pub exact: bool,
}

/// A trip that a row derives of its pattern.
#[derive(Debug, Drop)]
pub struct Derived {
    /// The number of the pattern, from 0.
    pub pattern: u32,
    /// When it starts, in seconds of the service day.
    pub start: u32,
    /// Its id: the pattern's, and its start as `@HH:MM:SS`.
    pub id: Text,
    /// Its times at the places of the pattern.
    pub times: Times,
}
