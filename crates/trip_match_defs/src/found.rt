// The answer to a trip descriptor.

use sched_types::Run;

/// What a trip descriptor is about.
#[derive(Clone, Copy, Debug, PartialEq, Eq)]
pub enum Found {
    /// A run of the timetable.
    Run(Run),
    /// A trip that was added to the timetable (ADDED).
    Added,
    /// Nothing that is known.
    NoMatch(Why),
}

/// Why a trip descriptor is about nothing that is known.
#[derive(Clone, Copy, Debug, PartialEq, Eq)]
pub enum Why {
    /// It names no trip of the timetable.
    NoTrip,
    /// Its date lies outside the window, or no day of the window is near the instant.
    NoDay,
    /// The trip does not run on that day, or on any near day.
    NotActive,
    /// Two trips or more fit.
    Several,
    /// Its schedule_relationship has no place in a timetable: UNSCHEDULED, REPLACEMENT or
    /// DUPLICATED.
    Relation,
    /// Its start_date is no date, or its start_time no time.
    BadText,
}

/// A day that is near an instant and on which a trip runs.
#[derive(Clone, Copy, Debug, PartialEq, Eq)]
pub struct Near {
    /// The number of the day in the window.
    pub day: u32,
    /// How many seconds the instant lies before the trip's first departure or behind its last
    /// arrival; 0 between them.
    pub gap: i64,
}
