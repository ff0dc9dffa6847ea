//! Departures of runs for which an update counts.

use sched_types::Run;

/// What is known of a departure.
#[derive(Clone, Copy, Debug, PartialEq, Eq)]
pub enum SlotState {
    /// It leaves by the timetable, as far as is known.
    Scheduled,
    /// Its delay is known.
    Live,
    /// The stop is skipped (StopTimeUpdate, SKIPPED).
    Skipped,
    /// The trip is canceled (TripDescriptor, CANCELED).
    Canceled,
}

/// A departure of a run from a place of its trip, by the update that counts for the run.
#[derive(Clone, Copy, Debug, PartialEq, Eq)]
pub struct LiveSlot {
    /// When it is expected to leave, in seconds since 1970.
    pub at: i64,
    /// The run.
    pub run: Run,
    /// The number of the place in order of `stop_sequence`, from 0.
    pub place: u32,
    /// What is known of it.
    pub state: SlotState,
    /// How late it is, in seconds, where that is known; negative where it is early.
    pub delay: Option<i64>,
}
