//! What an ingester tells at its end.

use crate::seat::FeedSeat;

/// Why a port was asked no more.
#[derive(Clone, Copy, Debug, PartialEq, Eq)]
pub enum PortEnd {
    /// The port had no message left.
    Ended,
    /// The port failed: its count of faults rose.
    PortFault,
    /// The port handed in 1,000,000,000,000 messages.
    Spent,
    /// There was no memory for the buffer. The port was asked nothing.
    NoMemory,
}

/// How many messages a port handed in, by what became of them.
#[derive(Clone, Copy)]
pub(crate) struct Tally {
    pub(crate) accepted: u64,
    pub(crate) refused: u64,
    pub(crate) starved: u64,
    pub(crate) too_long: u64,
}

impl Tally {
    /// Nothing was handed in.
    pub(crate) const NONE: Tally = Tally {
        accepted: 0,
        refused: 0,
        starved: 0,
        too_long: 0,
    };
}

/// What became of the messages that a port handed in.
#[derive(Clone, Copy, Debug, PartialEq, Eq)]
pub struct PortReport {
    /// How many messages were accepted.
    pub accepted: u64,
    /// How many were refused, for another cause than want of memory.
    pub refused: u64,
    /// How many were refused for want of memory.
    pub starved: u64,
    /// How many had more bytes than a message may have, and were not handed in whole.
    pub too_long: u64,
    /// Why no more came.
    pub end: PortEnd,
}

/// The same, with the seat by which they were brought in.
#[derive(Drop)]
pub struct IngestReport {
    /// The feed's seat, which knows the newest receipt.
    pub seat: FeedSeat,
    /// How many messages were accepted.
    pub accepted: u64,
    /// How many were refused, for another cause than want of memory.
    pub refused: u64,
    /// How many were refused for want of memory.
    pub starved: u64,
    /// How many had more bytes than a message may have, and were not handed in whole.
    pub too_long: u64,
    /// Why no more came.
    pub end: PortEnd,
}
