//! Ports hand in the messages of a feed, one after another.
//!
//! [`FeedPort`] is what an ingester asks. Its contract speaks of the messages that are *ahead*,
//! where a port tells them: a message is the first of them, `TooLong` drops one above the limit,
//! and at `End` none is left. A port has a count of faults, which never falls, and `Failed` is
//! answered only by an ask that raised it. An ask takes no memory. A port hears why a message is
//! refused that it handed in, which changes nothing of what it tells.
//!
//! [`MemoryPort`] has its messages in memory and fails where it was told to, [`SpoolPort`] reads
//! the files of a folder by their numbers, and [`StreamPort`] reads messages with their lengths
//! from a source. A boxed port is a port.
//!
//! It stands on `hub_outside` for buffers, files and sources, on `feed_defs` for the longest
//! message, and on `hub_core` for why a message is refused.
#![tactic(auto)]

mod filling;
mod memory;
mod paths;
mod port;
mod spool;
mod stream;

pub use feed_defs::LONGEST_MESSAGE;
pub use memory::MemoryPort;
pub use port::{FeedPort, PortAnswer};
pub use spool::SpoolPort;
pub use std::alloc::AllocError as NoMemory;
pub use stream::StreamPort;
