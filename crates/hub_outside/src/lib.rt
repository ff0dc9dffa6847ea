//! The outside of the hub: where bytes come from and go to, files, the clock, and doors at which
//! connections come in.
//!
//! Everything above reaches the outside by five traits alone: [`Source`], [`Sink`], [`Files`],
//! [`Clock`] and [`Door`]. Each has a contract over what it *tells*: the bytes that a source has
//! left, the bytes that a sink took, the map of files, the readings ahead, the links of a door. A
//! real object tells nothing, a form in memory tells all, and code that is proved over the trait is
//! right for both. A [`Gate`] is passed by threads and tells nothing either; it is there for tests.
//!
//! What the layer above may rely on:
//! - where contents are told, each answer says exactly what it took, left or found;
//! - each trait that can fail has a count of faults, which never falls, and `Failed` is answered
//!   only by a call that raised it (or found it at the last value of its 64 bits);
//! - where files tell the path of the call that failed last, it is that of the call that says so;
//! - a call that is refused leaves the contents as they were.
//!
//! [`Buf`] is a buffer that says how much it takes without asking for memory. The forms in memory
//! cut and fail their calls as their lists say. The adapters over std are a few lines each.
//!
//! The crate stands on std, and on `texts` for the last moment. It opens no socket and starts no
//! thread: a [`TcpDoor`] is given its listener.
#![tactic(auto)]

mod adapters;
mod buffers;
mod clocks;
mod doors;
mod file_stores;
mod gates;
mod memory;
mod sinks;
mod sources;
#[cfg(test)]
mod tests;
mod writing;

pub use adapters::clock::SystemClock;
pub use adapters::door::{TcpDoor, is_passing};
pub use adapters::files::StdFiles;
pub use adapters::link::{TcpSink, TcpSource};
pub use adapters::sink::StdSink;
pub use adapters::source::StdSource;
pub use buffers::Buf;
pub use clocks::Clock;
pub use doors::{Door, DoorAnswer};
pub use file_stores::{FileAnswer, Files};
pub use gates::{Gate, GatePoint, OpenGate};
pub use memory::calls::Calls;
pub use memory::clock::FixedClock;
pub use memory::door::{MemoryDoor, MemoryLink};
pub use memory::files::{MemoryFile, MemoryFiles};
pub use memory::sink::MemorySink;
pub use memory::source::MemorySource;
pub use sinks::{Sink, WriteAnswer};
pub use sources::{ReadAnswer, Source};
pub use std::alloc::AllocError as NoMemory;
pub use writing::{OutputFault, write_all};
