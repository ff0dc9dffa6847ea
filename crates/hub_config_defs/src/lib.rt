//! The words for the hub's configuration, a TOML document.
//!
//! `specs/Conf` says what the configuration of a text is, or its first fault; `specs/Rules` the
//! keys of each table, with what each may hold and what stands for one that is absent;
//! `specs/Faults` the first fault of a table by these; `specs/Values` what a value says;
//! `specs/Lines` the line that tells a fault. `specs/Right` and `proofs/ConfLaws` have what is true
//! of every configuration. The crate's code is the types that they speak of.
//!
//! It stands on the crate `toml` for what a document is, on `text_defs` for dates and names and on
//! `rt_types` for texts and lists.
#![tactic(auto)]

mod conf;
mod copies;
mod fault;
mod rule;

pub use conf::{FeedConf, HubConf, PortKind, ScheduleConf};
pub use fault::{ConfFault, ConfWhy, TableName};
pub use rule::{Holds, Key};
pub use std::alloc::AllocError as NoMemory;
