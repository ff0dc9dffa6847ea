//! Reads the hub's configuration, a TOML document.
//!
//! `read_conf` gives the configuration of the bytes or their first fault, exactly as
//! `hub_config_defs` defines both. The keys of each table, with what each may hold and what stands
//! for one that is absent, are data (`rule`), and one function judges every table by its keys.
//! `fault_line` writes a fault as the commands print it.
//!
//! It stands on the crate `toml` for the document, on `hub_config_defs` for the definitions and the
//! types, and on `texts` and `rt_types` for texts and lists.
#![tactic(auto)]

mod judge;
mod line;
mod read;
mod rule;
mod value;

pub use hub_config_defs::{
    ConfFault, ConfWhy, FeedConf, HubConf, PortKind, ScheduleConf, TableName,
};
pub use line::fault_line;
pub use read::read_conf;
pub use std::alloc::AllocError as NoMemory;
