//! Tests of ports, by their public contracts: those in memory, in a folder and over a stream of
//! `feed_port`, that of an address which is asked again and again, `poll_port`, and those that the
//! program opens, with its listener, of `hub_ports`.
//!
//! Each test is proved safe, and then run, over sources, files and doors in memory, or over the
//! loopback.
#![tactic(auto)]

#[cfg(test)]
mod accepting;
#[cfg(test)]
mod failing;
#[cfg(test)]
mod given;
#[cfg(test)]
mod paces;
#[cfg(test)]
mod polling;
#[cfg(test)]
mod ports;
#[cfg(test)]
mod system;
