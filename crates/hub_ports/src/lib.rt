//! Opens what a configuration names on the system: a port for each feed, a listener that all doors
//! share, and a door and a clock for each reader.
//!
//! [`open_port`] opens the port of a feed by its kind ([`SystemPort`]), [`open_ports`] those of all
//! feeds; [`listen`] binds the listener, [`doors_of`] and [`clocks_of`] make what readers need.
//! What can't be had is told on standard error, one line each, and so is the address at which
//! readers are answered (`specs/Lines`). The server goes on without what can't be had, since a port
//! without a connection fails when it is asked, and so does a door without a listener. Nothing
//! connects before it is asked for its first message, so by the thread that asks: a stream by a
//! [`Connection`], which tells on standard error where there is none, and a feed that is polled by
//! a [`TcpDial`].
//!
//! What becomes of a feed while a server runs, its port tells there by a [`ToldPort`] around it:
//! that it has ended, that it has failed, that it has sent a message that is too long, each once;
//! and that messages are refused. Why polls fail tell the [`TcpDial`] and a [`PollTeller`], why a
//! file of a spool can't be read its files ([`ToldFiles`]), and why connections can't be accepted
//! the listener ([`ToldListener`]). What happens again and again is told once a minute at most
//! ([`Refusals`], each by a [`Pace`]); that the listener itself has failed is told each time, since
//! it ends a door.
//!
//! What the contracts say: the port of each feed is of its kind and at its place (`specs/Opened`),
//! and there are as many doors and clocks as are asked for. What the system itself does, no
//! contract knows.
//!
//! It stands on `hub_config_defs` for the configuration, on `feed_port` and `poll_port` for ports,
//! on `hub_core` for why a message is refused, and on `hub_outside` for files, doors, clocks and
//! lines.
#![tactic(auto)]

mod accepting;
mod connecting;
mod connection;
mod dialing;
mod failing;
mod listening;
mod opening;
mod pacing;
mod poll_teller;
mod reading;
mod refused;
mod standard;
mod telling;
mod told;
mod unblocked;

pub use accepting::ToldListener;
pub use connection::{Calling, Connection};
pub use dialing::TcpDial;
pub use failing::{accept_news, dial_news, poll_news};
pub use listening::{clocks_of, doors_of, listen};
pub use opening::{SystemPort, open_port, open_ports};
pub use pacing::Pace;
pub use poll_teller::PollTeller;
pub use reading::ToldFiles;
pub use refused::Refusals;
pub use standard::HeldNumbers;
pub use std::alloc::AllocError as NoMemory;
pub use told::ToldPort;
pub use unblocked::Unblocked;
