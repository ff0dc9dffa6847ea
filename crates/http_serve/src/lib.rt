//! The responses of a connection.
//!
//! [`serve_connection`] takes the requests of a source, one after another, and writes the response
//! to each before it reads on. What it answers is `answer` of `http_serve_defs`, of the history
//! that a look at the oracle found; the clock is read behind that look. Its contract is one record,
//! `Serves` of `specs/Serves`: what was written, for which items, at which moments and numbers, and
//! why it ended. It waits for nobody but its source and its sink. [`ConnectionServer::serve`] does
//! the same for one connection after another, with the same router and buffers.
//!
//! What the layer above may rely on:
//! - each response, of whatever status, has one look and then one reading of the clock, and is made
//!   whole before its first byte is written;
//! - [`End::Ended`], [`End::Closed`] and [`End::Bad`] come just where the input has these items and
//!   this finish, and all of them are answered;
//! - [`End::ReadFault`] and [`End::WriteFault`] come only where the count of the source or of the
//!   sink rose; before a read fault every request that came whole was answered, and a response that
//!   was cut is a front of the one that is due;
//! - at [`End::NoMemory`] whole responses were written;
//! - over an oracle whose history stands still it is the same at the end;
//! - behind each response the oracle is told to let go of the view that it found;
//! - a server answers each connection as if it were its first.
//!
//! [`serve_bytes`] serves a connection in memory at one moment. Over a history that stands still
//! what it writes is a matter of definition (`IsTranscript` of `specs/Transcript`), and it fails
//! for want of memory alone.
//!
//! The crate stands on `http_req` for requests in any pieces, on `http_routes` for what they ask
//! and for the bytes of responses, and on `view_answers` for their bodies.
#![tactic(auto)]

mod notes;
mod questions;
mod replying;
mod responses;
mod server;
mod serving;
mod session;
mod transcript;

pub use server::{ConnectionServer, serve_connection, serve_since};
pub use session::{End, Session};
pub use std::alloc::AllocError as NoMemory;
pub use transcript::{Finish, Transcript, serve_bytes};
