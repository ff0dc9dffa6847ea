//! Requests from a stream of bytes that comes in any pieces.
//!
//! [`RequestReader::take`] answers the next request of a source, as `http_defs` says which requests
//! a run of bytes holds: it depends on the bytes alone and not on the pieces in which they come.
//! What was read behind a request is held for the next call. A head has at most 8192 bytes.
//!
//! What the layer above may rely on:
//! - [`Taken::Request`] is the request with which the bytes held, and those read in this call,
//!   begin;
//! - [`Taken::End`] comes exactly where the input ended before a byte of a next request;
//! - [`Taken::Bad`] comes only where no request follows, whatever the bytes that are left;
//! - [`Taken::ReadFault`] comes only where the source's count of faults rose, and before a whole
//!   head;
//! - no bytes are lost: after `Bad`, `ReadFault` and `NoMemory` all that was read is held;
//! - a reader that was cleared is as a new one, so that connections can share one reader's room.
//!
//! A head is looked at only once its end may have come, an empty line, so that one that comes byte
//! by byte takes time in proportion to its length. The crate stands on `http_defs`, on
//! `hub_outside` for sources, and on the crate `httparse` for heads.
#![tactic(auto)]

mod fields;
mod filling;
mod finding;
mod making;
mod progress;
mod reader;

pub use http_defs::Request;
pub use reader::{RequestReader, Taken};
pub use std::alloc::AllocError as NoMemory;
