//! What requests ask, and the bytes of responses.
//!
//! [`Routes::query`] answers the question of a request or the status that refuses it;
//! [`response_bytes`] appends a response to a buffer, and [`put_head`] puts the head of one before
//! a body that is in a buffer already, just as `http_defs` defines them. Which schedules and stops
//! there are is not looked at here.
//!
//! What the layer above may rely on: each answer is the defined one, or want of memory, and after
//! want of memory the buffer of a response holds what it held.
//!
//! Routes are `matchit`'s, forms `form_urlencoded`'s, escapes `percent_encoding`'s and digits
//! `itoa`'s. The crate is built on `http_defs`, and on `texts` for the numbers of requests.
#![tactic(auto)]

mod asking;
mod cutting;
mod forms;
mod responses;
mod router;
mod segments;

pub use http_defs::{BodyKind, Query, Request};
pub use responses::{LONGEST_HEAD, put_head, refusal_body, response_bytes};
pub use router::Routes;
pub use std::alloc::AllocError as NoMemory;
