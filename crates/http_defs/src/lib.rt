//! The words for HTTP: which requests a run of bytes holds, what each asks, and what a response is.
//!
//! `specs/Heads` says what a request's head tells (RFC 9110 and 9112, as `httparse` reads heads);
//! `specs/Requests` which requests stand in a run of bytes, one after another, as a relation of
//! which `proofs/RequestLaws` shows that it holds of one list at most; `specs/Targets` what a
//! request asks, `specs/Routes` by which routes; `specs/Responses` the bytes of a response. They
//! compute, and the examples of `proofs/` compute them on whole heads, targets and responses.
//!
//! The crate's code is the types that they speak of. It stands on `rt_types` for texts and bytes,
//! on `text_defs` for numbers, and on the crates `httparse`, `matchit`, `form_urlencoded` and
//! `percent_encoding` for what heads, routes, forms and escapes are.
#![tactic(auto)]

mod asked;
mod request;
mod response;

pub use asked::{Choices, Query, RouteKind};
pub use request::{Item, Request};
pub use response::{BodyKind, Status};
pub use std::alloc::AllocError as NoMemory;
