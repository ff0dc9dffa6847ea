//! Which messages a hub accepts.
//!
//! `check` judges an offered message exactly as `feed_defs` does, given the stamp of the last one
//! of its feed; a refusal has the values that tell why. It needs no hub: whoever judges before a
//! lock is taken calls it too, or `check_on`, which gives the same and reads a large message on
//! several threads.
//!
//! It stands on `feed_read` for what the bytes are.
#![tactic(auto)]

mod judge;
mod refusal;

pub use judge::{check, check_on};
pub use refusal::Refusal;
pub use std::alloc::AllocError as NoMemory;
