//! What it is to copy a value where memory may be wanting.
//!
//! `Copied::copy` gives a value equal to its source, or want of memory: that is its whole contract.
//! Values of messages, and lists that share their parts, stand on it. It stands on nothing of this
//! repository.
#![tactic(auto)]

mod copied;

pub use copied::Copied;
pub use std::alloc::AllocError as NoMemory;
