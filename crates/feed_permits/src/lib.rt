//! Permits by which a hub knows how many messages of each feed it has taken in.
//!
//! There are 64 numbers, one for each feed that a hub may have, and of each number there is one
//! [`Key`], which its ingester holds. The [`Desk`] lies under the hub's lock and keeps a count for
//! each number; a key keeps how often it was granted. What the layer above may rely on:
//! - [`permits`] gives a desk whose counts are 0 and the keys of all numbers, granted 0 times;
//! - after [`Desk::agree`] the desk's count at a key's number is at most what the key was granted,
//!   whoever stepped before;
//! - [`Desk::raise`] adds one to that count and to what the key was granted, and to nothing else.
//!
//! So a count and what its key was granted can be kept equal from one lock to the next, though the
//! lock's value and the key never meet in between: nobody else can raise that count.
//!
//! It stands on the crate `atomic_table` alone: a table of 64 words, one for each number, under the
//! rule of `specs/Rule`. Neither call takes memory or waits.
#![tactic(auto)]

mod dealing;
mod desk;
mod key;
mod opening;
mod steps;
mod view;

pub use dealing::permits;
pub use desk::Desk;
pub use key::Key;
pub use opening::Permits;
pub use std::alloc::AllocError as NoMemory;
