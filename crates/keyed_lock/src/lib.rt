//! A lock whose value fits a key that contracts read on the lock.
//!
//! Of a value under an ordinary lock nothing is known but what its type says. A [`KeyedLock`] is
//! made with a key, and whatever lies in it fits that key ([`Keyed`]); so two threads that take the
//! same lock know that they find a value of one family, and a caller can ask that what it brings
//! along fits the key too. The value is moved out and back, and may be of a type that is never
//! dropped. What the layer above may rely on:
//! - [`KeyedLock::new`] puts in a value that fits, and the lock's key is the given one; where it
//!   finds no memory the value comes back;
//! - [`KeyedLock::take`] waits until nobody has the value, and gives one that fits the key;
//! - [`KeyedLock::put_back`] takes a value that fits, and the [`Loan`] with which one was taken;
//! - [`KeyedLock::into_inner`] gives the value, which fits the key; or none where a loan never came
//!   back.
//!
//! It stands on the crate `atomic_table` alone: a word that is 0 while the value is at home, and
//! the value's place, under the rule of `specs/Guarded`. A mutex of std beside them lets threads
//! sleep.
#![tactic(auto)]

mod calls;
mod keyed;
mod lock;
mod rule;

pub use keyed::Keyed;
pub use lock::{KeyedLock, Loan};
