//! The state of a hub: the newest view of it, and the step by which it comes to the next one.
//!
//! `HubCore::prepare` makes the view after one message more, and `commit` sets it. What a history
//! of accepted messages adds up to is what the view stands for: that is the clause `stands` of
//! `prepare`.
//!
//! A `ReplayHub` is such a state on one thread that keeps its history, which is always legal, and
//! for which its view stands. `offer` judges a message, and adds it at the end or leaves everything
//! as it was. It is an `Oracle` whose looks always answer, and whose history changes by `offer`
//! alone.
//!
//! It stands on `board_parts`, on `hub_core` for the judgement of messages, and on `boxcar` for a
//! token that has no bytes.
#![tactic(auto)]

mod looks;
mod replay;
mod state;

pub use replay::ReplayHub;
pub use state::HubCore;
pub use std::alloc::AllocError as NoMemory;
