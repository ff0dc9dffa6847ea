//! A port of a feed that is offered at an address, and asked for again and again.
//!
//! [`PollPort`] is a [`feed_port::FeedPort`] over the links of a door. A poll takes a link, writes
//! an HTTP/1.0 request to it, reads the reply, and gives the link back. A good reply has a head of
//! at most 8192 bytes by the grammar of the crate `httparse`, status 200, no Transfer-Encoding, and
//! at most one Content-Length; its message is what stands behind the head.
//!
//! What the layer above may rely on:
//! - each good reply is a message, in the order of the links, or is too long;
//! - a call fails once as many polls as the port has tries failed, one after another: the door, an
//!   end of the link, or a reply that is no good one. A good reply begins the count anew;
//! - it is at its end where the door is, or where it took as many links as it may;
//! - each link is given back, and where no end of it failed it got the whole request;
//! - what is wrong with a reply that is no good one, and that an end of a link failed, is heard of
//!   by the port's [`PollEar`], each once and in order; a door knows itself why it fails;
//! - the count of faults is the door's and the port's own, which rises at each link that failed and
//!   at each reply that is no good one; a call takes no memory.
//!
//! What good replies are is `specs/Replies`; `specs/Polls` is what a call does, link by link. It
//! stands on `hub_outside` for doors and buffers, on `feed_port` for what a port is, and on the
//! crate `httparse` for heads.
#![tactic(auto)]

mod exchange;
mod extent;
mod faults;
mod fields;
mod heads;
mod messages;
mod polling;
mod port;
mod request;

pub use extent::Extent;
pub use faults::{PollEar, PollFault, ReplyFault};
pub use port::PollPort;
pub use std::alloc::AllocError as NoMemory;
