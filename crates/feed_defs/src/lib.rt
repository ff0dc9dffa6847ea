//! The words for messages and for the history of a hub.
//!
//! The `specs/` say, after GTFS Realtime 2.0 and the encoding guide of Protocol Buffers: how a
//! message is made of fields (`Rows`), which fields each message has (`Table`), the message of a
//! byte list or its first fault and the bytes of a message (`Table.read`, `Table.write`), which
//! messages a hub accepts and what it holds of a history (`History`), and how an entity stands in a
//! feed of several (`Combined`). They compute, and `Examples` computes them on whole messages. The
//! `proofs/` have the laws between them.
//!
//! The crate stands on `pb_wire_defs`, whose fields it reads, and on `rt_types`, whose structs are
//! the messages that it speaks of. Its own code is two structs, of which a history and its fold are
//! made, and the length that code compares with.
#![tactic(auto)]

mod history;

pub use history::{Entry, LONGEST_MESSAGE, Stored};
