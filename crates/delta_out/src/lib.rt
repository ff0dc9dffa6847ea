//! What changed in the combined feed of a schedule since a reader's earlier look.
//!
//! `Kept` is what a reader keeps of its last 64 looks at a hub: of each how many messages there
//! were, and what each feed held, which is shared with later views (`entity_table`). `since` gives
//! the bytes of a differential message (GTFS Realtime 2.0) from such a look to a view: what went,
//! what came, and what is another than before.
//!
//! Both views are of one history, in which the stamps of a feed rise, which `delta_feed` asks for.
//! It stands on that crate for what changed in each feed, on `board_parts` for views, on `feed_out`
//! for the header, on the crate `circular_buffer` for the list, and on the definitions of
//! `delta_defs`.
#![tactic(auto)]

mod difference;
mod kept;

pub use difference::since;
pub use kept::Kept;
pub use std::alloc::AllocError as NoMemory;
