//! What the trip updates of one feed say of departures, by stop, kept from message to message.
//!
//! [`Overlay::build`] makes the overlay of a timetable and of all that a feed holds, and
//! [`Overlay::change`] makes it of the one before a message: both are `overlay_of` (`specs/Kept`)
//! of the table that there is now. `change` goes over the entities of the message alone. Each is
//! looked up, to see which run its update was about and which one it is about now; and each of
//! these runs is walked at most once, by the update that counts for it now. So a message adds at
//! most two steps for each of its entities, however much the feed holds. [`Overlay::ids_of`] and
//! [`Overlay::change_by`] are the two halves of it, for who moves the message's entities into the
//! table in between.
//!
//! [`Overlay::chosen`] tells which update counts for a run, as `chosen` of `board_defs` says of
//! this feed's updates alone. [`Overlay::at_stop`] hands out the departures at a stop, of the runs
//! for which an update counts, that are expected from one instant on and before another, each once
//! and in order, as `live_between` (`specs/Live`) defines them. A departure is at the stop to which
//! the update moves it, and else at that of the timetable. [`Overlay::added`] goes over the
//! entities whose updates are about added trips. None of the three takes memory.
//!
//! Whether an update is too old is not asked here: who asks for a run looks at the stamp of the
//! update that counts. In one feed it is the latest, so where it is too old no other update of the
//! run counts either.
//!
//! An overlay is made of ordered lists (`shared_list`), of which two overlays share what a message
//! does not touch: the runs that updates are about, by the ids of their entities; the same by run,
//! the update that counts first; the entities with updates of added trips; the runs with an update,
//! each with its departures, of which the next change takes out those that don't stay as they are;
//! and all departures, by stop and expected instant.
//!
//! It stands on `trip_match` and `delay_rule` for the meaning of updates, on `entity_table` for
//! what a feed holds, and on the definitions of `board_defs`.
#![tactic(auto)]

mod at_stop;
mod candidate;
mod first_rows;
mod found;
mod hints;
mod id_changes;
mod link;
mod live_lists;
mod live_run;
mod mention;
mod mention_lists;
mod message_ids;
mod on_threads;
mod overlay;
mod places;
mod row;
mod shown;
mod slot;
mod turns;

pub use at_stop::AtStop;
pub use mention::stamp_of;
pub use message_ids::MessageIds;
pub use overlay::{Chosen, Overlay};
pub use slot::{LiveSlot, SlotState};
pub use std::alloc::AllocError as NoMemory;
