//! What a view of a hub answers to a question: scripts, the command line and HTTP ask through it
//! alike.
//!
//! A `Question` is for the combined feed of a schedule, for a board of one of its stops or the
//! alerts beside it, by their names, for the trips that the schedule has no run for, or for the
//! status of the hub. `answer` appends the bytes, or says that there is no such schedule or stop.
//! Its contract is `answer_to` of `board_text_defs`, of what all feeds hold and so of the history
//! that the view stands for.
//!
//! It stands on `board_core` for the rows of a board, on `board_lists` for the lists beside it, on
//! `feed_out` for feeds, and on `board_text` for how all these are spelled.
#![tactic(auto)]

mod answering;
mod lookup;
mod question;

pub use answering::answer;
pub use board_text_defs::BoardAsked;
pub use lookup::schedule_number;
pub use question::Question;
pub use std::alloc::AllocError as NoMemory;
