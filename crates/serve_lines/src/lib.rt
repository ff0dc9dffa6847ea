//! The lines that a server writes when it has ended.
//!
//! There is one line for each feed and one for all readers (`specs/Lines`). They are written piece
//! by piece and take no memory, so that they can be written where memory is wanting. What was
//! written so far, and whether the output failed, is told from line to line: [`Writing`] is whole,
//! or cut, and then nothing more is written. What the layer above may rely on is one clause a line:
//! what was written from some start on has the line behind it, and a cut one is a proper front of
//! the whole.
//!
//! It stands on `hub_outside` for the output, and on the crate `itoa` for numbers.
#![tactic(auto)]

mod lines;
mod pieces;

pub use lines::{FeedNumbers, ReaderNumbers, write_feed, write_readers};
pub use pieces::Writing;
