//! Numbers of up to 20 decimal digits, the most that a number of 64 bits has.
//!
//! `texts` reads numbers of up to 19 digits, which always fit 64 bits; `read_long_number` those of
//! 20 too, of which not all do. Its answer is `number` of `text_defs`. Numbers that users choose
//! freely are read by it: seeds and choices of commands, and the numbers of looks.
//!
//! It stands on `texts` for up to 19 digits.
#![tactic(auto)]

mod reading;

pub use reading::read_long_number;
