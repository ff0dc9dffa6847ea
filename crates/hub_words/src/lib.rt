//! Reads the words of the command line, by the crate `clap`.
//!
//! [`read_words`] gives the command of a list of words, or says that they are none. Which lists are
//! commands, and which, is defined in `hub_main_defs` (`Words.command_of`) with no thought of a
//! parser; `clap` is told of the same commands, each a subcommand with its positional words and no
//! flag, and that it takes exactly the words of the definition is proved once for any list of
//! positionals (`proofs/Leaves`, `proofs/Commands`).
//!
//! Words that begin with a hyphen are refused before `clap` sees them, since there are no options.
//! `clap` counts words and names them, no more: the numbers and the form of a board are read of the
//! words that it gives, and words that are no numbers, or out of range, are no command.
//!
//! [`asks_for_server`] and [`serve_path`] tell the words of the server, which is no command that
//! runs once and ends; `clap` has no part in it.
//!
//! The crate stands on `clap` for the parsing, on `long_numbers` for numbers, on `script_lines` for
//! the form of a board and on `rt_types` for the words.
#![tactic(auto)]

mod board;
mod given;
mod parser;
mod read;
mod serve;

pub use board_text_defs::BoardAsked;
pub use read::{Command, WordsFault, read_words};
pub use serve::{asks_for_server, serve_path};
pub use std::alloc::AllocError as NoMemory;
