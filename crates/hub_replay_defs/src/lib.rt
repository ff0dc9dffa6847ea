//! The words for the script of `hub replay` and for what that command prints.
//!
//! The `specs/` say which bytes are a record of the script, what a record prints and leaves behind
//! (`Record`), and the whole output with its status for a list of words and an input (`Output`).
//! They compute, and `Examples` computes them on whole scripts. The `proofs/` have the laws by
//! which a program that reads its input in pieces meets them.
//!
//! Which items the input of a connection has is a relation. So a script's hub is given connections,
//! each with its input and its items, and a record serves the first one of its own input.
//!
//! The crate has no code, and stands on `feed_defs`, whose history a script extends, and on
//! `http_serve_defs` for what is written on a connection.
#![tactic(auto)]

ghost use Rattle.std.specs.Prelude.{ℕ};
