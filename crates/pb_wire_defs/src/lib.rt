//! The words for bytes on the wire: what the fields of a Protocol Buffers message are.
//!
//! This crate has no code. Its `specs/` say, after the encoding guide of Protocol Buffers, which
//! bytes spell a varint, a field and a list of fields (`Spelling`), how such a list is read from
//! the left with the first fault that is met (`Reading`), and the one spelling that a writer
//! chooses (`Writing`). Its `proofs/` tie the three together: reading finds exactly what is
//! spelled, and what is written reads back. Groups are read, up to 64 deep, and never written.
//!
//! The crates above cite these words in their contracts. It stands on nothing of this repository.
#![tactic(auto)]

ghost use Rattle.std.specs.Prelude.{◌≡◌, ℕ, List};
