//! The words for answers: steps of which each may fail, and answers that are as a definition says.
//!
//! This crate has no code. `specs/Steps` puts steps one after another, so that the first failure is
//! the answer of all; `specs/Choices` is about values that may be absent; `specs/Defined` has
//! `AsDefined`, by which a contract says that a call answers what a definition says, or that memory
//! was wanting. The laws of steps are in `proofs/Steps`.
//!
//! Every other definition stands on these words. The crate stands on nothing of this repository.
#![tactic(auto)]

ghost use Rattle.std.specs.Prelude.{◌≡◌, ℕ, List};
