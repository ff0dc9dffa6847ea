//! Lists in order: what it is to put a list into an order, and which item is the greatest.
//!
//! This crate has no code. `specs/Order` defines an order of a list by insertion, so that it
//! computes, and items that tie stay as they stood; `proofs/Laws` has the law by which a stable
//! sort of std gives just that list. Boards and choices among updates stand on it. It stands on
//! nothing of this repository.
#![tactic(auto)]

ghost use Rattle.std.specs.Prelude.{◌≡◌, ℕ, List};
