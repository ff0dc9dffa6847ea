//! Tests of lists in the order of their keys: by a text, by a number, by two numbers and a text,
//! and of a feed's table, which is one of them.
//!
//! They call `shared_list`, `keyed_lists` and `entity_table` by their public contracts. Every test
//! is proved safe, and then it is run: it compares whole lists, and counts copies, of which no
//! contract tells.
#![tactic(auto)]

#[cfg(test)]
mod copied_once;
#[cfg(test)]
mod due_lists;
#[cfg(test)]
mod numbered;
#[cfg(test)]
mod plain_items;
#[cfg(test)]
mod tables;
