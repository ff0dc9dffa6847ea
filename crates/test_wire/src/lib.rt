//! Tests of what reads and writes messages: texts, values, bytes on the wire, whole messages and
//! what a hub accepts.
//!
//! They stand over the public contracts of `texts`, `rt_types`, `pb_wire`, `feed_read`,
//! `feed_write` and `hub_core`. Each test is proved safe, and then run: it compares with bytes and
//! values from outside, of which no contract knows.
#![tactic(auto)]

#[cfg(test)]
mod checked;
#[cfg(test)]
mod faults;
#[cfg(test)]
mod fields;
#[cfg(test)]
mod many;
#[cfg(test)]
mod short_texts;
#[cfg(test)]
mod values;
#[cfg(test)]
mod whole;
#[cfg(test)]
mod written;
