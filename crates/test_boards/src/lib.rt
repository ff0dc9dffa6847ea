//! Tests of boards: of what is kept of a feed, and of the boards, lists, texts and combined feeds
//! that a hub's views give.
//!
//! They call `alert_select`, `feed_view`, `board_core`, `board_lists`, `board_text`, `feed_out`,
//! `view_answers` and `hub_state` by their public contracts. Every test is proved safe, and then it
//! is run.
#![tactic(auto)]

#[cfg(test)]
mod ageing;
#[cfg(test)]
mod alerts;
#[cfg(test)]
mod answers;
#[cfg(test)]
mod assigned_stops;
#[cfg(test)]
mod bare;
#[cfg(test)]
mod board_texts;
#[cfg(test)]
mod boards;
#[cfg(test)]
mod combined;
#[cfg(test)]
mod feeds;
#[cfg(test)]
mod lists;
#[cfg(test)]
mod states;
#[cfg(test)]
mod whole;
