//! What is told of what fails again and again: at once the first time, and from there on once a
//! minute at most, with how often it has failed since. A listener that has failed itself is told of
//! at once each time.

ghost use Rattle.std.specs.Prelude.{◌≡◌, string_bytes, IfOk};
ghost use Rattle.std.specs.Option.{option_map};
ghost use Rattle.hub_ports.specs.Lines as lines;
ghost use Rattle.hub_ports.specs.Pacing.{accepts_after, accepts_told, line_at, pace_after};

use crate::NoMemory;
use crate::pacing::Pace;
use crate::telling::{bad_reply_line, no_accept_line, no_connection_line};
use hub_outside::is_passing;
use poll_port::PollFault;
use std::alloc::Global;
use std::io::ErrorKind;

/// A further connection can't be accepted, for that cause. The line that tells it, where it is told
/// at that moment, in seconds of a clock that never goes back: at once where the listener itself
/// has failed, which ends a door. Or want of memory, which counts as told.
pub fn accept_news(
    alloc: Global,
    pace: &mut Pace,
    now: u64,
    cause: ErrorKind,
) -> Result<Option<String>, NoMemory>
    ensures after { pace.new ≡ accepts_after pace.old now cause }
    ensures told { IfOk result (λ line. option_map (λ text. string_bytes text) line
        ≡ option_map (λ count. lines.no_accept_line count cause)
        (accepts_told pace.old now cause)) }
{
    match count_accept(pace, now, cause) {
        Some(count) => Ok(Some(no_accept_line(alloc, count, cause)?)),
        None => Ok(None),
    }
}

/// A further connection can't be accepted, for that cause. How often that was so since it was told
/// last, where it is told at that moment.
fn count_accept(pace: &mut Pace, now: u64, cause: ErrorKind) -> Option<u64>
    ensures after { pace.new ≡ accepts_after pace.old now cause }
    ensures told { result ≡ accepts_told pace.old now cause }
{
    if is_passing(cause) {
        pace.count(now)
    } else {
        Some(pace.count_at_once(now))
    }
}

/// A further poll of that feed has got no good reply. The line that tells it, where it is told at
/// that moment, in seconds of a clock that never goes back. Or want of memory, which counts as
/// told.
pub fn poll_news(
    alloc: Global,
    feed: &str,
    pace: &mut Pace,
    now: u64,
    fault: PollFault,
) -> Result<Option<String>, NoMemory>
    ensures after { pace.new ≡ pace_after pace.old now }
    ensures told { IfOk result (λ line. option_map (λ text. string_bytes text) line
        ≡ line_at pace.old now (λ count. lines.bad_reply_line feed.now count fault)) }
{
    match pace.count(now) {
        Some(count) => Ok(Some(bad_reply_line(alloc, feed, count, fault)?)),
        None => Ok(None),
    }
}

/// A further connection of that feed to that place can't be made, for that cause. The line that
/// tells it, where it is told at that moment, in seconds of a clock that never goes back. Or want
/// of memory, which counts as told.
pub fn dial_news(
    alloc: Global,
    feed: &str,
    place: &str,
    pace: &mut Pace,
    now: u64,
    cause: ErrorKind,
) -> Result<Option<Vec<u8>>, NoMemory>
    ensures after { pace.new ≡ pace_after pace.old now }
    ensures told { IfOk result (λ line. option_map (λ text. text.items) line
        ≡ line_at pace.old now (λ count. lines.no_connection_line feed.now place.now count cause)) }
{
    match pace.count(now) {
        Some(count) => Ok(Some(no_connection_line(alloc, feed, place, count, cause)?)),
        None => Ok(None),
    }
}
