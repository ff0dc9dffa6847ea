//! How many messages a hub accepts.

ghost use Rattle.std.specs.Prelude.{◌≡◌, ◌≤◌};

use crate::Tally;
use crate::messages::{message, one_feed};
use hub_shared::{FeedSeat, Hub, ingest};
use hub_state::ReplayHub;
use std::alloc::{AllocError as NoMemory, Global};
use std::sync::Wait;
use std::thread::Threads;

/// Ingests so many messages, and counts those that were accepted.
pub fn ingested<R: Threads + Wait + Sync>(
    rt: &R,
    alloc: Global,
    hub: &Hub,
    seat: FeedSeat,
    messages: u64,
) -> u64
    requires { seat.ties ≡ hub.now }
    ensures { result ≤ messages }
{
    let mut seat = seat;
    let mut accepted = 0;
    for place in 0..messages {
        if ingest(rt, alloc, hub, &mut seat, &message(place)).is_ok() {
            accepted += 1;
        }
    }
    accepted
}

/// Offers so many messages to a hub on one thread, and counts those that were accepted.
pub fn offered(alloc: Global, messages: u64) -> Result<Tally, NoMemory> {
    let mut hub = ReplayHub::new(alloc, one_feed(alloc)?)?;
    let mut taken = 0;
    for place in 0..messages {
        if hub.offer(0, &message(place)).is_ok() {
            taken += 1;
        }
    }
    Ok(Tally {
        looks: 0,
        accepted: taken,
    })
}
