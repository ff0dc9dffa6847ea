//! Ingesting.

ghost use Rattle.std.specs.Prelude.{◌≡◌};
ghost use Rattle.hub_shared.specs.Calls.{Ingested};

use crate::hub::Hub;
use crate::seat::FeedSeat;
use hub_core::{Refusal, check_on};
use snapshot_cell::Receipt;
use std::alloc::Global;
use std::sync::Wait;
use std::thread::Threads;

/// Takes the message of the bytes for the seat's feed, and gives a receipt of it; or refuses it,
/// and the seat is as it was. It reads and judges the message before it takes the hub's lock, for
/// which it may wait, as for readers that stand within a look.
pub fn ingest<R: Threads + Wait + Sync>(
    rt: &R,
    alloc: Global,
    hub: &Hub,
    seat: &mut FeedSeat,
    bytes: &[u8],
) -> Result<Receipt, Refusal>
    requires { seat.old.ties ≡ hub.now }
    ensures ingested { Ingested bytes.now seat.old seat.new result }
    ensures hub { seat.new.ties ≡ seat.old.ties }
    ensures feed { seat.new.feed ≡ seat.old.feed }
{
    let message = check_on(rt, alloc, seat.last(), bytes)?;
    let (mut locked, loan) = hub.lock.take(rt);
    let answer = locked.take_in(rt, alloc, seat, message);
    hub.lock.put_back(locked, loan);
    Ok(answer?)
}
