//! Closing.

ghost use Rattle.std.specs.Prelude.{◌≡◌, ℕ, ◌<◌, length, IfOk, slice_index, slice_index_or};
ghost use Rattle.feed_defs.specs.History.{IsLegal};
ghost use Rattle.hub_history.specs.Told.{history_of};
ghost use Rattle.hub_shared.specs.Seats.{SeatSeen, IsOf, count_of};
ghost use Rattle.hub_shared.specs.Calls.{Ends};

use crate::NoMemory;
use crate::hub::Hub;
use crate::locked::Locked;
use crate::seat::FeedSeat;
use feed_permits::Desk;
use snapshot_cell::{Ending, Publisher};
use std::sync::Wait;

/// Ends the hub's history, which is legal and has what each of its seats brought in; or want of
/// memory, and the hub is gone. The seats stay as they are.
pub fn close_hub<R: Wait>(rt: &R, hub: Hub, seats: &mut [FeedSeat]) -> Result<Ending, NoMemory>
    requires ties { (i : ℕ) (none : SeatSeen) → i < length seats.old
        → (slice_index_or seats.old i none).ties ≡ hub }
    ensures seats { seats.new ≡ seats.old }
    ensures hub { IfOk result (λ ending. IsOf ending hub) }
    ensures legal { IfOk result (λ ending. IsLegal ending.feeds (history_of ending)) }
    ensures ended { IfOk result (λ ending. (i : ℕ) (none : SeatSeen) → i < length seats.old
        → Ends (slice_index_or seats.old i none) ending) }
{
    let Hub { lock } = hub;
    match lock.into_inner() {
        Ok(locked) => end(rt, locked, seats),
        Err(Some(locked)) => {
            give_up(rt, locked);
            Err(NoMemory)
        }
        Err(None) => Err(NoMemory),
    }
}

/// Ends what lay under the lock.
fn end<R: Wait>(rt: &R, locked: Locked, seats: &mut [FeedSeat]) -> Result<Ending, NoMemory>
    requires ties { (i : ℕ) (none : SeatSeen) → i < length seats.old
        → (slice_index_or seats.old i none).ties ≡ locked }
    ensures seats { seats.new ≡ seats.old }
    ensures hub { IfOk result (λ ending. IsOf ending locked) }
    ensures legal { IfOk result (λ ending. IsLegal ending.feeds (history_of ending)) }
    ensures ended { IfOk result (λ ending. (i : ℕ) (none : SeatSeen) → i < length seats.old
        → Ends (slice_index_or seats.old i none) ending) }
{
    let Locked {
        core: _,
        mut publisher,
        mut desk,
    } = locked;
    level_all(seats, &mut publisher, &mut desk);
    publisher.close(rt)
}

/// All seats know what was published, which has what each brought in.
fn level_all(seats: &mut [FeedSeat], publisher: &mut Publisher, desk: &mut Desk)
    requires hub { (i : ℕ) (none : SeatSeen) → i < length seats.old
        → IsOf publisher.old.line (slice_index_or seats.old i none).ties }
    requires table { (i : ℕ) (none : SeatSeen) → i < length seats.old
        → desk.old.table ≡ (slice_index_or seats.old i none).ties.table }
    requires counts { (feed : ℕ) → feed < 64 → slice_index desk.old.counts feed
        ≡ count_of feed (history_of publisher.old.line) }
    ensures seats { seats.new ≡ seats.old }
    ensures publisher { publisher.new ≡ publisher.old }
    ensures ends { (i : ℕ) (none : SeatSeen) → i < length seats.old
        → Ends (slice_index_or seats.old i none) publisher.old.line }
{
    for i in 0..seats.len() {
        seats[i].level(publisher, desk);
    }
}

/// Ends a hub of which nobody needs the history. It takes no memory.
pub(crate) fn give_up<R: Wait>(rt: &R, locked: Locked) {
    let Locked {
        core: _,
        publisher,
        desk: _,
    } = locked;
    publisher.abandon(rt);
}
