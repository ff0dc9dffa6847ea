//! Opening.

ghost use Rattle.std.specs.Prelude.{◌≡◌, ◌+◌, ◌≤◌, length, vec_len, IfOk};
ghost use Rattle.std.specs.List.{All};
ghost use Rattle.std.specs.Arc.{arc_value};
ghost use Rattle.feed_permits.specs.Seen.{fresh_keys};
ghost use Rattle.hub_shared.specs.Seats.{fresh_seats};
ghost use Rattle.hub_shared.specs.Calls.{IsFresh};

use crate::NoMemory;
use crate::closing::give_up;
use crate::hub::Hub;
use crate::locked::Locked;
use crate::opened::Opened;
use crate::seat::FeedSeat;
use crate::tag::Tag;
use board_parts::HubView;
use feed_permits::{Key, Permits, permits};
use hub_state::HubCore;
use keyed_lock::KeyedLock;
use sched_types::Plans;
use snapshot_cell::{Pass, Snapshots, snapshots};
use std::alloc::Global;
use std::snapshot::Snapshot;
use std::sync::{Arc, Wait};

/// A hub with those timetables and feeds that accepted nothing, a seat for each feed, and so many
/// passes for readers, 1 to 64; or want of memory.
pub fn open_hub<R: Wait>(
    rt: &R,
    alloc: Global,
    plans: Arc<Plans>,
    readers: u32,
) -> Result<Opened, NoMemory>
    requires some { 1 ≤ readers }
    requires few { readers ≤ 64 }
    ensures plans { IfOk result (λ all. all.hub.plans ≡ arc_value plans) }
    ensures seats { IfOk result (λ all. all.seats.items ≡ fresh_seats all.hub) }
    ensures count { IfOk result (λ all. vec_len all.passes ≡ readers) }
    ensures passes { IfOk result (λ all. All (λ pass. IsFresh all.hub pass) all.passes.items) }
{
    let core = HubCore::new(alloc, plans)?;
    let feeds = feeds_of(core.view());
    let Permits { desk, keys } = permits(alloc)?;
    let view = Arc::try_clone(core.view())?;
    let Snapshots { publisher, passes } = snapshots(alloc, rt, view, readers + feeds)?;
    let locked = Locked {
        core,
        publisher,
        desk,
    };
    match seats_of(alloc, &locked, keys, passes) {
        Ok((seats, passes)) => open(rt, alloc, locked, seats, passes),
        Err(error) => {
            give_up(rt, locked);
            Err(error)
        }
    }
}

/// How many feeds the hub has.
fn feeds_of(view: &HubView) -> u32
    ensures count { result ≡ length view.now.plans.feeds }
    ensures few { result ≤ 64 }
{
    view.sound();
    view.plans().feeds().len() as u32
}

/// The hub with that under its lock.
fn open<R: Wait>(
    rt: &R,
    alloc: Global,
    mut locked: Locked,
    seats: Vec<FeedSeat>,
    passes: Vec<Pass>,
) -> Result<Opened, NoMemory>
    ensures hub { IfOk result (λ all. all.hub ≡ locked) }
    ensures seats { IfOk result (λ all. all.seats.items ≡ seats.items) }
    ensures passes { IfOk result (λ all. all.passes.items ≡ passes.items) }
{
    let tag = Tag {
        receipt: locked.publisher.tell(),
        desk: Snapshot::of(&locked.desk),
        core: Snapshot::of(&locked.core),
    };
    match KeyedLock::new(alloc, locked, &tag) {
        Ok(lock) => Ok(Opened {
            hub: Hub { lock },
            seats,
            passes,
        }),
        Err(locked) => {
            give_up(rt, locked);
            Err(NoMemory)
        }
    }
}

/// A seat for each feed, with a key and a pass, and the passes that are left.
fn seats_of(
    alloc: Global,
    hub: &Locked,
    keys: Vec<Key>,
    passes: Vec<Pass>,
) -> Result<(Vec<FeedSeat>, Vec<Pass>), NoMemory>
    requires keys { keys.items ≡ fresh_keys hub.now.table 64 }
    requires passes { All (λ pass. IsFresh hub.now pass) passes.items }
    requires enough { length hub.now.plans.feeds ≤ vec_len passes }
    ensures seats { IfOk result (λ all. all.0.items ≡ fresh_seats hub.now) }
    ensures count { IfOk result
        (λ all. vec_len all.1 + length hub.now.plans.feeds ≡ vec_len passes) }
    ensures passes { IfOk result (λ all. All (λ pass. IsFresh hub.now pass) all.1.items) }
{
    let feeds = feeds_of(hub.core.view());
    let mut seats = Vec::with_capacity(alloc, feeds as usize)?;
    let mut left = passes;
    let mut feed = 0;
    for key in keys {
        if feed >= feeds {
            break;
        }
        let Some(pass) = left.pop() else {
            unreachable!()
        };
        seats.push(FeedSeat::new(key, pass, feed))?;
        feed += 1;
    }
    Ok((seats, left))
}
