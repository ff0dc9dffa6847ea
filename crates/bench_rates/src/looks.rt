//! How many looks answer, each thread's beside those of the others and what the main thread does.

ghost use Rattle.std.specs.Prelude.{◌≡◌, ◌≤◌};
ghost use denote.Param.Send.{IsSync};

use crate::Tally;
use crate::intake::ingested;
use crate::messages::one_feed;
use crate::words::Task;
use board_parts::{HubView, Oracle};
use hub_shared::{Opened, close_hub, open_hub};
use snapshot_cell::Pass;
use std::alloc::{AllocError as NoMemory, Global};
use std::sync::{Arc, Mutex, Wait};
use std::thread::{Threads, join, map_indices, map_vec};

/// A view that threads share.
type Held = Mutex<Arc<HubView, Global>>;

/// All that the threads counted.
fn sum_of(counts: &[u64]) -> u64 {
    let mut all: u64 = 0;
    for count in counts {
        all = all.saturating_add(*count);
    }
    all
}

/// Looks so often by a pass, and counts the looks that answered.
fn looks_of(pass: Pass, looks: u64) -> u64 {
    let mut pass = pass;
    let mut found: u64 = 0;
    for _ in 0..looks {
        if pass.look().is_ok() {
            found = found.saturating_add(1);
        }
    }
    found
}

/// Looks by so many passes while the main thread ingests, and ends the hub.
pub fn in_cell<R: Threads + Wait + Sync>(
    rt: &R,
    alloc: Global,
    task: &Task,
) -> Result<Tally, NoMemory>
    requires some { 1 ≤ task.now.threads }
    requires few { task.now.threads ≤ 64 }
{
    let Opened {
        hub,
        mut seats,
        passes,
    } = open_hub(rt, alloc, one_feed(alloc)?, task.threads)?;
    let Some(seat) = seats.pop() else {
        unreachable!()
    };
    let Task {
        looks,
        messages,
        ..
    } = *task;
    let shared = &hub;
    let (counts, accepted) = join(
        rt,
        || -> Result<Vec<u64>, NoMemory>
            requires { IsSync R.row }
        { map_vec(rt, passes, &|pass| looks_of(pass, looks)) },
        || -> u64
            requires { IsSync R.row × (seat.ties ≡ shared.now) }
        { ingested(rt, alloc, shared, seat, messages) },
    );
    close_hub(rt, hub, &mut [])?.end(rt);
    Ok(Tally {
        looks: sum_of(&counts?),
        accepted,
    })
}

/// Looks so often under the lock, and counts the looks that found memory for a share.
fn locked_looks<R: Wait>(rt: &R, held: &Held, looks: u64) -> u64 {
    let mut found: u64 = 0;
    for _ in 0..looks {
        let look = Arc::try_clone(&held.lock(rt));
        if look.is_ok() {
            found = found.saturating_add(1);
        }
    }
    found
}

/// Puts the view so often, and counts how often that was done.
fn locked_puts<R: Wait>(rt: &R, held: &Held, view: &Arc<HubView, Global>, puts: u64) -> u64 {
    let mut put: u64 = 0;
    for _ in 0..puts {
        if let Ok(shared) = Arc::try_clone(view) {
            *held.lock(rt) = shared;
            put = put.saturating_add(1);
        }
    }
    put
}

/// Looks under a lock in so many threads while the main thread puts the view.
pub fn in_mutex<R: Threads + Wait + Sync>(
    rt: &R,
    alloc: Global,
    task: &Task,
) -> Result<Tally, NoMemory> {
    let view = Arc::new(alloc, HubView::first(alloc, one_feed(alloc)?)?)?;
    let held = Mutex::new(Arc::try_clone(&view)?);
    let Task {
        threads,
        looks,
        messages,
        ..
    } = *task;
    let (counts, accepted) = join(
        rt,
        || -> Result<Vec<u64>, NoMemory>
            requires { IsSync R.row }
        {
            map_indices(
                rt,
                alloc,
                threads as usize,
                &|_| locked_looks(rt, &held, looks),
            )
        },
        || -> u64
            requires { IsSync R.row }
        { locked_puts(rt, &held, &view, messages) },
    );
    Ok(Tally {
        looks: sum_of(&counts?),
        accepted,
    })
}

/// Starts the threads, in which nothing is done.
pub fn in_none<R: Threads + Sync>(rt: &R, alloc: Global, task: &Task) -> Result<Tally, NoMemory> {
    let counts = map_indices(rt, alloc, task.threads as usize, &|_| 0)?;
    Ok(Tally {
        looks: sum_of(&counts),
        accepted: 0,
    })
}
