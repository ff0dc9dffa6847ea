//! One thread and several ingest into hubs of four feeds, and look at them.

ghost use Rattle.std.specs.Prelude.{◌≡◌, ◌≤◌, length, vec_len};
ghost use Rattle.std.specs.List.{All};
ghost use denote.Param.Send.{IsSync};
ghost use Rattle.hub_shared.specs.Seats.{IsOf};

use board_parts::Oracle;
use hub_shared::{FeedSeat, Hub, Opened, Refusal, close_hub, ingest, open_hub};
use sample_city::four_feeds;
use snapshot_cell::Pass;
use std::alloc::Global;
use std::sync::Wait;
use std::sync::atomic::{AtomicU64, Ordering};
use std::test::Fail;
use std::thread::{Threads, for_each_mut, join};

/// How many messages each feed offers; every fifth is as old as the one before.
const OFFERED: u32 = 500;

/// A message of version 2.0 without entities, with a stamp below 16384.
pub(crate) fn message(stamp: u32) -> [u8; 12] {
    let low = (stamp % 128) as u8 + 128;
    let high = (stamp / 128 % 128) as u8;
    [
        0x0a, 0x0a, 0x0a, 0x03, b'2', b'.', b'0', 0x10, 0x00, 0x18, low, high,
    ]
}

/// What a run on one thread tells.
#[derive(Debug, Drop, PartialEq, Eq)]
struct Told {
    first: u64,
    stale: bool,
    second: u64,
    unseen: u64,
    seen: u64,
}

/// Two feeds send a message each, the first of them a second time, and a pass learns of it.
fn told_by_two<R: Threads + Wait + Sync>(
    rt: &R,
    alloc: Global,
    hub: &Hub,
    seats: &mut [FeedSeat],
    pass: &mut Pass,
) -> Result<Told, Refusal>
    requires few { 2 ≤ length seats.old }
    requires seats { All (λ seat. seat.ties ≡ hub.now) seats.old }
    requires pass { IsOf pass.old.line hub.now }
    ensures seats { All (λ seat. seat.ties ≡ hub.now) seats.new }
    ensures length { length seats.new ≡ length seats.old }
    ensures pass { IsOf pass.new.line hub.now }
{
    let first = ingest(rt, alloc, hub, &mut seats[0], &message(5))?;
    let again = ingest(rt, alloc, hub, &mut seats[0], &message(5));
    let second = ingest(rt, alloc, hub, &mut seats[1], &message(3))?;
    let unseen = pass.view().entries();
    pass.learn(&first);
    let seen = pass.look()?;
    Ok(Told {
        first: first.number(),
        stale: matches!(again, Err(Refusal::Stale { last: 5, got: 5 })),
        second: second.number(),
        unseen,
        seen,
    })
}

/// What an ended hub tells: how many messages it has, and how many a pass finds that knows its end.
fn ended<R: Threads + Wait + Sync>(
    rt: &R,
    hub: Hub,
    seats: &mut [FeedSeat],
    pass: &mut Pass,
) -> Option<[u64; 2]>
    requires seats { All (λ seat. seat.ties ≡ hub) seats.old }
    requires pass { IsOf pass.old.line hub }
{
    let Ok(ending) = close_hub(rt, hub, seats) else {
        return None;
    };
    pass.finish(&ending);
    let number = ending.number();
    let found = pass.look();
    ending.end(rt);
    Some([number, found.ok()?])
}

/// A run on one thread, or none where no memory was found.
fn run_of_one<R: Threads + Wait + Sync>(rt: &R, alloc: Global) -> Option<(Told, [u64; 2])> {
    let Ok(plans) = four_feeds(alloc) else {
        return None;
    };
    let Ok(opened) = open_hub(rt, alloc, plans, 1) else {
        return None;
    };
    let Opened {
        hub,
        mut seats,
        mut passes,
    } = opened;
    let Some(mut pass) = passes.pop() else {
        unreachable!()
    };
    let told = told_by_two(rt, alloc, &hub, seats.as_mut_slice(), &mut pass);
    let numbers = ended(rt, hub, seats.as_mut_slice(), &mut pass)?;
    Some((told.ok()?, numbers))
}

#[test]
fn a_pass_learns_of_a_message(rt: HostRuntime) -> Result<(), Fail> {
    let told = Told {
        first: 1,
        stale: true,
        second: 2,
        unseen: 0,
        seen: 2,
    };
    assert_eq!(rt; run_of_one(&rt, rt.alloc()), Some((told, [2, 2])));
    Ok(())
}

/// Offers so many messages of a feed.
fn ingest_many<R: Threads + Wait + Sync>(rt: &R, alloc: Global, hub: &Hub, seat: &mut FeedSeat)
    requires { seat.old.ties ≡ hub.now }
    ensures { seat.new.ties ≡ seat.old.ties }
{
    for stamp in 1..OFFERED + 1 {
        let old = u32::from(stamp % 5 == 0);
        let _ = ingest(rt, alloc, hub, seat, &message(stamp - old));
    }
}

/// The same of all feeds, each on a thread of its own.
fn ingest_all<R: Threads + Wait + Sync>(
    rt: &R,
    alloc: Global,
    hub: &Hub,
    seats: Vec<FeedSeat>,
) -> Vec<FeedSeat>
    requires { All (λ seat. seat.ties ≡ hub.now) seats.items }
    ensures seats { All (λ seat. seat.ties ≡ hub.now) result.items }
    ensures length { vec_len result ≡ vec_len seats }
{
    let mut seats = seats;
    for_each_mut(
        rt,
        seats.as_mut_slice(),
        4,
        &|_, seat|
            requires { IsSync R.row × (seat.old.ties ≡ hub.now) }
        { ingest_many(rt, alloc, hub, seat) },
    );
    seats
}

/// Looks two thousand times, and counts the looks that were not as they must be.
fn look_many(pass: &mut Pass, odd: &AtomicU64) {
    let mut last = 0;
    for _ in 0..2000 {
        match pass.look() {
            Ok(number) => {
                if number < last || pass.view().entries() != number {
                    odd.fetch_add(1, Ordering::SeqCst);
                }
                last = number;
            }
            Err(_) => {
                odd.fetch_add(1, Ordering::SeqCst);
            }
        }
    }
}

/// The same of all passes, each on a thread of its own.
fn look_all<R: Threads + Wait + Sync>(rt: &R, passes: Vec<Pass>, odd: &AtomicU64) -> Vec<Pass>
    ensures { vec_len result ≡ vec_len passes }
{
    let mut passes = passes;
    for_each_mut(
        rt,
        passes.as_mut_slice(),
        4,
        &|_, pass| look_many(pass, odd),
    );
    passes
}

/// What a run of four ingesters beside four readers tells: how many messages of the feeds were
/// accepted, and the stamp of each feed's last, all added up; how many messages the ended hub has;
/// and how many looks were not as they must be.
fn run_of_four<R: Threads + Wait + Sync>(rt: &R, alloc: Global) -> Option<[u64; 4]> {
    let Ok(plans) = four_feeds(alloc) else {
        return None;
    };
    let Ok(opened) = open_hub(rt, alloc, plans, 4) else {
        return None;
    };
    let Opened { hub, seats, passes } = opened;
    let odd = AtomicU64::new(0);
    let shared = &hub;
    let (seats, passes) = join(
        rt,
        || -> Vec<FeedSeat>
            requires { IsSync R.row × All (λ seat. seat.ties ≡ shared.now) seats.items }
            ensures { All (λ seat. seat.ties ≡ shared.entry.now) result.items }
        { ingest_all(rt, alloc, shared, seats) },
        || -> Vec<Pass>
            requires { IsSync R.row }
        { look_all(rt, passes, &odd) },
    );
    drop(passes);
    end_all(rt, hub, seats, odd.load(Ordering::SeqCst))
}

/// Ends the hub, and adds up what its seats tell.
fn end_all<R: Threads + Wait + Sync>(
    rt: &R,
    hub: Hub,
    seats: Vec<FeedSeat>,
    odd: u64,
) -> Option<[u64; 4]>
    requires { All (λ seat. seat.ties ≡ hub) seats.items }
{
    let mut seats = seats;
    let Ok(ending) = close_hub(rt, hub, seats.as_mut_slice()) else {
        return None;
    };
    let number = ending.number();
    ending.end(rt);
    let mut accepted: u64 = 0;
    let mut last: u64 = 0;
    for seat in seats.iter() {
        accepted = accepted.saturating_add(seat.accepted());
        last = last.saturating_add(seat.last());
    }
    Some([accepted, last, number, odd])
}

#[test]
fn ingesters_and_readers_go_beside_one_another(rt: HostRuntime) -> Result<(), Fail> {
    assert_eq!(rt; run_of_four(&rt, rt.alloc()), Some([1600, 1996, 1600, 0]));
    Ok(())
}
