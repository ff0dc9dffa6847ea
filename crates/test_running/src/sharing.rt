//! A hub of two feeds, and what its passes find of their messages.

ghost use Rattle.std.specs.Prelude.{◌≡◌, length, vec_len};
ghost use Rattle.std.specs.List.{All};
ghost use denote.Param.Send.{IsSync};
ghost use Rattle.hub_shared.specs.Seats.{IsOf};

use crate::ingesting::message;
use board_parts::Oracle;
use hub_shared::{FeedSeat, Hub, NoMemory, Opened, Refusal, close_hub, ingest, open_hub};
use sample_city::two_feeds;
use snapshot_cell::Pass;
use std::alloc::Global;
use std::sync::Wait;
use std::test::Fail;
use std::thread::{Threads, for_each_mut};

/// The stamps that each feed sends in turn are those up to this.
const LAST: u32 = 100;

/// How often each of many passes looks.
const LOOKS: u32 = 1000;

/// Sends the stamps of a feed, one after another.
fn send_all<R: Threads + Wait + Sync>(rt: &R, alloc: Global, hub: &Hub, seat: &mut FeedSeat)
    requires { seat.old.ties ≡ hub.now }
    ensures { seat.new.ties ≡ seat.old.ties }
{
    for stamp in 1..LAST + 1 {
        let _ = ingest(rt, alloc, hub, seat, &message(stamp));
    }
}

/// The same of all feeds, each on a thread of its own.
fn send_beside<R: Threads + Wait + Sync>(
    rt: &R,
    alloc: Global,
    hub: &Hub,
    seats: Vec<FeedSeat>,
) -> Vec<FeedSeat>
    requires { All (λ seat. seat.ties ≡ hub.now) seats.items }
    ensures seats { All (λ seat. seat.ties ≡ hub.now) result.items }
    ensures length { vec_len result ≡ vec_len seats }
{
    let mut seats = seats;
    for_each_mut(
        rt,
        seats.as_mut_slice(),
        2,
        &|_, seat|
            requires { IsSync R.row × (seat.old.ties ≡ hub.now) }
        { send_all(rt, alloc, hub, seat) },
    );
    seats
}

/// The pass knows what the seat's receipt does.
fn learn_of(pass: &mut Pass, seat: &FeedSeat)
    requires { IsOf pass.old.line seat.now.ties }
    ensures { IsOf pass.new.line seat.now.ties }
{
    seat.sound();
    if let Some(receipt) = seat.receipt() {
        pass.learn(receipt);
    }
}

/// What a pass finds that knows the receipts of two seats.
fn look_behind(pass: &mut Pass, hub: &Hub, seats: &[FeedSeat]) -> Result<u64, NoMemory>
    requires two { length seats.now ≡ 2 }
    requires seats { All (λ seat. seat.ties ≡ hub.now) seats.now }
    requires pass { IsOf pass.old.line hub.now }
    ensures { IsOf pass.new.line hub.now }
{
    learn_of(pass, &seats[0]);
    learn_of(pass, &seats[1]);
    pass.look()
}

/// What a run of two feeds beside one another tells.
#[derive(Debug, Drop, PartialEq, Eq)]
struct Told {
    /// Of each seat, how many messages were accepted, and the stamp of the last.
    seats: [(u64, u64); 2],
    /// What a pass finds that learned of both feeds.
    learned: [Option<u64>; 2],
    /// How many messages the ended hub has.
    ended: u64,
    /// What a pass finds that knows the end.
    finished: [Option<u64>; 2],
}

/// Ends a hub of which two passes learned; none where no memory was found.
fn end_of_two<R: Threads + Wait + Sync>(
    rt: &R,
    hub: Hub,
    seats: &mut [FeedSeat],
    first: &mut Pass,
    second: &mut Pass,
) -> Option<Told>
    requires two { length seats.old ≡ 2 }
    requires seats { All (λ seat. seat.ties ≡ hub) seats.old }
    requires first { IsOf first.old.line hub }
    requires second { IsOf second.old.line hub }
{
    let learned = [
        look_behind(first, &hub, seats).ok(),
        look_behind(second, &hub, seats).ok(),
    ];
    let counts = [
        (seats[0].accepted(), seats[0].last()),
        (seats[1].accepted(), seats[1].last()),
    ];
    let Ok(ending) = close_hub(rt, hub, seats) else {
        return None;
    };
    first.finish(&ending);
    second.finish(&ending);
    let ended = ending.number();
    let finished = [first.look().ok(), second.look().ok()];
    ending.end(rt);
    Some(Told {
        seats: counts,
        learned,
        ended,
        finished,
    })
}

/// A run of two feeds, each on a thread of its own, with two passes.
fn run_of_two<R: Threads + Wait + Sync>(rt: &R, alloc: Global) -> Option<Told> {
    let Ok(plans) = two_feeds(alloc) else {
        return None;
    };
    let Ok(opened) = open_hub(rt, alloc, plans, 2) else {
        return None;
    };
    let Opened {
        hub,
        seats,
        mut passes,
    } = opened;
    let Some(mut first) = passes.pop() else {
        unreachable!()
    };
    let Some(mut second) = passes.pop() else {
        unreachable!()
    };
    let mut seats = send_beside(rt, alloc, &hub, seats);
    end_of_two(rt, hub, seats.as_mut_slice(), &mut first, &mut second)
}

#[test]
fn passes_that_learn_of_feeds_find_all_messages(rt: HostRuntime) -> Result<(), Fail> {
    let told = Told {
        seats: [(100, 100), (100, 100)],
        learned: [Some(200), Some(200)],
        ended: 200,
        finished: [Some(200), Some(200)],
    };
    assert_eq!(rt; run_of_two(&rt, rt.alloc()), Some(told));
    Ok(())
}

/// What a feed tells that sends the stamp 5 twice and then 6.
fn send_three<R: Threads + Wait + Sync>(
    rt: &R,
    alloc: Global,
    hub: &Hub,
    seat: &mut FeedSeat,
) -> Result<(u64, bool, u64), Refusal>
    requires { seat.old.ties ≡ hub.now }
    ensures { seat.new.ties ≡ seat.old.ties }
{
    let first = ingest(rt, alloc, hub, seat, &message(5))?;
    let again = ingest(rt, alloc, hub, seat, &message(5));
    let third = ingest(rt, alloc, hub, seat, &message(6))?;
    let stale = matches!(again, Err(Refusal::Stale { last: 5, got: 5 }));
    Ok((first.number(), stale, third.number()))
}

/// What a pass finds before two messages, has behind them without a look, and finds then.
fn look_round<R: Threads + Wait + Sync>(
    rt: &R,
    alloc: Global,
    hub: &Hub,
    seat: &mut FeedSeat,
    pass: &mut Pass,
) -> Result<[u64; 3], Refusal>
    requires { seat.old.ties ≡ hub.now }
    ensures { seat.new.ties ≡ seat.old.ties }
{
    let before = pass.look()?;
    ingest(rt, alloc, hub, seat, &message(7))?;
    ingest(rt, alloc, hub, seat, &message(8))?;
    let kept = pass.view().entries();
    let behind = pass.look()?;
    Ok([before, kept, behind])
}

/// Ends a hub that nobody needs any more.
fn end<R: Threads + Wait + Sync>(rt: &R, hub: Hub) {
    if let Ok(ending) = close_hub(rt, hub, &mut []) {
        ending.end(rt);
    }
}

/// What a feed tells that sends three messages, on one thread.
fn run_of_three<R: Threads + Wait + Sync>(rt: &R, alloc: Global) -> Option<(u64, bool, u64)> {
    let Ok(plans) = two_feeds(alloc) else {
        return None;
    };
    let Ok(opened) = open_hub(rt, alloc, plans, 1) else {
        return None;
    };
    let Opened {
        hub,
        mut seats,
        passes: _,
    } = opened;
    let told = send_three(rt, alloc, &hub, &mut seats[0]);
    end(rt, hub);
    told.ok()
}

/// What a pass tells round two messages, on one thread.
fn run_of_round<R: Threads + Wait + Sync>(rt: &R, alloc: Global) -> Option<[u64; 3]> {
    let Ok(plans) = two_feeds(alloc) else {
        return None;
    };
    let Ok(opened) = open_hub(rt, alloc, plans, 1) else {
        return None;
    };
    let Opened {
        hub,
        mut seats,
        mut passes,
    } = opened;
    let told = look_round(rt, alloc, &hub, &mut seats[0], &mut passes[0]);
    end(rt, hub);
    told.ok()
}

#[test]
fn a_stamp_is_taken_once(rt: HostRuntime) -> Result<(), Fail> {
    assert_eq!(rt; run_of_three(&rt, rt.alloc()), Some((1, true, 2)));
    Ok(())
}

#[test]
fn a_view_stays_until_the_next_look(rt: HostRuntime) -> Result<(), Fail> {
    assert_eq!(rt; run_of_round(&rt, rt.alloc()), Some([0, 0, 2]));
    Ok(())
}

/// How many looks of a pass found no message.
fn empty_looks(pass: &mut Pass) -> u32 {
    let mut empty: u32 = 0;
    for _ in 0..LOOKS {
        if matches!(pass.look(), Ok(0)) {
            empty = empty.saturating_add(1);
        }
    }
    empty
}

/// The same of all passes.
fn empty_looks_of(passes: &mut [Pass]) -> u32 {
    let mut empty: u32 = 0;
    for place in 0..passes.len() {
        empty = empty.saturating_add(empty_looks(&mut passes[place]));
    }
    empty
}

/// How many looks of 64 passes found no message in a hub that has none.
fn run_of_many<R: Threads + Wait + Sync>(rt: &R, alloc: Global) -> Option<u32> {
    let Ok(plans) = two_feeds(alloc) else {
        return None;
    };
    let Ok(opened) = open_hub(rt, alloc, plans, 64) else {
        return None;
    };
    let Opened {
        hub,
        seats: _,
        mut passes,
    } = opened;
    let empty = empty_looks_of(passes.as_mut_slice());
    end(rt, hub);
    Some(empty)
}

#[test]
fn each_of_many_passes_finds_an_empty_hub(rt: HostRuntime) -> Result<(), Fail> {
    assert_eq!(rt; run_of_many(&rt, rt.alloc()), Some(64 * LOOKS));
    Ok(())
}
