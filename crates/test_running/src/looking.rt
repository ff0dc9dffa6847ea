//! Passes that look while a publisher shows one view after another, each in a thread of its own,
//! and one that stands between two looks meanwhile.
//!
//! The threads keep one another's pace, so that each view is put while passes look, and whoever
//! waits for the others gives up in the end, which the test tells. A `put` that waited for ever is
//! ended by the time that a test has.

ghost use Rattle.std.specs.Prelude.{◌≡◌};
ghost use Rattle.std.specs.List.{All};
ghost use denote.Param.Send.{IsSync};
ghost use Rattle.hub_history.specs.Told.{AreOne};

use crate::showing::{Shower, opened};
use board_parts::{HubView, Oracle};
use snapshot_cell::{Pass, Receipt};
use std::alloc::Global;
use std::marker::{Brand, Model, PhantomData};
use std::sync::atomic::{AtomicU64, Ordering};
use std::sync::{Mutex, Wait};
use std::test::Fail;
use std::thread::{Threads, for_each_mut, join, yield_now};

/// How many views are shown.
const VIEWS: u64 = 200;

/// How many passes look beside the publisher.
const LOOKERS: u64 = 4;

/// How often each of them looks in a round, which begins with what it learns.
const LOOKS_A_ROUND: u64 = 10;

/// How many rounds each of them makes.
const ROUNDS: u64 = 1000;

/// How many rounds of each pass go to one view.
const ROUNDS_A_VIEW: u64 = ROUNDS / VIEWS;

/// How often a thread that waits for the others yields before it gives up, and the test fails.
const PATIENCE: u64 = 5_000_000;

/// A hub. A contract says which; no value of it is made.
trait OfHub {
    ghost use Rattle.hub_history.specs.Told.{Told};

    ghost told: { Told };
}

impl OfHub for Brand {
    ghost use Rattle.std.specs.Prelude.{[]};

    ghost told = { record {
      book = record { number = 0; log_name = 0; cells_name = 0 };
      feeds = 0;
      log = [];
    } };
}

/// A receipt of that hub. A contract sees the receipt.
#[derive(Drop)]
struct HubReceipt<H: OfHub> {
    receipt: Receipt,
    of: PhantomData<H>,
}

impl<H: OfHub> Model for HubReceipt<H> {
    ghost use Rattle.hub_history.specs.Told.{Told, AreOne};

    ghost Value = { Told };

    ghost view = { λ posted. posted.receipt };

    ghost invariant = { λ posted. AreOne posted.receipt H.told };
}

impl<H: OfHub> HubReceipt<H> {
    fn new(receipt: Receipt) -> HubReceipt<H>
        requires { AreOne receipt H.told }
        ensures { result ≡ receipt }
    {
        HubReceipt {
            receipt,
            of: PhantomData,
        }
    }

    /// The pass learns what the receipt tells, and how many messages that is.
    fn teach(&self, pass: &mut Pass) -> u64
        requires { AreOne pass.old.line H.told }
        ensures { AreOne pass.new.line H.told }
    {
        pass.learn(&self.receipt);
        self.receipt.number()
    }
}

/// What the threads of a run share.
#[derive(Drop)]
struct Board<H: OfHub> {
    /// The receipt of the newest view that was put.
    newest: Mutex<HubReceipt<H>>,
    /// How many views were put.
    put: AtomicU64,
    /// How many rounds the passes made.
    rounds: AtomicU64,
    /// How often something was not as it must be.
    odd: AtomicU64,
}

impl<H: OfHub> Board<H> {
    fn new(receipt: Receipt) -> Board<H>
        requires { AreOne receipt H.told }
    {
        Board {
            newest: Mutex::new(HubReceipt::new(receipt)),
            put: AtomicU64::new(0),
            rounds: AtomicU64::new(0),
            odd: AtomicU64::new(0),
        }
    }

    /// Tells that something was not as it must be.
    fn wonder(&self) {
        self.odd.fetch_add(1, Ordering::SeqCst);
    }

    /// The pass learns of the newest view, and what its number is.
    fn teach<R: Wait>(&self, rt: &R, pass: &mut Pass) -> u64
        requires { AreOne pass.old.line H.told }
        ensures { AreOne pass.new.line H.told }
    {
        self.newest.lock(rt).teach(pass)
    }

    /// Tells of the view with that receipt.
    fn post<R: Wait>(&self, rt: &R, receipt: Receipt)
        requires { AreOne receipt H.told }
    {
        *self.newest.lock(rt) = HubReceipt::new(receipt);
        self.put.fetch_add(1, Ordering::SeqCst);
    }
}

/// Whether a count came to that number before the patience was out.
fn came_to(count: &AtomicU64, least: u64) -> bool {
    for _ in 0..PATIENCE {
        if count.load(Ordering::SeqCst) >= least {
            return true;
        }
        yield_now();
    }
    false
}

/// The stamp of the last message of a view's first feed, which is its number at a hub whose
/// messages have the stamps 1, 2, 3 and so on.
fn stamp_in(view: &HubView) -> Option<u64> {
    let feed = view.feeds().first()?;
    Some(feed.stamp())
}

/// Puts all views. Each waits until the passes have made their rounds for the one before.
fn put_all<R: Wait, H: OfHub>(rt: &R, alloc: Global, board: &Board<H>, shower: &mut Shower)
    requires { AreOne shower.old H.told }
{
    for number in 0..VIEWS {
        if !came_to(&board.rounds, number * LOOKERS * ROUNDS_A_VIEW) {
            board.wonder();
            return;
        }
        match shower.show_next(rt, alloc) {
            Ok(receipt) => board.post(rt, receipt),
            Err(_) => board.wonder(),
        }
    }
}

/// Looks some times, and answers the number that was found last. No look may answer less than the
/// one before, nor the first less than what is known.
fn look_round<H: OfHub>(board: &Board<H>, pass: &mut Pass, known: u64) -> u64
    requires { AreOne pass.old.line H.told }
    ensures { AreOne pass.new.line H.told }
{
    let mut last = known;
    for _ in 0..LOOKS_A_ROUND {
        match pass.look() {
            Ok(number) => {
                let view = pass.view();
                if number < last || view.entries() != number || stamp_in(view) != Some(number) {
                    board.wonder();
                }
                last = number;
            }
            Err(_) => board.wonder(),
        }
    }
    last
}

/// Makes all rounds of a pass: it learns of the newest view, and looks. A round waits until the
/// view before its own was put, so that all views come while passes look.
fn look_beside<R: Wait, H: OfHub>(rt: &R, board: &Board<H>, pass: &mut Pass)
    requires { AreOne pass.old.line H.told }
{
    let mut last = 0;
    for round in 0..ROUNDS {
        if !came_to(&board.put, round / ROUNDS_A_VIEW) {
            board.wonder();
            return;
        }
        let learned = board.teach(rt, pass);
        last = look_round(board, pass, last.max(learned));
        board.rounds.fetch_add(1, Ordering::SeqCst);
    }
}

/// The same of all passes, each in a thread of its own.
fn look_all<R: Threads + Wait + Sync, H: OfHub + Send + Sync>(
    rt: &R,
    board: &Board<H>,
    passes: Vec<Pass>,
)
    requires { All (λ pass. AreOne pass.line H.told) passes.items }
{
    let mut passes = passes;
    for_each_mut(
        rt,
        passes.as_mut_slice(),
        LOOKERS as usize,
        &|_, pass| look_beside(rt, board, pass),
    );
}

/// What a run tells.
#[derive(Debug, Drop, PartialEq, Eq)]
struct Beside {
    /// How often something was not as it must be.
    odd: u64,
    /// How many views were put.
    put: u64,
    /// How many rounds the passes made.
    rounds: u64,
    /// What the pass that stood by found at its first look, what its view had just before its
    /// second, and what it found there.
    stood: [Option<u64>; 3],
    /// How many messages the ended hub has.
    ended: u64,
}

/// Ends the hub, and tells how many messages it has.
fn closed<R: Wait>(rt: &R, shower: Shower) -> Option<u64> {
    let Shower { publisher, core: _ } = shower;
    let Ok(ending) = publisher.close(rt) else {
        return None;
    };
    let number = ending.number();
    ending.end(rt);
    Some(number)
}

/// The publisher puts all views while the passes look.
fn go_beside<R: Threads + Wait + Sync, H: OfHub + Send + Sync>(
    rt: &R,
    alloc: Global,
    board: &Board<H>,
    shower: &mut Shower,
    passes: Vec<Pass>,
)
    requires hub { AreOne shower.old H.told }
    requires passes { All (λ pass. AreOne pass.line H.told) passes.items }
{
    join(
        rt,
        ||
            requires { IsSync R.row × AreOne shower.now H.told }
        { put_all(rt, alloc, board, shower) },
        ||
            requires { IsSync R.row × All (λ pass. AreOne pass.line H.told) passes.items }
        { look_all(rt, board, passes) },
    );
}

/// A run of a publisher beside passes, one of which looks before all others and after them.
fn run_beside<H: OfHub + Send + Sync, R: Threads + Wait + Sync>(
    rt: &R,
    alloc: Global,
    shower: Shower,
    passes: Vec<Pass>,
    standing: &mut Pass,
) -> Option<Beside>
    requires hub { AreOne shower H.told }
    requires passes { All (λ pass. AreOne pass.line H.told) passes.items }
{
    let mut shower = shower;
    let before = standing.look();
    let board = Board::<H>::new(shower.publisher.tell());
    go_beside(rt, alloc, &board, &mut shower, passes);
    let unseen = standing.view().entries();
    let after = standing.look();
    Some(Beside {
        odd: board.odd.load(Ordering::SeqCst),
        put: board.put.load(Ordering::SeqCst),
        rounds: board.rounds.load(Ordering::SeqCst),
        stood: [before.ok(), Some(unseen), after.ok()],
        ended: closed(rt, shower)?,
    })
}

/// A run of a hub with a pass that stands by and those that look, or none where no memory was
/// found.
fn run_of_five<R: Threads + Wait + Sync>(rt: &R, alloc: Global) -> Option<Beside> {
    let Ok((shower, mut passes)) = opened(rt, alloc, LOOKERS as u32 + 1) else {
        return None;
    };
    let Some(mut standing) = passes.pop() else {
        unreachable!()
    };
    run_beside::<Brand, R>(rt, alloc, shower, passes, &mut standing)
}

#[test]
fn passes_look_beside_a_publisher(rt: HostRuntime) -> Result<(), Fail> {
    let run = run_of_five(&rt, rt.alloc());
    let all = Beside {
        odd: 0,
        put: 200,
        rounds: 4000,
        stood: [Some(0), Some(0), Some(200)],
        ended: 200,
    };
    assert_eq!(rt; run, Some(all));
    Ok(())
}
