//! The run.

ghost use Rattle.std.specs.Prelude.{◌≡◌, ◌≤◌, ◌⊎◌, [], length, vec_len, map, IfOk};
ghost use Rattle.std.specs.Arc.{arc_value};
ghost use Rattle.std.specs.List.{All};
ghost use Rattle.hub_shared.specs.Calls.{IsFresh};
ghost use Rattle.hub_shared.specs.Seats.{fresh_seats};
ghost use Rattle.http_door.specs.Visits.{ends};
ghost use Rattle.hub_serve.specs.Runs.{Ran, WasNotOpened};
ghost use Rattle.hub_serve.specs.Words.{port_words, door_words};

use crate::closing::discard;
use crate::naming::OfHub;
use crate::opening::{passes_at, port_reports, posts_of};
use crate::readers::{HubPass, Post};
use crate::working::run_work;
use exit_status::ExitStatus;
use feed_port::FeedPort;
use hub_outside::{Clock, Door, Gate, Sink};
use hub_shared::{FeedSeat, Opened, PortReport, open_hub};
use sched_types::Plans;
use snapshot_cell::{NoMemory, Pass};
use std::alloc::Global;
use std::marker::Brand;
use std::sync::{Arc, Wait};
use std::thread::Threads;

/// Runs a hub with those timetables and feeds. It brings in the messages of each port, one for each
/// feed, and serves the connections of each door with the clock of the same place, each in a thread
/// of its own where one can be had. When all ports and doors have ended it closes the hub, and
/// writes a line for each feed and one for the readers. It answers the exit status: 5 where the
/// output failed, else 6 where memory was wanting to open or to close the hub or for an ingester's
/// buffer, else 1 where a port or a door failed or a message was too long, else 0.
pub fn run_serve<R, P, D, C, K, G>(
    rt: &R,
    alloc: Global,
    plans: Arc<Plans>,
    ports: &mut [P],
    doors: &mut [D],
    clocks: Vec<C>,
    gate: &G,
    out: &mut K,
) -> u8
where
    R: Threads + Wait + Sync,
    P: FeedPort + Send,
    D: Door + Send,
    D::In: Send,
    D::Out: Send,
    C: Clock + Send + Drop,
    K: Sink,
    G: Gate + Sync,
    requires ports { length ports.old ≡ length (arc_value plans).feeds }
    requires clocks { vec_len clocks ≡ length doors.old }
    requires some { 1 ≤ length doors.old }
    requires few { length doors.old ≤ 64 }
    ensures { WasNotOpened ports.old ports.new doors.old doors.new out.old out.new result
        ⊎ Ran (port_words P.ahead P.faults) (door_words D.links D.faults)
        (ends D.In.left D.In.faults D.Out.written D.Out.faults) (arc_value plans)
        ports.old ports.new doors.old doors.new (map C.ahead clocks.items)
        (K.written out.old) (K.written out.new) (K.faults out.old) (K.faults out.new) result }
{
    let Ok(names) = Arc::try_clone(&plans) else {
        return ExitStatus::NoMemory.code();
    };
    let Ok(opened) = open_hub(rt, alloc, plans, doors.len() as u32) else {
        return ExitStatus::NoMemory.code();
    };
    run_opened::<Brand, R, P, D, C, K, G>(
        rt, alloc, &names, opened, ports, doors, clocks, gate, out,
    )
}

/// The same of a hub that was opened.
fn run_opened<H, R, P, D, C, K, G>(
    rt: &R,
    alloc: Global,
    plans: &Plans,
    opened: Opened,
    ports: &mut [P],
    doors: &mut [D],
    clocks: Vec<C>,
    gate: &G,
    out: &mut K,
) -> u8
where
    H: OfHub + Send + Sync,
    R: Threads + Wait + Sync,
    P: FeedPort + Send,
    D: Door + Send,
    D::In: Send,
    D::Out: Send,
    C: Clock + Send + Drop,
    K: Sink,
    G: Gate + Sync,
    requires hub { opened.hub ≡ H.ties }
    requires plans { opened.hub.plans ≡ plans.now }
    requires seats { opened.seats.items ≡ fresh_seats opened.hub }
    requires passes { All (λ pass. IsFresh opened.hub pass) opened.passes.items }
    requires count { vec_len opened.passes ≡ vec_len clocks }
    requires ports { length ports.old ≡ length plans.now.feeds }
    requires clocks { vec_len clocks ≡ length doors.old }
    requires few { length doors.old ≤ 64 }
    ensures { WasNotOpened ports.old ports.new doors.old doors.new out.old out.new result
        ⊎ Ran (port_words P.ahead P.faults) (door_words D.links D.faults)
        (ends D.In.left D.In.faults D.Out.written D.Out.faults) plans.now
        ports.old ports.new doors.old doors.new (map C.ahead clocks.items)
        (K.written out.old) (K.written out.new) (K.faults out.old) (K.faults out.new) result }
{
    let Opened { hub, seats, passes } = opened;
    let work = match begin::<H, C>(alloc, ports.len(), seats, passes, clocks) {
        Ok(work) => work,
        Err(_) => {
            discard(rt, hub);
            return ExitStatus::NoMemory.code();
        }
    };
    let Work {
        mut seats,
        mut reports,
        mut passes,
        mut posts,
    } = work;
    run_work(
        rt,
        alloc,
        hub,
        plans,
        gate,
        ports,
        seats.as_mut_slice(),
        reports.as_mut_slice(),
        doors,
        passes.as_mut_slice(),
        posts.as_mut_slice(),
        out,
    )
}

/// What ingesters and readers work with, beside ports and doors.
#[derive(Drop)]
struct Work<H: OfHub, C> {
    seats: Vec<FeedSeat>,
    reports: Vec<PortReport>,
    passes: Vec<HubPass<H>>,
    posts: Vec<Post<C>>,
}

/// What they work with at first; or want of memory.
fn begin<H: OfHub, C: Drop>(
    alloc: Global,
    ports: usize,
    seats: Vec<FeedSeat>,
    passes: Vec<Pass>,
    clocks: Vec<C>,
) -> Result<Work<H, C>, NoMemory>
    requires { All (IsFresh H.ties) passes.items }
    ensures seats { IfOk result (λ work. work.seats.items ≡ seats.items) }
    ensures reports { IfOk result (λ work. vec_len work.reports ≡ ports) }
    ensures passes { IfOk result (λ work. work.passes.items ≡ passes.items) }
    ensures posts { IfOk result (λ work. map (λ post. post.clock) work.posts.items ≡ clocks.items) }
    ensures kept { IfOk result (λ work. All (λ post. post.kept ≡ []) work.posts.items) }
{
    Ok(Work {
        seats,
        reports: port_reports(alloc, ports)?,
        passes: passes_at(alloc, passes)?,
        posts: posts_of(alloc, clocks)?,
    })
}
