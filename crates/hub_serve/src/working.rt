//! The work of a run.

ghost use Rattle.std.specs.Prelude.{◌≡◌, ◌≤◌, [], length, map};
ghost use Rattle.std.specs.List.{All};
ghost use denote.Param.Send.{IsSend, IsSync};
ghost use Rattle.http_door.specs.Visits.{ends};
ghost use Rattle.hub_shared.specs.Calls.{IsFresh};
ghost use Rattle.hub_shared.specs.Seats.{fresh_seats};
ghost use Rattle.place_jobs.specs.Places.{ArePlaces, PlacesChanged};
ghost use Rattle.hub_serve.specs.Feeds.{ingests_at};
ghost use Rattle.hub_serve.specs.Readers.{serves_at};
ghost use Rattle.hub_serve.specs.Runs.{Ran};
ghost use Rattle.hub_serve.specs.Steps.{EndsRun};
ghost use Rattle.hub_serve.specs.Words.{port_words, door_words};

use crate::closing::close;
use crate::feeds::Ingesting;
use crate::naming::OfHub;
use crate::readers::{HubPass, Post, Serving};
use crate::telling::{status_of, write_lines};
use feed_port::FeedPort;
use hub_outside::{Clock, Door, Gate, Sink};
use hub_shared::{FeedSeat, Hub, PortReport};
use place_jobs::each_place;
use sched_types::Plans;
use std::alloc::Global;
use std::sync::Wait;
use std::thread::{Threads, join_mut};

/// Runs a hub to its end, with what ingesters and readers work with.
pub(crate) fn run_work<H, R, P, D, C, K, G>(
    rt: &R,
    alloc: Global,
    hub: Hub,
    plans: &Plans,
    gate: &G,
    ports: &mut [P],
    seats: &mut [FeedSeat],
    reports: &mut [PortReport],
    doors: &mut [D],
    passes: &mut [HubPass<H>],
    posts: &mut [Post<C>],
    out: &mut K,
) -> u8
where
    H: OfHub + Send + Sync,
    R: Threads + Wait + Sync,
    P: FeedPort + Send,
    D: Door + Send,
    D::In: Send,
    D::Out: Send,
    C: Clock + Send + Drop,
    K: Sink,
    G: Gate + Sync,
    requires hub { hub ≡ H.ties }
    requires plans { hub.plans ≡ plans.now }
    requires seats { seats.old ≡ fresh_seats hub }
    requires passes { All (IsFresh hub) passes.old }
    requires ports { length ports.old ≡ length plans.now.feeds }
    requires reports { length reports.old ≡ length plans.now.feeds }
    requires doors { length doors.old ≡ length posts.old }
    requires posts { length passes.old ≡ length posts.old }
    requires kept { All (λ post. post.kept ≡ []) posts.old }
    requires few { length doors.old ≤ 64 }
    ensures { Ran (port_words P.ahead P.faults) (door_words D.links D.faults)
        (ends D.In.left D.In.faults D.Out.written D.Out.faults) plans.now
        ports.old ports.new doors.old doors.new (map (λ post. C.ahead post.clock) posts.old)
        (K.written out.old) (K.written out.new) (K.faults out.old) (K.faults out.new) result }
{
    plans.sound();
    work_all(
        rt, alloc, &hub, gate, ports, seats, reports, doors, passes, posts,
    );
    end(rt, hub, plans, seats, reports, passes, posts, out)
}

/// All of them at their work, side by side, until each has ended.
fn work_all<H, R, P, D, C, G>(
    rt: &R,
    alloc: Global,
    hub: &Hub,
    gate: &G,
    ports: &mut [P],
    seats: &mut [FeedSeat],
    reports: &mut [PortReport],
    doors: &mut [D],
    passes: &mut [HubPass<H>],
    posts: &mut [Post<C>],
)
where
    H: OfHub + Send + Sync,
    R: Threads + Wait + Sync,
    P: FeedPort + Send,
    D: Door + Send,
    D::In: Send,
    D::Out: Send,
    C: Clock + Send + Drop,
    G: Gate + Sync,
    requires ports { ArePlaces (λ place port seat report. seat.ties ≡ hub.now) 0 ports.old seats.old
        reports.old }
    requires few_ports { length ports.old ≤ 64 }
    requires doors { ArePlaces (λ place door pass post. post.kept ≡ []) 0 doors.old passes.old
        posts.old }
    requires few_doors { length doors.old ≤ 64 }
    ensures ports { PlacesChanged (ingests_at (port_words P.ahead P.faults)) 0 ports.old seats.old
        reports.old ports.new seats.new reports.new }
    ensures doors { PlacesChanged (serves_at (door_words D.links D.faults)
        (ends D.In.left D.In.faults D.Out.written D.Out.faults) C.ahead) 0 doors.old passes.old
        posts.old doors.new passes.new posts.new }
{
    let ingesting = Ingesting {
        rt,
        alloc,
        hub,
        gate,
    };
    let serving = Serving { rt, alloc, gate };
    let mut ingesters = ||
        requires { IsSync R.row × IsSync G.row × IsSend P.row
            × ArePlaces (λ place port seat report. seat.ties ≡ ingesting.hub.now)
            0 ports.now seats.now reports.now
            × (length ports.now ≤ 64) }
        ensures { PlacesChanged (ingests_at (port_words P.ahead P.faults)) 0 ports.entry.now
            seats.entry.now reports.entry.now ports.exit.now seats.exit.now reports.exit.now }
    { each_place(rt, &ingesting, 0, ports, seats, reports) };
    let mut readers = ||
        requires { IsSync R.row × IsSync G.row × IsSync H.row × IsSend H.row × IsSend D.row
            × IsSend D.In.row × IsSend D.Out.row × IsSend C.row
            × ArePlaces (λ place door pass post. post.kept ≡ []) 0 doors.now passes.now posts.now
            × (length doors.now ≤ 64) }
        ensures { PlacesChanged (serves_at (door_words D.links D.faults)
            (ends D.In.left D.In.faults D.Out.written D.Out.faults) C.ahead) 0 doors.entry.now
            passes.entry.now posts.entry.now doors.exit.now passes.exit.now posts.exit.now }
    { each_place(rt, &serving, 0, doors, passes, posts) };
    join_mut(rt, &mut ingesters, &mut readers);
}

/// Closes the hub, writes the lines and answers the status.
fn end<H: OfHub, R: Wait, C, K: Sink>(
    rt: &R,
    hub: Hub,
    plans: &Plans,
    seats: &mut [FeedSeat],
    reports: &[PortReport],
    passes: &mut [HubPass<H>],
    posts: &[Post<C>],
    out: &mut K,
) -> u8
    requires hub { hub ≡ H.ties }
    requires ties { All (λ seat. seat.ties ≡ hub) seats.old }
    requires seats { length seats.old ≡ length plans.now.feeds }
    requires reports { length reports.now ≡ length plans.now.feeds }
    ensures { EndsRun hub plans.now.feeds seats.old reports.now passes.old
        (map (λ post. post.report) posts.now) (K.written out.old) (K.written out.new)
        (K.faults out.old) (K.faults out.new) result }
{
    let closed = close(rt, hub, seats, passes);
    let writing = write_lines(out, &closed, plans, seats, reports, posts);
    status_of(writing, &closed, reports, posts).code()
}
