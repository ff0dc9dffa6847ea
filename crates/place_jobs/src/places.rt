//! All places, side by side.

ghost use Rattle.std.specs.Prelude.{◌≡◌, ◌+◌, ◌<◌, ◌^◌, length};
ghost use denote.Param.Send.{IsSend, IsSync};
ghost use Rattle.place_jobs.specs.Places.{ArePlaces, PlacesChanged};

use crate::job::PlaceJob;
use std::thread::{Threads, join_mut};

/// Does the job at each place of three slices of one length, whose first place has the number
/// `first`. Each place has a thread of its own where one can be had.
#[cycle(places)]
pub fn each_place<R: Threads + Sync, A: Send, B: Send, C: Send, J: PlaceJob<A, B, C> + Sync>(
    rt: &R,
    job: &J,
    first: usize,
    xs: &mut [A],
    ys: &mut [B],
    zs: &mut [C],
)
    requires places { ArePlaces (J.accepts job.now) first xs.old ys.old zs.old }
    requires room { first + length xs.old < 2 ^ 64 }
    ensures { PlacesChanged (J.does job.now) first xs.old ys.old zs.old xs.new ys.new zs.new }
{
    let Some((x, xs)) = xs.split_first_mut() else {
        return;
    };
    let Some((y, ys)) = ys.split_first_mut() else {
        return;
    };
    let Some((z, zs)) = zs.split_first_mut() else {
        return;
    };
    first_and_rest(rt, job, first, x, y, z, xs, ys, zs);
}

/// Does the job at a place, beside those that follow. What the two threads require is what this
/// function is given.
#[cycle(places)]
fn first_and_rest<R: Threads + Sync, A: Send, B: Send, C: Send, J: PlaceJob<A, B, C> + Sync>(
    rt: &R,
    job: &J,
    first: usize,
    x: &mut A,
    y: &mut B,
    z: &mut C,
    xs: &mut [A],
    ys: &mut [B],
    zs: &mut [C],
)
    requires accepts { J.accepts job.now first x.old y.old z.old }
    requires places { ArePlaces (J.accepts job.now) (first + 1) xs.old ys.old zs.old }
    requires room { first + 1 + length xs.old < 2 ^ 64 }
    ensures front { J.does job.now first x.old y.old z.old x.new y.new z.new }
    ensures back { PlacesChanged (J.does job.now) (first + 1) xs.old ys.old zs.old xs.new ys.new
        zs.new }
{
    let next = first + 1;
    let mut front = ||
        requires { IsSync J.row × IsSend A.row × IsSend B.row × IsSend C.row
            × J.accepts job.now first x.now y.now z.now }
        ensures { J.does job.entry.now first
            x.entry.now y.entry.now z.entry.now x.exit.now y.exit.now z.exit.now }
    { job.work(first, x, y, z) };
    let mut back = ||
        requires { IsSync R.row × IsSync J.row × IsSend A.row × IsSend B.row × IsSend C.row
            × ArePlaces (J.accepts job.now) next xs.now ys.now zs.now
            × (next + length xs.now < 2 ^ 64) }
        ensures { PlacesChanged (J.does job.entry.now) next
            xs.entry.now ys.entry.now zs.entry.now xs.exit.now ys.exit.now zs.exit.now }
    { each_place(rt, job, next, xs, ys, zs) };
    join_mut(rt, &mut front, &mut back);
}
