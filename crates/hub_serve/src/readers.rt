//! Readers at their doors.

ghost use Rattle.std.specs.Prelude.{◌≡◌, false};
ghost use mathlib.Core.List.{IsPrefix};
ghost use Rattle.hub_history.specs.Told.{history_of};
ghost use Rattle.hub_shared.specs.Seats.{IsOf};

use crate::naming::{OfHub, number_of};
use board_parts::{HubView, Oracle};
use delta_out::Kept;
use http_door::{DoorReport, serve_door};
use hub_outside::{Clock, Door, Gate};
use place_jobs::PlaceJob;
use snapshot_cell::{Ending, NoMemory, Pass};
use std::alloc::Global;
use std::marker::{Model, PhantomData};
use std::sync::Wait;

/// A pass of that hub. A contract sees the pass.
#[derive(Drop)]
pub(crate) struct HubPass<H: OfHub> {
    pub(crate) pass: Pass,
    of: PhantomData<H>,
}

impl<H: OfHub> Model for HubPass<H> {
    ghost use Rattle.hub_shared.specs.Seats.{IsOf};
    ghost use Rattle.snapshot_cell.specs.Seen.{PassSeen};

    ghost Value = { PassSeen };

    ghost view = { λ reader. reader.pass };

    ghost invariant = { λ reader. IsOf reader.pass.line H.ties };
}

impl<H: OfHub> HubPass<H> {
    /// A pass of the hub.
    pub(crate) fn new(pass: Pass) -> HubPass<H>
        requires { IsOf pass.line H.ties }
        ensures { result ≡ pass }
    {
        HubPass {
            pass,
            of: PhantomData,
        }
    }

    /// Knows the whole of the ended history.
    pub(crate) fn finish(&mut self, ending: &Ending)
        requires { IsOf ending.now H.ties }
        ensures { IsPrefix self.old.line.log ending.now.log }
    {
        self.pass.finish(ending);
    }
}

impl<H: OfHub> Oracle for HubPass<H> {
    ghost use Rattle.std.specs.Prelude.{false};
    ghost use Rattle.hub_history.specs.Told.{history_of};

    ghost history = { λ reader. history_of reader.line };

    ghost plans = { λ reader. reader.shown.plans };

    ghost reads = { λ reader. reader.reads };

    ghost shown = { λ reader. reader.shown };

    ghost holds = { λ reader. reader.holds };

    ghost steady = { λ _. false };

    fn look(&mut self) -> Result<u64, NoMemory> {
        self.pass.look()
    }

    fn view(&self) -> &HubView {
        self.pass.view()
    }

    fn release(&mut self) {
        self.pass.release();
    }
}

/// Where a reader stands: its clock, the views of its last looks, and what it made of its door.
#[derive(Drop)]
pub(crate) struct Post<C> {
    pub(crate) clock: C,
    pub(crate) kept: Kept,
    pub(crate) report: DoorReport,
}

/// Serves the connections of each door.
#[derive(Drop)]
pub(crate) struct Serving<'a, R, G> {
    pub(crate) rt: &'a R,
    pub(crate) alloc: Global,
    pub(crate) gate: &'a G,
}

impl<'a, R: Wait, G: Gate, H: OfHub, C: Clock, D: Door> PlaceJob<D, HubPass<H>, Post<C>>
    for Serving<'a, R, G> {
    ghost use Rattle.std.specs.Prelude.{◌≡◌, []};
    ghost use Rattle.http_door.specs.Visits.{ends};
    ghost use Rattle.hub_serve.specs.Readers.{serves_at};
    ghost use Rattle.hub_serve.specs.Words.{door_words};

    ghost accepts = { λ job place door pass post. post.kept ≡ [] };

    ghost does = { λ job. serves_at (door_words D.links D.faults)
        (ends D.In.left D.In.faults D.Out.written D.Out.faults) C.ahead };

    fn work(&self, place: usize, door: &mut D, pass: &mut HubPass<H>, post: &mut Post<C>) {
        post.report = serve_door(
            self.rt,
            self.alloc,
            door,
            pass,
            &mut post.clock,
            self.gate,
            number_of(place),
            &mut post.kept,
        );
    }
}
