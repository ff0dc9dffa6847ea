//! Ingesters at their ports.

use crate::naming::number_of;
use feed_port::FeedPort;
use hub_outside::{Gate, GatePoint};
use hub_shared::{FeedSeat, Hub, PortReport, ingest_port};
use place_jobs::PlaceJob;
use std::alloc::Global;
use std::sync::Wait;
use std::thread::Threads;

/// Brings in the messages of each port.
#[derive(Drop)]
pub(crate) struct Ingesting<'a, R, G> {
    pub(crate) rt: &'a R,
    pub(crate) alloc: Global,
    pub(crate) hub: &'a Hub,
    pub(crate) gate: &'a G,
}

impl<'a, R: Threads + Wait + Sync, G: Gate, P: FeedPort> PlaceJob<P, FeedSeat, PortReport>
    for Ingesting<'a, R, G> {
    ghost use Rattle.std.specs.Prelude.{◌≡◌};
    ghost use denote.Param.Send.{IsSync};
    ghost use Rattle.hub_serve.specs.Feeds.{ingests_at};
    ghost use Rattle.hub_serve.specs.Words.{port_words};

    // That threads may share the runtime is no bound that a method is given, so it is told here.
    ghost accepts = { λ job place port seat report. IsSync R.row × (seat.ties ≡ job.hub.now) };

    ghost does = { λ job. ingests_at (port_words P.ahead P.faults) };

    /// Behind its last message the ingester passes the gate, if it brought one in.
    fn work(&self, place: usize, port: &mut P, seat: &mut FeedSeat, report: &mut PortReport) {
        *report = ingest_port(self.rt, self.alloc, self.hub, seat, port);
        if seat.receipt().is_some() {
            self.gate.pass(GatePoint::Ingested(number_of(place)));
        }
    }
}
