//! Connections, one after another.
ghost use Rattle.std.specs.Prelude.{◌≡◌, ◌≤◌, true, false, List, [], IfOk};
ghost use Rattle.text_defs.specs.Moments.{last_moment};
ghost use Rattle.delta_defs.specs.Kept.{KeptView};
ghost use Rattle.http_serve.specs.Setting.{setting};
ghost use Rattle.http_serve.specs.Views.{AreOfHistory};
ghost use Rattle.http_serve.specs.Serves.{Serves};
ghost use Rattle.http_serve.specs.Transcript.{IsTranscript};

use crate::notes::Notes;
use crate::serving::Service;
use crate::transcript::finish_of;
use crate::{End, NoMemory, Session, Transcript};
use board_parts::Oracle;
use delta_out::Kept;
use hub_outside::{Clock, FixedClock, MemorySink, MemorySource, Sink, Source};
use std::alloc::Global;
use std::marker::Model;

/// Serves a connection, from the first byte that its source has left to its end, with up to a
/// thousand responses. Each has the number and the timetables of a look at the oracle, and a moment
/// of the clock that was read behind that look. A response is written whole before more is read.
/// The views of its last 64 looks are kept while it goes on, so a client may ask what changed since
/// them. The oracle holds no view at its end, where it held none before.
pub fn serve_connection<S: Source, K: Sink, O: Oracle, C: Clock>(
    alloc: Global,
    source: &mut S,
    sink: &mut K,
    oracle: &mut O,
    clock: &mut C,
) -> Session
    ensures serves { (kept : List KeptView) × Serves (S.left source.old) (S.left source.new)
        (S.faults source.old) (S.faults source.new)
        (setting (K.written sink.old) (K.faults sink.old) (C.ahead clock.old)
        (O.plans oracle.old) (O.history oracle.old) (O.reads oracle.old) (O.steady oracle.old) [])
        (setting (K.written sink.new) (K.faults sink.new) (C.ahead clock.new)
        (O.plans oracle.new) (O.history oracle.new) (O.reads oracle.new) (O.steady oracle.new) kept)
        result.end result.numbers.items result.moments.items }
    ensures lets_go { O.holds oracle.old ≡ false → O.holds oracle.new ≡ false }
{
    let mut server = ConnectionServer::new(alloc);
    server.serve(source, sink, oracle, clock)
}

/// Serves a connection as [`serve_connection`] does, where those views were kept of looks before
/// it; at its end the views of the last 64 looks are kept, its own among them. Each view has to be
/// of the oracle's history.
pub fn serve_since<S: Source, K: Sink, O: Oracle, C: Clock>(
    alloc: Global,
    source: &mut S,
    sink: &mut K,
    oracle: &mut O,
    clock: &mut C,
    kept: &mut Kept,
) -> Session
    requires { AreOfHistory (O.plans oracle.old) (O.history oracle.old) kept.old }
    ensures serves { Serves (S.left source.old) (S.left source.new)
        (S.faults source.old) (S.faults source.new)
        (setting (K.written sink.old) (K.faults sink.old) (C.ahead clock.old)
        (O.plans oracle.old) (O.history oracle.old) (O.reads oracle.old)
        (O.steady oracle.old) kept.old)
        (setting (K.written sink.new) (K.faults sink.new) (C.ahead clock.new)
        (O.plans oracle.new) (O.history oracle.new) (O.reads oracle.new)
        (O.steady oracle.new) kept.new)
        result.end result.numbers.items result.moments.items }
    ensures kept { AreOfHistory (O.plans oracle.new) (O.history oracle.new) kept.new }
    ensures lets_go { O.holds oracle.old ≡ false → O.holds oracle.new ≡ false }
{
    let mut server = ConnectionServer::new(alloc);
    server.serve_since(source, sink, oracle, clock, kept)
}

/// Serves connections, one after another, with the same router and buffers. They are made for the
/// first connection for which there is memory, and stay for those that follow. No connection leaves
/// anything to the next but the views that the caller lends, so a contract sees nothing of a
/// server.
#[derive(Drop)]
pub struct ConnectionServer {
    alloc: Global,
    service: Option<Service>,
}

impl Model for ConnectionServer {
    ghost Value = { Unit {0} };

    ghost view = { λ _. tt };
}

impl ConnectionServer {
    /// One that has served no connection. It takes no memory.
    pub fn new(alloc: Global) -> ConnectionServer {
        ConnectionServer {
            alloc,
            service: None,
        }
    }

    /// Serves a connection as [`serve_connection`] does, whatever was served before. Where memory
    /// is wanting for router, buffers or the views of its looks, it ends so, and the next
    /// connection may find it.
    pub fn serve<S: Source, K: Sink, O: Oracle, C: Clock>(
        &mut self,
        source: &mut S,
        sink: &mut K,
        oracle: &mut O,
        clock: &mut C,
    ) -> Session
        ensures serves { (kept : List KeptView) × Serves (S.left source.old) (S.left source.new)
            (S.faults source.old) (S.faults source.new)
            (setting (K.written sink.old) (K.faults sink.old) (C.ahead clock.old)
            (O.plans oracle.old) (O.history oracle.old) (O.reads oracle.old)
            (O.steady oracle.old) [])
            (setting (K.written sink.new) (K.faults sink.new) (C.ahead clock.new)
            (O.plans oracle.new) (O.history oracle.new) (O.reads oracle.new)
            (O.steady oracle.new) kept)
            result.end result.numbers.items result.moments.items }
        ensures lets_go { O.holds oracle.old ≡ false → O.holds oracle.new ≡ false }
    {
        let Ok(mut kept) = Kept::new(self.alloc) else {
            return Notes::none(self.alloc).session(End::NoMemory);
        };
        self.serve_since(source, sink, oracle, clock, &mut kept)
    }

    /// Serves a connection as [`crate::serve_since`] does, whatever was served before. Where memory
    /// is wanting for router and buffers, it ends so, and the next connection may find it.
    pub fn serve_since<S: Source, K: Sink, O: Oracle, C: Clock>(
        &mut self,
        source: &mut S,
        sink: &mut K,
        oracle: &mut O,
        clock: &mut C,
        kept: &mut Kept,
    ) -> Session
        requires { AreOfHistory (O.plans oracle.old) (O.history oracle.old) kept.old }
        ensures serves { Serves (S.left source.old) (S.left source.new)
            (S.faults source.old) (S.faults source.new)
            (setting (K.written sink.old) (K.faults sink.old) (C.ahead clock.old)
            (O.plans oracle.old) (O.history oracle.old) (O.reads oracle.old) (O.steady oracle.old)
            kept.old)
            (setting (K.written sink.new) (K.faults sink.new) (C.ahead clock.new)
            (O.plans oracle.new) (O.history oracle.new) (O.reads oracle.new) (O.steady oracle.new)
            kept.new)
            result.end result.numbers.items result.moments.items }
        ensures kept { AreOfHistory (O.plans oracle.new) (O.history oracle.new) kept.new }
        ensures lets_go { O.holds oracle.old ≡ false → O.holds oracle.new ≡ false }
    {
        if self.service.is_none() {
            self.service = Service::new(self.alloc).ok();
        }
        let Some(service) = &mut self.service else {
            return Notes::none(self.alloc).session(End::NoMemory);
        };
        service.serve(source, sink, oracle, clock, kept)
    }

    /// Serves the connection whose input is these bytes as [`crate::serve_bytes`] does, whatever
    /// was served before.
    pub fn serve_bytes<O: Oracle>(
        &mut self,
        oracle: &mut O,
        moment: u64,
        input: &[u8],
    ) -> Result<Transcript, NoMemory>
        requires { moment ≤ last_moment }
        ensures transcript { O.steady oracle.old ≡ true → IfOk result (λ transcript.
            IsTranscript (O.plans oracle.old) (O.history oracle.old) moment input.now transcript) }
        ensures plans { O.plans oracle.new ≡ O.plans oracle.old }
        ensures history { O.steady oracle.old ≡ true
            → O.history oracle.new ≡ O.history oracle.old }
    {
        let alloc = self.alloc;
        let bytes = Vec::from_slice(alloc, input)?;
        let mut source = MemorySource::new(bytes, Vec::new(alloc), Vec::new(alloc));
        let mut written = MemorySink::new(alloc, Vec::new(alloc), Vec::new(alloc));
        let mut clock = FixedClock::new(vec![in alloc; moment]?);
        let session = self.serve(&mut source, &mut written, oracle, &mut clock);
        let finish = finish_of(session.end)?;
        Ok(Transcript { written, finish })
    }
}
