//! The requests of a connection, one after another.
ghost use Rattle.std.specs.Prelude.{◌≡◌, false};
ghost use Rattle.http_serve.specs.Setting.{setting};
ghost use Rattle.http_serve.specs.Notes.{noted_in};
ghost use Rattle.http_serve.specs.Serves.{Serves};
ghost use Rattle.http_serve.specs.Views.{AreOfHistory};
ghost use Rattle.http_serve.specs.Turns.{Turns, HasTurnCause, TakesNext, HasNextCause, turn_after};

use crate::notes::Notes;
use crate::replying::{LAST_PLACE, Unwritten, reply};
use crate::responses::{Responder, closes_behind};
use crate::{End, NoMemory, Session};
use board_parts::Oracle;
use delta_out::Kept;
use http_defs::Item;
use http_req::{RequestReader, Taken};
use hub_outside::{Clock, Sink, Source};
use std::alloc::Global;

/// What one turn came to.
pub(crate) enum Turn {
    /// The request was answered, and the next one may come.
    GoesOn,
    /// The connection ends so.
    Ends(End),
}

/// What connections are served with.
#[derive(Drop)]
pub(crate) struct Service {
    alloc: Global,
    reader: RequestReader,
    responder: Responder,
}

impl Service {
    /// One for the first connection, or want of memory.
    pub(crate) fn new(alloc: Global) -> Result<Service, NoMemory> {
        Ok(Service {
            alloc,
            reader: RequestReader::new(alloc)?,
            responder: Responder::new(alloc)?,
        })
    }

    /// Serves a connection; each look's view is added to those that are kept, which are of the
    /// oracle's history. What the reader holds of the connection before it is dropped.
    pub(crate) fn serve<S: Source, K: Sink, O: Oracle, C: Clock>(
        &mut self,
        source: &mut S,
        sink: &mut K,
        oracle: &mut O,
        clock: &mut C,
        kept: &mut Kept,
    ) -> Session
        requires { AreOfHistory (O.plans oracle.old) (O.history oracle.old) kept.old }
        ensures serves { Serves (S.left source.old) (S.left source.new)
            (S.faults source.old) (S.faults source.new)
            (setting (K.written sink.old) (K.faults sink.old) (C.ahead clock.old)
            (O.plans oracle.old) (O.history oracle.old) (O.reads oracle.old)
            (O.steady oracle.old) kept.old)
            (setting (K.written sink.new) (K.faults sink.new) (C.ahead clock.new)
            (O.plans oracle.new) (O.history oracle.new) (O.reads oracle.new)
            (O.steady oracle.new) kept.new)
            result.end result.numbers.items result.moments.items }
        ensures lets_go { O.holds oracle.old ≡ false → O.holds oracle.new ≡ false }
    {
        self.reader.clear();
        let mut notes = Notes::none(self.alloc);
        'requests: for place in 1..LAST_PLACE + 1 {
            match self.serve_next(place, &mut notes, source, sink, oracle, clock, kept) {
                Turn::GoesOn => {}
                Turn::Ends(end) => return notes.session(end),
            }
        }
        unreachable!()
    }

    /// Takes the item at a place of its connection and answers it.
    fn serve_next<S: Source, K: Sink, O: Oracle, C: Clock>(
        &mut self,
        place: u16,
        notes: &mut Notes,
        source: &mut S,
        sink: &mut K,
        oracle: &mut O,
        clock: &mut C,
        kept: &mut Kept,
    ) -> Turn
        requires { AreOfHistory (O.plans oracle.old) (O.history oracle.old) kept.old }
        ensures turns { Turns place self.old.reader self.new.reader
            (S.left source.old) (S.left source.new)
            (setting (K.written sink.old) (K.faults sink.old) (C.ahead clock.old)
            (O.plans oracle.old) (O.history oracle.old) (O.reads oracle.old)
            (O.steady oracle.old) kept.old)
            (setting (K.written sink.new) (K.faults sink.new) (C.ahead clock.new)
            (O.plans oracle.new) (O.history oracle.new) (O.reads oracle.new)
            (O.steady oracle.new) kept.new)
            (noted_in notes.old) (noted_in notes.new) result }
        ensures cause { HasTurnCause result (S.faults source.old) (S.faults source.new)
            (K.faults sink.old) (K.faults sink.new) }
        ensures lets_go { O.holds oracle.old ≡ false → O.holds oracle.new ≡ false }
    {
        let item = match take_item(self.alloc, &mut self.reader, source) {
            Ok(item) => item,
            Err(end) => return Turn::Ends(end),
        };
        match reply(
            place,
            &item,
            &mut self.responder,
            notes,
            kept,
            sink,
            oracle,
            clock,
        ) {
            Ok(()) => turn_after(place, &item),
            Err(Unwritten::Cut) => Turn::Ends(End::WriteFault),
            Err(Unwritten::Starved) => Turn::Ends(End::NoMemory),
        }
    }
}

/// Takes the next item of a source, or says how the connection ends without one.
fn take_item<S: Source>(
    alloc: Global,
    reader: &mut RequestReader,
    source: &mut S,
) -> Result<Item, End>
    ensures takes { TakesNext reader.old reader.new (S.left source.old) (S.left source.new)
        result }
    ensures cause { HasNextCause result (S.faults source.old) (S.faults source.new) }
{
    match reader.take(alloc, source) {
        Taken::Request(request) => Ok(Item::Asked(request)),
        Taken::Bad => Ok(Item::Malformed),
        Taken::End => Err(End::Ended),
        Taken::ReadFault => Err(End::ReadFault),
        Taken::NoMemory => Err(End::NoMemory),
    }
}

/// What an item that was answered at a place comes to.
#[tactic(auto, unfolding(http_defs::specs::Requests::is_last, http_serve_defs::specs::Answers::closes_behind))]
fn turn_after(place: u16, item: &Item) -> Turn
    ensures { result ≡ turn_after place item.now }
{
    match item {
        Item::Malformed => Turn::Ends(End::Bad),
        Item::Asked(_) => {
            if closes_behind(item, place == LAST_PLACE) {
                Turn::Ends(End::Closed)
            } else {
                Turn::GoesOn
            }
        }
    }
}
