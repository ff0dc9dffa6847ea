//! The response to one item.
ghost use Rattle.std.specs.Prelude.{◌≡◌, ◌≤◌, false, length, drop, IfOk};
ghost use Rattle.text_defs.specs.Moments.{last_moment};
ghost use Rattle.board_defs.specs.Views.{folds_of};
ghost use Rattle.delta_defs.specs.Kept.{view_of};
ghost use Rattle.delta_defs.specs.OneHistory.{AreOfOneHistory};
ghost use Rattle.http_serve_defs.specs.Answers.{answer};
ghost use Rattle.http_serve.specs.Setting.{setting};
ghost use Rattle.http_serve.specs.Views.{KeepsLook, AreOfHistory};
ghost use Rattle.http_serve.specs.Notes.{noted_in};
ghost use Rattle.http_serve.specs.Turns.{Replies};

use crate::NoMemory;
use crate::notes::Notes;
use crate::responses::Responder;
use board_parts::{HubView, Oracle};
use delta_out::Kept;
use http_defs::Item;
use hub_outside::{Clock, Sink, write_all};

/// The place of a connection's last request, counted from 1.
pub(crate) const LAST_PLACE: u16 = 1000;

/// Why a response was not written whole.
pub(crate) enum Unwritten {
    /// The sink failed.
    Cut,
    /// Memory ran out before its first byte.
    Starved,
}

/// Answers the item at a place of its connection: a look, a reading of the clock, and then the
/// response, which is made whole before it is written, and noted once it is. What all feeds said at
/// the look is kept first. The view itself is let go before the first byte is written, so that a
/// client that reads slowly, or never, keeps none in memory. The views that are kept are of the
/// oracle's history.
pub(crate) fn reply<K: Sink, O: Oracle, C: Clock>(
    place: u16,
    item: &Item,
    responder: &mut Responder,
    notes: &mut Notes,
    kept: &mut Kept,
    sink: &mut K,
    oracle: &mut O,
    clock: &mut C,
) -> Result<(), Unwritten>
    requires { AreOfHistory (O.plans oracle.old) (O.history oracle.old) kept.old }
    ensures replies { Replies place
        (setting (K.written sink.old) (K.faults sink.old) (C.ahead clock.old)
        (O.plans oracle.old) (O.history oracle.old) (O.reads oracle.old)
        (O.steady oracle.old) kept.old)
        (setting (K.written sink.new) (K.faults sink.new) (C.ahead clock.new)
        (O.plans oracle.new) (O.history oracle.new) (O.reads oracle.new)
        (O.steady oracle.new) kept.new)
        item.now (noted_in notes.old) (noted_in notes.new) result }
    ensures lets_go { O.holds oracle.old ≡ false → O.holds oracle.new ≡ false }
{
    let Ok(()) = notes.make_room() else {
        return Err(Unwritten::Starved);
    };
    let Ok(number) = oracle.look() else {
        return Err(Unwritten::Starved);
    };
    let moment = clock.now();
    let thousandth = place == LAST_PLACE;
    let made = respond(
        responder,
        kept,
        oracle.view(),
        item,
        thousandth,
        number,
        moment,
    );
    oracle.release();
    let Ok(start) = made else {
        return Err(Unwritten::Starved);
    };
    let Ok(()) = write_all(sink, responder.bytes_from(start)) else {
        return Err(Unwritten::Cut);
    };
    notes.note(number, moment);
    Ok(())
}

/// Keeps what all feeds said at a look, and makes the response of the views that are kept then; or
/// runs out of memory for either.
fn respond(
    responder: &mut Responder,
    kept: &mut Kept,
    view: &HubView,
    item: &Item,
    thousandth: bool,
    number: u64,
    moment: u64,
) -> Result<usize, NoMemory>
    requires moment { moment ≤ last_moment }
    requires one_history { AreOfOneHistory kept.old view.now }
    ensures keeps { KeepsLook result (view_of view.now) kept.old kept.new }
    ensures begins_within { IfOk result (λ start. start ≤ length responder.new.bytes.items) }
    ensures made { IfOk result (λ start. drop start responder.new.bytes.items
        ≡ answer view.now.plans item.now thousandth moment number (folds_of view.now) kept.new) }
{
    let Ok(()) = kept.put(view) else {
        return Err(NoMemory);
    };
    responder.respond(view, kept, item, thousandth, number, moment)
}
