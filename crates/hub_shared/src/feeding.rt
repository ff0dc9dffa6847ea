//! Ingesting all that a port hands in.

ghost use Rattle.std.specs.Prelude.{◌≡◌, ◌+◌, ◌<◌, ◌≤◌, List, length};
ghost use Rattle.feed_defs.specs.History.{longest_message};
ghost use Rattle.hub_outside.specs.Buffer.{room_of};
ghost use Rattle.hub_core.specs.Answers.{cause_of};
ghost use Rattle.hub_shared.specs.Feeding.{Given, Sorts, SortsMore, Asks, Ingests, counted, most_answers, tally_of, total};
ghost use Rattle.hub_shared.specs.Seats.{SeatSeen};
ghost use Rattle.hub_shared.specs.declared.report.PortEnd.TheVariants.{NoMemory};

use crate::hub::Hub;
use crate::ingesting::ingest;
use crate::report::{IngestReport, PortEnd, PortReport, Tally};
use crate::seat::FeedSeat;
use feed_port::{FeedPort, LONGEST_MESSAGE, PortAnswer};
use hub_core::Refusal;
use hub_outside::Buf;
use std::alloc::Global;
use std::sync::Wait;
use std::thread::Threads;

/// The most messages that one call asks a port for.
const MOST_ANSWERS: u64 = 1_000_000_000_000;

/// Brings in what the port hands in, message after message in their order, for the seat's feed,
/// until the port has none left or fails, or has handed in 1,000,000,000,000. A message that is
/// refused, or for which there is no memory, is counted and left, and the port hears why. Memory
/// for the longest message is taken before the port is asked for the first, and none for those that
/// follow. It may wait as [`ingest`](crate::ingest) does.
pub fn ingest_port<R: Threads + Wait + Sync, P: FeedPort>(
    rt: &R,
    alloc: Global,
    hub: &Hub,
    seat: &mut FeedSeat,
    port: &mut P,
) -> PortReport
    requires { seat.old.ties ≡ hub.now }
    ensures ingests { Ingests seat.old seat.new (P.ahead port.old) (P.ahead port.new)
        (P.faults port.old) (P.faults port.new)
        (tally_of result.accepted result.refused result.starved result.too_long) result.end }
    ensures unasked { result.end ≡ NoMemory → port.new ≡ port.old }
    ensures kept { result.end ≡ NoMemory → seat.new ≡ seat.old }
{
    let mut buffer = Buf::new(alloc);
    if buffer.reserve(LONGEST_MESSAGE).is_err() {
        return report(Tally::NONE, PortEnd::NoMemory);
    }
    let mut tally = Tally::NONE;
    let end = ask_all(rt, alloc, hub, seat, port, &mut buffer, &mut tally);
    report(tally, end)
}

/// The same with a seat that is given, and given back with the report.
pub fn ingest_all<R: Threads + Wait + Sync, P: FeedPort>(
    rt: &R,
    alloc: Global,
    hub: &Hub,
    seat: FeedSeat,
    port: &mut P,
) -> IngestReport
    requires { seat.ties ≡ hub.now }
    ensures ingests { Ingests seat result.seat (P.ahead port.old) (P.ahead port.new)
        (P.faults port.old) (P.faults port.new)
        (tally_of result.accepted result.refused result.starved result.too_long) result.end }
    ensures unasked { result.end ≡ NoMemory → port.new ≡ port.old }
    ensures kept { result.end ≡ NoMemory → result.seat ≡ seat }
{
    let mut seat = seat;
    let report = ingest_port(rt, alloc, hub, &mut seat, port);
    IngestReport {
        seat,
        accepted: report.accepted,
        refused: report.refused,
        starved: report.starved,
        too_long: report.too_long,
        end: report.end,
    }
}

/// The report of such numbers.
fn report(tally: Tally, end: PortEnd) -> PortReport
    ensures tally { tally_of result.accepted result.refused result.starved result.too_long ≡ tally }
    ensures end { result.end ≡ end }
{
    PortReport {
        accepted: tally.accepted,
        refused: tally.refused,
        starved: tally.starved,
        too_long: tally.too_long,
        end,
    }
}

/// Asks the port for one message after another, and brings in what it hands in.
fn ask_all<R: Threads + Wait + Sync, P: FeedPort>(
    rt: &R,
    alloc: Global,
    hub: &Hub,
    seat: &mut FeedSeat,
    port: &mut P,
    buffer: &mut Buf,
    tally: &mut Tally,
) -> PortEnd
    requires tie { seat.old.ties ≡ hub.now }
    requires room { longest_message ≤ room_of buffer.old }
    requires nothing { tally.old ≡ tally_of 0 0 0 0 }
    ensures ingests { Ingests seat.old seat.new (P.ahead port.old) (P.ahead port.new)
        (P.faults port.old) (P.faults port.new) tally.new result }
    ensures asked { (result ≡ NoMemory) → ⊥ }
{
    for _ in 0..MOST_ANSWERS {
        match ask(rt, alloc, hub, seat, port, buffer, tally) {
            Some(end) => return end,
            None => {}
        }
    }
    PortEnd::Spent
}

/// Asks the port once, and brings in what it hands in; or says why nothing more comes.
fn ask<R: Threads + Wait + Sync, P: FeedPort>(
    rt: &R,
    alloc: Global,
    hub: &Hub,
    seat: &mut FeedSeat,
    port: &mut P,
    buffer: &mut Buf,
    tally: &mut Tally,
) -> Option<PortEnd>
    requires tie { seat.old.ties ≡ hub.now }
    requires room { longest_message ≤ room_of buffer.old }
    requires few { total tally.old < most_answers }
    ensures tie { seat.new.ties ≡ seat.old.ties }
    ensures room { longest_message ≤ room_of buffer.new }
    ensures asked { Asks seat.old seat.new (P.ahead port.old) (P.ahead port.new)
        (P.faults port.old) (P.faults port.new) tally.old tally.new result }
{
    match port.next(buffer) {
        PortAnswer::Message => {
            judge(rt, alloc, hub, seat, port, buffer.as_slice(), tally);
            None
        }
        PortAnswer::TooLong(_) => {
            tally.too_long += 1;
            None
        }
        PortAnswer::End => Some(PortEnd::Ended),
        PortAnswer::Failed => Some(PortEnd::PortFault),
    }
}

/// Ingests a message that a port handed in, and counts what became of it. The port hears why it was
/// refused.
fn judge<R: Threads + Wait + Sync, P: FeedPort>(
    rt: &R,
    alloc: Global,
    hub: &Hub,
    seat: &mut FeedSeat,
    port: &mut P,
    bytes: &[u8],
    tally: &mut Tally,
)
    requires tie { seat.old.ties ≡ hub.now }
    requires fit { length bytes.now ≤ longest_message }
    requires few { total tally.old < most_answers }
    ensures tie { seat.new.ties ≡ seat.old.ties }
    ensures judged { (first : SeatSeen) (given : List Given) → Sorts first seat.old given tally.old
        → SortsMore first seat.new given bytes.now tally.new }
    ensures counted { total tally.new ≡ total tally.old + 1 }
    ensures ahead { P.ahead port.new ≡ P.ahead port.old }
    ensures faults { P.faults port.new ≡ P.faults port.old }
{
    match ingest(rt, alloc, hub, seat, bytes) {
        Ok(_) => tally.accepted += 1,
        Err(refusal) => {
            count(&refusal, tally);
            port.hear(&refusal);
        }
    }
}

/// Counts a message that was refused.
fn count(refusal: &Refusal, tally: &mut Tally)
    requires few { total tally.old < most_answers }
    ensures { tally.new ≡ counted (cause_of refusal.now) tally.old }
{
    match refusal {
        Refusal::NoMemory => tally.starved += 1,
        Refusal::TooLong { .. }
        | Refusal::Malformed { .. }
        | Refusal::Version(_)
        | Refusal::BadStamp { .. }
        | Refusal::Stale { .. } => tally.refused += 1,
    }
}
