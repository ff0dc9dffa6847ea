//! Four ingesters beside four readers: each response is the one computed anew at its number.

ghost use Rattle.std.specs.Prelude.{◌≡◌, length};
ghost use Rattle.feed_defs.specs.History.{longest_message};
ghost use Rattle.hub_outside.specs.Buffer.{room_of};
ghost use Rattle.feed_port.specs.Memory.{message_faults};
ghost use Rattle.feed_port.specs.Ports.{Answers, GoesOnToTell, HasPortCause};

use crate::gates::Patience;
use board_parts::Oracle;
use feed_port::{FeedPort, MemoryPort, PortAnswer};
use http_serve::serve_bytes;
use hub_outside::{Buf, Gate, GatePoint, MemoryDoor, MemorySink, NoMemory};
use hub_serve::run_serve;
use hub_state::ReplayHub;
use sample_city::{clock, four_feeds, link, sink};
use std::alloc::Global;
use std::rt;
use std::sync::Wait;
use std::sync::atomic::{AtomicU64, Ordering};
use std::test::Fail;
use std::thread::Threads;
use texts::read_number;

/// The moment of all clocks: 08:10 on 30 March 2025 in the city. The run of the next day stays on
/// the boards of a day from there on, however late these messages make it.
const MOMENT: u64 = 1_743_315_000;

/// How many messages each feed offers. Every fifth is refused: in turns it is cut short, or no
/// newer than the one before.
const OFFERED: u64 = 500;

/// How many of them are accepted.
const ACCEPTED: u64 = 400;

/// How many links each reader serves.
const LINKS: u64 = 100;

/// So many messages of each feed go beside two links of each reader.
const BATCH: u64 = 10;

/// The stamp of a feed, and the delay of its trip in seconds, is above this by how many messages of
/// the feed were accepted.
const BASE: u64 = 128;

/// A delay of which no message is accepted.
const REFUSED: u64 = 9999;

/// What is written where all goes well.
const LINES: &str =
    "feed a accepted 400 refused 100 starved 0 toolong 0 last 528\nfeed b accepted 400 refused 100 starved 0 toolong 0 last 528\nfeed c accepted 400 refused 100 starved 0 toolong 0 last 528\nfeed d accepted 400 refused 100 starved 0 toolong 0 last 528\nreaders 4 connections 400 responses 400 starved 0\n";

/// A feed, and the trip and the day of the run of which it tells.
#[derive(Clone, Copy)]
struct Teller {
    feed: u32,
    name: &'static [u8],
    trip: &'static [u8],
    date: &'static [u8],
}

const TELLERS: [Teller; 4] = [
    Teller {
        feed: 0,
        name: b"a",
        trip: b"T1",
        date: b"20250330",
    },
    Teller {
        feed: 1,
        name: b"b",
        trip: b"T2",
        date: b"20250330",
    },
    Teller {
        feed: 2,
        name: b"c",
        trip: b"N1",
        date: b"20250330",
    },
    Teller {
        feed: 3,
        name: b"d",
        trip: b"T1",
        date: b"20250331",
    },
];

/// A number below 16384 in two bytes.
fn two_bytes(number: u64) -> [u8; 2] {
    [(number % 128) as u8 + 128, (number / 128 % 128) as u8]
}

/// A message of that stamp: the run leaves its first stop late by that delay.
fn message(alloc: Global, teller: &Teller, stamp: u64, delay: u64) -> Result<Vec<u8>, NoMemory> {
    let mut bytes = Vec::new(alloc);
    bytes.extend_from_slice(b"\x0a\x0a\x0a\x032.0\x10\x00\x18".as_slice())?;
    bytes.extend_from_slice(&two_bytes(stamp))?;
    bytes.extend_from_slice(b"\x12\x1e\x0a\x01u\x1a\x19\x0a\x0e\x0a\x02".as_slice())?;
    bytes.extend_from_slice(teller.trip)?;
    bytes.extend_from_slice(b"\x1a\x08".as_slice())?;
    bytes.extend_from_slice(teller.date)?;
    bytes.extend_from_slice(b"\x12\x07\x08\x01\x1a\x03\x08".as_slice())?;
    bytes.extend_from_slice(&two_bytes(delay))?;
    Ok(bytes)
}

/// The message of a feed that is accepted as its number `nth`, from 1 on.
fn accepted(alloc: Global, teller: &Teller, nth: u64) -> Result<Vec<u8>, NoMemory> {
    let number = BASE.saturating_add(nth);
    message(alloc, teller, number, number)
}

/// The bytes that a feed offers at that place, from 1 on.
fn offered(alloc: Global, teller: &Teller, place: u64) -> Result<Vec<u8>, NoMemory> {
    let nth = place.saturating_sub(place / 5);
    let stamp = BASE.saturating_add(nth);
    if place % 10 == 0 {
        return message(alloc, teller, stamp, REFUSED);
    }
    if place % 5 == 0 {
        let mut bytes = message(alloc, teller, stamp.saturating_add(1), REFUSED)?;
        let _ = bytes.pop();
        return Ok(bytes);
    }
    accepted(alloc, teller, nth)
}

/// Keeps ingesters and readers side by side: neither goes on by more than about two batches before
/// the others.
#[derive(Drop)]
struct Pace<C> {
    patience: Patience<C>,
    asked: AtomicU64,
    answered: AtomicU64,
    begun: [AtomicU64; 4],
}

impl<C: rt::Clock> Pace<C> {
    fn new(clock: C) -> Pace<C> {
        Pace {
            patience: Patience::new(clock),
            asked: AtomicU64::new(0),
            answered: AtomicU64::new(0),
            begun: [
                AtomicU64::new(0),
                AtomicU64::new(0),
                AtomicU64::new(0),
                AtomicU64::new(0),
            ],
        }
    }
}

impl<C: rt::Clock> Gate for Pace<C> {
    fn pass(&self, at: GatePoint) {
        match at {
            GatePoint::BeforeAnswer(reader) => {
                if let Some(begun) = self.begun.get(reader as usize) {
                    let before = begun.fetch_add(1, Ordering::SeqCst);
                    self.patience
                        .wait(&self.asked, (before / 2).saturating_mul(4 * BATCH));
                }
            }
            GatePoint::Answered(_) => {
                self.answered.fetch_add(1, Ordering::SeqCst);
            }
            GatePoint::Ingested(_) => {}
        }
    }
}

/// A port that keeps that pace.
#[derive(Drop)]
struct Paced<'a, C> {
    inner: MemoryPort,
    asks: u64,
    pace: &'a Pace<C>,
}

impl<'a, C: rt::Clock> FeedPort for Paced<'a, C> {
    ghost use Rattle.std.specs.Prelude.{None};
    ghost use Rattle.feed_port.specs.Memory.{message_faults};

    ghost ahead = { λ _. None };

    ghost faults = { λ port. message_faults port.inner };

    fn next(&mut self, into: &mut Buf) -> PortAnswer {
        let batch = self.asks / BATCH;
        self.asks = self.asks.saturating_add(1);
        self.pace.patience.wait(
            &self.pace.answered,
            batch.saturating_sub(1).saturating_mul(8),
        );
        self.pace.asked.fetch_add(1, Ordering::SeqCst);
        self.inner.next(into)
    }
}

/// The port of a feed.
fn paced_port<'a, C: rt::Clock>(
    alloc: Global,
    teller: &Teller,
    pace: &'a Pace<C>,
) -> Result<Paced<'a, C>, NoMemory> {
    let mut messages = Vec::new(alloc);
    for place in 1..OFFERED + 1 {
        messages.push(offered(alloc, teller, place)?)?;
    }
    Ok(Paced {
        inner: MemoryPort::new(messages, Vec::new(alloc)),
        asks: 0,
        pace,
    })
}

/// What the links ask for, in turns.
#[derive(Clone, Copy)]
enum Asked {
    Status,
    Board,
}

impl Asked {
    /// What the link of a place, from 0 on, asks for.
    fn at(place: usize) -> Asked {
        if place % 2 == 0 {
            Asked::Status
        } else {
            Asked::Board
        }
    }

    fn request(self) -> &'static str {
        match self {
            Asked::Status => "GET /status HTTP/1.1\r\n\r\n",
            Asked::Board => "GET /board/city/ST?span=86400 HTTP/1.1\r\n\r\n",
        }
    }
}

/// A door of so many links.
fn door(alloc: Global) -> Result<MemoryDoor, NoMemory> {
    let mut links = Vec::new(alloc);
    for place in 0..LINKS {
        let asked = Asked::at(place as usize);
        links.push(link(alloc, asked.request().as_bytes())?)?;
    }
    MemoryDoor::new(alloc, links, Vec::new(alloc))
}

/// The cell of that column, from 0 on, of a row.
fn cell(row: &[u8], column: usize) -> Option<&[u8]> {
    row.split(|byte| *byte == b'\t').nth(column)
}

/// Whether a row has that cell.
fn has(row: &[u8], column: usize, text: &[u8]) -> bool {
    match cell(row, column) {
        Some(found) => found == text,
        None => false,
    }
}

/// Of how many messages of a feed a row tells, where it is one that does.
fn count_in(row: &[u8], asked: Asked, teller: &Teller) -> Option<u64> {
    match asked {
        Asked::Status if has(row, 0, teller.name) => read_number(cell(row, 1)?, 19, 0, ACCEPTED),
        Asked::Board if has(row, 6, teller.trip) && has(row, 7, teller.date) => {
            if has(row, 2, b"-") {
                return Some(0);
            }
            read_number(cell(row, 2)?, 19, BASE, BASE + ACCEPTED)?.checked_sub(BASE)
        }
        _ => None,
    }
}

/// The same of a response: what its first such row tells.
fn told_of(response: &[u8], asked: Asked, teller: &Teller) -> Option<u64> {
    for row in response.split(|byte| *byte == b'\n') {
        match count_in(row, asked, teller) {
            Some(count) => return Some(count),
            None => {}
        }
    }
    None
}

/// How many messages of a feed the hub has accepted, of those that feeds offer here.
fn accepted_of(hub: &ReplayHub, teller: &Teller) -> u64 {
    match hub.view().feeds().get(teller.feed as usize) {
        Some(feed) => feed.stamp().saturating_sub(BASE),
        None => 0,
    }
}

/// Offers a message of a feed, and says whether it was accepted.
fn offer(hub: &mut ReplayHub, teller: &Teller, bytes: &[u8]) -> bool {
    if teller.feed as usize >= hub.view().plans().feeds().len() {
        return false;
    }
    hub.offer(teller.feed, bytes).is_ok()
}

/// Lets a hub accept the messages of a feed up to that number; whether it has no more of them, and
/// accepts each.
fn offer_up_to(
    alloc: Global,
    hub: &mut ReplayHub,
    teller: &Teller,
    count: u64,
) -> Result<bool, NoMemory> {
    let before = accepted_of(hub, teller);
    if count < before {
        return Ok(false);
    }
    for nth in before..count {
        let bytes = accepted(alloc, teller, nth.saturating_add(1))?;
        if !offer(hub, teller, &bytes) {
            return Ok(false);
        }
    }
    Ok(true)
}

/// Lets a hub accept all messages of which a response tells; whether it has no more than these, and
/// accepts each.
fn follow(
    alloc: Global,
    hub: &mut ReplayHub,
    response: &[u8],
    asked: Asked,
) -> Result<bool, NoMemory> {
    for teller in &TELLERS {
        let Some(count) = told_of(response, asked, teller) else {
            return Ok(false);
        };
        if !offer_up_to(alloc, hub, teller, count)? {
            return Ok(false);
        }
    }
    Ok(true)
}

/// Whether a response is what the hub answers to the same request.
fn is_answer(
    alloc: Global,
    hub: &mut ReplayHub,
    response: &[u8],
    asked: Asked,
) -> Result<bool, NoMemory> {
    let anew = serve_bytes(alloc, hub, MOMENT, asked.request().as_bytes())?;
    Ok(anew.written.bytes() == response)
}

/// Whether the responses of a door are those of one history that grows, each computed anew; then
/// how many of them were answered behind the first message and before the last.
fn explained(alloc: Global, door: &MemoryDoor) -> Result<Option<u64>, NoMemory> {
    let mut hub = ReplayHub::new(alloc, four_feeds(alloc)?)?;
    let mut between: u64 = 0;
    for (place, link) in door.links_done().iter().enumerate() {
        let asked = Asked::at(place);
        let response = link.output.bytes();
        if !follow(alloc, &mut hub, response, asked)? {
            return Ok(None);
        }
        if !is_answer(alloc, &mut hub, response, asked)? {
            return Ok(None);
        }
        let number = hub.view().entries();
        if 0 < number && number < 4 * ACCEPTED {
            between = between.saturating_add(1);
        }
    }
    Ok(Some(between))
}

/// The ports of all feeds.
fn ports<'a, C: rt::Clock>(
    alloc: Global,
    pace: &'a Pace<C>,
) -> Result<[Paced<'a, C>; 4], NoMemory> {
    let [a, b, c, d] = TELLERS;
    let first = paced_port(alloc, &a, pace)?;
    let second = paced_port(alloc, &b, pace)?;
    let third = paced_port(alloc, &c, pace)?;
    let fourth = paced_port(alloc, &d, pace)?;
    Ok([first, second, third, fourth])
}

/// Four such doors.
fn doors(alloc: Global) -> Result<[MemoryDoor; 4], NoMemory> {
    let first = door(alloc)?;
    let second = door(alloc)?;
    let third = door(alloc)?;
    let fourth = door(alloc)?;
    Ok([first, second, third, fourth])
}

/// Runs the city with four ports and four doors at that pace, and answers the status.
fn run_four<R: Threads + Wait + rt::Clock + Sync>(
    rt: &R,
    alloc: Global,
    pace: &Pace<&R>,
    doors: &mut [MemoryDoor],
    out: &mut MemorySink,
) -> Result<u8, NoMemory>
    requires { length doors.old ≡ 4 }
{
    let mut ports = ports(alloc, pace)?;
    let clocks = vec![in alloc;
        clock(alloc, MOMENT)?,
        clock(alloc, MOMENT)?,
        clock(alloc, MOMENT)?,
        clock(alloc, MOMENT)?,
    ]?;
    let plans = four_feeds(alloc)?;
    Ok(run_serve(rt, alloc, plans, &mut ports, doors, clocks, pace, out))
}

#[test]
fn responses_beside_ingesters_are_computed_anew(rt: HostRuntime) -> Result<(), Fail> {
    let alloc = rt.alloc();
    let pace = Pace::new(&rt);
    let mut doors = doors(alloc)?;
    let mut out = sink(alloc);
    let status = run_four(&rt, alloc, &pace, &mut doors, &mut out)?;
    assert!(rt; !pace.patience.is_over());
    assert_eq!(rt; status, 0);
    assert_eq!(rt; out.bytes(), LINES.as_bytes());
    for door in &doors {
        assert_eq!(rt; door.links_done().len(), LINKS as usize);
        let Some(between) = explained(alloc, door)? else {
            return Err(Fail::from(NoMemory));
        };
        assert!(rt; between >= LINKS / 2);
    }
    Ok(())
}
