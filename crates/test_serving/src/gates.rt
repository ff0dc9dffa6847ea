//! Runs of the small city whose threads a gate holds: that they go on side by side, that readers
//! see what was taken in before they answer, and that the numbers of a reader go by the order in
//! time.

ghost use Rattle.feed_defs.specs.History.{longest_message};
ghost use Rattle.hub_outside.specs.Buffer.{room_of};
ghost use Rattle.feed_port.specs.Memory.{message_faults};
ghost use Rattle.feed_port.specs.Ports.{Answers, GoesOnToTell, HasPortCause};

use crate::runs::{LINES, run_city};
use feed_port::{FeedPort, MemoryPort, PortAnswer};
use hub_outside::{Buf, Gate, GatePoint};
use sample_city::{FIVE, UPDATE, city_doors, city_ports, door, number_at, port, sink};
use std::alloc::Global;
use std::sync::atomic::{AtomicBool, AtomicU64, Ordering};
use std::test::Fail;
use std::time::Duration;
use std::{rt, thread};

/// How many turns of a millisecond a thread is held at a point.
const TURNS: u32 = 20_000;

/// Holds threads until others have come by, up to so many turns. Once a thread was held longer than
/// that, nobody is held any more.
#[derive(Drop)]
pub(crate) struct Patience<C> {
    clock: C,
    over: AtomicBool,
}

impl<C: rt::Clock> Patience<C> {
    pub(crate) fn new(clock: C) -> Patience<C> {
        Patience {
            clock,
            over: AtomicBool::new(false),
        }
    }

    /// Holds the thread until the count is that high.
    pub(crate) fn wait(&self, count: &AtomicU64, least: u64) {
        for _ in 0..TURNS {
            if count.load(Ordering::SeqCst) >= least || self.is_over() {
                return;
            }
            thread::sleep(&self.clock, Duration::from_millis(1));
        }
        self.over.store(true, Ordering::SeqCst);
    }

    /// Whether a thread was held too long.
    pub(crate) fn is_over(&self) -> bool {
        self.over.load(Ordering::SeqCst)
    }
}

/// How often the points were passed at which the readers 0 and 1 have a link, and that behind the
/// messages of the feed 0.
#[derive(Drop)]
struct Points {
    first: AtomicU64,
    second: AtomicU64,
    ingested: AtomicU64,
}

impl Points {
    fn new() -> Points {
        Points {
            first: AtomicU64::new(0),
            second: AtomicU64::new(0),
            ingested: AtomicU64::new(0),
        }
    }

    /// The count of that point, if it is one of the three.
    fn count(&self, at: GatePoint) -> Option<&AtomicU64> {
        match at {
            GatePoint::BeforeAnswer(0) => Some(&self.first),
            GatePoint::BeforeAnswer(1) => Some(&self.second),
            GatePoint::Ingested(0) => Some(&self.ingested),
            _ => None,
        }
    }

    /// How often each was passed.
    fn passed(&self) -> [u64; 3] {
        [
            self.first.load(Ordering::SeqCst),
            self.second.load(Ordering::SeqCst),
            self.ingested.load(Ordering::SeqCst),
        ]
    }
}

/// A gate that holds each of the three points until the two others are passed too.
#[derive(Drop)]
struct Meeting<C> {
    patience: Patience<C>,
    points: Points,
}

impl<C: rt::Clock> Gate for Meeting<C> {
    fn pass(&self, at: GatePoint) {
        if let Some(count) = self.points.count(at) {
            count.fetch_add(1, Ordering::SeqCst);
            self.patience.wait(&self.points.first, 1);
            self.patience.wait(&self.points.second, 1);
            self.patience.wait(&self.points.ingested, 1);
        }
    }
}

#[test]
fn all_work_goes_on_side_by_side(rt: HostRuntime) -> Result<(), Fail> {
    let alloc = rt.alloc();
    let mut ports = city_ports(alloc)?;
    let mut doors = city_doors(alloc)?;
    let mut out = sink(alloc);
    let gate = Meeting {
        patience: Patience::new(&rt),
        points: Points::new(),
    };
    let status = run_city(&rt, alloc, &mut ports, &mut doors, &gate, &mut out)?;
    assert!(rt; !gate.patience.is_over());
    assert_eq!(rt; gate.points.passed(), [1, 1, 1]);
    assert_eq!(rt; status, 0);
    assert_eq!(rt; out.bytes(), LINES.as_bytes());
    Ok(())
}

/// A gate that holds both readers until the messages are in.
#[derive(Drop)]
struct Live<C> {
    patience: Patience<C>,
    points: Points,
}

impl<C: rt::Clock> Gate for Live<C> {
    fn pass(&self, at: GatePoint) {
        if let Some(count) = self.points.count(at) {
            count.fetch_add(1, Ordering::SeqCst);
            self.patience.wait(&self.points.ingested, 1);
        }
    }
}

#[test]
fn readers_see_what_was_taken_in(rt: HostRuntime) -> Result<(), Fail> {
    let alloc = rt.alloc();
    let mut ports = city_ports(alloc)?;
    let mut doors = city_doors(alloc)?;
    let mut out = sink(alloc);
    let gate = Live {
        patience: Patience::new(&rt),
        points: Points::new(),
    };
    let status = run_city(&rt, alloc, &mut ports, &mut doors, &gate, &mut out)?;
    assert!(rt; !gate.patience.is_over());
    assert_eq!(rt; gate.points.passed(), [1, 1, 1]);
    assert_eq!(rt; status, 0);
    assert_eq!(rt; out.bytes(), LINES.as_bytes());
    for door in &doors {
        assert_eq!(rt; number_at(door, 0), Some(2));
    }
    Ok(())
}

/// A gate that holds the second link of the reader 0 until the messages of the feed 0 are in.
#[derive(Drop)]
struct Between<C> {
    patience: Patience<C>,
    begun: AtomicU64,
    answered: AtomicU64,
    ingested: AtomicU64,
}

impl<C: rt::Clock> Gate for Between<C> {
    fn pass(&self, at: GatePoint) {
        match at {
            GatePoint::BeforeAnswer(0) => {
                let before = self.begun.fetch_add(1, Ordering::SeqCst);
                self.patience
                    .wait(&self.ingested, if before == 0 { 0 } else { 1 });
            }
            GatePoint::Answered(0) => {
                self.answered.fetch_add(1, Ordering::SeqCst);
            }
            GatePoint::Ingested(0) => {
                self.ingested.fetch_add(1, Ordering::SeqCst);
            }
            _ => {}
        }
    }
}

/// A port that hands in nothing before the reader 0 has answered its first link.
#[derive(Drop)]
struct Later<'a, C> {
    inner: MemoryPort,
    gate: &'a Between<C>,
}

impl<'a, C: rt::Clock> FeedPort for Later<'a, C> {
    ghost use Rattle.std.specs.Prelude.{None};
    ghost use Rattle.feed_port.specs.Memory.{message_faults};

    ghost ahead = { λ _. None };

    ghost faults = { λ port. message_faults port.inner };

    fn next(&mut self, into: &mut Buf) -> PortAnswer {
        self.gate.patience.wait(&self.gate.answered, 1);
        self.inner.next(into)
    }
}

/// The ports of that gate: a message and then the update for one feed, and nothing for the other.
fn later_ports<'a, C: rt::Clock>(
    alloc: Global,
    gate: &'a Between<C>,
) -> Result<[Later<'a, C>; 2], Fail> {
    let first = port(alloc, &[&FIVE, &UPDATE], &[])?;
    let second = port(alloc, &[], &[])?;
    Ok([
        Later { inner: first, gate },
        Later {
            inner: second,
            gate,
        },
    ])
}

#[test]
fn numbers_go_by_the_order_in_time(rt: HostRuntime) -> Result<(), Fail> {
    let alloc = rt.alloc();
    let gate = Between {
        patience: Patience::new(&rt),
        begun: AtomicU64::new(0),
        answered: AtomicU64::new(0),
        ingested: AtomicU64::new(0),
    };
    let mut ports = later_ports(alloc, &gate)?;
    let first = door(alloc, 2, &[])?;
    let second = door(alloc, 0, &[])?;
    let mut doors = [first, second];
    let mut out = sink(alloc);
    let status = run_city(&rt, alloc, &mut ports, &mut doors, &gate, &mut out)?;
    assert!(rt; !gate.patience.is_over());
    assert_eq!(rt; status, 0);
    assert_eq!(rt; number_at(&doors[0], 0), Some(0));
    assert_eq!(rt; number_at(&doors[0], 1), Some(2));
    Ok(())
}
