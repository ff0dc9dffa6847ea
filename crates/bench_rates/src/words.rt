//! The words that the program takes.

ghost use Rattle.std.specs.Prelude.{◌≤◌, IfSome};
ghost use Rattle.bench_rates.specs.Tasks.{IsMeasurable};

use std::env::Args;
use std::io;
use std::iter::Skip;
use texts::read_number;

/// The most threads.
const MOST_THREADS: u64 = 64;

/// The most looks of a thread, and the most messages, so that each has a stamp of its own.
const MOST_TIMES: u64 = 10_000_000_000;

/// What is timed.
#[derive(Clone, Copy)]
pub enum Way {
    /// Passes look at a hub, and the hub ingests.
    Cell,
    /// Threads look at a view under a lock.
    Mutex,
    /// A hub on one thread is offered the messages.
    Offer,
    /// Nothing.
    Idle,
}

/// What the program is to do.
#[derive(Clone, Copy)]
pub struct Task {
    /// What is timed.
    pub way: Way,
    /// How many threads look.
    pub threads: u32,
    /// How often each of them looks.
    pub looks: u64,
    /// How many messages there are meanwhile.
    pub messages: u64,
}

/// The departures that are to be counted.
#[derive(Drop)]
pub struct Departures {
    /// The path of the configuration; its first schedule is taken.
    pub conf: String,
    /// The instant from which they leave, in seconds since 1970.
    pub start: u64,
    /// For how many seconds.
    pub span: u64,
    /// How often they are counted.
    pub times: u64,
}

/// What the words behind the program's name ask for.
#[derive(Drop)]
pub enum Command {
    /// Looks and messages.
    Rates(Task),
    /// Departures by their stops.
    Departures(Departures),
}

/// The command that the words behind the program's name are; none where they are none.
pub fn read_command(words: io::Result<Args>) -> Option<Command>
    ensures { IfSome result IsMeasurable }
{
    let mut words = words.ok()?.skip(1);
    let first = words.next()?;
    if first.as_str() == "departures" {
        Some(Command::Departures(departures_in(words)?))
    } else {
        Some(Command::Rates(task_in(first, words)?))
    }
}

fn departures_in(words: Skip<Args>) -> Option<Departures>
    ensures { IfSome result (λ asked. (asked.start ≤ 10000000000) × (asked.span ≤ 10000000000)) }
{
    let mut words = words;
    let conf = words.next()?;
    let start = number_in(words.next()?, MOST_TIMES)?;
    let span = number_in(words.next()?, MOST_TIMES)?;
    let times = number_in(words.next()?, MOST_TIMES)?;
    if words.next().is_some() {
        return None;
    }
    Some(Departures {
        conf,
        start,
        span,
        times,
    })
}

fn task_in(first: String, words: Skip<Args>) -> Option<Task>
    ensures { IfSome result (λ task. (1 ≤ task.threads) × (task.threads ≤ 64)) }
{
    let mut words = words;
    let way = way_in(first)?;
    let threads = number_in(words.next()?, MOST_THREADS)?;
    let looks = number_in(words.next()?, MOST_TIMES)?;
    let messages = number_in(words.next()?, MOST_TIMES)?;
    if threads == 0 || words.next().is_some() {
        return None;
    }
    Some(Task {
        way,
        threads: threads as u32,
        looks,
        messages,
    })
}

fn way_in(word: String) -> Option<Way> {
    match word.as_str() {
        "cell" => Some(Way::Cell),
        "mutex" => Some(Way::Mutex),
        "offer" => Some(Way::Offer),
        "none" => Some(Way::Idle),
        _ => None,
    }
}

fn number_in(word: String, most: u64) -> Option<u64>
    ensures { IfSome result (λ number. number ≤ most) }
{
    read_number(word.as_bytes(), 11, 0, most)
}
