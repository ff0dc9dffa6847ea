//! The program `bench_rates`: how fast passes look at a hub, and how fast a hub takes messages in,
//! for scripts to time.
//!
//! `bench_rates cell THREADS LOOKS MESSAGES` opens a hub of one feed with so many passes. Each
//! looks so often, in a thread of its own, while the main thread ingests so many small messages.
//! `bench_rates mutex ..` does the same with a lock round a view, under which each look takes a
//! share of it, and the main thread puts the view anew so often. `bench_rates offer ..` offers the
//! messages to a hub on one thread. `bench_rates none ..` starts threads that do nothing, so that a
//! script can take the start away. Then one line tells how many looks answered and how many
//! messages were accepted, whatever the schedule was.
//!
//! `bench_rates departures CONFIG START SPAN TIMES` makes the index of the configuration's first
//! timetable, and goes so often over the departures at all stops from that instant on, for so many
//! seconds. The line tells how many these were.
//!
//! `words` reads the words, `messages` makes the messages, and `looks`, `intake` and `departures`
//! do what is timed.
#![tactic(auto)]

ghost use Rattle.std.specs.Prelude.{◌≡◌, ◌≤◌, ◌++◌, codes, IfOk};
ghost use Rattle.std.specs.String.{string_bytes};
ghost use Rattle.std.specs.Fmt.{decimal};
ghost use Rattle.bench_rates.specs.Tasks.{IsMeasurable};

mod departures;
mod intake;
mod looks;
mod messages;
mod words;

use hub_outside::StdFiles;
use std::alloc::{AllocError as NoMemory, Global};
use std::process::ExitCode;
use std::rt;
use std::sync::Wait;
use std::thread::Threads;
use words::{Command, Task, Way, read_command};

/// What a run counted.
#[derive(Debug, Drop)]
pub struct Tally {
    /// How many looks answered.
    pub looks: u64,
    /// How many messages were accepted.
    pub accepted: u64,
}

/// Does the task, and tells what came of it.
fn tally_of<R: Threads + Wait + Sync>(rt: &R, alloc: Global, task: &Task) -> Result<Tally, NoMemory>
    requires some { 1 ≤ task.now.threads }
    requires few { task.now.threads ≤ 64 }
{
    match task.way {
        Way::Cell => looks::in_cell(rt, alloc, task),
        Way::Mutex => looks::in_mutex(rt, alloc, task),
        Way::Offer => intake::offered(alloc, task.messages),
        Way::Idle => looks::in_none(rt, alloc, task),
    }
}

/// The line that tells it.
fn line(alloc: Global, looks: u64, accepted: u64) -> Result<String, NoMemory>
    ensures { IfOk result (λ line. string_bytes line ≡ codes "looks " ++ decimal looks
        ++ codes " accepted " ++ decimal accepted ++ codes "\n") }
{
    format!(in alloc; "looks {looks} accepted {accepted}\n")
}

/// Prints the line of a run, if it ended; the exit status.
fn print_line<R: Print>(rt: &R, alloc: Global, tally: Option<Tally>) -> u8 {
    let Some(tally) = tally else {
        return 6;
    };
    let Ok(line) = line(alloc, tally.looks, tally.accepted) else {
        return 6;
    };
    match rt.print(line) {
        Ok(()) => 0,
        Err(_) => 5,
    }
}

/// Does what is asked for; none where memory ran out, or where the timetable can't be loaded.
fn run<R: Threads + Wait + Sync + rt::Files>(
    rt: &R,
    alloc: Global,
    command: &Command,
) -> Option<Tally>
    requires { IsMeasurable command.now }
{
    match command {
        Command::Rates(task) => tally_of(rt, alloc, task).ok(),
        Command::Departures(asked) => {
            departures::counted(alloc, &mut StdFiles::new(rt), asked).ok()
        }
    }
}

fn main(rt: HostRuntime) -> ExitCode {
    let status = match read_command(std::env::args(&rt)) {
        Some(command) => print_line(&rt, rt.alloc(), run(&rt, rt.alloc(), &command)),
        None => match rt.eprintln(
            "usage: bench_rates cell|mutex|offer|none THREADS LOOKS MESSAGES (1 to 64 threads), or \
             bench_rates departures CONFIG START SPAN TIMES",
        ) {
            Ok(()) => 2,
            Err(_) => 2,
        },
    };
    ExitCode::from(status)
}
