//! A whole replay, and how it ends.
ghost use Rattle.std.specs.Prelude.{◌≡◌, ◌++◌, IfOk};
ghost use Rattle.std.specs.Arc.{arc_value};
ghost use Rattle.std.specs.Option.{option_map};
ghost use Rattle.std.specs.String.{string_bytes};
ghost use Rattle.exit_status.specs.Codes.{code_of};
ghost use Rattle.hub_replay_defs.specs.Output.{refused_line};
ghost use Rattle.hub_replay.specs.Feeds.{hub_given};
ghost use Rattle.hub_replay.specs.Outcome.{ReplayOutcome, Last, Finishes};
ghost use Rattle.hub_outside.specs.Outside.{stream};

use crate::NoMemory;
use crate::feeds::ScriptHub;
use crate::running::do_all;
use crate::steps::{Ending, Replay};
use exit_status::ExitStatus;
use hub_outside::{OutputFault, Sink, Source, write_all};
use sched_types::Plans;
use std::alloc::Global;
use std::sync::Arc;

/// Replays the script on the input: does its records in order, and writes what they print. It works
/// on the hub of the given timetables and feeds, or, where none are given, on one that has the
/// schedule `plain` and the feeds that the script declares. Gives how it ended: `Done` where the
/// script was read to its end, `Fault` where the input failed, `OutputFault` where the output did,
/// `NoMemory` where memory ran out, and `NotAScript` where the script is refused.
pub fn replay<S: Source, K: Sink>(
    alloc: Global,
    plans: Option<Arc<Plans>>,
    input: &mut S,
    out: &mut K,
) -> ExitStatus
    ensures { ReplayOutcome (hub_given (option_map arc_value plans))
        (stream (S.left input.old) (S.faults input.old))
        (stream (S.left input.new) (S.faults input.new))
        (stream (K.written out.old) (K.faults out.old))
        (stream (K.written out.new) (K.faults out.new))
        (code_of result) }
{
    match ScriptHub::new(alloc, plans) {
        Ok(hub) => replay_on(alloc, hub, input, out),
        Err(_) => ExitStatus::NoMemory,
    }
}

/// Replays the script on a hub.
fn replay_on<S: Source, K: Sink>(
    alloc: Global,
    hub: ScriptHub,
    input: &mut S,
    out: &mut K,
) -> ExitStatus
    ensures { ReplayOutcome hub
        (stream (S.left input.old) (S.faults input.old))
        (stream (S.left input.new) (S.faults input.new))
        (stream (K.written out.old) (K.faults out.old))
        (stream (K.written out.new) (K.faults out.new))
        (code_of result) }
{
    let mut run = Replay::new(alloc, hub);
    let ending = do_all(alloc, &mut run, input, out);
    finish(alloc, ending, &run.said, out)
}

/// Writes what is left to be written at an ending, and gives the status.
fn finish<K: Sink>(alloc: Global, ending: Ending, said: &[u8], out: &mut K) -> ExitStatus
    ensures { Finishes ending (code_of result) said.now (K.written out.old) (K.written out.new)
        (K.faults out.old) (K.faults out.new) }
{
    match ending {
        Ending::Ended => write_last(said, b"", ExitStatus::Done, out),
        Ending::Refused(place) => match refused_text(alloc, place) {
            Ok(text) => write_last(said, text.as_bytes(), ExitStatus::NotAScript, out),
            Err(_) => write_last(said, b"", ExitStatus::NoMemory, out),
        },
        Ending::InputFault => write_last(said, b"hub: input fault\n", ExitStatus::Fault, out),
        Ending::OutputFault => ExitStatus::OutputFault,
        Ending::NoMemory => write_last(said, b"", ExitStatus::NoMemory, out),
    }
}

/// The line of a script that is refused.
fn refused_text(alloc: Global, place: u64) -> Result<String, NoMemory>
    ensures { IfOk result (λ text. string_bytes text ≡ refused_line place) }
{
    format!(in alloc; "hub: script refused at {place}\n")
}

/// Writes what was said and a last line. The status is the given one, unless the output fails.
fn write_last<K: Sink>(said: &[u8], line: &[u8], status: ExitStatus, out: &mut K) -> ExitStatus
    ensures { Last (code_of status) (said.now ++ line.now) (code_of result) (K.written out.old)
        (K.written out.new) (K.faults out.old) (K.faults out.new) }
{
    match write_all(out, said) {
        Ok(()) => match write_all(out, line) {
            Ok(()) => status,
            Err(OutputFault) => ExitStatus::OutputFault,
        },
        Err(OutputFault) => ExitStatus::OutputFault,
    }
}
