//! One step of a replay: a record, or more of the input.
ghost use Rattle.std.specs.Prelude.{◌≡◌, ◌≤◌, ◌<◌, ◌+◌, length, ℕ, List, [], ◌++◌, OnOk, OnErr, None, Err, true};
ghost use Rattle.feed_defs.specs.History.Refusal.{TooLong};
ghost use Rattle.http_serve_defs.specs.Connections.{Served};
ghost use Rattle.hub_replay_defs.specs.Record.{turn, waits, reply_line, serving};
ghost use Rattle.hub_replay_defs.specs.Output.{longest_script};
ghost use Rattle.hub_outside.specs.Writing.{WritesAll, HasWritingCause};
ghost use Rattle.script_lines.specs.Window.{HasRefillCause};
ghost use Rattle.hub_replay.specs.Records.{long_turn, Says};
ghost use Rattle.hub_replay.specs.Steps.{at, at_first, place_sum, Advances, HasCause, Skips, Flushes, RefusesLong};

use crate::NoMemory;
use crate::feeds::ScriptHub;
use crate::records::{Step, byte_at, do_record, say};
use hub_outside::{OutputFault, Sink, Source, write_all};
use script_lines::{Refill, Window, too_long_line};
use std::alloc::Global;

/// So many bytes are written at once where more wait.
const MOST_WAITING: usize = 65_536;

/// A replay between two records.
#[derive(Drop)]
pub(crate) struct Replay {
    /// The bytes in hand, from the record in front on.
    pub(crate) window: Window,
    /// The hub that the records before it left.
    pub(crate) hub: ScriptHub,
    /// What they printed and the output has not got yet.
    pub(crate) said: Vec<u8>,
    /// The offset of the record in front.
    pub(crate) place: u64,
}

/// How a replay ends.
pub(crate) enum Ending {
    /// By its last record.
    Ended,
    /// At that place, where no record stands.
    Refused(u64),
    /// The input failed.
    InputFault,
    /// The output failed.
    OutputFault,
    /// Memory ran out.
    NoMemory,
}

impl Replay {
    /// Before the first record of a script on that hub. It takes no memory.
    pub(crate) fn new(alloc: Global, hub: ScriptHub) -> Replay
        ensures { at result ≡ at_first hub }
    {
        Replay {
            window: Window::new(alloc),
            hub,
            said: Vec::new(alloc),
            place: 0,
        }
    }
}

/// Does the record in front, or reads on where it isn't whole. What was said goes out before more
/// is read.
pub(crate) fn advance<S: Source, K: Sink>(
    alloc: Global,
    run: &mut Replay,
    input: &mut S,
    out: &mut K,
) -> Option<Ending>
    requires { place_sum (at run.old) ≤ longest_script }
    ensures step { Advances result (at run.old) (at run.new) (S.left input.old) (S.left input.new)
        (K.written out.old) (K.written out.new) }
    ensures cause { HasCause result (S.faults input.old) (S.faults input.new) (K.faults out.old)
        (K.faults out.new) }
{
    let before = run.said.len();
    match do_record(alloc, &mut run.hub, run.window.held(), &mut run.said) {
        Step::Whole(size) => {
            run.window.pass(size);
            run.place += size as u64;
            match flush_long(&mut run.said, out) {
                Ok(()) => None,
                Err(OutputFault) => Some(Ending::OutputFault),
            }
        }
        Step::Ends => Some(Ending::Ended),
        Step::Short => fetch(run, input, out),
        Step::Long { end, size } => pass_message(alloc, run, end, size, input, out),
        Step::Refused => Some(Ending::Refused(run.place)),
        Step::NoMemory => {
            run.said.truncate(before);
            Some(Ending::NoMemory)
        }
    }
}

/// Writes what was said, once much of it waits.
fn flush_long<K: Sink>(said: &mut Vec<u8>, out: &mut K) -> Result<(), OutputFault>
    ensures bytes { Flushes result said.old.items said.new.items (K.written out.old)
        (K.written out.new) }
    ensures cause { HasWritingCause result (K.faults out.old) (K.faults out.new) }
{
    if said.len() < MOST_WAITING {
        return Ok(());
    }
    flush(said, out)
}

/// Writes what was said.
fn flush<K: Sink>(said: &mut Vec<u8>, out: &mut K) -> Result<(), OutputFault>
    ensures bytes { WritesAll result (K.written out.old) (K.written out.new) said.old.items }
    ensures emptied { OnOk result (said.new.items ≡ []) }
    ensures cause { HasWritingCause result (K.faults out.old) (K.faults out.new) }
{
    write_all(out, said)?;
    said.clear();
    Ok(())
}

/// Writes what was said and reads on, where no whole record is in hand.
fn fetch<S: Source, K: Sink>(run: &mut Replay, input: &mut S, out: &mut K) -> Option<Ending>
    requires record { (later : List Served)
        → turn (serving later run.old.hub) run.old.window.held ≡ None }
    requires waits { (later : List Served)
        → waits (serving later run.old.hub) run.old.window.held ≡ true }
    ensures step { Advances result (at run.old) (at run.new) (S.left input.old) (S.left input.new)
        (K.written out.old) (K.written out.new) }
    ensures cause { HasCause result (S.faults input.old) (S.faults input.new) (K.faults out.old)
        (K.faults out.new) }
{
    match flush(&mut run.said, out) {
        Ok(()) => match run.window.read_more(input) {
            Refill::More => None,
            Refill::End => Some(Ending::Refused(run.place)),
            Refill::Failed => Some(Ending::InputFault),
            Refill::NoMemory => Some(Ending::NoMemory),
        },
        Err(OutputFault) => Some(Ending::OutputFault),
    }
}

/// Writes what was said and reads past a message that is too long to be looked at.
fn pass_message<S: Source, K: Sink>(
    alloc: Global,
    run: &mut Replay,
    end: usize,
    size: u32,
    input: &mut S,
    out: &mut K,
) -> Option<Ending>
    requires record { (later : List Served) (more : List ℕ)
        → turn (serving later run.old.hub) (run.old.window.held ++ more)
        ≡ long_turn end size (serving later run.old.hub) (run.old.window.held ++ more) }
    requires waits { (later : List Served) (more : List ℕ)
        → length (run.old.window.held ++ more) ≤ end
        → waits (serving later run.old.hub) (run.old.window.held ++ more) ≡ true }
    requires place { place_sum (at run.old) ≤ longest_script }
    ensures step { Advances result (at run.old) (at run.new) (S.left input.old) (S.left input.new)
        (K.written out.old) (K.written out.new) }
    ensures cause { HasCause result (S.faults input.old) (S.faults input.new) (K.faults out.old)
        (K.faults out.new) }
{
    match flush(&mut run.said, out) {
        Ok(()) => match skip(&mut run.window, end, input) {
            Refill::More => refuse_message(alloc, run, end, size),
            Refill::End => Some(Ending::Refused(run.place)),
            Refill::Failed => Some(Ending::InputFault),
            Refill::NoMemory => Some(Ending::NoMemory),
        },
        Err(OutputFault) => Some(Ending::OutputFault),
    }
}

/// Refuses a message whose payload was passed, if LF stands behind it.
fn refuse_message(alloc: Global, run: &mut Replay, end: usize, size: u32) -> Option<Ending>
    requires some { 0 < length run.old.window.held }
    requires said { run.old.said.items ≡ [] }
    requires place { run.old.place + end + length run.old.window.held ≤ longest_script }
    ensures { RefusesLong result end size (at run.old) (at run.new) }
{
    if byte_at(run.window.held(), 0) != Some(b'\n') {
        return Some(Ending::Refused(run.place));
    }
    if run.hub.begin(alloc).is_err() {
        return Some(Ending::NoMemory);
    }
    if say_too_long(alloc, size, &mut run.said).is_err() {
        run.said.clear();
        return Some(Ending::NoMemory);
    }
    run.window.pass(1);
    run.place += end as u64 + 1;
    None
}

/// Says that a message has too many bytes, and how many.
fn say_too_long(alloc: Global, size: u32, said: &mut Vec<u8>) -> Result<(), NoMemory>
    ensures { Says result said.old.items said.new.items (reply_line (Err (TooLong size))) }
{
    let line = too_long_line(alloc, u64::from(size))?;
    say(line.as_bytes(), said)
}

/// Lets go of so many bytes of the script, so that one at least stands behind them.
fn skip<S: Source>(window: &mut Window, count: usize, input: &mut S) -> Refill
    ensures skips { Skips result window.old window.new (S.left input.old) (S.left input.new) count }
    ensures cause { HasRefillCause result (S.faults input.old) (S.faults input.new) }
{
    let mut to_go = count;
    'pieces: loop {
        let held = window.held().len();
        if to_go < held {
            window.pass(to_go);
            return Refill::More;
        }
        window.pass(held);
        to_go -= held;
        match window.read_more(input) {
            Refill::More => {}
            other => return other,
        }
    }
}
