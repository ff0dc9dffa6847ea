//! The commands that run once and end.
ghost use Rattle.std.specs.Prelude.{◌≡◌, ◌≤◌, ◌⊎◌, None};
ghost use Rattle.std.specs.Arc.{arc_value};
ghost use Rattle.exit_status.specs.Codes.{code_of};
ghost use Rattle.exit_status.specs.declared.status.ExitStatus.TheVariants as exit;
ghost use Rattle.hub_outside.specs.Outside.{file_store, outside, stream};
ghost use Rattle.board_text_defs.specs.Asked.{asked_seen};
ghost use Rattle.board_text_defs.specs.Answers.{MayAsk};
ghost use Rattle.hub_main_defs.specs.Words.{command_of};
ghost use Rattle.hub_main_defs.specs.Commands.{board_output, output_where_told};
ghost use Rattle.hub_main_defs.specs.Samples.{gen_output};
ghost use Rattle.hub_main.specs.Offline.{BoardOutcome, CheckOutcome, IsExitStatus, MayMake, OutcomeOf, PrintsFault, PrintsOutput, ReadsFiles, ReadsInput, ReplayWithOutcome, UsageOutcome, WritesLine, WritesWhole};

use crate::boards::{board_of, load_shared};
use exit_status::ExitStatus;
use hub_check::check;
use hub_gen::run_sample;
use hub_load::HubFault;
use hub_outside::{Clock, Files, OutputFault, Sink, Source, write_all};
use hub_replay::replay;
use hub_words::{BoardAsked, Command, WordsFault, read_words};
use rt_types::Text;
use sched_types::Plans;
use std::alloc::Global;
use std::sync::Arc;

/// Runs the command of the words, which are those behind the program's name, and gives the exit
/// status: 0 where it was done, 2 where the words are no command, 3 where a configuration or a
/// timetable is refused, 4 where the input or a file failed, 5 where the output did, 6 where memory
/// ran out, 7 where a script is refused, and 8 where the schedule or the stop of a board isn't
/// there. The commands are `replay`, which reads a script on the input and asks for no file,
/// `replay CONFIG`, which reads files and then a script, `check CONFIG` and `board CONFIG ..`,
/// which read files and no input, and `gen SEED TRIPS MESSAGES`, which reads neither.
///
/// It always returns, and reads no clock.
pub fn run_offline<F: Files, S: Source, K: Sink, C: Clock>(
    alloc: Global,
    words: &[Text],
    files: &mut F,
    input: &mut S,
    out: &mut K,
    clock: &mut C,
) -> u8
    ensures outcome { OutcomeOf (command_of words.now)
        (outside (file_store (F.contents files.old) (F.faults files.old) (F.last_fault files.old))
        (stream (S.left input.old) (S.faults input.old))
        (stream (K.written out.old) (K.faults out.old)))
        (outside (file_store (F.contents files.new) (F.faults files.new) (F.last_fault files.new))
        (stream (S.left input.new) (S.faults input.new))
        (stream (K.written out.new) (K.faults out.new)))
        result }
    ensures status { IsExitStatus result }
    ensures whole { WritesWhole
        (λ served. output_where_told served (command_of words.now) (F.contents files.old)
        (S.left input.old)) result (K.written out.old) (K.written out.new) }
    ensures usage { result ≡ code_of exit.Usage → command_of words.now ≡ None }
    ensures input_count { S.faults input.old ≤ S.faults input.new }
    ensures output_count { K.faults out.old ≤ K.faults out.new }
    ensures files_count { F.faults files.old ≤ F.faults files.new }
    ensures files { F.contents files.new ≡ F.contents files.old }
    ensures no_files { ReadsFiles (command_of words.now) ⊎ (files.new ≡ files.old) }
    ensures no_input { ReadsInput (command_of words.now) ⊎ (input.new ≡ input.old) }
    ensures clock { clock.new ≡ clock.old }
{
    run_words(alloc, words, files, input, out).code()
}

/// The same without a clock, which no command reads.
fn run_words<F: Files, S: Source, K: Sink>(
    alloc: Global,
    words: &[Text],
    files: &mut F,
    input: &mut S,
    out: &mut K,
) -> ExitStatus
    ensures outcome { OutcomeOf (command_of words.now)
        (outside (file_store (F.contents files.old) (F.faults files.old) (F.last_fault files.old))
        (stream (S.left input.old) (S.faults input.old))
        (stream (K.written out.old) (K.faults out.old)))
        (outside (file_store (F.contents files.new) (F.faults files.new) (F.last_fault files.new))
        (stream (S.left input.new) (S.faults input.new))
        (stream (K.written out.new) (K.faults out.new)))
        (code_of result) }
    ensures input_count { S.faults input.old ≤ S.faults input.new }
    ensures files_count { F.faults files.old ≤ F.faults files.new }
    ensures files { F.contents files.new ≡ F.contents files.old }
    ensures no_files { ReadsFiles (command_of words.now) ⊎ (files.new ≡ files.old) }
    ensures no_input { ReadsInput (command_of words.now) ⊎ (input.new ≡ input.old) }
{
    match read_words(alloc, words) {
        Ok(Command::Replay) => replay(alloc, None, input, out),
        Ok(Command::ReplayWith(path)) => run_replay(alloc, files, path, input, out),
        Ok(Command::Check(path)) => run_check(alloc, files, path, out),
        Ok(Command::Board { config, asked }) => run_board(alloc, files, config, &asked, out),
        Ok(
            Command::Gen {
                seed,
                trips,
                messages,
            },
        ) => run_gen(alloc, seed, trips, messages, out),
        Err(WordsFault::Usage) => run_usage(out),
        Err(WordsFault::NoMemory) => ExitStatus::NoMemory,
    }
}

/// `replay` with the configuration at the path: a script on its hub.
fn run_replay<F: Files, S: Source, K: Sink>(
    alloc: Global,
    files: &mut F,
    path: &str,
    input: &mut S,
    out: &mut K,
) -> ExitStatus
    ensures outcome { ReplayWithOutcome path.now
        (outside (file_store (F.contents files.old) (F.faults files.old) (F.last_fault files.old))
        (stream (S.left input.old) (S.faults input.old))
        (stream (K.written out.old) (K.faults out.old)))
        (outside (file_store (F.contents files.new) (F.faults files.new) (F.last_fault files.new))
        (stream (S.left input.new) (S.faults input.new))
        (stream (K.written out.new) (K.faults out.new)))
        (code_of result) }
    ensures same { F.contents files.new ≡ F.contents files.old }
{
    match load_shared(alloc, files, path) {
        Ok(plans) => replay(alloc, Some(plans), input, out),
        Err(fault) => write_fault(&fault, out),
    }
}

/// `board`: a board of the timetables of the configuration at the path.
fn run_board<F: Files, K: Sink>(
    alloc: Global,
    files: &mut F,
    path: &str,
    asked: &BoardAsked<'_>,
    out: &mut K,
) -> ExitStatus
    requires { MayAsk (asked_seen asked.now) }
    ensures outcome { BoardOutcome path.now (board_output (asked_seen asked.now))
        (file_store (F.contents files.old) (F.faults files.old) (F.last_fault files.old))
        (file_store (F.contents files.new) (F.faults files.new) (F.last_fault files.new))
        (stream (K.written out.old) (K.faults out.old))
        (stream (K.written out.new) (K.faults out.new))
        (code_of result) }
    ensures same { F.contents files.new ≡ F.contents files.old }
{
    match load_shared(alloc, files, path) {
        Ok(plans) => write_board(alloc, plans, asked, out),
        Err(fault) => write_fault(&fault, out),
    }
}

/// The board of these timetables.
fn write_board<K: Sink>(
    alloc: Global,
    plans: Arc<Plans>,
    asked: &BoardAsked<'_>,
    out: &mut K,
) -> ExitStatus
    requires { MayAsk (asked_seen asked.now) }
    ensures { PrintsOutput (board_output (asked_seen asked.now) (arc_value plans))
        (stream (K.written out.old) (K.faults out.old))
        (stream (K.written out.new) (K.faults out.new))
        (code_of result) }
{
    match board_of(alloc, plans, asked) {
        Ok(Some(bytes)) => write_line(&bytes, ExitStatus::Done, out),
        Ok(None) => write_line(b"hub: not found\n", ExitStatus::NotFound, out),
        Err(_) => ExitStatus::NoMemory,
    }
}

/// Why there is no hub.
pub(crate) fn write_fault<K: Sink>(fault: &HubFault, out: &mut K) -> ExitStatus
    ensures { PrintsFault fault.now (stream (K.written out.old) (K.faults out.old))
        (stream (K.written out.new) (K.faults out.new)) (code_of result) }
{
    match fault {
        HubFault::Refused(line) => write_line(line, ExitStatus::Refused, out),
        HubFault::FileFault => write_line(b"hub: file fault\n", ExitStatus::Fault, out),
        HubFault::NoMemory => ExitStatus::NoMemory,
    }
}

/// `check`: the configuration at the path, and its timetables.
fn run_check<F: Files, K: Sink>(alloc: Global, files: &mut F, path: &str, out: &mut K) -> ExitStatus
    ensures outcome { CheckOutcome path.now
        (file_store (F.contents files.old) (F.faults files.old) (F.last_fault files.old))
        (file_store (F.contents files.new) (F.faults files.new) (F.last_fault files.new))
        (stream (K.written out.old) (K.faults out.old))
        (stream (K.written out.new) (K.faults out.new))
        (code_of result) }
    ensures same { F.contents files.new ≡ F.contents files.old }
{
    match check(alloc, files, path) {
        Ok(lines) => write_line(&lines, ExitStatus::Done, out),
        Err(fault) => write_fault(&fault, out),
    }
}

/// `gen`: the sample of the seed, run.
fn run_gen<K: Sink>(alloc: Global, seed: u64, trips: u32, messages: u32, out: &mut K) -> ExitStatus
    requires { MayMake trips messages }
    ensures { PrintsOutput (gen_output seed trips messages)
        (stream (K.written out.old) (K.faults out.old))
        (stream (K.written out.new) (K.faults out.new))
        (code_of result) }
{
    match run_sample(alloc, seed, trips, messages) {
        Ok(line) => write_line(&line, ExitStatus::Done, out),
        Err(fault) => write_fault(&fault, out),
    }
}

/// Words that are no command.
pub(crate) fn run_usage<K: Sink>(out: &mut K) -> ExitStatus
    ensures { UsageOutcome (stream (K.written out.old) (K.faults out.old))
        (stream (K.written out.new) (K.faults out.new)) (code_of result) }
{
    write_line(b"hub: usage\n", ExitStatus::Usage, out)
}

/// Writes lines, and nothing else. The status is the given one, unless the output fails.
fn write_line<K: Sink>(line: &[u8], status: ExitStatus, out: &mut K) -> ExitStatus
    ensures { WritesLine line.now (code_of status) (stream (K.written out.old) (K.faults out.old))
        (stream (K.written out.new) (K.faults out.new)) (code_of result) }
{
    match write_all(out, line) {
        Ok(()) => status,
        Err(OutputFault) => ExitStatus::OutputFault,
    }
}
