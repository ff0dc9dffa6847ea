//! One whole record: what it prints, and what it does to the hub.
ghost use Rattle.std.specs.Prelude.{◌≡◌, ◌<◌, ◌≤◌, ◌+◌, ◌++◌, length, Some, None, slice_get};
ghost use Rattle.std.specs.Option.{option_map};
ghost use Rattle.view_answers.specs.Questions.{question_seen};
ghost use Rattle.board_text_defs.specs.Answers.{IsAsked};
ghost use Rattle.board_text_defs.specs.Asked.{asked_seen};
ghost use Rattle.hub_replay_defs.specs.Lines.Head.{Feed, Message, Ask};
ghost use Rattle.hub_replay_defs.specs.Record.{answer_reply, question_word};
ghost use Rattle.script_lines.specs.Lines.{head_seen, MayAsk};
ghost use Rattle.hub_replay.specs.Records.{Turns, Acts, LacksLine, Says, OffersTo, Asks, question_in};

use crate::NoMemory;
use crate::connections::do_connection;
use crate::feeds::ScriptHub;
use feed_defs::LONGEST_MESSAGE;
use rt_types::Text;
use script_lines::{LONGEST_LINE, Line, LineFault, line_end, parse_line, reply_line};
use std::alloc::Global;
use view_answers::{BoardAsked, Question};

/// What stands in front of some bytes of a script.
pub(crate) enum Step {
    /// A whole record of so many bytes, which was done.
    Whole(usize),
    /// The record that ends the script.
    Ends,
    /// No whole record; there is one perhaps once more bytes follow.
    Short,
    /// A message of so many bytes, too long to be looked at: it is refused if LF stands at the
    /// place `end`, behind its last byte.
    Long { end: usize, size: u32 },
    /// No record, whatever follows.
    Refused,
    /// Memory ran out. What was printed of the record has no meaning.
    NoMemory,
}

/// Does the record in front of the bytes, if it is whole: `said` grows by what it prints.
pub(crate) fn do_record(
    alloc: Global,
    hub: &mut ScriptHub,
    bytes: &[u8],
    said: &mut Vec<u8>,
) -> Step
    ensures { Turns result hub.old hub.new bytes.now said.old.items said.new.items }
{
    match line_end(bytes) {
        Some(end) => match parse_line(alloc, &bytes[..end]) {
            Ok(line) => do_line(alloc, hub, &line, bytes, end + 1, said),
            Err(LineFault::NotALine) => Step::Refused,
            Err(LineFault::NoMemory) => Step::NoMemory,
        },
        None => step_without_line(bytes.len()),
    }
}

/// Does the record of a line, behind which the bytes from the place `behind` on stand.
fn do_line(
    alloc: Global,
    hub: &mut ScriptHub,
    line: &Line,
    bytes: &[u8],
    behind: usize,
    said: &mut Vec<u8>,
) -> Step
    requires range { MayAsk (head_seen line.now) }
    requires within { behind ≤ length bytes.now }
    requires line { behind ≤ 4096 }
    ensures { Acts (head_seen line.now) behind result hub.old hub.new
        bytes.now said.old.items said.new.items }
{
    if let Some(question) = question_of(line) {
        return do_question(alloc, hub, &question, bytes, behind, said);
    }
    match line {
        Line::Feed { name } => do_feed(alloc, hub, name.as_str(), bytes, behind, said),
        Line::Message { feed, n } => {
            do_message(alloc, hub, feed.as_str(), *n, bytes, behind, said)
        }
        Line::Connection { moment, n } => {
            do_connection(alloc, hub, *moment, *n, bytes, behind, said)
        }
        Line::End => Step::Ends,
        _ => unreachable!(),
    }
}

/// What a line asks of a stop, over the line's own texts.
fn asked<'a>(
    schedule: &'a Text,
    stop: &'a Text,
    at: u64,
    span: u32,
    limit: u32,
    json: bool,
) -> BoardAsked<'a>
    ensures { asked_seen result ≡ record {
      schedule = schedule.entry.now;
      stop = stop.entry.now;
      at = at;
      span = span;
      limit = limit;
      json = json;
    } }
{
    BoardAsked {
        schedule: schedule.as_str(),
        stop: stop.as_str(),
        at,
        span,
        limit,
        json,
    }
}

/// The question that a line asks, if it asks one.
fn question_of(line: &Line) -> Option<Question<'_>>
    ensures { option_map question_seen result ≡ question_in (head_seen line.now) }
{
    match line {
        Line::Combined { schedule } => Some(Question::Feed {
            schedule: schedule.as_str(),
        }),
        Line::Board {
            schedule,
            stop,
            moment,
            span,
            limit,
            json,
        } => Some(Question::Board(asked(schedule, stop, *moment, *span, *limit, *json))),
        Line::Alerts {
            schedule,
            stop,
            moment,
            span,
            limit,
        } => Some(Question::Alerts(asked(schedule, stop, *moment, *span, *limit, false))),
        Line::Unmatched { schedule } => Some(Question::Unmatched {
            schedule: schedule.as_str(),
        }),
        Line::Status => Some(Question::Status),
        Line::Feed { .. } | Line::Message { .. } | Line::Connection { .. } | Line::End => None,
    }
}

/// Bytes without a line's end wait for more of them, while a line may be longer.
fn step_without_line(count: usize) -> Step
    ensures { LacksLine count result }
{
    if count < LONGEST_LINE {
        Step::Short
    } else {
        Step::Refused
    }
}

/// `F`: declares a feed.
fn do_feed(
    alloc: Global,
    hub: &mut ScriptHub,
    name: &str,
    bytes: &[u8],
    behind: usize,
    said: &mut Vec<u8>,
) -> Step
    requires { behind ≤ length bytes.now }
    ensures { Acts (Feed name.now) behind result hub.old hub.new
        bytes.now said.old.items said.new.items }
{
    match hub.declare(alloc, name) {
        Ok(true) => Step::Whole(behind),
        Ok(false) => Step::Refused,
        Err(_) => Step::NoMemory,
    }
}

/// `M`: offers a message, once its last byte and the LF behind it are there.
fn do_message(
    alloc: Global,
    hub: &mut ScriptHub,
    feed: &str,
    size: u32,
    bytes: &[u8],
    behind: usize,
    said: &mut Vec<u8>,
) -> Step
    requires within { behind ≤ length bytes.now }
    requires line { behind ≤ 4096 }
    ensures { Acts (Message feed.now size) behind result hub.old hub.new
        bytes.now said.old.items said.new.items }
{
    let Some(feed) = hub.feed_number(feed) else {
        return Step::Refused;
    };
    let end = behind + size as usize;
    if size as usize > LONGEST_MESSAGE {
        return Step::Long { end, size };
    }
    match byte_at(bytes, end) {
        Some(b'\n') => match offer(alloc, hub, feed, &bytes[behind..end], said) {
            Ok(()) => Step::Whole(end + 1),
            Err(_) => Step::NoMemory,
        },
        Some(_) => Step::Refused,
        None => Step::Short,
    }
}

/// The byte at a place, if there is one.
pub(crate) fn byte_at(bytes: &[u8], place: usize) -> Option<u8>
    ensures { result ≡ slice_get bytes.now place }
{
    bytes.get(place).copied()
}

/// `O`, `B`, `A`, `U` and `S`: prints what the question is answered.
fn do_question(
    alloc: Global,
    hub: &mut ScriptHub,
    question: &Question<'_>,
    bytes: &[u8],
    behind: usize,
    said: &mut Vec<u8>,
) -> Step
    requires asked { IsAsked (question_seen question.now) }
    requires within { behind ≤ length bytes.now }
    ensures { Acts (Ask (question_seen question.now)) behind result hub.old hub.new
        bytes.now said.old.items said.new.items }
{
    match ask(alloc, hub, question, said) {
        Ok(()) => Step::Whole(behind),
        Err(_) => Step::NoMemory,
    }
}

/// Asks the hub and says what it is answered.
fn ask(
    alloc: Global,
    hub: &mut ScriptHub,
    question: &Question<'_>,
    said: &mut Vec<u8>,
) -> Result<(), NoMemory>
    requires { IsAsked (question_seen question.now) }
    ensures { Asks result (question_seen question.now) hub.old hub.new
        said.old.items said.new.items }
{
    let word = question_word(question);
    let mut answer = Vec::new(alloc);
    if hub.tell(alloc, question, &mut answer)? {
        say_answer(alloc, word, &answer, said)
    } else {
        say_none(alloc, word, said)
    }
}

/// The word with which the answer to a question begins.
fn question_word(question: &Question<'_>) -> &'static str
    ensures { result.now ≡ question_word (question_seen question.now) }
{
    match question {
        Question::Feed { .. } => "feed",
        Question::Board(_) => "board",
        Question::Alerts(_) => "alerts",
        Question::Unmatched { .. } => "unmatched",
        Question::Status => "status",
    }
}

/// Offers a message to a feed and says what came of it.
fn offer(
    alloc: Global,
    hub: &mut ScriptHub,
    feed: u32,
    bytes: &[u8],
    said: &mut Vec<u8>,
) -> Result<(), NoMemory>
    requires { feed < length hub.old.plans.feeds }
    ensures { OffersTo result feed bytes.now hub.old hub.new said.old.items said.new.items }
{
    let reply = hub.offer(alloc, feed, bytes);
    let line = reply_line(alloc, reply)?;
    say(&line, said)
}

/// An answer, with its length before it and LF behind it.
fn say_answer(alloc: Global, word: &str, answer: &[u8], said: &mut Vec<u8>) -> Result<(), NoMemory>
    ensures { Says result said.old.items said.new.items (answer_reply word.now (Some answer.now)) }
{
    let length = answer.len();
    let line = format!(in alloc; "{word} {length}\n")?;
    say(line.as_bytes(), said)?;
    say(answer, said)?;
    say(b"\n", said)
}

/// That what was asked for isn't there.
fn say_none(alloc: Global, word: &str, said: &mut Vec<u8>) -> Result<(), NoMemory>
    ensures { Says result said.old.items said.new.items (answer_reply word.now None) }
{
    let line = format!(in alloc; "{word} none\n")?;
    say(line.as_bytes(), said)
}

/// Something more to be printed.
pub(crate) fn say(text: &[u8], said: &mut Vec<u8>) -> Result<(), NoMemory>
    ensures { Says result said.old.items said.new.items text.now }
{
    said.extend_from_slice(text)
}
