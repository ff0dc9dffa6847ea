//! The record that serves a connection.
ghost use Rattle.std.specs.Prelude.{◌≡◌, ◌≤◌, ◌++◌, length, codes, IfOk};
ghost use Rattle.std.specs.Fmt.{decimal};
ghost use Rattle.std.specs.String.{string_bytes};
ghost use Rattle.text_defs.specs.Cleaned.{line_feed};
ghost use Rattle.text_defs.specs.Moments.{last_moment};
ghost use Rattle.hub_replay_defs.specs.Lines.Head.{Connection};
ghost use Rattle.hub_replay_defs.specs.Record.{finish_word};
ghost use Rattle.http_serve.specs.Transcript.{finish_seen};
ghost use Rattle.hub_replay.specs.Records.{Acts, Says, SaysServed};

use crate::NoMemory;
use crate::feeds::ScriptHub;
use crate::records::{Step, byte_at, say};
use http_serve::Finish;
use std::alloc::Global;

/// `Q`: serves a connection, once the last byte of its input and the LF behind it are there.
pub(crate) fn do_connection(
    alloc: Global,
    hub: &mut ScriptHub,
    moment: u64,
    size: u32,
    bytes: &[u8],
    behind: usize,
    said: &mut Vec<u8>,
) -> Step
    requires moment { moment ≤ last_moment }
    requires within { behind ≤ length bytes.now }
    requires line { behind ≤ 4096 }
    ensures { Acts (Connection moment size) behind result hub.old hub.new
        bytes.now said.old.items said.new.items }
{
    let end = behind + size as usize;
    match byte_at(bytes, end) {
        Some(b'\n') => match serve(alloc, hub, moment, &bytes[behind..end], said) {
            Ok(()) => Step::Whole(end + 1),
            Err(_) => Step::NoMemory,
        },
        Some(_) => Step::Refused,
        None => Step::Short,
    }
}

/// Serves a connection of this input and says what was written on it.
fn serve(
    alloc: Global,
    hub: &mut ScriptHub,
    moment: u64,
    input: &[u8],
    said: &mut Vec<u8>,
) -> Result<(), NoMemory>
    requires { moment ≤ last_moment }
    ensures { SaysServed result hub.old hub.new moment input.now said.old.items said.new.items }
{
    let transcript = hub.serve(alloc, moment, input)?;
    let word = finish_word(transcript.finish);
    say_connection(alloc, word, transcript.written.bytes(), said)
}

/// The word for why a connection has no further request.
fn finish_word(finish: Finish) -> &'static str
    ensures { result.now ≡ finish_word (finish_seen finish) }
{
    match finish {
        Finish::Ended => "ended",
        Finish::Closed => "closed",
        Finish::Bad => "bad",
    }
}

/// What was written on a connection, with its length and the word before it and LF behind it.
fn say_connection(
    alloc: Global,
    word: &str,
    written: &[u8],
    said: &mut Vec<u8>,
) -> Result<(), NoMemory>
    ensures { Says result said.old.items said.new.items (codes "connection "
        ++ decimal (length written.now) ++ codes " " ++ word.now ++ line_feed ++ written.now
        ++ line_feed) }
{
    let line = connection_line(alloc, written.len(), word)?;
    say(line.as_bytes(), said)?;
    say(written, said)?;
    say(b"\n", said)
}

/// The line that tells how many bytes were written on a connection, and with a word why it ended.
fn connection_line(alloc: Global, length: usize, word: &str) -> Result<String, NoMemory>
    ensures { IfOk result (λ line. string_bytes line ≡ codes "connection " ++ decimal length
        ++ codes " " ++ word.now ++ line_feed) }
{
    format!(in alloc; "connection {length} {word}\n")
}
