//! A record's line, and what it says.
ghost use Rattle.std.specs.Prelude.{◌≡◌, ◌==◌, position, ◌+◌, ◌<◌, ◌≤◌, map, length, take, drop, MatchOption, IfOk, IfSome, Some, None};
ghost use Rattle.text_defs.specs.Numbers.{number};
ghost use Rattle.hub_replay_defs.specs.Lines.{longest_line, line_within, words_of, text_of_word, texts_of, script_digits, length_in, input_length_in, is_json_in, feed_head, message_head, combined_head, board_head, alerts_head, unmatched_head, status_head, connection_head, end_head, head_by_letter, head_of_words, head_of};
ghost use Rattle.script_lines.specs.Lines.{TextIs, TextsAre, SaysHead};

use crate::NoMemory;
use board_text_defs::{LONGEST_SPAN, MOST_ROWS};
use percent_encoding::{DecodeError, percent_decode};
use rt_types::{Copied, Text};
use std::alloc::{AllocError, AllocFailed, Global};
use texts::{LAST_MOMENT, read_number};
use thiserror::Error;

/// The most bytes of a line, its LF included.
pub const LONGEST_LINE: usize = 4096;

/// The greatest length of a message in a script.
const LONGEST_PAYLOAD: u64 = 999_999_999;

/// The most bytes of a connection's input.
const LONGEST_INPUT: u64 = 16_777_216;

/// The most digits of a number.
const MOST_DIGITS: usize = 12;

/// What a record's line says.
#[derive(Debug, Drop)]
pub enum Line {
    /// `F name`: a feed of that name.
    Feed {
        /// The name, of any form.
        name: Text,
    },
    /// `M feed n`: a message of so many bytes for that feed.
    Message {
        /// The name of the feed.
        feed: Text,
        /// How many bytes, up to 999999999.
        n: u32,
    },
    /// `O schedule`: the combined feed of that schedule.
    Combined {
        /// The name of the schedule.
        schedule: Text,
    },
    /// `B schedule stop moment span limit form`: a board.
    Board {
        /// The name of the schedule.
        schedule: Text,
        /// The id of the stop.
        stop: Text,
        /// From when on, in seconds since 1970, up to 253402300799.
        moment: u64,
        /// For how many seconds, 1 to 86400.
        span: u32,
        /// The most rows, 1 to 1000.
        limit: u32,
        /// Whether as JSON; else as text.
        json: bool,
    },
    /// `A schedule stop moment span limit`: the alerts beside a board, as text.
    Alerts {
        /// The name of the schedule.
        schedule: Text,
        /// The id of the stop.
        stop: Text,
        /// When, in seconds since 1970, up to 253402300799.
        moment: u64,
        /// For how many seconds the board goes, 1 to 86400.
        span: u32,
        /// The most rows of the board, 1 to 1000.
        limit: u32,
    },
    /// `U schedule`: what the feeds of that schedule say of trips that it has no run for.
    Unmatched {
        /// The name of the schedule.
        schedule: Text,
    },
    /// `S`: the status of the hub.
    Status,
    /// `Q moment n`: a connection whose input is so many bytes, served at that moment.
    Connection {
        /// When, in seconds since 1970, up to 253402300799.
        moment: u64,
        /// How many bytes, up to 16777216.
        n: u32,
    },
    /// `E`: the end of the script.
    End,
}

/// Why a line is not told.
#[derive(Debug, Drop, Error)]
pub enum LineFault {
    /// It is none of the records.
    #[error("the line is no record")]
    NotALine,
    /// Memory ran out.
    #[error("out of memory")]
    NoMemory,
}

impl From<AllocError> for LineFault {
    ghost use Rattle.script_lines.specs.declared.lines.LineFault.TheVariants.{NoMemory};

    ghost from_gives = { λ _ fault. fault ≡ NoMemory };

    fn from(_: AllocError) -> Self {
        LineFault::NoMemory
    }
}

impl<T: Drop> From<AllocFailed<T>> for LineFault {
    ghost use Rattle.script_lines.specs.declared.lines.LineFault.TheVariants.{NoMemory};

    ghost from_gives = { λ _ fault. fault ≡ NoMemory };

    fn from(_: AllocFailed<T>) -> Self {
        LineFault::NoMemory
    }
}

/// Where the line in front ends: the place of its LF, which is among the first 4096 bytes.
pub fn line_end(bytes: &[u8]) -> Option<usize>
    ensures { MatchOption result (line_within longest_line bytes.now ≡ None)
        (λ k. (k < length bytes.now) × (k < longest_line)
        × (line_within longest_line bytes.now ≡ Some
        (take k bytes.now, drop (k + 1) bytes.now))) }
{
    line_feed_place(&bytes[..bytes.len().min(LONGEST_LINE)])
}

/// Where the first LF stands.
fn line_feed_place(bytes: &[u8]) -> Option<usize>
    ensures { result ≡ position (λ b. b == 10) bytes.now }
{
    bytes.iter().position(|byte| *byte == b'\n')
}

/// What the line says, if it is one of the records. The line comes without its LF. Its words stand
/// between single spaces, and in each the escapes of RFC 3986, section 2.1, are undone.
pub fn parse_line(alloc: Global, line: &[u8]) -> Result<Line, LineFault>
    ensures { SaysHead (head_of line.now) result }
{
    let raw = raw_words(alloc, line)?;
    let words = word_texts(alloc, &raw)?;
    line_in(&words)
}

/// What single spaces part.
fn raw_words(alloc: Global, line: &[u8]) -> Result<Vec<&[u8]>, NoMemory>
    ensures { IfOk result (λ words. map (λ w. w.now) words.items ≡ words_of line.now) }
{
    line.split(|byte| *byte == b' ').collect(alloc)
}

/// The words with their escapes undone, where each is text.
fn word_texts(alloc: Global, raw: &[&[u8]]) -> Result<Vec<Text>, LineFault>
    ensures { TextsAre (texts_of (map (λ w. w.now) raw.now)) result }
{
    let mut words = Vec::new(alloc);
    for word in raw {
        words.push(word_text(alloc, word)?)?;
    }
    Ok(words)
}

/// The word with its escapes undone, where that is text.
fn word_text(alloc: Global, raw: &[u8]) -> Result<Text, LineFault>
    ensures { TextIs (text_of_word raw.now) result }
{
    match percent_decode(raw).decode_utf8(alloc) {
        Ok(text) => Ok(Text::new(alloc, &text)?),
        Err(DecodeError::Utf8(_)) => Err(LineFault::NotALine),
        Err(DecodeError::OutOfMemory) => Err(LineFault::NoMemory),
    }
}

/// What the words of a line say.
fn line_in(words: &[Text]) -> Result<Line, LineFault>
    ensures { SaysHead (head_of_words words.now) result }
{
    match words {
        [letter, rest @ ..] => line_of(letter.as_str(), rest),
        [] => Err(LineFault::NotALine),
    }
}

/// What the letter in front and the words behind it say.
fn line_of(letter: &str, words: &[Text]) -> Result<Line, LineFault>
    ensures { SaysHead (head_by_letter letter.now words.now) result }
{
    if letter == "F" {
        feed_line(words)
    } else if letter == "M" {
        message_line(words)
    } else if letter == "O" {
        combined_line(words)
    } else if letter == "B" {
        board_line(words)
    } else if letter == "A" {
        alerts_line(words)
    } else if letter == "U" {
        unmatched_line(words)
    } else if letter == "S" {
        status_line(words)
    } else if letter == "Q" {
        connection_line(words)
    } else if letter == "E" {
        end_line(words)
    } else {
        Err(LineFault::NotALine)
    }
}

fn feed_line(words: &[Text]) -> Result<Line, LineFault>
    ensures { SaysHead (feed_head words.now) result }
{
    match words {
        [name] => Ok(Line::Feed { name: name.copy()? }),
        _ => Err(LineFault::NotALine),
    }
}

fn message_line(words: &[Text]) -> Result<Line, LineFault>
    ensures { SaysHead (message_head words.now) result }
{
    match words {
        [feed, size] => match payload_length(size.as_str().as_bytes()) {
            Some(n) => Ok(Line::Message {
                feed: feed.copy()?,
                n,
            }),
            None => Err(LineFault::NotALine),
        },
        _ => Err(LineFault::NotALine),
    }
}

fn combined_line(words: &[Text]) -> Result<Line, LineFault>
    ensures { SaysHead (combined_head words.now) result }
{
    match words {
        [schedule] => Ok(Line::Combined {
            schedule: schedule.copy()?,
        }),
        _ => Err(LineFault::NotALine),
    }
}

fn board_line(words: &[Text]) -> Result<Line, LineFault>
    ensures { SaysHead (board_head words.now) result }
{
    match words {
        [schedule, stop, moment, span, limit, form] => {
            let Some(moment) = number_in(moment, 0, LAST_MOMENT) else {
                return Err(LineFault::NotALine);
            };
            let Some(span) = number_in(span, 1, u64::from(LONGEST_SPAN)) else {
                return Err(LineFault::NotALine);
            };
            let Some(limit) = number_in(limit, 1, u64::from(MOST_ROWS)) else {
                return Err(LineFault::NotALine);
            };
            let Some(json) = is_json(form.as_str()) else {
                return Err(LineFault::NotALine);
            };
            Ok(Line::Board {
                schedule: schedule.copy()?,
                stop: stop.copy()?,
                moment,
                span: span as u32,
                limit: limit as u32,
                json,
            })
        }
        _ => Err(LineFault::NotALine),
    }
}

fn alerts_line(words: &[Text]) -> Result<Line, LineFault>
    ensures { SaysHead (alerts_head words.now) result }
{
    match words {
        [schedule, stop, moment, span, limit] => {
            let Some(moment) = number_in(moment, 0, LAST_MOMENT) else {
                return Err(LineFault::NotALine);
            };
            let Some(span) = number_in(span, 1, u64::from(LONGEST_SPAN)) else {
                return Err(LineFault::NotALine);
            };
            let Some(limit) = number_in(limit, 1, u64::from(MOST_ROWS)) else {
                return Err(LineFault::NotALine);
            };
            Ok(Line::Alerts {
                schedule: schedule.copy()?,
                stop: stop.copy()?,
                moment,
                span: span as u32,
                limit: limit as u32,
            })
        }
        _ => Err(LineFault::NotALine),
    }
}

fn unmatched_line(words: &[Text]) -> Result<Line, LineFault>
    ensures { SaysHead (unmatched_head words.now) result }
{
    match words {
        [schedule] => Ok(Line::Unmatched {
            schedule: schedule.copy()?,
        }),
        _ => Err(LineFault::NotALine),
    }
}

fn status_line(words: &[Text]) -> Result<Line, LineFault>
    ensures { SaysHead (status_head words.now) result }
{
    match words {
        [] => Ok(Line::Status),
        _ => Err(LineFault::NotALine),
    }
}

fn connection_line(words: &[Text]) -> Result<Line, LineFault>
    ensures { SaysHead (connection_head words.now) result }
{
    match words {
        [moment, size] => {
            let Some(moment) = number_in(moment, 0, LAST_MOMENT) else {
                return Err(LineFault::NotALine);
            };
            match input_length(size.as_str().as_bytes()) {
                Some(n) => Ok(Line::Connection { moment, n }),
                None => Err(LineFault::NotALine),
            }
        }
        _ => Err(LineFault::NotALine),
    }
}

fn end_line(words: &[Text]) -> Result<Line, LineFault>
    ensures { SaysHead (end_head words.now) result }
{
    match words {
        [] => Ok(Line::End),
        _ => Err(LineFault::NotALine),
    }
}

/// The length that a word of digits says.
fn payload_length(word: &[u8]) -> Option<u32>
    ensures { result ≡ length_in word.now }
{
    match read_number(word, MOST_DIGITS, 0, LONGEST_PAYLOAD) {
        Some(length) => Some(length as u32),
        None => None,
    }
}

/// The length of a connection's input that a word of digits says.
fn input_length(word: &[u8]) -> Option<u32>
    ensures { result ≡ input_length_in word.now }
{
    match read_number(word, MOST_DIGITS, 0, LONGEST_INPUT) {
        Some(length) => Some(length as u32),
        None => None,
    }
}

/// The number from `low` to `high` that a word of up to 12 digits says.
fn number_in(word: &Text, low: u64, high: u64) -> Option<u64>
    ensures value { result ≡ number script_digits low high word.now }
    ensures range { IfSome result (λ n. (low ≤ n) × (n ≤ high)) }
{
    read_number(word.as_str().as_bytes(), MOST_DIGITS, low, high)
}

/// Whether the word of a form asks for JSON; none where it is no form.
pub fn is_json(form: &str) -> Option<bool>
    ensures { result ≡ is_json_in form.now }
{
    if form == "text" {
        Some(false)
    } else if form == "json" {
        Some(true)
    } else {
        None
    }
}
