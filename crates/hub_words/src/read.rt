//! The command of a list of words.
ghost use Rattle.std.specs.Prelude.{◌≡◌, false, codes};
ghost use Rattle.std.specs.Option.{option_map};
ghost use Rattle.std.specs.List.{list_any};
ghost use Rattle.clap.specs.Words.{found_of, kind_of, rows_of, subcommand_rows_of};
ghost use Rattle.hub_main_defs.specs.Words.{command_of, is_option};
ghost use Rattle.hub_main_defs.specs.Words.Command.{Check};
ghost use Rattle.hub_words.specs.Forms.{board_in, command_in, gen_in, named, replay_in, word_under};
ghost use Rattle.hub_words.specs.Answer.{IsCommandOf, IsFaultOf, Parses, seen};

use crate::board::asked_in;
use crate::given::{number_under, word_under};
use crate::parser::parser;
use board_text_defs::BoardAsked;
use clap::error::ErrorKind;
use clap::{ArgMatches, Error};
use rt_types::Text;
use std::alloc::{AllocError, Global};

/// What `hub` is asked to do.
#[derive(Clone, Copy, Debug, PartialEq, Eq)]
pub enum Command<'a> {
    /// Does the records of a script on the input.
    Replay,
    /// The same over the timetables of the configuration at that path.
    ReplayWith(&'a str),
    /// Checks the configuration at that path, and its timetables.
    Check(&'a str),
    /// Writes a board of the timetables alone.
    Board {
        /// The path of the configuration.
        config: &'a str,
        /// Which board is wanted.
        asked: BoardAsked<'a>,
    },
    /// Makes a sample, runs the hub on it and writes what came of it.
    Gen {
        /// What the sample is drawn of.
        seed: u64,
        /// How many trips it has, 1 to 20,000.
        trips: u32,
        /// How many messages it has, 1 to 2,000.
        messages: u32,
    },
}

/// The most trips of a sample.
const MOST_TRIPS: u64 = 20_000;

/// The most messages of a sample.
const MOST_MESSAGES: u64 = 2000;

/// Why words are no command.
#[derive(Clone, Copy, Debug, PartialEq, Eq, Drop, thiserror::Error)]
pub enum WordsFault {
    /// They aren't words of the commands.
    #[error("the words are no command")]
    Usage,
    /// Memory ran out.
    #[error("out of memory")]
    NoMemory,
}

impl From<AllocError> for WordsFault {
    ghost use Rattle.hub_words.specs.declared.read.WordsFault.TheVariants.{NoMemory};

    ghost from_gives = { λ _ fault. fault ≡ NoMemory };

    fn from(_: AllocError) -> Self {
        WordsFault::NoMemory
    }
}

/// The command of the words, which are those behind the program's name. A word that begins with a
/// hyphen is of no command. Any other word counts, the empty one too, where a command wants one.
/// Numbers have 1 to 20 digits, and the form of a board is `text` or `json`.
///
/// # Errors
///
/// `Usage` exactly where the words are no command; `NoMemory` where memory ran out.
pub fn read_words<'a>(alloc: Global, words: &'a [Text]) -> Result<Command<'a>, WordsFault>
    ensures { IsCommandOf words.entry.now result }
{
    if has_option(words) {
        return Err(WordsFault::Usage);
    }
    let matches = matches_of(alloc, words)?;
    match command_in(&matches) {
        Some(command) => Ok(command),
        None => Err(WordsFault::Usage),
    }
}

/// Whether a word begins with a hyphen.
pub(crate) fn has_option(words: &[Text]) -> bool
    ensures { result ≡ list_any is_option words.now }
{
    words.iter().any(|word| is_option(word.as_str()))
}

fn is_option(word: &str) -> bool
    ensures { result ≡ is_option word.now }
{
    word.as_bytes().first() == Some(&b'-')
}

/// What clap makes of words that are no options.
fn matches_of<'a>(alloc: Global, words: &'a [Text]) -> Result<ArgMatches<'a>, WordsFault>
    requires { list_any is_option words.now ≡ false }
    ensures { Parses (command_of words.entry.now) result }
{
    match parser(alloc)?.try_get_matches_from(words) {
        Ok(matches) => Ok(matches),
        Err(error) => Err(fault_of(&error)),
    }
}

/// Why clap refuses the words.
fn fault_of(error: &Error) -> WordsFault
    ensures { IsFaultOf (kind_of error.now) result }
{
    match error.kind() {
        ErrorKind::OutOfMemory => WordsFault::NoMemory,
        _ => WordsFault::Usage,
    }
}

/// The command of clap's matches.
fn command_in<'a>(matches: &ArgMatches<'a>) -> Option<Command<'a>>
    ensures { option_map seen result ≡ command_in (subcommand_rows_of matches.now) }
{
    match matches.subcommand() {
        Some((name, words)) => named_command(name, words),
        None => None,
    }
}

/// The command of that name, with its words.
fn named_command<'a>(name: &str, words: &ArgMatches<'a>) -> Option<Command<'a>>
    ensures { option_map seen result ≡ named name.now (rows_of (found_of words.now)) }
{
    if name == "replay" {
        Some(replay_in(words))
    } else if name == "check" {
        check_in(words)
    } else if name == "board" {
        board_in(words)
    } else if name == "gen" {
        gen_in(words)
    } else {
        None
    }
}

/// `replay`, with the word that it may have.
fn replay_in<'a>(words: &ArgMatches<'a>) -> Command<'a>
    ensures { seen result ≡ replay_in (rows_of (found_of words.now)) }
{
    match word_under(words, "config") {
        Some(path) => Command::ReplayWith(path),
        None => Command::Replay,
    }
}

/// `check` of the word that it has.
fn check_in<'a>(words: &ArgMatches<'a>) -> Option<Command<'a>>
    ensures { option_map seen result ≡ option_map Check
        (word_under (codes "config") (rows_of (found_of words.now))) }
{
    Some(Command::Check(word_under(words, "config")?))
}

/// `board` of its words, where they ask for one.
fn board_in<'a>(words: &ArgMatches<'a>) -> Option<Command<'a>>
    ensures { option_map seen result ≡ board_in (rows_of (found_of words.now)) }
{
    let config = word_under(words, "config")?;
    let asked = asked_in(words)?;
    Some(Command::Board { config, asked })
}

/// `gen` of its words, where they are numbers in range.
fn gen_in<'a>(words: &ArgMatches<'a>) -> Option<Command<'a>>
    ensures { option_map seen result ≡ gen_in (rows_of (found_of words.now)) }
{
    let seed = number_under(words, "seed", 0, u64::MAX)?;
    let trips = number_under(words, "trips", 1, MOST_TRIPS)?;
    let messages = number_under(words, "messages", 1, MOST_MESSAGES)?;
    Some(Command::Gen {
        seed,
        trips: trips as u32,
        messages: messages as u32,
    })
}
