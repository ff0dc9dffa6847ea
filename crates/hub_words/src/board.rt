//! The board that words ask for.
ghost use Rattle.std.specs.Prelude.{◌≡◌, option_map};
ghost use Rattle.clap.specs.Words.{found_of, rows_of};
ghost use Rattle.board_text_defs.specs.Asked.{asked_seen};
ghost use Rattle.hub_words.specs.Forms.{asked_in};

use crate::given::{number_under, word_under};
use board_text_defs::{BoardAsked, LONGEST_SPAN, MOST_ROWS};
use clap::ArgMatches;
use script_lines::is_json;
use texts::LAST_MOMENT;

/// The board of the words behind the configuration; none where a number or the form is wrong.
pub(crate) fn asked_in<'a>(words: &ArgMatches<'a>) -> Option<BoardAsked<'a>>
    ensures { option_map asked_seen result ≡ asked_in (rows_of (found_of words.now)) }
{
    let schedule = word_under(words, "schedule")?;
    let stop = word_under(words, "stop")?;
    let at = number_under(words, "moment", 0, LAST_MOMENT)?;
    let span = number_under(words, "span", 1, u64::from(LONGEST_SPAN))?;
    let limit = number_under(words, "limit", 1, u64::from(MOST_ROWS))?;
    let json = is_json(word_under(words, "format")?)?;
    Some(BoardAsked {
        schedule,
        stop,
        at,
        span: span as u32,
        limit: limit as u32,
        json,
    })
}
