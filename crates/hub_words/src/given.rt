//! What stands under the ids of a command's words.
ghost use Rattle.std.specs.Prelude.{◌≡◌, ◌≤◌, IfSome, option_map};
ghost use Rattle.clap.specs.Words.{found_of, rows_of};
ghost use Rattle.hub_words.specs.Forms.{number_under, word_under};

use clap::ArgMatches;
use long_numbers::read_long_number;

/// The word under an id.
pub(crate) fn word_under<'a>(words: &ArgMatches<'a>, id: &str) -> Option<&'a str>
    ensures { option_map (λ word. word.now) result
        ≡ word_under id.now (rows_of (found_of words.now)) }
{
    words.get_str(id)
}

/// The number of 1 to 20 digits that the word under an id writes, from `low` to `high`.
#[tactic(auto, unfolding(crate::specs::Forms::number_under))]
pub(crate) fn number_under(words: &ArgMatches<'_>, id: &str, low: u64, high: u64) -> Option<u64>
    ensures value { result ≡ number_under id.now low high (rows_of (found_of words.now)) }
    ensures range { IfSome result (λ n. n ≤ high) }
{
    read_long_number(word_under(words, id)?.as_bytes(), low, high)
}
