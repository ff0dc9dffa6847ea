//! What stands in the cells of several lists.

ghost use Rattle.std.specs.Prelude.{◌≡◌};
ghost use Rattle.board_text_defs.specs.Alerts as rule;
ghost use Rattle.board_text_defs.specs.Lines.{number_or_dash};
ghost use Rattle.board_text.specs.Fields.{IsPlain};

use itoa::Buffer;
use sched_types::NamedFeed;

/// The number in decimal digits, or `-` where it is absent.
pub(crate) fn number_text(number: Option<i64>, buffer: &mut Buffer) -> &str
    ensures text { result.now ≡ number_or_dash number }
    ensures plain { IsPlain result.now }
{
    match number {
        Some(number) => buffer.format(number),
        None => "-",
    }
}

/// A number without a sign as one with a sign.
pub(crate) fn signed(number: Option<u32>) -> Option<i64>
    ensures { result ≡ rule.signed number }
{
    match number {
        Some(number) => Some(number as i64),
        None => None,
    }
}

/// The name of the feed of that number; empty past the last feed.
pub(crate) fn feed_name(feeds: &[NamedFeed], feed: u32) -> &str
    ensures { result.now ≡ rule.feed_name feeds.now feed }
{
    match feeds.get(feed as usize) {
        Some(feed) => feed.name.as_str(),
        None => "",
    }
}
