//! The forms of fields, and their values.

ghost use Rattle.std.specs.Prelude.{◌≡◌};
ghost use Rattle.gtfs_rows.specs.Values.{date};
ghost use Rattle.gtfs_rows.specs.Files.{is_blank, trimmed_text, trimmed_end, trimmed_start};

use texts::read_date;

fn is_blank_byte(byte: u8) -> bool
    ensures { result ≡ is_blank byte }
{
    byte == b' ' || byte == b'\t'
}

/// The bytes without the blanks in front of them.
fn trim_start(bytes: &[u8]) -> &[u8]
    ensures { result.now ≡ trimmed_start bytes.entry.now }
{
    let mut rest = bytes;
    while let [first, behind @ ..] = rest {
        if !is_blank_byte(*first) {
            break;
        }
        rest = behind;
    }
    rest
}

/// The bytes without the blanks behind them.
fn trim_end(bytes: &[u8]) -> &[u8]
    ensures { result.now ≡ trimmed_end bytes.entry.now }
{
    let mut rest = bytes;
    while let [before @ .., last] = rest {
        if !is_blank_byte(*last) {
            break;
        }
        rest = before;
    }
    rest
}

/// The bytes without spaces and tabs at both ends.
#[tactic(auto, unfolding(crate::specs::Files::trimmed_text))]
pub(crate) fn trim(bytes: &[u8]) -> &[u8]
    ensures { result.now ≡ trimmed_text bytes.entry.now }
{
    trim_end(trim_start(bytes))
}

/// A date: the eight digits YYYYMMDD of a day of the years 1900 to 2999.
#[tactic(auto, unfolding(crate::specs::Values::date))]
pub(crate) fn read_recent_date(bytes: &[u8]) -> Option<u32>
    ensures { result ≡ date bytes.now }
{
    let date = read_date(bytes)?;
    if 19_000_101 <= date && date <= 29_991_231 {
        Some(date)
    } else {
        None
    }
}
