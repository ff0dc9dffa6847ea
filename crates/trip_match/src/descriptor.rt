//! The texts of a trip descriptor.
ghost use Rattle.std.specs.Prelude.{◌≡◌};
ghost use Rattle.std.specs.Option.{option_copied};
ghost use Rattle.trip_match_defs.specs.Texts as rule;

use rt_types::Text;

/// The text, if it is there and not empty.
pub(crate) fn given(text: &Option<Text>) -> Option<&str>
    ensures { option_copied result ≡ rule.text_given text.now }
{
    match text {
        Some(text) => {
            let text = text.as_str();
            if text.is_empty() { None } else { Some(text) }
        }
        None => None,
    }
}
