//! Names of schedules and feeds.

ghost use Rattle.std.specs.Prelude.{◌≡◌};
ghost use Rattle.std.specs.List.{list_all};
ghost use Rattle.text_defs.specs.Names as names;

fn is_name_byte(byte: u8) -> bool
    ensures { result ≡ names.is_name_byte byte }
{
    matches!(byte, b'a'..=b'z' | b'0'..=b'9' | b'_')
}

fn are_name_bytes(bytes: &[u8]) -> bool
    ensures { result ≡ list_all names.is_name_byte bytes.now }
{
    bytes.iter().all(|byte| is_name_byte(*byte))
}

/// Whether the bytes are a name: 1 to 32 of a to z, 0 to 9 and `_`.
#[tactic(auto, unfolding(text_defs::specs::Names::is_name))]
pub fn is_name(bytes: &[u8]) -> bool
    ensures { result ≡ names.is_name bytes.now }
{
    let has_length = 1 <= bytes.len() && bytes.len() <= 32;
    has_length && are_name_bytes(bytes)
}
