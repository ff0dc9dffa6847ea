//! Foreign texts in lines of our own.

ghost use Rattle.std.specs.Prelude.{◌≡◌, ◌++◌, OnOk};
ghost use Rattle.text_defs.specs.Cleaned.{cleaned_text};

use std::alloc::AllocError;

/// Appends the text with a space in place of each control character (bytes below 32, and 127), or
/// as many bytes of it as memory allows.
pub fn push_cleaned(text: &[u8], line: &mut Vec<u8>) -> Result<(), AllocError>
    ensures { OnOk result (line.new.items ≡ line.old.items ++ cleaned_text text.now) }
{
    for byte in text {
        line.push(if byte.is_ascii_control() { b' ' } else { *byte })?;
    }
    Ok(())
}
