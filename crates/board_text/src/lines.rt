//! Lines of fields.

ghost use Rattle.std.specs.Prelude.{◌≡◌, ◌++◌, map, OnOk};
ghost use Rattle.std.specs.Char.{is_ascii_control};
ghost use Rattle.std.specs.Io.{StartsWith};
ghost use Rattle.std.specs.List.{flat_map, list_any};
ghost use Rattle.text_defs.specs.Cleaned.{cleaned_text};
ghost use Rattle.board_text_defs.specs.Lines.{between_tabs, line_of_fields};
ghost use Rattle.board_text.specs.Fields.{after_tab, before_tab};

use crate::NoMemory;
use texts::push_cleaned;

/// Appends a line: the fields with a tab between any two, each with a space in place of a control
/// character, and a line feed; or as much of it as memory allows.
pub(crate) fn push_line(fields: &[&str], out: &mut Vec<u8>) -> Result<(), NoMemory>
    ensures written { OnOk result
        (out.new.items ≡ out.old.items ++ line_of_fields (map (λ field. field.now) fields.now)) }
    ensures begins { StartsWith out.new.items out.old.items }
{
    push_fields(fields, out)?;
    out.push(b'\n')?;
    Ok(())
}

/// The same without the line feed.
fn push_fields(fields: &[&str], out: &mut Vec<u8>) -> Result<(), NoMemory>
    ensures written { OnOk result
        (out.new.items ≡ out.old.items ++ between_tabs (map (λ field. field.now) fields.now)) }
    ensures begins { StartsWith out.new.items out.old.items }
{
    match fields.split_first() {
        None => Ok(()),
        Some((first, others)) => {
            push_field(first.as_bytes(), out)?;
            push_others(others, out)
        }
    }
}

/// Appends the fields of a line that stand behind its first one.
fn push_others(fields: &[&str], out: &mut Vec<u8>) -> Result<(), NoMemory>
    ensures written { OnOk result (out.new.items
        ≡ out.old.items ++ flat_map after_tab (map (λ field. field.now) fields.now)) }
    ensures begins { StartsWith out.new.items out.old.items }
{
    for field in fields {
        out.push(b'\t')?;
        push_field(field.as_bytes(), out)?;
    }
    Ok(())
}

/// Appends a field with a space in place of each control character. Nearly all have none and are
/// copied as they are.
fn push_field(field: &[u8], out: &mut Vec<u8>) -> Result<(), NoMemory>
    ensures written { OnOk result (out.new.items ≡ out.old.items ++ cleaned_text field.now) }
    ensures begins { StartsWith out.new.items out.old.items }
{
    if !has_control(field) {
        return out.extend_from_slice(field);
    }
    let mut cleaned = Vec::new(*out.allocator());
    push_cleaned(field, &mut cleaned)?;
    out.extend_from_slice(cleaned.as_slice())
}

/// Whether there is a control character in a field.
fn has_control(field: &[u8]) -> bool
    ensures { result ≡ list_any is_ascii_control field.now }
{
    field.iter().any(|byte| byte.is_ascii_control())
}

/// Appends fields as they are, each with a tab behind it.
pub(crate) fn push_plain(fields: &[&str], out: &mut Vec<u8>) -> Result<(), NoMemory>
    ensures written { OnOk result (out.new.items
        ≡ out.old.items ++ flat_map before_tab (map (λ field. field.now) fields.now)) }
    ensures begins { StartsWith out.new.items out.old.items }
{
    for field in fields {
        out.extend_from_slice(field.as_bytes())?;
        out.push(b'\t')?;
    }
    Ok(())
}
