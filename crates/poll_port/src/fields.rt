//! What the fields of a reply's head tell.

ghost use Rattle.std.specs.Prelude.{◌≡◌, length, map, codes, All, IfSome};
ghost use Rattle.std.specs.List.{list_any};
ghost use Rattle.std.specs.Str.{str_eq_ignore_ascii_case};
ghost use Rattle.httparse.specs.Spans.{header_bytes, IsHeaderWithin, IsWithin};
ghost use Rattle.poll_port.specs.Fields.{has_name, values_of, seen_value, extent_from, length_in, extent_of};

use crate::extent::Extent;
use httparse::spans::{HeaderSpan, Span};
use texts::read_number;

/// The most digits of a length.
const MOST_DIGITS: usize = 10;

/// The greatest length of so many digits.
const LAST_LENGTH: u64 = 9_999_999_999;

/// How far the message goes by the fields of a head; or none, where they don't tell it.
#[tactic(auto, unfolding(crate::specs::Fields::extent_of))]
pub(crate) fn extent_of(buf: &[u8], fields: &[HeaderSpan]) -> Option<Extent>
    requires { All (IsHeaderWithin (length buf.now)) fields.now }
    ensures { result ≡ extent_of (map (header_bytes buf.now) fields.now) }
{
    if has_field(buf, fields, b"transfer-encoding") {
        return None;
    }
    extent_by_lengths(buf, fields)
}

/// Whether a field has the name.
fn has_field(buf: &[u8], fields: &[HeaderSpan], name: &[u8]) -> bool
    requires { All (IsHeaderWithin (length buf.now)) fields.now }
    ensures { result ≡ list_any (has_name name.now) (map (header_bytes buf.now) fields.now) }
{
    for field in fields {
        if has_name(buf, field, name) {
            return true;
        }
    }
    false
}

/// How far the message goes by the fields named Content-Length.
fn extent_by_lengths(buf: &[u8], fields: &[HeaderSpan]) -> Option<Extent>
    requires { All (IsHeaderWithin (length buf.now)) fields.now }
    ensures { result ≡ extent_from
        (values_of (codes "content-length") (map (header_bytes buf.now) fields.now)) }
{
    let mut seen: Option<Span> = None;
    for field in fields {
        if has_name(buf, field, b"content-length") {
            if seen.is_some() {
                return None;
            }
            seen = Some(field.value);
        }
    }
    extent_of_value(buf, seen)
}

/// How far the message goes by the value of Content-Length, if there is one.
fn extent_of_value(buf: &[u8], value: Option<Span>) -> Option<Extent>
    requires { IfSome value (IsWithin (length buf.now)) }
    ensures { result ≡ extent_from (seen_value buf.now value) }
{
    match value {
        Some(span) => length_in(span.of(buf)).map(Extent::Bytes),
        None => Some(Extent::ToEnd),
    }
}

/// Whether a field has the name, ASCII case aside.
#[tactic(auto, unfolding(crate::specs::Fields::has_name))]
fn has_name(buf: &[u8], field: &HeaderSpan, name: &[u8]) -> bool
    requires { IsHeaderWithin (length buf.now) field.now }
    ensures { result ≡ has_name name.now (header_bytes buf.now field.now) }
{
    is_same_name(field.name.of(buf), name)
}

/// Whether two names are the same, ASCII case aside.
fn is_same_name(name: &[u8], other: &[u8]) -> bool
    ensures { result ≡ str_eq_ignore_ascii_case name.now other.now }
{
    name.eq_ignore_ascii_case(other)
}

/// The length that a value tells.
#[tactic(auto, unfolding(crate::specs::Fields::length_in))]
fn length_in(value: &[u8]) -> Option<u64>
    ensures { result ≡ length_in value.now }
{
    read_number(value, MOST_DIGITS, 0, LAST_LENGTH)
}
