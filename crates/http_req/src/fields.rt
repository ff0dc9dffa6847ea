//! What the fields of a head tell.
ghost use Rattle.std.specs.Prelude.{◌≡◌, length, map, reverse, codes, bytes_eq, All};
ghost use Rattle.std.specs.List.{list_any};
ghost use Rattle.std.specs.Str.{str_eq_ignore_ascii_case};
ghost use Rattle.httparse.specs.Grammar.{is_ows, skip_ows, trim_ows};
ghost use Rattle.httparse.specs.Spans.{header_bytes, IsHeaderWithin};
ghost use Rattle.http_defs.specs.Heads.{is_named, has_token, is_connection_with, tells_body, closes, carries_body};

use httparse::spans::HeaderSpan;

fn is_blank_byte(byte: u8) -> bool
    ensures { result ≡ is_ows byte }
{
    byte == b' ' || byte == b'\t'
}

/// The bytes without the blanks in front of them.
fn trim_start(bytes: &[u8]) -> &[u8]
    ensures { result.now ≡ skip_ows bytes.entry.now }
{
    let mut rest = bytes;
    while let [first, behind @ ..] = rest {
        if !is_blank_byte(*first) {
            break;
        }
        rest = behind;
    }
    rest
}

/// The bytes without the blanks behind them.
fn trim_end(bytes: &[u8]) -> &[u8]
    ensures { result.now ≡ reverse (skip_ows (reverse bytes.entry.now)) }
{
    let mut rest = bytes;
    while let [before @ .., last] = rest {
        if !is_blank_byte(*last) {
            break;
        }
        rest = before;
    }
    rest
}

/// The bytes without the blanks at both ends.
#[tactic(auto, unfolding(httparse::specs::Grammar::trim_ows))]
fn trim(bytes: &[u8]) -> &[u8]
    ensures { result.now ≡ trim_ows bytes.entry.now }
{
    trim_end(trim_start(bytes))
}

/// Whether two names are the same, ASCII case aside.
fn is_same_name(name: &[u8], other: &[u8]) -> bool
    ensures { result ≡ str_eq_ignore_ascii_case name.now other.now }
{
    name.eq_ignore_ascii_case(other)
}

#[tactic(auto, unfolding(http_defs::specs::Heads::is_named))]
fn is_named(piece: &[u8], token: &[u8]) -> bool
    ensures { result ≡ is_named piece.now token.now }
{
    is_same_name(trim(piece), token)
}

fn has_token(value: &[u8], token: &[u8]) -> bool
    ensures { result ≡ has_token value.now token.now }
{
    value
        .split(|byte| *byte == b',')
        .any(|piece| is_named(piece, token))
}

#[tactic(auto, unfolding(http_defs::specs::Heads::is_connection_with))]
fn is_connection_with(name: &[u8], value: &[u8], token: &[u8]) -> bool
    ensures { result ≡ is_connection_with token.now (name.now, value.now) }
{
    is_same_name(name, b"connection") && has_token(value, token)
}

fn is_zero(value: &[u8]) -> bool
    ensures { result ≡ bytes_eq value.now (codes "0") }
{
    value == b"0".as_slice()
}

#[tactic(auto, unfolding(http_defs::specs::Heads::tells_body))]
fn tells_body(name: &[u8], value: &[u8]) -> bool
    ensures { result ≡ tells_body (name.now, value.now) }
{
    is_same_name(name, b"transfer-encoding")
        || (is_same_name(name, b"content-length") && !is_zero(value))
}

/// Whether a field is a `Connection` with the token.
fn any_connection(buf: &[u8], fields: &[HeaderSpan], token: &[u8]) -> bool
    requires { All (IsHeaderWithin (length buf.now)) fields.now }
    ensures { result ≡ list_any (is_connection_with token.now)
        (map (header_bytes buf.now) fields.now) }
{
    for field in fields {
        if is_connection_with(field.name.of(buf), field.value.of(buf), token) {
            return true;
        }
    }
    false
}

/// Whether a body may follow.
pub(crate) fn carries_body(buf: &[u8], fields: &[HeaderSpan]) -> bool
    requires { All (IsHeaderWithin (length buf.now)) fields.now }
    ensures { result ≡ carries_body (map (header_bytes buf.now) fields.now) }
{
    for field in fields {
        if tells_body(field.name.of(buf), field.value.of(buf)) {
            return true;
        }
    }
    false
}

/// Whether the connection is to be closed, by the minor version and the fields.
#[tactic(auto, unfolding(http_defs::specs::Heads::closes))]
pub(crate) fn closes(buf: &[u8], minor: u8, fields: &[HeaderSpan]) -> bool
    requires { All (IsHeaderWithin (length buf.now)) fields.now }
    ensures { result ≡ closes minor (map (header_bytes buf.now) fields.now) }
{
    any_connection(buf, fields, b"close")
        || (minor == 0 && !any_connection(buf, fields, b"keep-alive"))
}
