//! Requests from the spans of their heads.
ghost use Rattle.std.specs.Prelude.{◌≡◌, ◌≤◌, length, IfOk};
ghost use Rattle.httparse.specs.Grammar.{RequestHead};
ghost use Rattle.httparse.specs.Spans.{IsRequestAt, IsRequestWithin, IsWithin, span_bytes};
ghost use Rattle.http_defs.specs.Heads.{request_of};

use crate::NoMemory;
use crate::fields::{carries_body, closes};
use http_defs::Request;
use httparse::spans::{HeaderSpan, RequestSpans, Span};
use rt_types::{Bytes, Text};
use std::alloc::Global;
use std::str;

/// The request of a head at the front of a buffer.
pub(crate) fn request_at(
    alloc: Global,
    buf: &[u8],
    headers: &[HeaderSpan],
    spans: RequestSpans,
) -> Result<Request, NoMemory>
    requires { IsRequestWithin buf.now headers.now spans }
    ensures { IfOk result (λ r. (head : RequestHead) → IsRequestAt buf.now headers.now spans head
        → r ≡ request_of head) }
{
    let method = text_at(alloc, buf, spans.method)?;
    let target = Bytes::new(alloc, spans.path.of(buf))?;
    let fields = &headers[..spans.headers];
    Ok(Request {
        method,
        target,
        close: closes(buf, spans.version, fields),
        body: carries_body(buf, fields),
    })
}

/// The text at a span. A method is ASCII, so that there always is one.
fn text_at(alloc: Global, buf: &[u8], span: Span) -> Result<Text, NoMemory>
    requires { IsWithin (length buf.now) span }
    ensures { IfOk result (λ text. text ≡ span_bytes buf.now span) }
{
    match str::from_utf8(span.of(buf)) {
        Ok(text) => Text::new(alloc, text),
        Err(_) => Err(NoMemory),
    }
}
