//! Heads in bytes that were read.
ghost use Rattle.std.specs.Prelude.{◌≡◌, ◌≤◌, List, length, IfSome, IfNone};
ghost use Rattle.httparse.specs.declared.spans.HeaderSpan.{HeaderSpan};
ghost use Rattle.http_defs.specs.Requests.{NoHead};
ghost use Rattle.http_req.specs.Progress.{progress_of};
ghost use Rattle.http_req.specs.Reading.{FoundIs, StandsAt};

use crate::progress::Progress;
use httparse::Status;
use httparse::spans::{HeaderSpan, RequestSpans, parse_request};

/// The most bytes of a head, the empty lines before it included.
pub(crate) const HEAD_LIMIT: usize = 8192;

/// The most fields of a head: a line of a field has three bytes at least, as `a:` and a line feed.
pub(crate) const MOST_FIELDS: usize = 2731;

/// What bytes begin with.
pub(crate) enum Found {
    /// A head, whose parts stand at these spans.
    Head(RequestSpans),
    /// No head yet.
    More,
    /// No head, whatever follows.
    Never,
}

/// The head that stands whole at the front of some bytes.
pub(crate) fn head_in(bytes: &[u8], headers: &mut [HeaderSpan]) -> Option<RequestSpans>
    requires fits { length bytes.now ≤ 8192 }
    requires room { 2731 ≤ length headers.old }
    ensures found { IfSome result (StandsAt bytes.now headers.new) }
    ensures none { IfNone result (NoHead bytes.now) }
{
    match look(Progress::START.after(bytes), bytes, headers) {
        Found::Head(spans) => Some(spans),
        Found::More | Found::Never => None,
    }
}

/// Looks for a head at the front of the bytes read so far.
pub(crate) fn look(progress: Progress, bytes: &[u8], headers: &mut [HeaderSpan]) -> Found
    requires progress { progress ≡ progress_of bytes.now }
    requires fits { length bytes.now ≤ 8192 }
    requires room { 2731 ≤ length headers.old }
    ensures { FoundIs bytes.now headers.new result }
{
    if progress.has_ended() {
        match parse_request(bytes, headers) {
            Ok(Status::Complete(spans)) => return Found::Head(spans),
            Ok(Status::Partial) => return unfound(bytes),
            Err(_) => return Found::Never,
        }
    }
    unfound(bytes)
}

/// What bytes with no head in front are.
fn unfound(bytes: &[u8]) -> Found
    requires { NoHead bytes.now }
    ensures { (headers : List HeaderSpan) → FoundIs bytes.now headers result }
{
    if bytes.len() < HEAD_LIMIT {
        Found::More
    } else {
        Found::Never
    }
}
