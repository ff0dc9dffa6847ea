//! The head of a reply.

ghost use Rattle.std.specs.Prelude.{◌≡◌, ◌≤◌, ◌<◌, ◌-◌, List, length, take, drop, is_some};
ghost use Rattle.httparse.specs.Grammar.{ResponseHead, HasNoResponse};
ghost use Rattle.httparse.specs.Spans.{IsResponseAt, IsResponseWithin};
ghost use Rattle.httparse.specs.declared.spans.HeaderSpan.{HeaderSpan};
ghost use Rattle.hub_outside.specs.Source.{IsReadWithin, TakesBytes, HasReadCause};
ghost use Rattle.poll_port.specs.Reading.{StandsAt, FoundIs, JudgesExtent, JudgesHead, ReadsHead, HasHeadCause};

use crate::extent::Extent;
use crate::faults::ReplyFault;
use crate::fields::extent_of;
use httparse::Status;
use httparse::spans::{HeaderSpan, ResponseSpans, parse_response};
use hub_outside::{ReadAnswer, Source};

/// The most bytes of a head, the empty lines before it included.
pub(crate) const HEAD_LIMIT: usize = 8192;

/// The most fields of a head: a line of a field has three bytes at least, as `a:` and a line feed.
pub(crate) const MOST_FIELDS: usize = 2731;

/// The status of a reply that has what was asked for.
const SUCCESS: u16 = 200;

/// What bytes begin with.
pub(crate) enum Found {
    /// A head, whose parts stand at these spans.
    Head(ResponseSpans),
    /// No head yet.
    More,
    /// No head, whatever follows.
    Never,
}

/// What reading the head of a reply came to.
#[derive(Clone, Copy)]
pub(crate) enum HeadRead {
    /// The head of a good reply: how far its message goes, where it begins in the buffer, and how
    /// many bytes of the buffer were read.
    Good(Extent, usize, usize),
    /// What came is no head of a good reply.
    Unfit(ReplyFault),
    /// The source failed.
    Failed,
}

/// Reads the head of a reply into the buffer, and perhaps the first bytes of its message.
pub(crate) fn read_head<S: Source>(
    source: &mut S,
    buf: &mut [u8],
    headers: &mut [HeaderSpan],
) -> HeadRead
    requires full { length buf.old ≡ 8192 }
    requires room { 2731 ≤ length headers.old }
    ensures reads { ReadsHead result (S.left source.old) (S.left source.new) buf.new }
    ensures told { is_some (S.left source.new) ≡ is_some (S.left source.old) }
    ensures cause { HasHeadCause result (S.faults source.old) (S.faults source.new) }
{
    let mut filled = 0;
    'heads: loop {
        match look(&buf[..filled], headers) {
            Found::Head(spans) => return good_head(&buf[..filled], headers, spans),
            Found::Never => return HeadRead::Unfit(ReplyFault::Head),
            Found::More => {}
        }
        match read_behind(source, buf, filled) {
            ReadAnswer::Got(count) => filled += count,
            ReadAnswer::End => return HeadRead::Unfit(ReplyFault::Head),
            ReadAnswer::Failed => return HeadRead::Failed,
        }
    }
}

/// Looks for a head at the front of the bytes read so far.
fn look(bytes: &[u8], headers: &mut [HeaderSpan]) -> Found
    requires fits { length bytes.now ≤ 8192 }
    requires room { 2731 ≤ length headers.old }
    ensures { FoundIs bytes.now headers.new result }
{
    match parse_response(bytes, headers) {
        Ok(Status::Complete(spans)) => Found::Head(spans),
        Ok(Status::Partial) => unfound(bytes),
        Err(_) => Found::Never,
    }
}

/// What bytes with no head in front are.
fn unfound(bytes: &[u8]) -> Found
    requires { HasNoResponse bytes.now }
    ensures { (headers : List HeaderSpan) → FoundIs bytes.now headers result }
{
    if bytes.len() < HEAD_LIMIT {
        Found::More
    } else {
        Found::Never
    }
}

/// One read behind the first bytes of a buffer, which stay.
fn read_behind<S: Source>(source: &mut S, buf: &mut [u8], filled: usize) -> ReadAnswer
    requires full { length buf.old ≡ 8192 }
    requires room { filled < 8192 }
    ensures within { IsReadWithin result (8192 - filled) }
    ensures front { take filled buf.new ≡ take filled buf.old }
    ensures bytes { TakesBytes result (S.left source.old) (S.left source.new)
        (drop filled buf.new) }
    ensures told { is_some (S.left source.new) ≡ is_some (S.left source.old) }
    ensures cause { HasReadCause result (S.faults source.old) (S.faults source.new) }
{
    source.read(&mut buf[filled..HEAD_LIMIT])
}

/// What a head that came whole is.
fn good_head(bytes: &[u8], headers: &[HeaderSpan], spans: ResponseSpans) -> HeadRead
    requires { StandsAt bytes.now headers.now spans }
    ensures { JudgesHead result bytes.now }
{
    match extent_at(bytes, headers, spans) {
        Ok(extent) => HeadRead::Good(extent, spans.len, bytes.len()),
        Err(fault) => HeadRead::Unfit(fault),
    }
}

/// How far the message behind a head goes; or what is wrong with the head.
fn extent_at(
    bytes: &[u8],
    headers: &[HeaderSpan],
    spans: ResponseSpans,
) -> Result<Extent, ReplyFault>
    requires { IsResponseWithin bytes.now headers.now spans }
    ensures { (head : ResponseHead) → IsResponseAt bytes.now headers.now spans head
        → JudgesExtent result head }
{
    if spans.code != SUCCESS {
        return Err(ReplyFault::Status(spans.code));
    }
    match extent_of(bytes, &headers[..spans.headers]) {
        Some(extent) => Ok(extent),
        None => Err(ReplyFault::Length),
    }
}
