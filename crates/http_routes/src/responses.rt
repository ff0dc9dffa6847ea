//! The bytes of responses.
ghost use Rattle.std.specs.Prelude.{◌≡◌, ◌≤◌, ◌==◌, ◌||◌, ◌++◌, true, length, drop, IfOk, OnOk, OnErr};
ghost use Rattle.std.specs.Io.{StartsWith};
ghost use Rattle.http_defs.specs.Responses.{allow_line, connection_text, crlf, head_bytes, number_line, refusal_text, response, status_of, status_text, text_line, type_text};

use crate::NoMemory;
use http_defs::{BodyKind, Status};
use itoa::Buffer;
use std::alloc::Global;

/// The most bytes of a head: of each line its longest text, and numbers of 20 digits.
pub const LONGEST_HEAD: usize = 224;

/// Appends a response to `out`: its status, 200, 400, 404 or 405, its head and its body. `number`
/// is that of the last message that the body knows of, `moment` the second since 1970 for which it
/// holds, and `close` says that the connection closes behind it. After want of memory `out` holds
/// what it held.
pub fn response_bytes(
    status: u16,
    body_kind: BodyKind,
    body: &[u8],
    number: u64,
    moment: u64,
    close: bool,
    out: &mut Vec<u8>,
) -> Result<(), NoMemory>
    requires status_is_known { (status == 200) || (status == 400) || (status == 404)
        || (status == 405) ≡ true }
    ensures appends_the_response { OnOk result (out.new.items ≡ out.old.items
        ++ response status body_kind body.now number moment close) }
    ensures leaves_what_was_held { OnErr result (out.new.items ≡ out.old.items) }
{
    let held = out.len();
    let written = push_response(status, body_kind, body, number, moment, close, out);
    if written.is_err() {
        out.truncate(held);
    }
    written
}

/// Appends a response, or as much of it as memory allows.
#[tactic(auto, unfolding(http_defs::specs::Responses::response))]
fn push_response(
    status: u16,
    body_kind: BodyKind,
    body: &[u8],
    number: u64,
    moment: u64,
    close: bool,
    out: &mut Vec<u8>,
) -> Result<(), NoMemory>
    ensures written { OnOk result (out.new.items ≡ out.old.items
        ++ response status body_kind body.now number moment close) }
    ensures begins { StartsWith out.new.items out.old.items }
{
    let size = body.len() as u64;
    push_head(
        status_of(status),
        body_kind,
        size,
        number,
        moment,
        close,
        out,
    )?;
    out.extend_from_slice(body)
}

/// Puts the head of a response before its body, which is there after room for [`LONGEST_HEAD`]
/// bytes, and answers where the response begins; or runs out of memory for the head. What is before
/// the response counts for nothing.
#[tactic(auto, unfolding(http_defs::specs::Responses::response))]
pub fn put_head(
    status: u16,
    body_kind: BodyKind,
    number: u64,
    moment: u64,
    close: bool,
    bytes: &mut Vec<u8>,
) -> Result<usize, NoMemory>
    requires status_is_known { (status == 200) || (status == 400) || (status == 404)
        || (status == 405) ≡ true }
    requires room_for_a_head { LONGEST_HEAD ≤ length bytes.old.items }
    ensures begins_within { IfOk result (λ start. start ≤ length bytes.new.items) }
    ensures makes_the_response { IfOk result (λ start. drop start bytes.new.items
        ≡ response status body_kind (drop LONGEST_HEAD bytes.old.items) number moment close) }
{
    let size = (bytes.len() - LONGEST_HEAD) as u64;
    let head = head_of(
        *bytes.allocator(),
        status_of(status),
        body_kind,
        size,
        number,
        moment,
        close,
    )?;
    let start = LONGEST_HEAD - head.len();
    bytes[start..LONGEST_HEAD].copy_from_slice(head.as_slice());
    Ok(start)
}

/// The body of a refusal by its status, 400, 404 or 405.
#[tactic(auto, unfolding(http_defs::specs::Responses::refusal_text))]
pub fn refusal_body(status: u16) -> &'static [u8]
    requires status_is_known { (status == 400) || (status == 404) || (status == 405) ≡ true }
    ensures is_the_body { result.now ≡ refusal_text (status_of status) }
{
    match status_of(status) {
        Status::Ok => b"",
        Status::BadRequest => b"bad request\n",
        Status::NotFound => b"not found\n",
        Status::MethodNotAllowed => b"method not allowed\n",
    }
}

fn status_of(code: u16) -> Status
    ensures { result ≡ status_of code }
{
    match code {
        200 => Status::Ok,
        400 => Status::BadRequest,
        404 => Status::NotFound,
        _ => Status::MethodNotAllowed,
    }
}

#[tactic(auto, unfolding(http_defs::specs::Responses::status_text))]
fn status_text(status: Status) -> &'static str
    ensures { result.now ≡ status_text status }
{
    match status {
        Status::Ok => "200 OK",
        Status::BadRequest => "400 Bad Request",
        Status::NotFound => "404 Not Found",
        Status::MethodNotAllowed => "405 Method Not Allowed",
    }
}

#[tactic(auto, unfolding(http_defs::specs::Responses::type_text))]
fn type_text(kind: BodyKind) -> &'static str
    ensures { result.now ≡ type_text kind }
{
    match kind {
        BodyKind::Text => "text/plain; charset=utf-8",
        BodyKind::Json => "application/json",
        BodyKind::Feed => "application/x-protobuf",
    }
}

#[tactic(auto, unfolding(http_defs::specs::Responses::connection_text))]
fn connection_text(close: bool) -> &'static str
    ensures { result.now ≡ connection_text close }
{
    if close { "close" } else { "keep-alive" }
}

/// Appends the line feed of a head's line, or as much of it as memory allows, as all below do.
#[tactic(auto, unfolding(http_defs::specs::Responses::crlf))]
fn end_line(out: &mut Vec<u8>) -> Result<(), NoMemory>
    ensures written { OnOk result (out.new.items ≡ out.old.items ++ crlf) }
    ensures begins { StartsWith out.new.items out.old.items }
{
    out.extend_from_slice(b"\r\n")
}

/// Appends a line that says a text.
#[tactic(auto, unfolding(http_defs::specs::Responses::text_line))]
fn push_text(name: &str, text: &str, out: &mut Vec<u8>) -> Result<(), NoMemory>
    ensures written { OnOk result
        (out.new.items ≡ out.old.items ++ text_line name.now text.now) }
    ensures begins { StartsWith out.new.items out.old.items }
{
    out.extend_from_slice(name.as_bytes())?;
    out.extend_from_slice(text.as_bytes())?;
    end_line(out)
}

/// Appends a line that says a number.
#[tactic(auto, unfolding(http_defs::specs::Responses::text_line, http_defs::specs::Responses::number_line))]
fn push_number(name: &str, number: u64, out: &mut Vec<u8>) -> Result<(), NoMemory>
    ensures written { OnOk result
        (out.new.items ≡ out.old.items ++ number_line name.now number) }
    ensures begins { StartsWith out.new.items out.old.items }
{
    let mut digits = Buffer::new();
    push_text(name, digits.format(number), out)
}

/// Appends the methods that there are, where another one was asked.
#[tactic(auto, unfolding(http_defs::specs::Responses::text_line, http_defs::specs::Responses::allow_line))]
fn push_allowed(status: Status, out: &mut Vec<u8>) -> Result<(), NoMemory>
    ensures written { OnOk result (out.new.items ≡ out.old.items ++ allow_line status) }
    ensures begins { StartsWith out.new.items out.old.items }
{
    match status {
        Status::MethodNotAllowed => push_text("Allow: ", "GET", out),
        Status::Ok | Status::BadRequest | Status::NotFound => Ok(()),
    }
}

/// The head of a response with a body of that size.
fn head_of(
    alloc: Global,
    status: Status,
    kind: BodyKind,
    size: u64,
    number: u64,
    moment: u64,
    close: bool,
) -> Result<Vec<u8>, NoMemory>
    ensures written { IfOk result (λ head. head.items
        ≡ head_bytes status kind size number moment close) }
    ensures short { IfOk result (λ head. length head.items ≤ LONGEST_HEAD) }
{
    let mut head = Vec::with_capacity(alloc, LONGEST_HEAD)?;
    push_head(status, kind, size, number, moment, close, &mut head)?;
    Ok(head)
}

/// Appends it, or as much of it as memory allows.
fn push_head(
    status: Status,
    kind: BodyKind,
    size: u64,
    number: u64,
    moment: u64,
    close: bool,
    out: &mut Vec<u8>,
) -> Result<(), NoMemory>
    ensures written { OnOk result (out.new.items
        ≡ out.old.items ++ head_bytes status kind size number moment close) }
    ensures begins { StartsWith out.new.items out.old.items }
{
    push_text("HTTP/1.1 ", status_text(status), out)?;
    push_text("Content-Type: ", type_text(kind), out)?;
    push_number("Content-Length: ", size, out)?;
    push_allowed(status, out)?;
    push_number("X-Hub-Sequence: ", number, out)?;
    push_number("X-Hub-Moment: ", moment, out)?;
    push_text("Connection: ", connection_text(close), out)?;
    end_line(out)
}
