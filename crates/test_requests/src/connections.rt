//! Connections over a hub of one schedule without stops and of one feed, which sent nothing, at the
//! second 7. Boards with rows are asked for in `test_program`.
ghost use Rattle.std.specs.Prelude.{Some};
ghost use Rattle.hub_outside.specs.Memory.{bytes_left, source_faults, bytes_written, sink_faults};

use crate::given::{NOT_FOUND, head_of, hub};
use http_serve::{End, Finish, NoMemory, Session, serve_bytes, serve_connection};
use hub_outside::{FixedClock, MemorySink, MemorySource, ReadAnswer, Sink, Source, WriteAnswer};
use std::alloc::Global;
use std::cell::Cell;
use std::test::Fail;

/// A request for a combined feed, and the response to it.
const ASK: &[u8] = b"GET /feed/city HTTP/1.1\r\n\r\n";

const FEED: &[u8] =
    b"HTTP/1.1 200 OK\r\nContent-Type: application/x-protobuf\r\nContent-Length: 11\r\nX-Hub-Sequence: 0\r\nX-Hub-Moment: 7\r\nConnection: keep-alive\r\n\r\n\x0a\x09\x0a\x032.0\x10\x00\x18\x00";

/// The same where the connection closes after it.
const THOUSANDTH: &[u8] =
    b"HTTP/1.1 200 OK\r\nContent-Type: application/x-protobuf\r\nContent-Length: 11\r\nX-Hub-Sequence: 0\r\nX-Hub-Moment: 7\r\nConnection: close\r\n\r\n\x0a\x09\x0a\x032.0\x10\x00\x18\x00";

/// The response to a request for what changed in it since it is as it is.
const UNCHANGED: &[u8] =
    b"HTTP/1.1 200 OK\r\nContent-Type: application/x-protobuf\r\nContent-Length: 11\r\nX-Hub-Sequence: 0\r\nX-Hub-Moment: 7\r\nConnection: keep-alive\r\n\r\n\x0a\x09\x0a\x032.0\x10\x01\x18\x00";

/// The status, and what the schedule has no run for.
const STATUS: &[u8] =
    b"HTTP/1.1 200 OK\r\nContent-Type: text/plain; charset=utf-8\r\nContent-Length: 46\r\nX-Hub-Sequence: 0\r\nX-Hub-Moment: 7\r\nConnection: keep-alive\r\n\r\nentries\t0\nfeed\taccepted\tlast\tentities\na\t0\t0\t0\n";

const UNMATCHED: &[u8] =
    b"HTTP/1.1 200 OK\r\nContent-Type: text/plain; charset=utf-8\r\nContent-Length: 20\r\nX-Hub-Sequence: 0\r\nX-Hub-Moment: 7\r\nConnection: keep-alive\r\n\r\nfeed\tid\tkind\treason\n";

/// Refusals.
const MALFORMED: &[u8] =
    b"HTTP/1.1 400 Bad Request\r\nContent-Type: text/plain; charset=utf-8\r\nContent-Length: 12\r\nX-Hub-Sequence: 0\r\nX-Hub-Moment: 7\r\nConnection: close\r\n\r\nbad request\n";

const OUT_OF_RANGE: &[u8] =
    b"HTTP/1.1 400 Bad Request\r\nContent-Type: text/plain; charset=utf-8\r\nContent-Length: 12\r\nX-Hub-Sequence: 0\r\nX-Hub-Moment: 7\r\nConnection: keep-alive\r\n\r\nbad request\n";

const OTHER_METHOD: &[u8] =
    b"HTTP/1.1 405 Method Not Allowed\r\nContent-Type: text/plain; charset=utf-8\r\nContent-Length: 19\r\nAllow: GET\r\nX-Hub-Sequence: 0\r\nX-Hub-Moment: 7\r\nConnection: close\r\n\r\nmethod not allowed\n";

/// Serves a connection over that hub.
fn serve<S: Source, K: Sink>(
    alloc: Global,
    source: &mut S,
    sink: &mut K,
) -> Result<Session, NoMemory> {
    let mut hub = hub(alloc)?;
    let mut clock = FixedClock::new(vec![in alloc; 7]?);
    Ok(serve_connection(alloc, source, sink, &mut hub, &mut clock))
}

/// Whether the bytes are so many of these, one after another, and then the front of one.
fn repeats(bytes: &[u8], part: &[u8], count: usize) -> bool {
    let mut rest = bytes;
    for _ in 0..count {
        let Some(others) = rest.strip_prefix(part) else {
            return false;
        };
        rest = others;
    }
    part.starts_with(rest)
}

/// The request so many times.
fn asks(alloc: Global, count: usize) -> Result<Vec<u8>, NoMemory> {
    let mut input = Vec::new(alloc);
    for _ in 0..count {
        input.extend_from_slice(ASK)?;
    }
    Ok(input)
}

/// Whether a connection of these bytes ends so, after so many feeds and then that response.
fn is_served(
    alloc: Global,
    input: Vec<u8>,
    end: End,
    feeds: usize,
    last: &[u8],
) -> Result<bool, NoMemory> {
    let mut source = MemorySource::new(input, Vec::new(alloc), Vec::new(alloc));
    let mut sink = MemorySink::new(alloc, Vec::new(alloc), Vec::new(alloc));
    let session = serve(alloc, &mut source, &mut sink)?;
    let Some(front) = sink.bytes().strip_suffix(last) else {
        return Ok(false);
    };
    Ok(session.end == end && front.len() / FEED.len() == feeds && repeats(front, FEED, feeds))
}

#[test]
fn requests_are_answered(rt: HostRuntime) -> Result<(), Fail> {
    let alloc = rt.alloc();
    assert!(rt; is_served(alloc, Vec::new(alloc), End::Ended, 0, b"")?);
    assert!(rt; is_served(alloc, asks(alloc, 3)?, End::Ended, 2, FEED)?);
    let mut input = asks(alloc, 3)?;
    input.extend_from_slice(b"GE")?;
    assert!(rt; is_served(alloc, input, End::Bad, 3, MALFORMED)?);
    Ok(())
}

#[test]
fn lists_are_answered(rt: HostRuntime) -> Result<(), Fail> {
    let alloc = rt.alloc();
    let status = b"GET /status HTTP/1.1\r\n\r\n".to_vec(alloc)?;
    assert!(rt; is_served(alloc, status, End::Ended, 0, STATUS)?);
    let unmatched = b"GET /unmatched/city HTTP/1.1\r\n\r\n".to_vec(alloc)?;
    assert!(rt; is_served(alloc, unmatched, End::Ended, 0, UNMATCHED)?);
    Ok(())
}

#[test]
fn changes_are_answered(rt: HostRuntime) -> Result<(), Fail> {
    let alloc = rt.alloc();
    let kept = b"GET /feed/city?since=0 HTTP/1.1\r\n\r\n".to_vec(alloc)?;
    assert!(rt; is_served(alloc, kept, End::Ended, 0, UNCHANGED)?);
    let not_kept = b"GET /feed/city?since=1 HTTP/1.1\r\n\r\n".to_vec(alloc)?;
    assert!(rt; is_served(alloc, not_kept, End::Ended, 0, FEED)?);
    Ok(())
}

#[test]
fn heads_have_8192_bytes_at_most(rt: HostRuntime) -> Result<(), Fail> {
    let alloc = rt.alloc();
    assert!(rt;
        is_served(
            alloc,
            head_of(alloc, b"GET /feed/city?", 8192)?,
            End::Ended,
            0,
            FEED
        )?
    );
    assert!(rt;
        is_served(
            alloc,
            head_of(alloc, b"GET /feed/city?", 8193)?,
            End::Bad,
            0,
            MALFORMED
        )?
    );
    Ok(())
}

#[test]
fn other_methods_close(rt: HostRuntime) -> Result<(), Fail> {
    let alloc = rt.alloc();
    let input = b"POST /status HTTP/1.1\r\n\r\n".to_vec(alloc)?;
    assert!(rt; is_served(alloc, input, End::Closed, 0, OTHER_METHOD)?);
    Ok(())
}

#[test]
fn refusals_keep_the_connection(rt: HostRuntime) -> Result<(), Fail> {
    let alloc = rt.alloc();
    let cases: [(&[u8], &[u8]); 6] = [
        (b"GET /board/city/NO HTTP/1.1\r\n\r\n", NOT_FOUND),
        (b"GET /board/town/S3 HTTP/1.1\r\n\r\n", NOT_FOUND),
        (b"GET /alerts/city/NO HTTP/1.1\r\n\r\n", NOT_FOUND),
        (b"GET /unmatched/town HTTP/1.1\r\n\r\n", NOT_FOUND),
        (b"GET /board/city/S3?limit=0 HTTP/1.1\r\n\r\n", OUT_OF_RANGE),
        (b"GET /feed/city?since=x HTTP/1.1\r\n\r\n", OUT_OF_RANGE),
    ];
    for (input, response) in cases.iter() {
        assert!(rt; is_served(alloc, input.to_vec(alloc)?, End::Ended, 0, response)?);
    }
    Ok(())
}

#[test]
fn thousandth_closes(rt: HostRuntime) -> Result<(), Fail> {
    let alloc = rt.alloc();
    assert!(rt; is_served(alloc, asks(alloc, 1001)?, End::Closed, 999, THOUSANDTH)?);
    Ok(())
}

#[test]
fn cuts_change_nothing(rt: HostRuntime) -> Result<(), Fail> {
    let alloc = rt.alloc();
    for at in 1..27_u32 {
        let pieces = vec![in alloc; at]?;
        let mut source = MemorySource::new(asks(alloc, 1)?, pieces, Vec::new(alloc));
        let mut sink = MemorySink::new(alloc, Vec::new(alloc), Vec::new(alloc));
        let session = serve(alloc, &mut source, &mut sink)?;
        assert_eq!(rt; session.end, End::Ended);
        assert!(rt; sink.bytes() == FEED);
    }
    Ok(())
}

/// What is written for these bytes at the second 7, and why there is no further request.
fn is_written(alloc: Global, input: &[u8], finish: Finish, bytes: &[u8]) -> Result<bool, NoMemory> {
    let mut hub = hub(alloc)?;
    let transcript = serve_bytes(alloc, &mut hub, 7, input)?;
    Ok(transcript.finish == finish && transcript.written.bytes() == bytes)
}

#[test]
fn bytes_are_served(rt: HostRuntime) -> Result<(), Fail> {
    let alloc = rt.alloc();
    assert!(rt; is_written(alloc, ASK, Finish::Ended, FEED)?);
    assert!(rt; is_written(alloc, b"GE", Finish::Bad, MALFORMED)?);
    let post = b"POST /status HTTP/1.1\r\n\r\n";
    assert!(rt; is_written(alloc, post, Finish::Closed, OTHER_METHOD)?);
    Ok(())
}

#[test]
fn each_read_fails_in_turn(rt: HostRuntime) -> Result<(), Fail> {
    let alloc = rt.alloc();
    for call in 1..82_u64 {
        let pieces = vec![in alloc; 1; 81]?;
        let mut source = MemorySource::new(asks(alloc, 3)?, pieces, vec![in alloc; call]?);
        let mut sink = MemorySink::new(alloc, Vec::new(alloc), Vec::new(alloc));
        let session = serve(alloc, &mut source, &mut sink)?;
        let whole = session.moments.len();
        assert_eq!(rt; session.end, End::ReadFault);
        assert_eq!(rt; whole, (call as usize - 1) / ASK.len());
        assert!(rt; sink.bytes().len() / FEED.len() == whole && repeats(sink.bytes(), FEED, whole));
    }
    Ok(())
}

#[test]
fn each_write_fails_in_turn(rt: HostRuntime) -> Result<(), Fail> {
    let alloc = rt.alloc();
    for call in 1..460_u64 {
        let pieces = vec![in alloc; 1; 460]?;
        let mut source = MemorySource::new(asks(alloc, 3)?, Vec::new(alloc), Vec::new(alloc));
        let mut sink = MemorySink::new(alloc, pieces, vec![in alloc; call]?);
        let session = serve(alloc, &mut source, &mut sink)?;
        let whole = session.numbers.len();
        let written = sink.bytes().len();
        let wanted = (call as usize - 1).min(3 * FEED.len());
        assert_eq!(rt; written, wanted);
        assert_eq!(rt; whole, written / FEED.len());
        assert!(rt; repeats(sink.bytes(), FEED, whole));
        assert_eq!(rt; session.end == End::WriteFault, whole < 3);
    }
    Ok(())
}

#[test]
fn a_write_fails_after_a_whole_response(rt: HostRuntime) -> Result<(), Fail> {
    let alloc = rt.alloc();
    let mut source = MemorySource::new(asks(alloc, 3)?, Vec::new(alloc), Vec::new(alloc));
    let mut sink = MemorySink::new(alloc, Vec::new(alloc), vec![in alloc; 2]?);
    let session = serve(alloc, &mut source, &mut sink)?;
    assert_eq!(rt; session.end, End::WriteFault);
    assert_eq!(rt; session.numbers.len(), 1);
    assert!(rt; sink.bytes() == FEED);
    Ok(())
}

/// A source that compares, at each read, how many bytes its sink has got with those of all
/// responses so far.
#[derive(Drop)]
struct Watching<'a> {
    source: MemorySource,
    got: &'a Cell<usize>,
    wanted: usize,
    is_in_order: bool,
}

impl<'a> Source for Watching<'a> {
    ghost left = { λ s. Some (bytes_left s.source) };

    ghost faults = { λ s. source_faults s.source };

    fn read(&mut self, into: &mut [u8]) -> ReadAnswer {
        self.is_in_order = self.is_in_order && self.got.get() == self.wanted;
        self.wanted = self.wanted.saturating_add(FEED.len());
        self.source.read(into)
    }
}

/// A sink that tells how many bytes it has got.
#[derive(Drop)]
struct Counting<'a> {
    sink: MemorySink,
    got: &'a Cell<usize>,
}

impl<'a> Sink for Counting<'a> {
    ghost written = { λ s. Some (bytes_written s.sink) };

    ghost faults = { λ s. sink_faults s.sink };

    fn write(&mut self, bytes: &[u8]) -> WriteAnswer {
        let answer = self.sink.write(bytes);
        self.got.set(self.sink.bytes().len());
        answer
    }
}

#[test]
fn responses_are_whole_before_more_is_read(rt: HostRuntime) -> Result<(), Fail> {
    let alloc = rt.alloc();
    let got = Cell::new(0);
    let mut source = Watching {
        source: MemorySource::new(
            asks(alloc, 3)?,
            vec![in alloc; 27, 27, 27]?,
            Vec::new(alloc),
        ),
        got: &got,
        wanted: 0,
        is_in_order: true,
    };
    let mut sink = Counting {
        sink: MemorySink::new(alloc, Vec::new(alloc), Vec::new(alloc)),
        got: &got,
    };
    let session = serve(alloc, &mut source, &mut sink)?;
    assert_eq!(rt; session.end, End::Ended);
    assert!(rt; source.is_in_order && source.wanted == 4 * FEED.len());
    Ok(())
}
