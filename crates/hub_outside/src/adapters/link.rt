//! The two ends of a connection of the system, and the times within which its client has to ask and
//! to take what it is told.
ghost use Rattle.std.specs.Prelude.{◌≡◌, ◌<◌, ◌≤◌, None, IfSome, length};
ghost use Rattle.hub_outside.specs.Adapters.{tcp_source_faults, tcp_sink_faults};
ghost use Rattle.hub_outside.specs.Sink.{IsWriteWithin, HasWriteCause};
ghost use Rattle.hub_outside.specs.Source.{IsReadWithin, HasReadCause};

use super::limits::{moment, time_left};
use super::retry::{read_once, write_once};
use super::{sink, source};
use crate::sinks::{Sink, WriteAnswer};
use crate::sources::{ReadAnswer, Source};
use std::alloc::Global;
use std::net::{Shutdown, TcpStream};
use std::sync::Arc;
use std::sync::atomic::{AtomicBool, AtomicU64, Ordering};
use std::time::Duration;
use std::{io, rt};

/// How many milliseconds a whole request head may take, from the end of the last response on.
const HEAD_MILLISECONDS: u64 = 10_000;

/// How many milliseconds a whole response may take.
const RESPONSE_MILLISECONDS: u64 = 60_000;

/// For how many milliseconds, and how many bytes, what a client still sends is read once its
/// connection is to be closed.
const CLOSING_MILLISECONDS: u64 = 1_000;

const CLOSING_BYTES: usize = 1 << 16;

/// How many of these bytes are read at a time.
const PIECE: usize = 1 << 12;

/// What both ends of a connection share. One thread at a time has both.
#[derive(Drop)]
struct Line {
    stream: TcpStream,
    // Whether nothing was read since something was written, or at all: what is read next is of a
    // new head, and what is written next goes on with a response.
    is_answered: AtomicBool,
    // When the server began to wait for the last head, in milliseconds of a clock that never goes
    // back. Before the first it is the last moment of all, so that no time has passed since.
    since: AtomicU64,
}

/// Where the bytes of a connection come from. A head has ten seconds in all, from the end of the
/// last response on, or from where the connection was accepted: once they have passed a read fails.
/// What is read after something was written is of a new head.
#[derive(Drop)]
pub struct TcpSource<C> {
    line: Arc<Line>,
    clock: C,
    is_short: bool,
    is_over: bool,
    faults: u64,
}

/// Where the answers on a connection go. One that is written at once has sixty seconds. All that is
/// written between two reads ends at most seventy seconds from where the server began to wait for
/// what it answers: once they have passed a write fails.
#[derive(Drop)]
pub struct TcpSink<C> {
    line: Arc<Line>,
    clock: C,
    is_short: bool,
    faults: u64,
}

/// The two ends of a connection, with its times set, and with small responses sent at once
/// (TCP_NODELAY); or none, where it can't be made ready.
pub(crate) fn ends_of<C: rt::Clock + Copy>(
    alloc: Global,
    stream: TcpStream,
    clock: &C,
) -> Option<(TcpSource<C>, TcpSink<C>)> {
    set_times(&stream).ok()?;
    let line = Line {
        stream,
        is_answered: AtomicBool::new(true),
        since: AtomicU64::new(u64::MAX),
    };
    let line = Arc::new(alloc, line).ok()?;
    let input = TcpSource {
        line: Arc::try_clone(&line).ok()?,
        clock: *clock,
        is_short: false,
        is_over: false,
        faults: 0,
    };
    let output = TcpSink {
        line,
        clock: *clock,
        is_short: false,
        faults: 0,
    };
    Some((input, output))
}

/// Sets the times that a whole head and a whole response have.
fn set_times(stream: &TcpStream) -> io::Result<()> {
    stream.set_read_timeout(Some(Duration::from_millis(HEAD_MILLISECONDS)))?;
    stream.set_write_timeout(Some(Duration::from_millis(RESPONSE_MILLISECONDS)))?;
    stream.set_nodelay(true)
}

impl<C: rt::Clock> Source for TcpSource<C> {
    ghost left = { λ _. None };

    ghost faults = { tcp_source_faults };

    /// Reads once, and again where a signal cut the read short.
    fn read(&mut self, into: &mut [u8]) -> ReadAnswer
        requires { 0 < length into.old }
        ensures within { IsReadWithin result (length into.old) }
        ensures cause { HasReadCause result (tcp_source_faults self.old)
            (tcp_source_faults self.new) }
    {
        let answer = read_in_time(&self.line, &self.clock, &mut self.is_short, into);
        match answer {
            ReadAnswer::Got(_) => {}
            ReadAnswer::End => self.is_over = true,
            ReadAnswer::Failed => {
                self.is_over = true;
                self.faults = self.faults.saturating_add(1);
            }
        }
        answer
    }
}

impl<C: rt::Clock> Sink for TcpSink<C> {
    ghost written = { λ _. None };

    ghost faults = { tcp_sink_faults };

    /// Writes once, and again where a signal cut the write short.
    fn write(&mut self, bytes: &[u8]) -> WriteAnswer
        requires { 0 < length bytes.now }
        ensures within { IsWriteWithin result (length bytes.now) }
        ensures cause { HasWriteCause result (tcp_sink_faults self.old)
            (tcp_sink_faults self.new) }
    {
        let answer = write_in_time(&self.line, &self.clock, &mut self.is_short, bytes);
        if answer == WriteAnswer::Failed {
            self.faults = self.faults.saturating_add(1);
        }
        answer
    }
}

/// One read, for as long as the head may still take.
fn read_in_time<C: rt::Clock>(
    line: &Line,
    clock: &C,
    is_short: &mut bool,
    into: &mut [u8],
) -> ReadAnswer
    requires { 0 < length into.old }
    ensures { IsReadWithin result (length into.old) }
{
    match limit_head(line, clock, is_short) {
        Some(()) => source::answer_of(read_once(&mut &line.stream, into)),
        None => ReadAnswer::Failed,
    }
}

/// One write, for as long as the response may still take.
fn write_in_time<C: rt::Clock>(
    line: &Line,
    clock: &C,
    is_short: &mut bool,
    bytes: &[u8],
) -> WriteAnswer
    requires { 0 < length bytes.now }
    ensures { IsWriteWithin result (length bytes.now) }
{
    match limit_response(line, clock, is_short) {
        Some(()) => sink::answer_of(write_once(&mut &line.stream, bytes)),
        None => WriteAnswer::Failed,
    }
}

/// Sets how long the next read may wait, where that isn't so already: for a new head the whole
/// time, for a further piece of one what is left. None is left once the time has passed. `is_short`
/// says whether less than the whole time is set.
fn limit_head<C: rt::Clock>(line: &Line, clock: &C, is_short: &mut bool) -> Option<()> {
    let now = moment(clock)?;
    let left = if line.is_answered.swap(false, Ordering::Relaxed) {
        line.since.store(now, Ordering::Relaxed);
        HEAD_MILLISECONDS
    } else {
        time_left(HEAD_MILLISECONDS, line.since.load(Ordering::Relaxed), now)?
    };
    let is_whole = left == HEAD_MILLISECONDS;
    if *is_short || !is_whole {
        let time = Duration::from_millis(left);
        line.stream.set_read_timeout(Some(time)).ok()?;
    }
    *is_short = !is_whole;
    Some(())
}

/// Sets how long the next write may wait, where that isn't so already: the first after a read has
/// the whole time of a response, a further one what is left of it where the head took all of its
/// own.
fn limit_response<C: rt::Clock>(line: &Line, clock: &C, is_short: &mut bool) -> Option<()> {
    let left = if line.is_answered.swap(true, Ordering::Relaxed) {
        let whole = HEAD_MILLISECONDS + RESPONSE_MILLISECONDS;
        time_left(whole, line.since.load(Ordering::Relaxed), moment(clock)?)?.min(
            RESPONSE_MILLISECONDS,
        )
    } else {
        RESPONSE_MILLISECONDS
    };
    let is_whole = left == RESPONSE_MILLISECONDS;
    if *is_short || !is_whole {
        let time = Duration::from_millis(left);
        line.stream.set_write_timeout(Some(time)).ok()?;
    }
    *is_short = !is_whole;
    Some(())
}

/// Closes a connection so that what was written last still arrives (RFC 9112, section 9.6): no more
/// is sent, and what the client still sends is read and dropped, for a second in all, up to 64 KiB.
/// Bytes that nobody reads would have the system take the answer away by a reset. Where the client
/// has closed already, or an end has failed, it is closed at once.
pub(crate) fn close<C: rt::Clock + Copy>(input: TcpSource<C>, output: TcpSink<C>) {
    if input.is_over || output.faults > 0 {
        return;
    }
    let stream = &input.line.stream;
    let Ok(()) = stream.shutdown(Shutdown::Write) else {
        return;
    };
    if let Some(since) = moment(&input.clock) {
        drop_rest(stream, &input.clock, since);
    }
}

/// Reads what a client still sends, as far as it is to be read, from that moment on.
fn drop_rest<C: rt::Clock>(stream: &TcpStream, clock: &C, since: u64) {
    let mut piece = [0u8; PIECE];
    let mut room = CLOSING_BYTES;
    'pieces: while room > 0 {
        match drop_piece(stream, clock, since, &mut piece) {
            Some(count) => room -= count.min(room),
            None => return,
        }
    }
}

/// How many bytes the next read gives; or none, at the end, where it fails, and once the time has
/// passed.
fn drop_piece<C: rt::Clock>(
    stream: &TcpStream,
    clock: &C,
    since: u64,
    piece: &mut [u8],
) -> Option<usize>
    ensures { IfSome result (λ count. 1 ≤ count) }
{
    let left = time_left(CLOSING_MILLISECONDS, since, moment(clock)?)?;
    let time = Duration::from_millis(left);
    stream.set_read_timeout(Some(time)).ok()?;
    match read_once(&mut &*stream, piece) {
        Ok(0) | Err(_) => None,
        Ok(count) => Some(count),
    }
}
