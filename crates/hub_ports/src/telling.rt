//! The lines on standard error.

ghost use Rattle.std.specs.Prelude.{◌≡◌, ◌++◌, codes, string_bytes, IfOk};
ghost use Rattle.hub_outside.specs.Writing.{WritesAll};
ghost use Rattle.hub_ports.specs.Lines as lines;
ghost use Rattle.hub_ports.specs.Lines.{Tells};

use crate::NoMemory;
use crate::told::FeedNews;
use hub_core::Refusal;
use hub_outside::{Sink, write_all};
use poll_port::{PollFault, ReplyFault};
use std::alloc::Global;
use std::io::ErrorKind;
use std::net::SocketAddr;
use texts::push_cleaned;

/// The most bytes of a version that are shown: a line is short, whatever a message has.
const LONGEST_VERSION: usize = 32;

/// Writes a line, or a front of it where the output fails. There is no place to tell that.
pub(crate) fn tell<E: Sink>(errors: &mut E, line: &[u8])
    ensures { Tells (E.written errors.old) (E.written errors.new) line.now }
{
    let _ = write_all(errors, line);
}

/// `hub: listening on <address>`, with an LF.
pub(crate) fn listening_line(alloc: Global, address: SocketAddr) -> Result<String, NoMemory>
    ensures { IfOk result (λ line. string_bytes line ≡ lines.listening_line address) }
{
    format!(in alloc; "hub: listening on {address}\n")
}

/// `hub: can't listen on <address>: <cause>`, with an LF.
pub(crate) fn no_listener_line(
    alloc: Global,
    address: &str,
    cause: ErrorKind,
) -> Result<Vec<u8>, NoMemory>
    ensures { IfOk result (λ line. line.items ≡ lines.no_listener_line address.now cause) }
{
    fault_line(alloc, "hub: can't listen on ", address, cause_text(cause))
}

/// `hub: feed <feed> can't connect to <place>: <cause>`, with the count before the cause of the
/// last where they are several, and with an LF.
pub(crate) fn no_connection_line(
    alloc: Global,
    feed: &str,
    place: &str,
    count: u64,
    cause: ErrorKind,
) -> Result<Vec<u8>, NoMemory>
    ensures { IfOk result (λ line. line.items
        ≡ lines.no_connection_line feed.now place.now count cause) }
{
    let front = connecting_text(alloc, feed)?;
    let words = counted(alloc, count, cause_text(cause))?;
    fault_line(alloc, front.as_str(), place, words.as_str())
}

fn connecting_text(alloc: Global, feed: &str) -> Result<String, NoMemory>
    ensures { IfOk result (λ text. string_bytes text ≡ lines.connecting_text feed.now) }
{
    format!(in alloc; "hub: feed {feed} can't connect to ")
}

/// `hub: can't accept a connection: <cause>`, with the count before the cause of the last where
/// they are several, and with an LF.
pub(crate) fn no_accept_line(
    alloc: Global,
    count: u64,
    cause: ErrorKind,
) -> Result<String, NoMemory>
    ensures { IfOk result (λ line. string_bytes line ≡ lines.no_accept_line count cause) }
{
    let words = counted(alloc, count, accept_text(cause))?;
    accept_line(alloc, words.as_str())
}

fn accept_line(alloc: Global, words: &str) -> Result<String, NoMemory>
    ensures { IfOk result (λ line. string_bytes line ≡ lines.accept_line words.now) }
{
    format!(in alloc; "hub: can't accept a connection: {words}\n")
}

/// `hub: feed <feed> can't read <path>: <cause>`, with an LF.
pub(crate) fn unread_line(
    alloc: Global,
    feed: &str,
    path: &str,
    cause: ErrorKind,
) -> Result<Vec<u8>, NoMemory>
    ensures { IfOk result (λ line. line.items ≡ lines.unread_line feed.now path.now cause) }
{
    let front = reading_text(alloc, feed)?;
    fault_line(alloc, front.as_str(), path, file_text(cause))
}

fn reading_text(alloc: Global, feed: &str) -> Result<String, NoMemory>
    ensures { IfOk result (λ text. string_bytes text ≡ lines.reading_text feed.now) }
{
    format!(in alloc; "hub: feed {feed} can't read ")
}

/// `hub: feed <feed> got no good reply: <fault>`, with the count before the fault of the last where
/// they are several, and with an LF.
pub(crate) fn bad_reply_line(
    alloc: Global,
    feed: &str,
    count: u64,
    fault: PollFault,
) -> Result<String, NoMemory>
    ensures { IfOk result (λ line. string_bytes line ≡ lines.bad_reply_line feed.now count fault) }
{
    let fault = fault_text(alloc, fault)?;
    let words = counted(alloc, count, fault.as_str())?;
    reply_line(alloc, feed, words.as_str())
}

fn reply_line(alloc: Global, feed: &str, words: &str) -> Result<String, NoMemory>
    ensures { IfOk result (λ line. string_bytes line ≡ lines.reply_line feed.now words.now) }
{
    format!(in alloc; "hub: feed {feed} got no good reply: {words}\n")
}

/// What has happened so often since it was told last, in words of the last time.
fn counted(alloc: Global, count: u64, words: &str) -> Result<String, NoMemory>
    ensures { IfOk result (λ text. string_bytes text ≡ lines.counted count words.now) }
{
    if count == 1 {
        String::from_str(alloc, words)
    } else {
        format!(in alloc; "{count} times, the last one: {words}")
    }
}

/// `hub: feed <feed> <news>`, with an LF.
pub(crate) fn news_line(alloc: Global, feed: &str, news: FeedNews) -> Result<String, NoMemory>
    ensures { IfOk result (λ line. string_bytes line ≡ lines.news_line feed.now news) }
{
    feed_line(alloc, feed, news_text(news))
}

fn feed_line(alloc: Global, feed: &str, words: &str) -> Result<String, NoMemory>
    ensures { IfOk result (λ line. string_bytes line ≡ lines.feed_line feed.now words.now) }
{
    format!(in alloc; "hub: feed {feed} {words}\n")
}

/// What is told of a feed, in a few words.
fn news_text(news: FeedNews) -> &'static str
    ensures { result.now ≡ lines.news_text news }
{
    match news {
        FeedNews::TooLong => "has sent a message of more than 16777216 bytes",
        FeedNews::Ended => "has ended",
        FeedNews::Failed => "has failed",
    }
}

/// How many messages of a feed were refused, with the cause of the last one; or for how many there
/// was no memory, where that is the cause. With an LF.
pub(crate) fn refusal_line(
    alloc: Global,
    feed: &str,
    count: u64,
    refusal: &Refusal,
) -> Result<String, NoMemory> {
    match refusal {
        Refusal::NoMemory => starved_line(alloc, feed, count),
        Refusal::Version(version) if version.as_str().len() > LONGEST_VERSION => {
            refused_line(alloc, feed, count, "its version isn't known")
        }
        _ => {
            let cause = format!(in alloc; "{refusal}")?;
            refused_line(alloc, feed, count, cause.as_str())
        }
    }
}

/// `hub: feed <feed>: <count> refused, the last one: <cause>`, with an LF.
fn refused_line(alloc: Global, feed: &str, count: u64, cause: &str) -> Result<String, NoMemory>
    ensures { IfOk result (λ line. string_bytes line
        ≡ lines.refused_line feed.now count cause.now) }
{
    format!(in alloc; "hub: feed {feed}: {count} refused, the last one: {cause}\n")
}

/// `hub: feed <feed>: <count> refused`, with an LF.
pub(crate) fn rest_line(alloc: Global, feed: &str, count: u64) -> Result<String, NoMemory>
    ensures { IfOk result (λ line. string_bytes line ≡ lines.rest_line feed.now count) }
{
    format!(in alloc; "hub: feed {feed}: {count} refused\n")
}

/// `hub: feed <feed>: <count> without memory`, with an LF.
pub(crate) fn starved_line(alloc: Global, feed: &str, count: u64) -> Result<String, NoMemory>
    ensures { IfOk result (λ line. string_bytes line ≡ lines.starved_line feed.now count) }
{
    format!(in alloc; "hub: feed {feed}: {count} without memory\n")
}

/// What can't be done, the address with a space for each control character, and why.
fn fault_line(alloc: Global, front: &str, address: &str, words: &str) -> Result<Vec<u8>, NoMemory>
    ensures { IfOk result (λ line. line.items ≡ lines.fault_line front.now address.now words.now) }
{
    let mut line = Vec::from_slice(alloc, front.as_bytes())?;
    push_cleaned(address.as_bytes(), &mut line)?;
    line.extend_from_slice(b": ")?;
    line.extend_from_slice(words.as_bytes())?;
    line.extend_from_slice(b"\n")?;
    Ok(line)
}

/// A cause in a few words.
fn cause_text(cause: ErrorKind) -> &'static str
    ensures { result.now ≡ lines.cause_text cause }
{
    match cause {
        ErrorKind::AddrInUse => "address in use",
        ErrorKind::AddrNotAvailable => "not an address of this machine",
        ErrorKind::ConnectionAborted => "broken off",
        ErrorKind::ConnectionRefused => "refused",
        ErrorKind::ConnectionReset => "reset",
        ErrorKind::HostUnreachable => "host not reachable",
        ErrorKind::InvalidInput => "not an address with a port",
        ErrorKind::NetworkDown => "network down",
        ErrorKind::NetworkUnreachable => "network not reachable",
        ErrorKind::NotFound => "no such host",
        ErrorKind::OutOfMemory => "out of memory",
        ErrorKind::PermissionDenied => "not permitted",
        ErrorKind::TimedOut => "no answer in time",
        _ => "a fault of the system",
    }
}

/// Why a connection can't be accepted, in a few words. The system has no kind of its own for too
/// many open files, and an input that is invalid is the listener.
fn accept_text(cause: ErrorKind) -> &'static str
    ensures { result.now ≡ lines.accept_text cause }
{
    match cause {
        ErrorKind::InvalidInput => "the listener has failed",
        ErrorKind::Uncategorized => "too many open files, or another fault of the system",
        _ => cause_text(cause),
    }
}

/// Why a file can't be read, in a few words. An input that is invalid is its path.
fn file_text(cause: ErrorKind) -> &'static str
    ensures { result.now ≡ lines.file_text cause }
{
    match cause {
        ErrorKind::IsADirectory => "it is a folder",
        ErrorKind::InvalidInput => "not a path",
        _ => cause_text(cause),
    }
}

/// Why a poll failed, in a few words.
fn fault_text(alloc: Global, fault: PollFault) -> Result<String, NoMemory>
    ensures { IfOk result (λ text. string_bytes text ≡ lines.fault_text fault) }
{
    match fault {
        PollFault::Unfit(ReplyFault::Head) => String::from_str(alloc, "it has no whole head"),
        PollFault::Unfit(ReplyFault::Status(code)) => format!(in alloc; "its status is {code}"),
        PollFault::Unfit(ReplyFault::Length) => String::from_str(alloc, "its length isn't told"),
        PollFault::Unfit(ReplyFault::Cut) => String::from_str(alloc, "it is cut short"),
        PollFault::Link => String::from_str(alloc, "the connection has failed"),
    }
}
