//! Polling ports, over links in memory, with ample memory.

ghost use Rattle.std.specs.Prelude.{◌≤◌, None};

use crate::given::{buffer, comes_to, copy, hands_in};
use feed_port::{FeedPort, LONGEST_MESSAGE, NoMemory, PortAnswer};
use hub_outside::{MemoryDoor, MemoryLink, MemorySink, MemorySource};
use poll_port::{PollEar, PollFault, PollPort, ReplyFault};
use std::alloc::Global;
use std::test::Fail;

/// A reply with the bytes `fed` as its message.
const FED: &[u8] = b"HTTP/1.1 200 OK\r\nContent-Length: 3\r\n\r\nfed";

/// An ear that notes the first faults, up to three, and how many there were.
#[derive(Clone, Copy, Debug, PartialEq, Eq)]
struct Noted {
    first: Option<PollFault>,
    second: Option<PollFault>,
    third: Option<PollFault>,
    count: u32,
}

/// Before the first fault.
const NOTHING: Noted = Noted {
    first: None,
    second: None,
    third: None,
    count: 0,
};

impl PollEar for Noted {
    ghost heard = { λ _. None };

    fn hear(&mut self, fault: PollFault) {
        match self.count {
            0 => self.first = Some(fault),
            1 => self.second = Some(fault),
            2 => self.third = Some(fault),
            _ => {}
        }
        self.count = self.count.saturating_add(1);
    }
}

/// A link on which these bytes come, the first of them in pieces.
fn link(alloc: Global, bytes: &[u8]) -> Result<MemoryLink, NoMemory> {
    let pieces = vec![in alloc; 1, 1, 7, 1]?;
    Ok(MemoryLink {
        input: MemorySource::new(copy(alloc, bytes)?, pieces, Vec::new(alloc)),
        output: MemorySink::new(alloc, Vec::new(alloc), Vec::new(alloc)),
    })
}

/// A port over these links, without end of its polls.
fn port(
    alloc: Global,
    links: Vec<MemoryLink>,
    tries: u32,
) -> Result<PollPort<MemoryDoor, Noted>, NoMemory>
    requires { 1 ≤ tries }
{
    let door = MemoryDoor::new(alloc, links, Vec::new(alloc))?;
    PollPort::new(alloc, door, "agency:80", "/feed", 0, tries, NOTHING)
}

/// A message, a 404, and a message that goes to the end of its connection.
fn three_links(alloc: Global) -> Result<Vec<MemoryLink>, NoMemory> {
    let first = link(alloc, FED)?;
    let second = link(alloc, b"HTTP/1.0 404 Not Found\r\n\r\n")?;
    let third = link(alloc, b"HTTP/1.0 200 OK\n\nnew")?;
    Ok(vec![in alloc; first, second, third]?)
}

/// Whether a port with two tries passes over the 404.
fn two_tries(alloc: Global) -> Result<bool, NoMemory> {
    let mut into = buffer(alloc)?;
    let mut port = port(alloc, three_links(alloc)?, 2)?;
    let first = hands_in(&mut port, &mut into, b"fed");
    let second = hands_in(&mut port, &mut into, b"new");
    Ok(first && second && comes_to(&mut port, &mut into, PortAnswer::End))
}

#[test]
fn a_bad_reply_is_passed_over(rt: HostRuntime) -> Result<(), Fail> {
    assert!(rt; two_tries(rt.alloc())?);
    Ok(())
}

/// Whether a port with one try fails at the 404, and goes on behind it.
fn one_try(alloc: Global) -> Result<bool, NoMemory> {
    let mut into = buffer(alloc)?;
    let mut port = port(alloc, three_links(alloc)?, 1)?;
    let first = hands_in(&mut port, &mut into, b"fed");
    let failed = comes_to(&mut port, &mut into, PortAnswer::Failed);
    let second = hands_in(&mut port, &mut into, b"new");
    Ok(first && failed && second && comes_to(&mut port, &mut into, PortAnswer::End))
}

#[test]
fn a_bad_reply_fails_without_a_further_try(rt: HostRuntime) -> Result<(), Fail> {
    assert!(rt; one_try(rt.alloc())?);
    Ok(())
}

/// Whether a port over one link with these bytes comes to that.
fn answers(alloc: Global, bytes: &[u8], answer: PortAnswer) -> Result<bool, NoMemory> {
    let mut into = buffer(alloc)?;
    let mut port = port(alloc, vec![in alloc; link(alloc, bytes)?]?, 1)?;
    Ok(comes_to(&mut port, &mut into, answer))
}

/// Whether a port over each of these comes to that.
fn all_answer(alloc: Global, replies: &[&[u8]], answer: PortAnswer) -> Result<bool, NoMemory> {
    for bytes in replies {
        if !answers(alloc, bytes, answer)? {
            return Ok(false);
        }
    }
    Ok(true)
}

/// Replies that are no good ones.
const BAD: [&[u8]; 9] = [
    b"",
    b"HTTP/1.1 200 OK\r\nContent-Length: 3\r\n\r\nfe",
    b"HTTP/1.1 404 Not Found\r\nContent-Length: 3\r\n\r\nfed",
    b"HTTP/1.1 200 OK\r\nTransfer-Encoding: chunked\r\n\r\n3\r\nfed\r\n0\r\n\r\n",
    b"HTTP/1.1 200 OK\r\nContent-Length: 3\r\ncontent-length: 3\r\n\r\nfed",
    b"HTTP/1.1 200 OK\r\nContent-Length: 00000000003\r\n\r\nfed",
    b"HTTP/1.1 200 OK\r\nContent-Length: +3\r\n\r\nfed",
    b"HTTP/1.1 200 OK\r\nContent-Length: 3\r\n",
    b"HTTP/2 200\r\n\r\nfed",
];

#[test]
fn no_good_replies_fail(rt: HostRuntime) -> Result<(), Fail> {
    assert!(rt; all_answer(rt.alloc(), &BAD, PortAnswer::Failed)?);
    Ok(())
}

/// What is wrong with each of them.
const FAULTS: [ReplyFault; 9] = [
    ReplyFault::Head,
    ReplyFault::Cut,
    ReplyFault::Status(404),
    ReplyFault::Length,
    ReplyFault::Length,
    ReplyFault::Length,
    ReplyFault::Length,
    ReplyFault::Head,
    ReplyFault::Head,
];

/// What is heard of a poll of one link with these bytes.
fn heard_of(alloc: Global, bytes: &[u8]) -> Result<Noted, NoMemory> {
    let mut into = buffer(alloc)?;
    let mut port = port(alloc, vec![in alloc; link(alloc, bytes)?]?, 1)?;
    port.next(&mut into);
    Ok(*port.ear())
}

#[test]
fn what_is_wrong_with_a_reply_is_heard(rt: HostRuntime) -> Result<(), Fail> {
    for (bytes, fault) in BAD.iter().zip(&FAULTS) {
        let noted = Noted {
            first: Some(PollFault::Unfit(*fault)),
            count: 1,
            ..NOTHING
        };
        assert_eq!(rt; heard_of(rt.alloc(), bytes)?, noted);
    }
    assert_eq!(rt; heard_of(rt.alloc(), FED)?, NOTHING);
    Ok(())
}

/// What is heard by one call of a port over a 404, a link whose source fails, and one that ends at
/// once, of which it may try each.
fn three_faults(alloc: Global) -> Result<Noted, NoMemory> {
    let first = link(alloc, b"HTTP/1.0 404 Not Found\r\n\r\n")?;
    let second = MemoryLink {
        input: MemorySource::new(copy(alloc, FED)?, Vec::new(alloc), vec![in alloc; 1]?),
        output: MemorySink::new(alloc, Vec::new(alloc), Vec::new(alloc)),
    };
    let third = link(alloc, b"")?;
    let mut into = buffer(alloc)?;
    let mut port = port(alloc, vec![in alloc; first, second, third]?, 3)?;
    port.next(&mut into);
    Ok(*port.ear())
}

/// Each poll that fails is heard of, also those behind which the call tries a further one.
#[test]
fn each_poll_that_fails_is_heard(rt: HostRuntime) -> Result<(), Fail> {
    let noted = Noted {
        first: Some(PollFault::Unfit(ReplyFault::Status(404))),
        second: Some(PollFault::Link),
        third: Some(PollFault::Unfit(ReplyFault::Head)),
        count: 3,
    };
    assert_eq!(rt; three_faults(rt.alloc())?, noted);
    Ok(())
}

/// Replies that have a message.
const GOOD: [&[u8]; 4] = [
    FED,
    b"\r\nHTTP/1.0 200\ncONTENT-lENGTH: \t0000000003 \n\nfed and more",
    b"HTTP/1.1 200 OK\r\nContent-Length: 0\r\n\r\n",
    b"HTTP/1.1 200 OK\r\n\r\n",
];

#[test]
fn good_replies_have_messages(rt: HostRuntime) -> Result<(), Fail> {
    assert!(rt; all_answer(rt.alloc(), &GOOD, PortAnswer::Message)?);
    Ok(())
}

/// What a hub answers to `/feed/plain`, and where its message begins.
const COMBINED: &[u8] =
    b"HTTP/1.1 200 OK\r\nContent-Type: application/x-protobuf\r\nContent-Length: 11\r\nX-Hub-Sequence: 0\r\nX-Hub-Moment: 7\r\nConnection: keep-alive\r\n\r\n\x0a\x09\x0a\x032.0\x10\x00\x18\x00";

/// Whether the combined feed of a hub is a message, and no cut of it is one.
fn combined(alloc: Global) -> Result<bool, NoMemory> {
    for end in 0..COMBINED.len() {
        if !answers(alloc, &COMBINED[..end], PortAnswer::Failed)? {
            return Ok(false);
        }
    }
    let mut into = buffer(alloc)?;
    let mut port = port(alloc, vec![in alloc; link(alloc, COMBINED)?]?, 1)?;
    Ok(hands_in(&mut port, &mut into, b"\x0a\x09\x0a\x032.0\x10\x00\x18\x00"))
}

#[test]
fn the_feed_of_a_hub_is_a_message(rt: HostRuntime) -> Result<(), Fail> {
    assert!(rt; combined(rt.alloc())?);
    Ok(())
}

/// A reply without a length, whose message has one byte more than the longest.
fn endless(alloc: Global) -> Result<Vec<u8>, NoMemory> {
    let mut bytes = copy(alloc, b"HTTP/1.0 200 OK\r\n\r\n")?;
    let length = bytes.len() + LONGEST_MESSAGE + 1;
    bytes.resize(length, 7)?;
    Ok(bytes)
}

/// Whether such a reply is too long, and the same without its last byte a message.
fn longest(alloc: Global) -> Result<bool, NoMemory> {
    let mut bytes = endless(alloc)?;
    let over = PortAnswer::TooLong(LONGEST_MESSAGE as u64 + 1);
    let above = answers(alloc, bytes.as_slice(), over)?;
    bytes.pop();
    let mut into = buffer(alloc)?;
    let mut port = port(alloc, vec![in alloc; link(alloc, bytes.as_slice())?]?, 1)?;
    let whole = comes_to(&mut port, &mut into, PortAnswer::Message);
    Ok(above && whole && into.len() == LONGEST_MESSAGE)
}

#[test]
fn a_message_without_length_has_a_limit(rt: HostRuntime) -> Result<(), Fail> {
    assert!(rt; longest(rt.alloc())?);
    Ok(())
}

/// Whether a port takes no more links than it may, and fails where the last of them fails it.
fn two_polls(alloc: Global) -> Result<bool, NoMemory> {
    let mut into = buffer(alloc)?;
    let door = MemoryDoor::new(alloc, three_links(alloc)?, Vec::new(alloc))?;
    let mut port = PollPort::new(alloc, door, "agency", "/feed", 2, 1, NOTHING)?;
    let first = hands_in(&mut port, &mut into, b"fed");
    let failed = comes_to(&mut port, &mut into, PortAnswer::Failed);
    Ok(first && failed && comes_to(&mut port, &mut into, PortAnswer::End))
}

#[test]
fn polls_have_an_end(rt: HostRuntime) -> Result<(), Fail> {
    assert!(rt; two_polls(rt.alloc())?);
    Ok(())
}

#[test]
fn a_length_above_the_limit_is_told(rt: HostRuntime) -> Result<(), Fail> {
    let replies: [&[u8]; 1] = [b"HTTP/1.1 200 OK\r\nContent-Length: 16777218\r\n\r\nfe"];
    assert!(rt; all_answer(rt.alloc(), &replies, PortAnswer::TooLong(16_777_218))?);
    Ok(())
}
