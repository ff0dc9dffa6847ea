//! What is told of what fails again and again, at given moments.

use hub_ports::{NoMemory, Pace, accept_news, dial_news, poll_news};
use poll_port::{PollFault, ReplyFault};
use std::alloc::Global;
use std::io::ErrorKind;
use std::test::Fail;

/// The line, and nothing where there is none.
fn shown(line: &Option<String>) -> &str {
    match line {
        Some(line) => line.as_str(),
        None => "",
    }
}

/// The bytes of the line, and none where there is none.
fn bytes_of(line: &Option<Vec<u8>>) -> &[u8] {
    match line {
        Some(line) => line.as_slice(),
        None => &[],
    }
}

/// Moments at which a connection can't be accepted, with the cause, and what is told then: the first
/// at once, and those of a minute by one line, with the cause of the last.
const PASSING: [(u64, ErrorKind, &str); 7] = [
    (
        7,
        ErrorKind::Uncategorized,
        "hub: can't accept a connection: too many open files, or another fault of the system\n",
    ),
    (7, ErrorKind::PermissionDenied, ""),
    (66, ErrorKind::OutOfMemory, ""),
    (
        67,
        ErrorKind::ConnectionAborted,
        "hub: can't accept a connection: 3 times, the last one: broken off\n",
    ),
    (126, ErrorKind::ConnectionAborted, ""),
    (
        200,
        ErrorKind::NetworkDown,
        "hub: can't accept a connection: 2 times, the last one: network down\n",
    ),
    (
        260,
        ErrorKind::ConnectionReset,
        "hub: can't accept a connection: reset\n",
    ),
];

/// The same where the listener itself has failed, which is told whatever was told before.
const FINAL: [(u64, ErrorKind, &str); 4] = [
    (
        7,
        ErrorKind::ConnectionReset,
        "hub: can't accept a connection: reset\n",
    ),
    (8, ErrorKind::TimedOut, ""),
    (
        9,
        ErrorKind::InvalidInput,
        "hub: can't accept a connection: 2 times, the last one: the listener has failed\n",
    ),
    (
        9,
        ErrorKind::InvalidInput,
        "hub: can't accept a connection: the listener has failed\n",
    ),
];

/// Whether that is told of connections that can't be accepted, one after another.
fn are_told(alloc: Global, accepts: &[(u64, ErrorKind, &str)]) -> Result<bool, NoMemory> {
    let mut pace = Pace::new();
    for (now, cause, line) in accepts {
        let told = accept_news(alloc, &mut pace, *now, *cause)?;
        if shown(&told) != *line {
            return Ok(false);
        }
    }
    Ok(true)
}

#[test]
fn connections_that_are_not_accepted_are_told(rt: HostRuntime) -> Result<(), Fail> {
    let alloc = rt.alloc();
    assert!(rt; are_told(alloc, &PASSING)?);
    assert!(rt; are_told(alloc, &FINAL)?);
    Ok(())
}

#[test]
fn polls_that_fail_are_told(rt: HostRuntime) -> Result<(), Fail> {
    let alloc = rt.alloc();
    let mut pace = Pace::new();
    for (now, fault, line) in [
        (
            0,
            PollFault::Unfit(ReplyFault::Status(503)),
            "hub: feed b got no good reply: its status is 503\n",
        ),
        (20, PollFault::Unfit(ReplyFault::Head), ""),
        (40, PollFault::Link, ""),
        (
            60,
            PollFault::Unfit(ReplyFault::Cut),
            "hub: feed b got no good reply: 3 times, the last one: it is cut short\n",
        ),
        (
            120,
            PollFault::Link,
            "hub: feed b got no good reply: the connection has failed\n",
        ),
        (
            180,
            PollFault::Unfit(ReplyFault::Head),
            "hub: feed b got no good reply: it has no whole head\n",
        ),
        (
            240,
            PollFault::Unfit(ReplyFault::Length),
            "hub: feed b got no good reply: its length isn't told\n",
        ),
    ] {
        let told = poll_news(alloc, "b", &mut pace, now, fault)?;
        assert_eq!(rt; shown(&told), line, "at {now}");
    }
    Ok(())
}

#[test]
fn connections_that_are_not_made_are_told(rt: HostRuntime) -> Result<(), Fail> {
    let alloc = rt.alloc();
    let mut pace = Pace::new();
    let place = "agency\n:80";
    for (now, cause, line) in [
        (
            1000,
            ErrorKind::ConnectionRefused,
            "hub: feed b can't connect to agency :80: refused\n",
        ),
        (1030, ErrorKind::TimedOut, ""),
        (
            1061,
            ErrorKind::NotFound,
            "hub: feed b can't connect to agency :80: 2 times, the last one: no such host\n",
        ),
    ] {
        let told = dial_news(alloc, "b", place, &mut pace, now, cause)?;
        assert_eq!(rt; bytes_of(&told), line.as_bytes(), "at {now}");
    }
    Ok(())
}
