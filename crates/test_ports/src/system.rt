//! Ports, listeners and doors over the loopback, with ample memory.

ghost use Rattle.std.specs.Prelude.{◌≡◌, IfOk};

use feed_port::{FeedPort, LONGEST_MESSAGE, MemoryPort, PortAnswer, StreamPort};
use hub_config_defs::{FeedConf, PortKind};
use hub_core::Refusal;
use hub_outside::{Buf, Door, DoorAnswer, MemorySource, NoMemory};
use hub_ports::{ToldPort, Unblocked, doors_of, listen, open_port};
use rt_types::Text;
use std::alloc::Global;
use std::io::{ErrorKind, Read, Write};
use std::net::{Net, OpenListener, TcpListener, TcpStream};
use std::test::Fail;
use std::{fs, io, thread};

/// A feed `b` of that kind, with messages from that place.
fn feed(alloc: Global, kind: PortKind, place: &str) -> Result<FeedConf, NoMemory>
    ensures { IfOk result (λ feed. feed.tries ≡ 1) }
{
    Ok(FeedConf {
        name: Text::new(alloc, "b")?,
        schedule: 0,
        kind,
        place: Text::new(alloc, place)?,
        max_age: 0,
        every: 1,
        polls: 1,
        tries: 1,
    })
}

/// What the first two asks of a port come to.
fn two_asks<P: FeedPort>(
    alloc: Global,
    port: &mut P,
) -> Result<(PortAnswer, PortAnswer), NoMemory> {
    let mut into = Buf::new(alloc);
    into.reserve(LONGEST_MESSAGE)?;
    let first = port.next(&mut into);
    Ok((first, port.next(&mut into)))
}

/// A standard error on the loopback: what is written to the first is read from the second.
pub(crate) fn errors_beside<R>(rt: &R) -> Result<(TcpStream, TcpStream), Fail>
where
    R: Net<Listener = TcpListener, Stream = TcpStream>,
{
    let listener = TcpListener::bind(rt, "127.0.0.1:0")?;
    let written = TcpStream::connect(rt, listener.local_addr()?)?;
    let (read, _) = listener.accept()?;
    Ok((written, read))
}

/// What was written there until now. No more is written.
pub(crate) fn told(alloc: Global, errors: (TcpStream, TcpStream)) -> Result<String, Fail> {
    let (written, read) = errors;
    drop(written);
    Ok(io::read_to_string(alloc, read)?)
}

/// What the first two asks of a feed of that kind come to, whose port is opened here.
fn opened(
    rt: &HostRuntime,
    kind: PortKind,
    place: &str,
) -> Result<(PortAnswer, PortAnswer), NoMemory> {
    let alloc = rt.alloc();
    let feed = feed(alloc, kind, place)?;
    let mut port = open_port(rt, alloc, &feed, rt.stderr())?;
    two_asks(alloc, &mut port)
}

#[test]
fn ports_without_messages_end(rt: HostRuntime) -> Result<(), Fail> {
    let ends = (PortAnswer::End, PortAnswer::End);
    assert_eq!(rt; opened(&rt, PortKind::Nothing, "")?, ends);
    assert_eq!(rt; opened(&rt, PortKind::Spool, "no/such/folder")?, ends);
    Ok(())
}

#[test]
fn a_stream_gives_what_is_sent(rt: HostRuntime) -> Result<(), Fail> {
    let alloc = rt.alloc();
    let listener = TcpListener::bind(&rt, "127.0.0.1:0")?;
    let place = format!(in alloc; "{}", listener.local_addr()?)?;
    let feed = feed(alloc, PortKind::Stream, place.as_str())?;
    let mut port = open_port(&rt, alloc, &feed, rt.stderr())?;
    let Ok(sender) = thread::spawn(&rt, move || send(&listener, &[0, 0, 0, 2, 7, 8])) else {
        return Err(Fail::from(io::Error::from(ErrorKind::OutOfMemory)));
    };
    let asked = two_asks(alloc, &mut port)?;
    assert!(rt; sender.join(&rt).is_ok());
    assert_eq!(rt; asked, (PortAnswer::Message, PortAnswer::End));
    Ok(())
}

/// Sends that to the next that connects, and closes the connection.
fn send(listener: &TcpListener, bytes: &[u8]) -> io::Result<()> {
    let (mut sender, _) = listener.accept()?;
    sender.write_all(bytes)
}

/// What the first two asks of a feed of that kind come to, and what is told of it.
fn told_of(
    rt: &HostRuntime,
    kind: PortKind,
    place: &str,
) -> Result<((PortAnswer, PortAnswer), String), Fail> {
    let alloc = rt.alloc();
    let errors = errors_beside(rt)?;
    let feed = feed(alloc, kind, place)?;
    let mut port = open_port(rt, alloc, &feed, &errors.0)?;
    let asked = two_asks(alloc, &mut port)?;
    Ok((asked, told(alloc, errors)?))
}

#[test]
fn a_connection_that_cannot_be_made_is_told(rt: HostRuntime) -> Result<(), Fail> {
    let alloc = rt.alloc();
    let gone = TcpListener::bind(&rt, "127.0.0.1:0")?;
    let place = format!(in alloc; "{}", gone.local_addr()?)?;
    drop(gone);
    let line = format!(in alloc; "hub: feed b can't connect to {place}: refused\n")?;
    let (asked, told) = told_of(&rt, PortKind::Stream, place.as_str())?;
    assert_eq!(rt; asked, (PortAnswer::Failed, PortAnswer::End));
    assert_eq!(rt; told, line);
    Ok(())
}

#[test]
fn a_file_that_cannot_be_read_is_told(rt: HostRuntime) -> Result<(), Fail> {
    let alloc = rt.alloc();
    let folder = "/tmp/test_ports.spool";
    fs::create_dir_all(&rt, "/tmp/test_ports.spool/000001.pb")?;
    let (asked, told) = told_of(&rt, PortKind::Spool, folder)?;
    assert_eq!(rt; asked, (PortAnswer::Failed, PortAnswer::Failed));
    let line = "hub: feed b can't read /tmp/test_ports.spool/000001.pb: it is a folder\n";
    assert_eq!(rt; told, format!(in alloc; "{line}{line}")?);
    Ok(())
}

#[test]
fn nothing_is_connected_to_before_the_first_ask(rt: HostRuntime) -> Result<(), Fail> {
    let alloc = rt.alloc();
    let errors = errors_beside(&rt)?;
    let feed = feed(alloc, PortKind::Stream, "no port")?;
    let port = open_port(&rt, alloc, &feed, &errors.0)?;
    drop(port);
    assert_eq!(rt; told(alloc, errors)?.as_str(), "");
    Ok(())
}

#[test]
fn a_feed_that_is_polled_fails_where_nobody_listens(rt: HostRuntime) -> Result<(), Fail> {
    let alloc = rt.alloc();
    let gone = TcpListener::bind(&rt, "127.0.0.1:0")?;
    let host = format!(in alloc; "{}", gone.local_addr()?)?;
    let place = format!(in alloc; "{}/feed", gone.local_addr()?)?;
    drop(gone);
    // The second poll fails within a minute of the first.
    let line = format!(in alloc; "hub: feed b can't connect to {host}: refused\n")?;
    let (asked, told) = told_of(&rt, PortKind::Poll, place.as_str())?;
    assert_eq!(rt; asked, (PortAnswer::Failed, PortAnswer::Failed));
    assert_eq!(rt; told, line);
    Ok(())
}

#[test]
fn why_polls_fail_is_told(rt: HostRuntime) -> Result<(), Fail> {
    let alloc = rt.alloc();
    let listener = TcpListener::bind(&rt, "127.0.0.1:0")?;
    let place = format!(in alloc; "{}/feed", listener.local_addr()?)?;
    let reply = b"HTTP/1.0 503 Service Unavailable\r\n\r\n";
    let Ok(sender) = thread::spawn(&rt, move || send(&listener, reply)) else {
        return Err(Fail::from(io::Error::from(ErrorKind::OutOfMemory)));
    };
    let (asked, told) = told_of(&rt, PortKind::Poll, place.as_str())?;
    assert!(rt; sender.join(&rt).is_ok());
    assert_eq!(rt; asked, (PortAnswer::Failed, PortAnswer::End));
    assert_eq!(rt;
        told.as_str(),
        "hub: feed b got no good reply: its status is 503\n"
    );
    Ok(())
}

#[test]
fn an_address_is_cleaned_and_judged(rt: HostRuntime) -> Result<(), Fail> {
    let line = "hub: feed b can't connect to no port: not an address with a port\n";
    let (asked, told) = told_of(&rt, PortKind::Stream, "no\nport")?;
    assert_eq!(rt; asked, (PortAnswer::Failed, PortAnswer::End));
    assert_eq!(rt; told.as_str(), line);
    Ok(())
}

/// What is told of a feed of that kind by two asks of its port.
fn told_by<P: FeedPort>(rt: &HostRuntime, kind: PortKind, port: P) -> Result<String, Fail> {
    let alloc = rt.alloc();
    let errors = errors_beside(rt)?;
    let feed = feed(alloc, kind, "")?;
    let mut port = ToldPort::new(*rt, alloc, port, &feed, &errors.0)?;
    two_asks(alloc, &mut port)?;
    drop(port);
    told(alloc, errors)
}

/// A port without messages, of which those asks fail.
fn empty_port(alloc: Global, failing: &[u64]) -> Result<MemoryPort, NoMemory> {
    let failing = Vec::from_slice(alloc, failing)?;
    Ok(MemoryPort::new(Vec::new(alloc), failing))
}

#[test]
fn the_end_of_a_feed_is_told_once(rt: HostRuntime) -> Result<(), Fail> {
    let alloc = rt.alloc();
    let line = "hub: feed b has ended\n";
    let told = told_by(&rt, PortKind::Spool, empty_port(alloc, &[])?)?;
    assert_eq!(rt; told.as_str(), line);
    // One without messages has nothing to end.
    let told = told_by(&rt, PortKind::Nothing, empty_port(alloc, &[])?)?;
    assert_eq!(rt; told.as_str(), "");
    Ok(())
}

#[test]
fn a_feed_that_has_failed_is_told_once(rt: HostRuntime) -> Result<(), Fail> {
    let port = empty_port(rt.alloc(), &[1])?;
    let line = "hub: feed b has failed\n";
    assert_eq!(rt; told_by(&rt, PortKind::Poll, port)?.as_str(), line);
    Ok(())
}

#[test]
fn a_message_that_is_too_long_is_told(rt: HostRuntime) -> Result<(), Fail> {
    let alloc = rt.alloc();
    let bytes = Vec::from_slice(alloc, &[1, 0, 0, 1])?;
    let source = MemorySource::new(bytes, Vec::new(alloc), Vec::new(alloc));
    let lines =
        "hub: feed b has sent a message of more than 16777216 bytes\nhub: feed b has ended\n";
    assert_eq!(rt;
        told_by(&rt, PortKind::Stream, StreamPort::new(source))?.as_str(),
        lines
    );
    Ok(())
}

/// What is told where a feed of that kind hears of those refusals and then ends.
fn told_of_refusals(
    rt: &HostRuntime,
    kind: PortKind,
    refusals: &[Refusal],
) -> Result<String, Fail> {
    let alloc = rt.alloc();
    let errors = errors_beside(rt)?;
    let feed = feed(alloc, kind, "")?;
    let mut port = ToldPort::new(*rt, alloc, empty_port(alloc, &[])?, &feed, &errors.0)?;
    for refusal in refusals {
        port.hear(refusal);
    }
    two_asks(alloc, &mut port)?;
    drop(port);
    told(alloc, errors)
}

/// A message with the stamp of the one before.
const REPEATED: Refusal = Refusal::Stale { last: 9, got: 9 };

/// The first is told at once, and those that follow within a minute at the end.
#[test]
fn refusals_are_told(rt: HostRuntime) -> Result<(), Fail> {
    let refusals = [
        REPEATED,
        Refusal::BadStamp { got: 0 },
        Refusal::NoMemory,
        Refusal::NoMemory,
        Refusal::NoMemory,
        Refusal::BadStamp { got: 0 },
    ];
    let lines = "\
hub: feed b: 1 refused, the last one: the stamp 9 isn't above 9
hub: feed b: 1 without memory
hub: feed b: 2 refused
hub: feed b: 2 without memory
hub: feed b has ended
";
    let told = told_of_refusals(&rt, PortKind::Stream, &refusals)?;
    assert_eq!(rt; told.as_str(), lines);
    Ok(())
}

/// An address that has nothing new answers with the message that it had.
#[test]
fn a_repeated_answer_is_not_told(rt: HostRuntime) -> Result<(), Fail> {
    let refusals = [REPEATED, REPEATED, Refusal::Stale { last: 9, got: 8 }];
    let lines = "\
hub: feed b: 1 refused, the last one: the stamp 8 isn't above 9
hub: feed b has ended
";
    let told = told_of_refusals(&rt, PortKind::Poll, &refusals)?;
    assert_eq!(rt; told.as_str(), lines);
    Ok(())
}

/// A line is short, whatever a message has.
#[test]
fn a_long_version_is_not_shown(rt: HostRuntime) -> Result<(), Fail> {
    let alloc = rt.alloc();
    let long = "3.0000000000000000000000000000000";
    let refusals = [Refusal::Version(Text::new(alloc, long)?)];
    let lines = "\
hub: feed b: 1 refused, the last one: its version isn't known
hub: feed b has ended
";
    let told = told_of_refusals(&rt, PortKind::Spool, &refusals)?;
    assert_eq!(rt; told.as_str(), lines);
    let refusals = [Refusal::Version(Text::new(alloc, "3\n")?)];
    let lines = "\
hub: feed b: 1 refused, the last one: the version \"3\\n\" isn't known
hub: feed b has ended
";
    let told = told_of_refusals(&rt, PortKind::Spool, &refusals)?;
    assert_eq!(rt; told.as_str(), lines);
    Ok(())
}

/// A pipe that is full and that nobody reads.
#[test]
fn nobody_waits_for_a_full_pipe(rt: HostRuntime) -> Result<(), Fail> {
    let (mut read, written) = io::pipe(&rt)?;
    let mut errors = Unblocked::new(written);
    for _ in 0..1024 {
        let _ = errors.write(&[b'-'; 4096]);
    }
    let answer = errors.write(b"hub: listening\n");
    assert!(rt; matches!(answer, Err(cause) if cause.kind() == ErrorKind::WouldBlock));
    let mut piece = [0; 4096];
    read.read_exact(&mut piece)?;
    assert_eq!(rt; errors.write(b"hub: listening\n")?, 15);
    Ok(())
}

#[test]
fn a_listener_is_told_and_shared(rt: HostRuntime) -> Result<(), Fail> {
    let alloc = rt.alloc();
    let errors = errors_beside(&rt)?;
    let Some(listener) = listen(&rt, alloc, "127.0.0.1:0", &errors.0)? else {
        return Err(Fail::from(io::Error::from(ErrorKind::NotConnected)));
    };
    let address = listener.local_addr()?;
    let line = format!(in alloc; "hub: listening on {address}\n")?;
    assert_eq!(rt; doors_of(&rt, alloc, &Some(listener), 3, 0)?.len(), 3);
    assert_eq!(rt; told(alloc, errors)?, line);
    Ok(())
}

#[test]
fn an_address_in_use_closes_the_doors(rt: HostRuntime) -> Result<(), Fail> {
    let alloc = rt.alloc();
    let errors = errors_beside(&rt)?;
    let first = TcpListener::bind(&rt, "127.0.0.1:0")?;
    let address = format!(in alloc; "{}", first.local_addr()?)?;
    let listener = listen(&rt, alloc, address.as_str(), &errors.0)?;
    assert!(rt; listener.is_none());
    for mut door in doors_of(&rt, alloc, &listener, 2, 5)? {
        assert!(rt; matches!(door.next(), DoorAnswer::Failed));
    }
    drop(listener);
    let line = format!(in alloc; "hub: can't listen on {address}: address in use\n")?;
    assert_eq!(rt; told(alloc, errors)?, line);
    Ok(())
}
