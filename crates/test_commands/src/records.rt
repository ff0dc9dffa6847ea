//! Each record's line, with ample memory: want of memory may come in place of any answer, so that
//! no contract refuses a reader that only says so.
use hub_replay::{Line, LineFault, parse_line};
use std::alloc::{AllocError as NoMemory, Global};
use std::test::Fail;

/// What a record says, in words.
fn words_of(alloc: Global, line: &Line) -> Result<String, NoMemory> {
    match line {
        Line::Feed { name } => {
            let name = name.as_str();
            format!(in alloc; "feed [{name}]")
        }
        Line::Message { feed, n } => {
            let feed = feed.as_str();
            format!(in alloc; "message [{feed}] {n}")
        }
        Line::Combined { schedule } => {
            let schedule = schedule.as_str();
            format!(in alloc; "combined [{schedule}]")
        }
        Line::Board {
            schedule,
            stop,
            moment,
            span,
            limit,
            json,
        } => {
            let (schedule, stop) = (schedule.as_str(), stop.as_str());
            format!(in alloc; "board [{schedule}] [{stop}] {moment} {span} {limit} {json}")
        }
        Line::Connection { moment, n } => format!(in alloc; "connection {moment} {n}"),
        Line::End => String::from_str(alloc, "end"),
        _other => String::from_str(alloc, "another record"),
    }
}

/// What a line says, in words.
fn told(alloc: Global, line: &[u8]) -> Result<String, NoMemory> {
    match parse_line(alloc, line) {
        Ok(line) => words_of(alloc, &line),
        Err(LineFault::NotALine) => String::from_str(alloc, "no record"),
        Err(LineFault::NoMemory) => String::from_str(alloc, "out of memory"),
    }
}

/// The first line of these that says something else than is said beside it.
fn first_other<'a>(
    alloc: Global,
    cases: &'a [(&'a [u8], &'a str)],
) -> Result<Option<&'a str>, Fail> {
    for (line, wanted) in cases {
        if told(alloc, line)?.as_str() != *wanted {
            return Ok(Some(wanted));
        }
    }
    Ok(None)
}

const FEEDS: [(&[u8], &str); 4] = [
    (b"F city", "feed [city]"),
    (b"F ", "feed []"),
    (b"F", "no record"),
    (b"F a b", "no record"),
];

#[test]
fn feeds_are_declared(rt: HostRuntime) -> Result<(), Fail> {
    assert_eq!(rt; first_other(rt.alloc(), &FEEDS)?, None);
    Ok(())
}

const MESSAGES: [(&[u8], &str); 5] = [
    (b"M city 000000000011", "message [city] 11"),
    (b"M city 999999999", "message [city] 999999999"),
    (b"M city 0000000000011", "no record"),
    (b"M city 1000000000", "no record"),
    (b"M city +1", "no record"),
];

#[test]
fn messages_are_offered(rt: HostRuntime) -> Result<(), Fail> {
    assert_eq!(rt; first_other(rt.alloc(), &MESSAGES)?, None);
    Ok(())
}

const QUESTIONS: [(&[u8], &str); 3] = [
    (b"O city", "combined [city]"),
    (
        b"B city ST 1743314000 3600 1 json",
        "board [city] [ST] 1743314000 3600 1 true",
    ),
    (
        b"B city ST 253402300799 86400 1000 text",
        "board [city] [ST] 253402300799 86400 1000 false",
    ),
];

#[test]
fn questions_are_asked(rt: HostRuntime) -> Result<(), Fail> {
    assert_eq!(rt; first_other(rt.alloc(), &QUESTIONS)?, None);
    Ok(())
}

const OUT_OF_RANGE: [(&[u8], &str); 6] = [
    (b"B city ST 253402300800 1 1 text", "no record"),
    (b"B city ST 0 0 1 text", "no record"),
    (b"B city ST 0 86401 1 text", "no record"),
    (b"B city ST 0 1 0 text", "no record"),
    (b"B city ST 0 1 1001 text", "no record"),
    (b"B city ST 0 1 1 html", "no record"),
];

#[test]
fn boards_out_of_range_are_no_records(rt: HostRuntime) -> Result<(), Fail> {
    assert_eq!(rt; first_other(rt.alloc(), &OUT_OF_RANGE)?, None);
    Ok(())
}

const CONNECTIONS: [(&[u8], &str); 5] = [
    (b"Q 1743314000 46", "connection 1743314000 46"),
    (
        b"Q 253402300799 16777216",
        "connection 253402300799 16777216",
    ),
    (b"Q 253402300800 0", "no record"),
    (b"Q 0 16777217", "no record"),
    (b"Q 0", "no record"),
];

#[test]
fn connections_are_served(rt: HostRuntime) -> Result<(), Fail> {
    assert_eq!(rt; first_other(rt.alloc(), &CONNECTIONS)?, None);
    Ok(())
}

const ESCAPES: [(&[u8], &str); 5] = [
    (b"%46 %41%20b", "feed [A b]"),
    (b"F %zz", "feed [%zz]"),
    (b"%45", "end"),
    (b"F %FF", "no record"),
    (b"F%20city", "no record"),
];

#[test]
fn escapes_are_undone(rt: HostRuntime) -> Result<(), Fail> {
    assert_eq!(rt; first_other(rt.alloc(), &ESCAPES)?, None);
    Ok(())
}
