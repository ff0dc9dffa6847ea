//! Targets with what they ask, and whole responses.
use http_routes::{BodyKind, NoMemory, Query, Request, Routes, refusal_body, response_bytes};
use rt_types::{Bytes, Text};
use std::alloc::Global;
use std::test::Fail;

/// Targets, and what they ask as `line_of` says it.
const PATHS: [(&str, &str); 41] = [
    ("/board/a/b", "board a b 3600 50 false"),
    ("/alerts/a/b", "alerts a b 3600 50 false"),
    ("/feed/a", "feed a"),
    ("/unmatched/a", "unmatched a"),
    ("/status", "status"),
    ("/status?span=0", "status"),
    ("/feed/a?x?span=0", "feed a"),
    ("/feed/a?since=0", "feed a since 0"),
    (
        "/feed/a?since=18446744073709551615",
        "feed a since 18446744073709551615",
    ),
    ("/feed/a?since=18446744073709551616", "400"),
    ("/feed/a?since=000000000000000000001", "400"),
    ("/feed/a?since=x", "400"),
    ("/board/a%2Fb/c", "board a/b c 3600 50 false"),
    ("/board/a/%2f", "board a / 3600 50 false"),
    ("/feed/%61", "feed a"),
    ("/feed/%C3%BC", "feed \u{fc}"),
    ("/feed/a+b", "feed a+b"),
    ("/feed/%zz", "feed %zz"),
    ("/feed/%", "feed %"),
    ("/feed/%3F", "feed ?"),
    ("/feed/%FF", "400"),
    ("/feed/%C3", "400"),
    ("/unmatched/a%80", "400"),
    ("/alerts/%FF/b", "400"),
    ("/alerts/a/%FF", "400"),
    ("", "400"),
    ("*", "400"),
    ("status", "400"),
    ("http://hub/status", "400"),
    ("?", "400"),
    ("/", "404"),
    ("/?", "404"),
    ("/status/", "404"),
    ("//status", "404"),
    ("/Status", "404"),
    ("/feed", "404"),
    ("/feed/", "404"),
    ("/feed/a/", "404"),
    ("/board//b", "404"),
    ("/board/a/", "404"),
    ("/board/a/b/c", "404"),
];

/// Forms of the board of `b` in `a`.
const FORMS: [(&str, &str); 26] = [
    ("", "board a b 3600 50 false"),
    ("span=60&limit=5&format=json", "board a b 60 5 true"),
    (
        "format=text&limit=1000&span=86400",
        "board a b 86400 1000 false",
    ),
    ("span=1&limit=1", "board a b 1 1 false"),
    ("span=00060", "board a b 60 50 false"),
    ("limit=5&limit=0", "board a b 3600 5 false"),
    ("sp%61n=7", "board a b 7 50 false"),
    ("span=%37", "board a b 7 50 false"),
    ("&&x=1&Span=0&=9", "board a b 3600 50 false"),
    ("x?&limit=7", "board a b 3600 7 false"),
    ("limit=0&limit=5", "400"),
    ("limit=0", "400"),
    ("limit=1001", "400"),
    ("limit=", "400"),
    ("limit", "400"),
    ("span=0", "400"),
    ("span=86401", "400"),
    ("span=000060", "400"),
    ("span=99999999999999999999", "400"),
    ("span=+5", "400"),
    ("span=-5", "400"),
    ("span=5%20", "400"),
    ("span=60?limit=5", "400"),
    ("format=xml", "400"),
    ("format=JSON", "400"),
    ("format=json%FF", "400"),
];

/// What a query asks, in words.
fn line_of(alloc: Global, query: &Query) -> Result<String, NoMemory> {
    match query {
        Query::Board {
            schedule,
            stop,
            span,
            limit,
            json,
        } => {
            let (schedule, stop) = (schedule.as_str(), stop.as_str());
            format!(in alloc; "board {schedule} {stop} {span} {limit} {json}")
        }
        Query::Alerts {
            schedule,
            stop,
            span,
            limit,
            json,
        } => {
            let (schedule, stop) = (schedule.as_str(), stop.as_str());
            format!(in alloc; "alerts {schedule} {stop} {span} {limit} {json}")
        }
        Query::Feed { schedule, since } => {
            let schedule = schedule.as_str();
            match since {
                Some(look) => format!(in alloc; "feed {schedule} since {look}"),
                None => format!(in alloc; "feed {schedule}"),
            }
        }
        Query::Unmatched { schedule } => {
            let schedule = schedule.as_str();
            format!(in alloc; "unmatched {schedule}")
        }
        Query::Status => String::from_str(alloc, "status"),
        Query::Refused(code) => code.to_string(alloc),
    }
}

fn asks(
    alloc: Global,
    routes: &Routes,
    method: &str,
    target: &[u8],
    body: bool,
) -> Result<String, NoMemory> {
    let request = Request {
        method: Text::new(alloc, method)?,
        target: Bytes::new(alloc, target)?,
        close: false,
        body,
    };
    let query = routes.query(alloc, &request)?;
    line_of(alloc, &query)
}

#[test]
fn paths_have_routes(rt: HostRuntime) -> Result<(), Fail> {
    let alloc = rt.alloc();
    let routes = Routes::new(alloc)?;
    for (target, wanted) in &PATHS {
        let line = asks(alloc, &routes, "GET", target.as_bytes(), false)?;
        assert_eq!(rt; line.as_str(), *wanted, "{target}");
    }
    let line = asks(alloc, &routes, "GET", b"/feed/\xff", false)?;
    assert_eq!(rt; line.as_str(), "404");
    Ok(())
}

#[test]
fn forms_have_values(rt: HostRuntime) -> Result<(), Fail> {
    let alloc = rt.alloc();
    let routes = Routes::new(alloc)?;
    for (form, wanted) in &FORMS {
        let mut target = Vec::from_slice(alloc, b"/board/a/b?".as_slice())?;
        target.extend_from_slice(form.as_bytes())?;
        let line = asks(alloc, &routes, "GET", target.as_slice(), false)?;
        assert_eq!(rt; line.as_str(), *wanted, "{form}");
    }
    Ok(())
}

#[test]
fn methods_are_judged_before_bodies(rt: HostRuntime) -> Result<(), Fail> {
    let alloc = rt.alloc();
    let routes = Routes::new(alloc)?;
    let head = asks(alloc, &routes, "HEAD", b"/status", true)?;
    assert_eq!(rt; head.as_str(), "405");
    let with_body = asks(alloc, &routes, "GET", b"/nowhere", true)?;
    assert_eq!(rt; with_body.as_str(), "400");
    Ok(())
}

const JSON: &str = "before HTTP/1.1 200 OK\r\n\
    Content-Type: application/json\r\n\
    Content-Length: 2\r\n\
    X-Hub-Sequence: 12\r\n\
    X-Hub-Moment: 1743315000\r\n\
    Connection: keep-alive\r\n\
    \r\n\
    {}";

const OTHER_METHOD: &str = "HTTP/1.1 405 Method Not Allowed\r\n\
    Content-Type: text/plain; charset=utf-8\r\n\
    Content-Length: 19\r\n\
    Allow: GET\r\n\
    X-Hub-Sequence: 0\r\n\
    X-Hub-Moment: 7\r\n\
    Connection: close\r\n\
    \r\n\
    method not allowed\n";

#[test]
fn responses_are_whole(rt: HostRuntime) -> Result<(), Fail> {
    let mut out = Vec::from_slice(rt.alloc(), b"before ".as_slice())?;
    response_bytes(
        200,
        BodyKind::Json,
        b"{}",
        12,
        1_743_315_000,
        false,
        &mut out,
    )?;
    assert_eq!(rt; out.as_slice(), JSON.as_bytes());
    Ok(())
}

#[test]
fn refusals_are_whole(rt: HostRuntime) -> Result<(), Fail> {
    let mut out = Vec::new(rt.alloc());
    response_bytes(405, BodyKind::Text, refusal_body(405), 0, 7, true, &mut out)?;
    assert_eq!(rt; out.as_slice(), OTHER_METHOD.as_bytes());
    Ok(())
}
