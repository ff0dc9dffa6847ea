//! Connections on the small city, of which no feed has said anything.
use crate::city::plays;
use std::alloc::Global;
use std::test::Fail;

/// A request for one row of the board of the harbour, and the response to it.
const ASK: &str = "GET /board/city/S3?limit=1 HTTP/1.1\r\nHost: h\r\n\r\n";

const ROW: &str =
    "HTTP/1.1 200 OK\r\nContent-Type: text/plain; charset=utf-8\r\nContent-Length: 137\r\nX-Hub-Sequence: 0\r\nX-Hub-Moment: 1743314000\r\nConnection: keep-alive\r\n\r\nstop\tS3\tHarbour\nexpected\tscheduled\tdelay\tstate\troute\theadsign\ttrip\tdate\tplatform\n1743315000\t1743315000\t-\tscheduled\t7\tHill\tT1\t20250330\tS3\n";

/// The refusals of what is no request, of another method, of a stop or a schedule that isn't there,
/// and of a limit of no rows.
const MALFORMED: &str =
    "HTTP/1.1 400 Bad Request\r\nContent-Type: text/plain; charset=utf-8\r\nContent-Length: 12\r\nX-Hub-Sequence: 0\r\nX-Hub-Moment: 1743314000\r\nConnection: close\r\n\r\nbad request\n";

const OTHER_METHOD: &str =
    "HTTP/1.1 405 Method Not Allowed\r\nContent-Type: text/plain; charset=utf-8\r\nContent-Length: 19\r\nAllow: GET\r\nX-Hub-Sequence: 0\r\nX-Hub-Moment: 1743314000\r\nConnection: close\r\n\r\nmethod not allowed\n";

const NOT_FOUND: &str =
    "HTTP/1.1 404 Not Found\r\nContent-Type: text/plain; charset=utf-8\r\nContent-Length: 10\r\nX-Hub-Sequence: 0\r\nX-Hub-Moment: 1743314000\r\nConnection: keep-alive\r\n\r\nnot found\n";

const NO_ROWS: &str =
    "HTTP/1.1 400 Bad Request\r\nContent-Type: text/plain; charset=utf-8\r\nContent-Length: 12\r\nX-Hub-Sequence: 0\r\nX-Hub-Moment: 1743314000\r\nConnection: keep-alive\r\n\r\nbad request\n";

/// Whether a script that serves the connection of these bytes prints these responses and that end.
fn serves(alloc: Global, input: &str, responses: &[&str], end: &str) -> Result<bool, Fail> {
    let script = format!(in alloc; "Q 1743314000 {}\n{}\nE\n", input.len(), input)?;
    let mut written = String::new(alloc);
    for response in responses {
        written.push_str(response)?;
    }
    let told = format!(in alloc;
        "connection {} {}\n{}\n",
        written.len(),
        end,
        written.as_str()
    )?;
    plays(alloc, script.as_bytes(), &told)
}

/// A request whose head has so many bytes.
fn head_of(alloc: Global, count: usize) -> Result<String, Fail> {
    let mut head = String::from_str(alloc, "GET /board/city/S3?limit=1 HTTP/1.1\r\nHost: ")?;
    for _ in 47..count {
        head.push('h')?;
    }
    head.push_str("\r\n\r\n")?;
    Ok(head)
}

#[test]
fn a_request_is_answered(rt: HostRuntime) -> Result<(), Fail> {
    assert!(rt; serves(rt.alloc(), ASK, &[ROW], "ended")?);
    Ok(())
}

#[test]
fn requests_are_answered_up_to_one_that_is_none(rt: HostRuntime) -> Result<(), Fail> {
    let alloc = rt.alloc();
    let input = format!(in alloc; "{}{}{}GE", ASK, ASK, ASK)?;
    assert!(rt; serves(alloc, &input, &[ROW, ROW, ROW, MALFORMED], "bad")?);
    Ok(())
}

#[test]
fn heads_and_methods_have_limits(rt: HostRuntime) -> Result<(), Fail> {
    let alloc = rt.alloc();
    assert!(rt; serves(alloc, &head_of(alloc, 8192)?, &[ROW], "ended")?);
    assert!(rt; serves(alloc, &head_of(alloc, 8193)?, &[MALFORMED], "bad")?);
    let post = "POST /status HTTP/1.1\r\n\r\n";
    assert!(rt; serves(alloc, post, &[OTHER_METHOD], "closed")?);
    Ok(())
}

#[test]
fn refusals_keep_the_connection(rt: HostRuntime) -> Result<(), Fail> {
    let alloc = rt.alloc();
    let input =
        "GET /board/city/NO HTTP/1.1\r\n\r\nGET /board/town/S3 HTTP/1.1\r\n\r\nGET /board/city/S3?limit=0 HTTP/1.1\r\n\r\n";
    assert!(rt; serves(alloc, input, &[NOT_FOUND, NOT_FOUND, NO_ROWS], "ended")?);
    Ok(())
}
