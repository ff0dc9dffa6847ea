//! Heads in pieces, heads of the greatest length, and heads that try to smuggle.
use crate::given::head_of;
use http_req::{NoMemory, RequestReader, Taken};
use hub_outside::MemorySource;
use std::alloc::Global;
use std::test::Fail;

const HEAD: &str =
    "GET /board/city/S1?limit=5 HTTP/1.1\r\nHost: hub\r\nConnection: x, Close\r\n\r\n";

/// What a connection of these bytes asks first: whether it is to be closed, and whether a body may
/// follow.
#[derive(Clone, Copy, Debug, PartialEq, Eq)]
enum Asked {
    Request(bool, bool),
    Nothing,
    Bad,
    Failed,
}

const KEPT: Asked = Asked::Request(false, false);

const CLOSED: Asked = Asked::Request(true, false);

const WITH_BODY: Asked = Asked::Request(false, true);

/// Heads, up to their end or not, that are told by what comes after `GET / `.
const CASES: [(&str, Asked); 24] = [
    ("HTTP/1.1\r\n\r\n", KEPT),
    ("HTTP/1.1\n\n", KEPT),
    ("HTTP/1.1\r\nConnection: keep-alive, close\r\n\r\n", CLOSED),
    (
        "HTTP/1.1\r\nConnection: a\r\nconnection: CLOSE\t\r\n\r\n",
        CLOSED,
    ),
    ("HTTP/1.1\r\nConnection: closed\r\n\r\n", KEPT),
    ("HTTP/1.0\r\n\r\n", CLOSED),
    ("HTTP/1.0\r\nConnection: Keep-Alive\r\n\r\n", KEPT),
    ("HTTP/1.1\r\nContent-Length: 0\r\n\r\n", KEPT),
    ("HTTP/1.1\r\nContent-Length: 00\r\n\r\n", WITH_BODY),
    (
        "HTTP/1.1\r\nContent-Length: 0\r\nContent-Length: 5\r\n\r\n",
        WITH_BODY,
    ),
    (
        "HTTP/1.1\r\nContent-Length: 0\r\nTransfer-Encoding: chunked\r\n\r\n",
        WITH_BODY,
    ),
    ("HTTP/1.1\r\ntransfer-encoding:\r\n\r\n", WITH_BODY),
    ("HTTP/1.1\r\nContent-Length : 0\r\n\r\n", Asked::Bad),
    ("HTTP/1.1\r\nA: b\r\n c\r\n\r\n", Asked::Bad),
    ("HTTP/1.1\r\nA: b\rc\r\n\r\n", Asked::Bad),
    ("HTTP/1.1\r\rA: b\r\n\r\n", Asked::Bad),
    ("HTTP/1.1\r\nA: \0\r\n\r\n", Asked::Bad),
    ("HTTP/1.1\r\n: a\r\n\r\n", Asked::Bad),
    ("HTTP/2.0\r\n\r\n", Asked::Bad),
    (" HTTP/1.1\r\n\r\n", Asked::Bad),
    ("x HTTP/1.1\r\n\r\n", Asked::Bad),
    ("HTTP/1.1\r\n", Asked::Bad),
    ("HTTP/1.1\r\nA: b\r\n", Asked::Bad),
    ("", Asked::Bad),
];

fn first_of(taken: Taken) -> Asked {
    match taken {
        Taken::Request(request) => Asked::Request(request.close, request.body),
        Taken::End => Asked::Nothing,
        Taken::Bad => Asked::Bad,
        Taken::ReadFault | Taken::NoMemory => Asked::Failed,
    }
}

fn first(alloc: Global, bytes: Vec<u8>, pieces: Vec<u32>) -> Result<Asked, NoMemory> {
    let mut source = MemorySource::new(bytes, pieces, Vec::new(alloc));
    let mut reader = RequestReader::new(alloc)?;
    Ok(first_of(reader.take(alloc, &mut source)))
}

/// Whether a connection of these bytes, cut into these pieces, holds the request of `HEAD` alone.
fn is_board(alloc: Global, bytes: Vec<u8>, pieces: Vec<u32>) -> Result<bool, NoMemory> {
    let mut source = MemorySource::new(bytes, pieces, Vec::new(alloc));
    let mut reader = RequestReader::new(alloc)?;
    let asked = match reader.take(alloc, &mut source) {
        Taken::Request(request) => {
            request.method.as_str() == "GET"
                && request.target.as_slice() == b"/board/city/S1?limit=5".as_slice()
                && request.close
                && !request.body
        }
        _other => false,
    };
    Ok(asked && first_of(reader.take(alloc, &mut source)) == Asked::Nothing)
}

#[test]
fn head_may_be_cut_anywhere(rt: HostRuntime) -> Result<(), Fail> {
    let alloc = rt.alloc();
    for cut in 0..80_u32 {
        let bytes = Vec::from_slice(alloc, HEAD.as_bytes())?;
        let pieces = vec![in alloc; cut]?;
        assert!(rt; is_board(alloc, bytes, pieces)?, "cut at {cut}");
    }
    Ok(())
}

#[test]
fn head_may_come_byte_by_byte(rt: HostRuntime) -> Result<(), Fail> {
    let alloc = rt.alloc();
    let bytes = Vec::from_slice(alloc, HEAD.as_bytes())?;
    assert!(rt; is_board(alloc, bytes, vec![in alloc; 1; 100]?)?);
    Ok(())
}

#[test]
fn head_has_8192_bytes_at_most(rt: HostRuntime) -> Result<(), Fail> {
    let alloc = rt.alloc();
    assert_eq!(rt;
        first(alloc, head_of(alloc, b"GET /", 8192)?, Vec::new(alloc))?,
        KEPT
    );
    assert_eq!(rt;
        first(alloc, head_of(alloc, b"GET /", 8193)?, Vec::new(alloc))?,
        Asked::Bad
    );
    Ok(())
}

#[test]
fn heads_are_judged(rt: HostRuntime) -> Result<(), Fail> {
    let alloc = rt.alloc();
    for (text, wanted) in &CASES {
        let mut bytes = Vec::from_slice(alloc, b"GET / ".as_slice())?;
        bytes.extend_from_slice(text.as_bytes())?;
        assert_eq!(rt; first(alloc, bytes, Vec::new(alloc))?, *wanted, "{text}");
    }
    Ok(())
}

#[test]
fn requests_come_one_after_another(rt: HostRuntime) -> Result<(), Fail> {
    let alloc = rt.alloc();
    let bytes = Vec::from_slice(
        alloc,
        b"\r\nGET / HTTP/1.1\r\n\r\nPUT * HTTP/1.0\n\n\r\n".as_slice(),
    )?;
    let failing = vec![in alloc; 1]?;
    let mut source = MemorySource::new(bytes, vec![in alloc; 1, 10]?, failing);
    let mut reader = RequestReader::new(alloc)?;
    assert_eq!(rt; first_of(reader.take(alloc, &mut source)), Asked::Failed);
    assert_eq!(rt; first_of(reader.take(alloc, &mut source)), KEPT);
    assert_eq!(rt; first_of(reader.take(alloc, &mut source)), CLOSED);
    assert_eq!(rt; first_of(reader.take(alloc, &mut source)), Asked::Bad);
    Ok(())
}

#[test]
fn no_bytes_are_the_end(rt: HostRuntime) -> Result<(), Fail> {
    let alloc = rt.alloc();
    assert_eq!(rt;
        first(alloc, Vec::new(alloc), Vec::new(alloc))?,
        Asked::Nothing
    );
    Ok(())
}
