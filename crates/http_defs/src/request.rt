//! Requests as they come on a connection.

use rt_types::{Bytes, Text};

/// What the head of a request says, as far as the hub goes by it.
#[derive(Drop)]
pub struct Request {
    /// The method, as `GET`; methods are told apart by case.
    pub method: Text,
    /// The request target as it came, as `/board/city/S1?limit=5`.
    pub target: Bytes,
    /// Whether the connection is to be closed after the response: a token of `Connection` is
    /// `close`, or the version is 1.0 and no token is `keep-alive`.
    pub close: bool,
    /// Whether a body may follow: there is a `Transfer-Encoding`, or a `Content-Length` other
    /// than `0`.
    pub body: bool,
}

/// What stands at a place of a connection's input.
#[derive(Drop)]
pub enum Item {
    /// A request whose head is whole.
    Asked(Request),
    /// Bytes that begin no request, and never will.
    Malformed,
}
