//! The parts of a response.

/// The statuses that the hub answers (RFC 9110, section 15).
#[derive(Clone, Copy, Debug, PartialEq, Eq)]
pub enum Status {
    /// 200.
    Ok,
    /// 400.
    BadRequest,
    /// 404.
    NotFound,
    /// 405.
    MethodNotAllowed,
}

/// What the body of a response is.
#[derive(Clone, Copy, Debug, PartialEq, Eq)]
pub enum BodyKind {
    /// Lines of UTF-8 text.
    Text,
    /// JSON.
    Json,
    /// A message of GTFS Realtime.
    Feed,
}
