//! What serving a connection came to.

/// Why a connection is served no further.
#[derive(Clone, Copy, Debug, PartialEq, Eq)]
pub enum End {
    /// The input ended behind a whole request.
    Ended,
    /// The last response closes it: its request asked to close, was no GET, may carry a body, or
    /// was the thousandth.
    Closed,
    /// What follows is no request, which was answered.
    Bad,
    /// The source failed.
    ReadFault,
    /// The sink failed: the response behind those that were written whole may be cut.
    WriteFault,
    /// Memory ran out.
    NoMemory,
}

/// A connection that was served.
#[derive(Drop)]
pub struct Session {
    /// Why it is served no further.
    pub end: End,
    /// The number of each response that was written whole: how many messages it knows of.
    pub numbers: Vec<u64>,
    /// The moment of each, in seconds since 1970.
    pub moments: Vec<u64>,
}
