//! How far the message of a reply goes.

/// How far the message goes in the bytes behind a reply's head.
#[derive(Clone, Copy, Debug, PartialEq, Eq)]
pub enum Extent {
    /// To the end of the connection.
    ToEnd,
    /// So many bytes.
    Bytes(u64),
}
