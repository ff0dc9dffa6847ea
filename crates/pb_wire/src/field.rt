//! A field by its places in the bytes.

/// What a field carries, where its bytes are named by their places (Protocol Buffers, "Encoding",
/// "Message Structure").
#[derive(Clone, Copy, Debug, PartialEq, Eq)]
pub enum Payload {
    /// Wire type 0.
    Varint(u64),
    /// Wire type 1: eight bytes, the lowest first.
    Eight(u64),
    /// Wire type 2: the bytes behind the length, from the first place to before the second.
    Span(usize, usize),
    /// Wire type 5: four bytes, the lowest first.
    Four(u32),
    /// Wire type 3: the fields up to an end tag of the same number; the field's own bytes hold
    /// them.
    Group,
}

/// A field of bytes. A clause sees it over its bytes as `field_in` says.
#[derive(Clone, Copy, Debug, PartialEq, Eq)]
pub struct Field {
    /// From 1 to 536870911.
    pub number: u32,
    pub payload: Payload,
    /// The place of the first byte of the tag.
    pub start: usize,
    /// The place behind the last byte of the payload.
    pub end: usize,
}
