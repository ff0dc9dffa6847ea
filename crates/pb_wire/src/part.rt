//! A field of borrowed bytes.

/// What a field carries (Protocol Buffers, "Encoding", "Message Structure").
#[derive(Clone, Copy, Debug)]
pub enum PartPayload<'a> {
    /// Wire type 0.
    Varint(u64),
    /// Wire type 1: eight bytes, the lowest first.
    Eight(u64),
    /// Wire type 2: the bytes behind the length.
    Span(&'a [u8]),
    /// Wire type 5: four bytes, the lowest first.
    Four(u32),
    /// Wire type 3: the fields up to an end tag of the same number; the part's `raw` holds them.
    Group,
}

/// A field of borrowed bytes. A clause sees it as `part_seen` says.
#[derive(Clone, Copy, Debug)]
pub struct Part<'a> {
    /// From 1 to 536870911.
    pub number: u32,
    pub payload: PartPayload<'a>,
    /// All bytes of the field, tag included.
    pub raw: &'a [u8],
}
