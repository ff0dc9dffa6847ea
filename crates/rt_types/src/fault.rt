//! What may be wrong in a message, and where.

/// A message of the GTFS Realtime reference, by its name there.
#[derive(Clone, Copy, PartialEq, Eq, Debug)]
pub enum Kind {
    FeedMessage,
    FeedHeader,
    FeedEntity,
    TripUpdate,
    StopTimeUpdate,
    StopTimeEvent,
    StopTimeProperties,
    VehiclePosition,
    Position,
    VehicleDescriptor,
    Alert,
    TimeRange,
    EntitySelector,
    TranslatedString,
    Translation,
    TripDescriptor,
}

/// What is wrong in a message.
#[derive(Clone, Copy, PartialEq, Eq, Debug)]
pub enum What {
    /// A field runs past the end of the bytes (Protocol Buffers, "Encoding").
    Cut,
    /// A varint has more than ten bytes.
    Varint,
    /// A tag names no field: it is 2^32 or more, its number is 0, or its wire type is none.
    Tag,
    /// A group ends that isn't open, or begins within 64 others.
    Group,
    /// A required field is missing.
    Missing,
    /// A text isn't UTF-8.
    NotText,
}
