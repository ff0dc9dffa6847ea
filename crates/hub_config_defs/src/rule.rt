//! The keys of the tables of a configuration, and what a value may be.

/// A key of a table.
#[derive(Clone, Copy)]
pub enum Key {
    Readers,
    Listen,
    Connections,
    Schedules,
    Feeds,
    ScheduleName,
    Folder,
    Zone,
    First,
    Days,
    Prefix,
    FeedName,
    FeedSchedule,
    Kind,
    Place,
    MaxAge,
    Every,
    Polls,
    Tries,
}

/// What a value may be.
#[derive(Clone, Copy)]
pub enum Holds {
    /// An integer from the first number to the second.
    Number(u32, u32),
    /// Eight digits YYYYMMDD of a day from 19700201 to 29991231.
    Date,
    /// Any text.
    AnyText,
    /// A text of at most so many bytes.
    ShortText(u32),
    /// A name that no earlier schedule has.
    NewSchedule,
    /// A name that no earlier feed has.
    NewFeed,
    /// The name of a schedule.
    KnownSchedule,
    /// The word for a `PortKind`.
    Port,
    /// An array of tables, as many as from the first number to the second.
    Tables(u32, u32),
}
