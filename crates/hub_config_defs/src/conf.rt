//! The configuration of a hub.

use rt_types::{Items, Text};

/// How messages come to a feed.
#[derive(Clone, Copy, Debug, PartialEq, Eq)]
pub enum PortKind {
    /// From nowhere but a script.
    Nothing,
    /// As files in a folder.
    Spool,
    /// Over a TCP connection.
    Stream,
    /// As replies to a request over HTTP that is made again and again.
    Poll,
}

/// A schedule: a timetable and the days on which it is served.
#[derive(Drop)]
pub struct ScheduleConf {
    /// 1 to 32 of a to z, 0 to 9 and `_`, another one for each schedule.
    pub name: Text,
    /// The folder of its files.
    pub folder: Text,
    /// The rule of its time zone, in the form of the POSIX variable TZ.
    pub zone: Text,
    /// The first day of its window, as the number of the eight digits YYYYMMDD, 19700201 to
    /// 29991231.
    pub first: u32,
    /// How many days the window has, 1 to 400.
    pub days: u32,
    /// What stands before each id that is written, at most 32 bytes.
    pub prefix: Text,
}

/// A feed of realtime messages.
#[derive(Drop)]
pub struct FeedConf {
    /// 1 to 32 of a to z, 0 to 9 and `_`, another one for each feed.
    pub name: Text,
    /// The index of its schedule, from 0.
    pub schedule: u32,
    /// How its messages come.
    pub kind: PortKind,
    /// The folder that they come in, or the TCP address that they come from; of a feed that is
    /// polled the host, perhaps with a port, and the path behind it from its `/` on.
    pub place: Text,
    /// For how many seconds from its stamp on an update or an alert counts, up to 31622400; 0 for
    /// no end.
    pub max_age: u64,
    /// How many seconds pass before each poll but the first, 1 to 86400.
    pub every: u64,
    /// How many times it is polled, up to 1000000000; 0 for no end.
    pub polls: u64,
    /// How many polls may fail one after another before the feed has failed, 1 to 1000.
    pub tries: u32,
}

/// The configuration of a hub.
#[derive(Drop)]
pub struct HubConf {
    /// How many threads serve readers, 1 to 64.
    pub readers: u32,
    /// The TCP address at which readers are served.
    pub listen: Text,
    /// After how many connections a reader's thread ends, or 0 for no end.
    pub connections: u64,
    /// The schedules, 1 to 8.
    pub schedules: Items<ScheduleConf>,
    /// The feeds, at most 64.
    pub feeds: Items<FeedConf>,
}
