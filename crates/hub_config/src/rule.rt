//! The keys of the tables of a configuration, and what each may hold.

ghost use Rattle.std.specs.Prelude.{◌≡◌};
ghost use Rattle.hub_config_defs.specs.Rules as rules;
ghost use Rattle.hub_config.specs.Seen.{absent_seen, rule_seen};

use hub_config_defs::{Holds, Key, TableName};

/// What stands for a key that is absent.
#[derive(Clone, Copy)]
pub enum Absent {
    /// Nothing: the key is required.
    Refused,
    /// A number.
    Number(u32),
    /// A text.
    Text(&'static str),
    /// No table.
    NoTables,
}

/// A key's name, what it may hold and what stands for it where it is absent.
#[derive(Clone, Copy)]
pub struct Rule {
    pub name: &'static str,
    pub holds: Holds,
    pub absent: Absent,
}

impl Rule {
    fn new(name: &'static str, holds: Holds, absent: Absent) -> Self
        ensures { rule_seen result ≡ record {
          name = name.now;
          holds = holds;
          absent = absent_seen absent;
        } }
    {
        Rule {
            name,
            holds,
            absent,
        }
    }
}

/// The key's rule.
#[tactic(auto, unfolding(hub_config_defs::specs::Rules::rule_of))]
pub fn rule_for(key: Key) -> Rule
    ensures { rule_seen result ≡ rules.rule_of key }
{
    match key {
        Key::Readers => Rule::new("readers", Holds::Number(1, 64), Absent::Number(2)),
        Key::Listen => Rule::new("listen", Holds::AnyText, Absent::Text("127.0.0.1:8080")),
        Key::Connections => Rule::new(
            "connections",
            Holds::Number(0, 1_000_000_000),
            Absent::Number(0),
        ),
        Key::Schedules => Rule::new("schedule", Holds::Tables(1, 8), Absent::Refused),
        Key::Feeds => Rule::new("feed", Holds::Tables(0, 64), Absent::NoTables),
        Key::ScheduleName => Rule::new("name", Holds::NewSchedule, Absent::Refused),
        Key::Folder => Rule::new("folder", Holds::AnyText, Absent::Refused),
        Key::Zone => Rule::new("zone", Holds::AnyText, Absent::Refused),
        Key::First => Rule::new("first", Holds::Date, Absent::Refused),
        Key::Days => Rule::new("days", Holds::Number(1, 400), Absent::Refused),
        Key::Prefix => Rule::new("prefix", Holds::ShortText(32), Absent::Text("")),
        Key::FeedName => Rule::new("name", Holds::NewFeed, Absent::Refused),
        Key::FeedSchedule => Rule::new("schedule", Holds::KnownSchedule, Absent::Refused),
        Key::Kind => Rule::new("kind", Holds::Port, Absent::Text("none")),
        Key::Place => Rule::new("place", Holds::AnyText, Absent::Text("")),
        Key::MaxAge => Rule::new("max_age", Holds::Number(0, 31_622_400), Absent::Number(0)),
        Key::Every => Rule::new("every", Holds::Number(1, 86_400), Absent::Number(10)),
        Key::Polls => Rule::new("polls", Holds::Number(0, 1_000_000_000), Absent::Number(0)),
        Key::Tries => Rule::new("tries", Holds::Number(1, 1000), Absent::Number(10)),
    }
}

static TOP_KEYS: [Key; 5] = [
    Key::Readers,
    Key::Listen,
    Key::Connections,
    Key::Schedules,
    Key::Feeds,
];

static SCHEDULE_KEYS: [Key; 6] = [
    Key::ScheduleName,
    Key::Folder,
    Key::Zone,
    Key::First,
    Key::Days,
    Key::Prefix,
];

static FEED_KEYS: [Key; 8] = [
    Key::FeedName,
    Key::FeedSchedule,
    Key::Kind,
    Key::Place,
    Key::MaxAge,
    Key::Every,
    Key::Polls,
    Key::Tries,
];

/// The keys of such a table, in the order in which they are judged.
#[tactic(auto, unfolding(hub_config_defs::specs::Rules::keys_of))]
pub fn keys(table: TableName) -> &'static [Key]
    ensures { result.now ≡ rules.keys_of table }
{
    match table {
        TableName::Top => &TOP_KEYS,
        TableName::Schedule => &SCHEDULE_KEYS,
        TableName::Feed => &FEED_KEYS,
    }
}
