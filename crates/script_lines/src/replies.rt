//! The lines that answer an offered message.
ghost use Rattle.std.specs.Prelude.{◌≡◌, ◌++◌, Err, codes, IfOk, OnOk};
ghost use Rattle.std.specs.Fmt.{decimal};
ghost use Rattle.std.specs.String.{string_bytes};
ghost use Rattle.feed_defs.specs.History.Refusal.{TooLong as LongCause, Malformed as FaultCause, Version as VersionCause, Stale as StaleCause};
ghost use Rattle.hub_replay_defs.specs.Record.{reply_line};
ghost use Rattle.text_defs.specs.Cleaned.{line_feed, cleaned_text};
ghost use Rattle.hub_replay_defs.specs.Texts.{what_word, kind_name};
ghost use Rattle.script_lines.specs.Replies.{IsReplyLine};

use crate::NoMemory;
use hub_core::Refusal;
use rt_types::{Kind, What};
use std::alloc::Global;
use texts::push_cleaned;

/// The line that answers an offered message.
pub fn reply_line(alloc: Global, reply: Result<u64, Refusal>) -> Result<Vec<u8>, NoMemory>
    ensures { IfOk result (λ line. IsReplyLine reply line.items) }
{
    let line = match reply {
        Ok(count) => format!(in alloc; "accepted {count}\n")?,
        Err(Refusal::TooLong { len }) => too_long_line(alloc, len)?,
        Err(
            Refusal::Malformed {
                entity,
                what,
                kind,
                field,
            },
        ) => malformed_line(alloc, entity, what, kind, field)?,
        Err(Refusal::Version(version)) => return version_line(alloc, version.as_str()),
        Err(Refusal::BadStamp { got }) => format!(in alloc; "refused stamp {got}\n")?,
        Err(Refusal::Stale { last, got }) => stale_line(alloc, last, got)?,
        Err(Refusal::NoMemory) => return Err(NoMemory),
    };
    Ok(line.into_bytes())
}

/// The line that refuses a message of so many bytes.
pub fn too_long_line(alloc: Global, len: u64) -> Result<String, NoMemory>
    ensures { IfOk result (λ line. string_bytes line ≡ reply_line (Err (LongCause len))) }
{
    format!(in alloc; "refused toolong {len}\n")
}

/// The line that refuses a message no newer than its feed's last; both stamps are in seconds since
/// 1970.
fn stale_line(alloc: Global, last: u64, got: u64) -> Result<String, NoMemory>
    ensures { IfOk result (λ line. string_bytes line ≡ reply_line (Err (StaleCause last got))) }
{
    format!(in alloc; "refused stale {last} {got}\n")
}

/// The line that refuses a message with a fault.
fn malformed_line(
    alloc: Global,
    entity: u32,
    what: What,
    kind: Kind,
    field: u32,
) -> Result<String, NoMemory>
    ensures { IfOk result (λ line. string_bytes line ≡ reply_line
        (Err (FaultCause (record { entity = entity; what = what; kind = kind; field = field })))) }
{
    fault_line(alloc, entity, what_word(what), kind_name(kind), field)
}

/// The same, of words.
fn fault_line(
    alloc: Global,
    entity: u32,
    what: &str,
    kind: &str,
    field: u32,
) -> Result<String, NoMemory>
    ensures { IfOk result (λ line. string_bytes line ≡ codes "refused malformed "
        ++ (decimal entity ++ codes " " ++ what.now ++ codes " " ++ kind.now ++ codes " "
        ++ decimal field) ++ line_feed) }
{
    format!(in alloc; "refused malformed {entity} {what} {kind} {field}\n")
}

/// The line that refuses a message of another version, whose control characters would break the
/// line.
fn version_line(alloc: Global, version: &str) -> Result<Vec<u8>, NoMemory>
    ensures { IfOk result (λ line. line.items ≡ reply_line (Err (VersionCause version.now))) }
{
    let mut line = Vec::from_slice(alloc, b"refused version ")?;
    push_cleaned(version.as_bytes(), &mut line)?;
    line.push(b'\n')?;
    Ok(line)
}

/// What is wrong in a message.
fn what_word(what: What) -> &'static str
    ensures { result.now ≡ what_word what }
{
    match what {
        What::Cut => "cut",
        What::Varint => "varint",
        What::Tag => "tag",
        What::Group => "group",
        What::Missing => "missing",
        What::NotText => "text",
    }
}

/// The name of a message in the reference of GTFS Realtime.
fn kind_name(kind: Kind) -> &'static str
    ensures { result.now ≡ kind_name kind }
{
    match kind {
        Kind::FeedMessage => "FeedMessage",
        Kind::FeedHeader => "FeedHeader",
        Kind::FeedEntity => "FeedEntity",
        Kind::TripUpdate => "TripUpdate",
        Kind::StopTimeUpdate => "StopTimeUpdate",
        Kind::StopTimeEvent => "StopTimeEvent",
        Kind::StopTimeProperties => "StopTimeProperties",
        Kind::VehiclePosition => "VehiclePosition",
        Kind::Position => "Position",
        Kind::VehicleDescriptor => "VehicleDescriptor",
        Kind::Alert => "Alert",
        Kind::TimeRange => "TimeRange",
        Kind::EntitySelector => "EntitySelector",
        Kind::TranslatedString => "TranslatedString",
        Kind::Translation => "Translation",
        Kind::TripDescriptor => "TripDescriptor",
    }
}
