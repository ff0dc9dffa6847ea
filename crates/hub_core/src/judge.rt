//! The judgement of an offered message.

ghost use Rattle.std.specs.Prelude.{◌≡◌, nat_lt, length, Result};
ghost use Rattle.rt_types.specs.declared.message.FeedMessage.{FeedMessage};
ghost use Rattle.feed_defs.specs.Rows.{Fault};
ghost use Rattle.feed_defs.specs.History.{judgement_of, well_formed, if_read, sound, newer, has_version, has_moment, stamp_of, longest_message};
ghost use Rattle.answer_defs.specs.Defined.{AsDefined};
ghost use Rattle.field_read.specs.Causes.{cause_of as fault_of};
ghost use Rattle.hub_core.specs.Answers.{cause_of};

use crate::refusal::Refusal;
use feed_defs::LONGEST_MESSAGE;
use feed_read::{ReadFault, read_message, read_message_on};
use rt_types::{FeedMessage, Header};
use std::alloc::Global;
use std::thread::Threads;
use texts::is_stamp;

/// The message of the bytes, where it is well-formed and its stamp is above `last`, which is in
/// seconds since 1970; else why it is refused.
pub fn check(alloc: Global, last: u64, bytes: &[u8]) -> Result<FeedMessage, Refusal>
    ensures { AsDefined (λ m. m) cause_of (judgement_of last bytes.now) result }
{
    let message = formed(alloc, bytes)?;
    newer(last, message)
}

/// What [`check`] gives. From some two thousand entities on, these are read on as many threads as
/// the machine has processors.
pub fn check_on(
    rt: &(impl Threads + Sync),
    alloc: Global,
    last: u64,
    bytes: &[u8],
) -> Result<FeedMessage, Refusal>
    ensures { AsDefined (λ m. m) cause_of (judgement_of last bytes.now) result }
{
    let message = formed_on(rt, alloc, bytes)?;
    newer(last, message)
}

/// The message of well-formed bytes: at most 16,777,216 of them, that read as a message of the
/// versions 1.0 or 2.0 with a stamp up to the end of the year 9999.
fn formed(alloc: Global, bytes: &[u8]) -> Result<FeedMessage, Refusal>
    ensures { AsDefined (λ m. m) cause_of (well_formed bytes.now) result }
{
    if is_too_long(bytes) {
        return Err(too_long(bytes));
    }
    judged(read_message(alloc, bytes))
}

/// The same, read on several threads where it has many entities.
fn formed_on(
    rt: &(impl Threads + Sync),
    alloc: Global,
    bytes: &[u8],
) -> Result<FeedMessage, Refusal>
    ensures { AsDefined (λ m. m) cause_of (well_formed bytes.now) result }
{
    if is_too_long(bytes) {
        return Err(too_long(bytes));
    }
    judged(read_message_on(rt, alloc, bytes))
}

/// Whether the bytes are too many for a message.
fn is_too_long(bytes: &[u8]) -> bool
    ensures { result ≡ nat_lt longest_message (length bytes.now) }
{
    bytes.len() > LONGEST_MESSAGE
}

/// That they are.
fn too_long(bytes: &[u8]) -> Refusal
    ensures { result ≡ Refusal.TooLong (length bytes.now) }
{
    Refusal::TooLong {
        len: bytes.len() as u64,
    }
}

/// The message that was read, where it has a version and a stamp that a hub takes; else why it is
/// refused, which is the fault that reading found, if it did.
fn judged(read: Result<FeedMessage, ReadFault>) -> Result<FeedMessage, Refusal>
    ensures { (told : Result FeedMessage Fault) → AsDefined (λ m. m) fault_of told read
        → AsDefined (λ m. m) cause_of (if_read told) result }
{
    match read {
        Ok(message) => sound(message),
        Err(
            ReadFault::Malformed {
                entity,
                what,
                kind,
                field,
            },
        ) => Err(Refusal::Malformed {
            entity,
            what,
            kind,
            field,
        }),
        Err(ReadFault::NoMemory) => Err(Refusal::NoMemory),
    }
}

/// The message, where its stamp is above the last one.
fn newer(last: u64, message: FeedMessage) -> Result<FeedMessage, Refusal>
    ensures { AsDefined (λ m. m) cause_of (newer last message) result }
{
    let got = stamp(&message);
    if got <= last {
        return Err(Refusal::Stale { last, got });
    }
    Ok(message)
}

/// The message, where it has a version and a stamp that a hub takes.
fn sound(message: FeedMessage) -> Result<FeedMessage, Refusal>
    ensures { AsDefined (λ m. m) cause_of (sound message) result }
{
    if !has_version(&message) {
        return Err(other_version(message));
    }
    if !has_moment(&message) {
        return Err(Refusal::BadStamp {
            got: stamp(&message),
        });
    }
    Ok(message)
}

/// That the message has a version which isn't known.
fn other_version(message: FeedMessage) -> Refusal
    ensures { result ≡ Refusal.Version message.header.version }
{
    let Header { version, .. } = message.header;
    Refusal::Version(version)
}

/// Whether the message has a version that a hub takes.
fn has_version(message: &FeedMessage) -> bool
    ensures { result ≡ has_version message.now }
{
    let version = message.header.version.as_str();
    version == "1.0" || version == "2.0"
}

/// Whether the message has a stamp that a hub takes.
fn has_moment(message: &FeedMessage) -> bool
    ensures { result ≡ has_moment message.now }
{
    is_stamp(stamp(message))
}

/// When the message was made, in seconds since 1970; 0 where it doesn't say.
fn stamp(message: &FeedMessage) -> u64
    ensures { result ≡ stamp_of message.now }
{
    message.header.timestamp.unwrap_or(0)
}
