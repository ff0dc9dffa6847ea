//! Why an offered message is refused.

ghost use Rattle.std.specs.Prelude.{◌≡◌};

use crate::NoMemory;
use rt_types::{Kind, Text, What};
use std::alloc::{AllocError, AllocFailed};
use thiserror::Error;

/// Why an offered message is refused. The first that applies is told, in this order, and want of
/// memory may come at any point.
#[derive(Debug, Drop, Error)]
pub enum Refusal {
    /// It has more than 16,777,216 bytes, and so many.
    #[error("{len} bytes are too many for a message")]
    TooLong {
        /// How many bytes it has.
        len: u64,
    },
    /// The bytes are no message of GTFS Realtime: their first fault. Entities are numbered from 1
    /// in the order of the message, up to 4294967295; 0 stands for all that is in no entity. Field
    /// 0 stands for the whole message.
    #[error("a malformed message: entity {entity}, {what:?} in {kind:?}, field {field}")]
    Malformed {
        /// The number of the entity that it is in, or 0.
        entity: u32,
        /// What is wrong.
        what: What,
        /// The message within which it is wrong.
        kind: Kind,
        /// The number of the field, or 0.
        field: u32,
    },
    /// Its header's version is neither `1.0` nor `2.0`, but this one.
    #[error("the version {0:?} isn't known")]
    Version(Text),
    /// Its header's stamp is not from 1 to 253402300799, which is the end of the year 9999: in
    /// seconds since 1970, 0 where it has none.
    #[error("the stamp {got} is no time")]
    BadStamp {
        /// Its stamp, in seconds since 1970.
        got: u64,
    },
    /// The message isn't newer than the feed's last: their stamps, in seconds since 1970.
    #[error("the stamp {got} isn't above {last}")]
    Stale {
        /// The stamp of the feed's last message, in seconds since 1970.
        last: u64,
        /// Its own, in seconds since 1970.
        got: u64,
    },
    /// Memory ran out.
    #[error("out of memory")]
    NoMemory,
}

impl From<AllocError> for Refusal {
    ghost use Rattle.hub_core.specs.declared.refusal.Refusal.TheVariants.{NoMemory};

    ghost from_gives = { λ _ refusal. refusal ≡ NoMemory };

    fn from(_: AllocError) -> Self {
        Refusal::NoMemory
    }
}

impl<T: Drop> From<AllocFailed<T>> for Refusal {
    ghost use Rattle.hub_core.specs.declared.refusal.Refusal.TheVariants.{NoMemory};

    ghost from_gives = { λ _ refusal. refusal ≡ NoMemory };

    fn from(_: AllocFailed<T>) -> Self {
        Refusal::NoMemory
    }
}
