//! Why fields cannot be read.

ghost use Rattle.std.specs.Prelude.{◌≡◌};
ghost use Rattle.pb_wire.specs.declared.fault.WireFault.TheVariants.{NoMemory};

use crate::NoMemory;
use std::alloc::{AllocError, AllocFailed};
use thiserror::Error;

/// Why no fields were read: the first fault of the bytes from the left (Protocol Buffers,
/// "Encoding"), or want of memory.
#[derive(Clone, Copy, Debug, PartialEq, Eq, Error)]
pub enum WireFault {
    /// The bytes end within a field; so they do where a group has no end.
    #[error("the bytes end within a field")]
    Cut,
    /// A varint goes past ten bytes.
    #[error("a varint goes past ten bytes")]
    Varint,
    /// A tag names no field: its number is 0, it is 2^32 or more, or its wire type is 6 or 7.
    #[error("a tag names no field")]
    Tag,
    /// A group ends while none is open or one of another number is, or it begins while 64 are open.
    #[error("a group ends that isn't open, or begins too deep")]
    Group,
    /// Memory ran out.
    #[error("out of memory")]
    NoMemory,
}

impl From<AllocError> for WireFault {
    ghost from_gives = { λ _ e. e ≡ NoMemory };

    fn from(_error: AllocError) -> WireFault {
        WireFault::NoMemory
    }
}

impl<T: Drop> From<AllocFailed<T>> for WireFault {
    ghost from_gives = { λ _ e. e ≡ NoMemory };

    fn from(_error: AllocFailed<T>) -> WireFault {
        WireFault::NoMemory
    }
}
