//! Why no message was read.

ghost use Rattle.std.specs.Prelude.{◌≡◌, ℕ, List};
ghost use Rattle.pb_wire_defs.specs.Reading.{fields_of};
ghost use Rattle.feed_defs.specs.Rows.{fields_in};
ghost use Rattle.pb_wire.specs.Parts.{cause_of as wire_cause_of};
ghost use Rattle.answer_defs.specs.Defined.{IsCause};
ghost use Rattle.field_read.specs.declared.fault.ReadFault.TheVariants.{NoMemory};
ghost use Rattle.field_read.specs.Causes.{cause_of};

use crate::NoMemory;
use pb_wire::WireFault;
use rt_types::{Kind, What};
use std::alloc::{AllocError, AllocFailed};
use thiserror::Error;

/// Why bytes give no message.
#[derive(Debug, Drop, Error)]
pub enum ReadFault {
    /// The first fault of the bytes. Entities are numbered from 1 in the order of the message, up
    /// to 4294967295, at which the count stays; 0 stands for all that is in no entity. Field 0
    /// stands for the whole message.
    #[error("entity {entity}: {what:?} in {kind:?}, field {field}")]
    Malformed {
        /// The number of the entity that it is in, or 0.
        entity: u32,
        /// What is wrong.
        what: What,
        /// The message within which it is wrong.
        kind: Kind,
        /// The number of the field, or 0.
        field: u32,
    },
    /// Memory ran out.
    #[error("out of memory")]
    NoMemory,
}

impl From<AllocError> for ReadFault {
    ghost from_gives = { λ _ e. e ≡ NoMemory };

    fn from(_error: AllocError) -> ReadFault {
        ReadFault::NoMemory
    }
}

impl<T: Drop> From<AllocFailed<T>> for ReadFault {
    ghost from_gives = { λ _ e. e ≡ NoMemory };

    fn from(_error: AllocFailed<T>) -> ReadFault {
        ReadFault::NoMemory
    }
}

/// Why a message of this kind can't be read, where this is the first fault of its bytes.
pub fn malformed(kind: Kind, fault: WireFault) -> ReadFault
    ensures { (bytes : List ℕ) → IsCause (fields_of bytes) (wire_cause_of fault)
        → IsCause (fields_in kind bytes) (cause_of result) }
{
    let what = match fault {
        WireFault::Cut => What::Cut,
        WireFault::Varint => What::Varint,
        WireFault::Tag => What::Tag,
        WireFault::Group => What::Group,
        WireFault::NoMemory => return ReadFault::NoMemory,
    };
    ReadFault::Malformed {
        entity: 0,
        what,
        kind,
        field: 0,
    }
}
