//! Runs of bytes, as messages hold them.

ghost use Rattle.std.specs.Prelude.{◌≡◌, IfOk};

use crate::NoMemory;
use copying::Copied;
use std::alloc::Global;
use std::marker::Model;

/// A run of bytes of a message, as they came.
#[derive(Debug, Drop)]
pub struct Bytes {
    inner: Vec<u8>,
}

impl Model for Bytes {
    ghost use Rattle.std.specs.Prelude.{ℕ, List};

    ghost Value = { List ℕ };

    ghost view = { λ bytes. bytes.inner.items };
}

impl Bytes {
    /// A copy of the bytes, or want of memory.
    pub fn new(alloc: Global, bytes: &[u8]) -> Result<Bytes, NoMemory>
        ensures { IfOk result (λ copy. copy ≡ bytes.now) }
    {
        Ok(Bytes {
            inner: Vec::from_slice(alloc, bytes)?,
        })
    }

    /// These bytes, with no copy.
    pub fn from_vec(bytes: Vec<u8>) -> Bytes
        ensures { result ≡ bytes.items }
    {
        Bytes { inner: bytes }
    }

    /// The bytes.
    pub fn as_slice(&self) -> &[u8]
        ensures { result.now ≡ self.now }
    {
        self.inner.as_slice()
    }
}

impl Copied for Bytes {
    fn copy(&self) -> Result<Self, NoMemory> {
        Ok(Bytes {
            inner: self.inner.clone()?,
        })
    }
}
