//! A value on the heap that several owners share, seen as the value.

ghost use Rattle.std.specs.Prelude.{◌≡◌, IfOk};

use crate::NoMemory;
use copying::Copied;
use std::alloc::Global;
use std::marker::Model;
use std::sync::Arc;

/// A value that stands in an allocation of its own, which its copies share: a copy takes no memory,
/// and the struct that may hold it stays small.
#[derive(Drop)]
pub struct Shared<T> {
    inner: Arc<T>,
}

impl<T> Model for Shared<T> {
    ghost Value = { T };

    ghost view = { λ shared. shared.inner.value };
}

impl<T> Shared<T> {
    /// The value with its first owner, or want of memory.
    pub fn new(alloc: Global, value: T) -> Result<Shared<T>, NoMemory>
    where
        T: Drop,
        ensures { IfOk result (λ shared. shared ≡ value) }
    {
        Ok(Shared {
            inner: Arc::new(alloc, value)?,
        })
    }

    /// The value.
    pub fn get(&self) -> &T
        ensures { result.now ≡ self.now }
    {
        &self.inner
    }

    /// The value itself, which is copied where it has another owner; or want of memory.
    pub fn into_inner(self) -> Result<T, NoMemory>
    where
        T: Copied,
        ensures { IfOk result (λ value. value ≡ self) }
    {
        match Arc::try_unwrap(self.inner) {
            Ok(value) => Ok(value),
            Err(inner) => inner.copy(),
        }
    }
}

impl<T: Drop> Copied for Shared<T> {
    fn copy(&self) -> Result<Self, NoMemory> {
        Ok(Shared {
            inner: Arc::try_clone(&self.inner)?,
        })
    }
}
