// A copy that takes memory.

ghost use Rattle.std.specs.Prelude.{◌≡◌, IfOk};

use std::alloc::AllocError;

/// A value that can be copied where memory allows.
pub trait Copied: Drop {
    /// A value equal to this one, or want of memory.
    fn copy(&self) -> Result<Self, AllocError>
        ensures { IfOk result (λ same. same ≡ self.now) };
}

impl<T: Copied> Copied for Option<T> {
    fn copy(&self) -> Result<Self, AllocError> {
        match self {
            Some(value) => Ok(Some(value.copy()?)),
            None => Ok(None),
        }
    }
}
