//! Texts that are short as a rule.

ghost use Rattle.std.specs.Prelude.{◌≡◌, IfOk};
ghost use Rattle.std.specs.Cmp.Lexicographic.{slice_cmp};
ghost use Rattle.std.specs.Ordering.{nat_cmp};

use copying::Copied;
use smallvec::SmallVec;
use std::alloc::{AllocError, Global};
use std::cmp::Ordering;
use std::convert::AsStr;
use std::marker::Model;
use std::{fmt, str};

/// A text, of which a contract sees the bytes. They are UTF-8.
///
/// Up to 22 bytes stand in place, so that ids, names, dates and times need no allocation.
#[derive(Drop)]
pub struct ShortText {
    bytes: SmallVec<u8, 22>,
}

impl Model for ShortText {
    ghost use Rattle.std.specs.Prelude.{ℕ, List, IsUtf8};

    ghost Value = { List ℕ };

    ghost view = { λ text. text.bytes.items };

    ghost invariant = { λ text. IsUtf8 text.bytes.items };
}

impl ShortText {
    /// A copy of the text, or want of memory.
    pub fn new(alloc: Global, text: &str) -> Result<ShortText, AllocError>
        ensures { IfOk result (λ copy. copy ≡ text.now) }
    {
        Ok(ShortText {
            bytes: SmallVec::from_slice(alloc, text.as_bytes())?,
        })
    }

    /// The text.
    pub fn as_str(&self) -> &str
        ensures { result.now ≡ self.now }
    {
        // SAFETY: the invariant says that the bytes are UTF-8.
        unsafe { str::from_utf8_unchecked(self.bytes.as_slice()) }
    }

    /// How the text stands to another in byte order.
    pub fn order(&self, other: &str) -> Ordering
        ensures { result ≡ slice_cmp nat_cmp self.now other.now }
    {
        self.as_str().cmp(other)
    }
}

impl AsStr for ShortText {
    ghost text = { λ text. text };

    fn as_str(&self) -> &str {
        ShortText::as_str(self)
    }
}

impl Copied for ShortText {
    fn copy(&self) -> Result<Self, AllocError> {
        ShortText::new(*self.bytes.allocator(), self.as_str())
    }
}

impl fmt::Debug for ShortText {
    fn fmt<W: fmt::Write>(&self, f: &mut fmt::Formatter<W>) -> fmt::Result {
        fmt::Debug::fmt(self.as_str(), f)
    }
}
