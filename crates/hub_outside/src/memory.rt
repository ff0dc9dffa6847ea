//! The forms in memory, for tests, for stored runs and for theorems: they tell all their contents.
pub(crate) mod calls;
pub(crate) mod clock;
pub(crate) mod door;
pub(crate) mod files;
pub(crate) mod sink;
pub(crate) mod source;
