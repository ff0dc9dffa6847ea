//! The outside of std. It tells no contents, and each adapter counts the faults it met.
pub(crate) mod clock;
pub(crate) mod door;
pub(crate) mod files;
pub(crate) mod limits;
pub(crate) mod link;
pub(crate) mod retry;
pub(crate) mod sink;
pub(crate) mod source;
