//! What opening a desk gives.

use crate::desk::Desk;
use crate::key::Key;

/// A desk and the keys of all its numbers, in their order from 0.
#[derive(Drop)]
pub struct Permits {
    /// The desk.
    pub desk: Desk,
    /// The keys.
    pub keys: Vec<Key>,
}
