//! Values that fit a key.

/// Which values may lie under a lock of this key.
pub trait Keyed<K> {
    /// Of the key and the value.
    ghost fits: { K → Self → Type 0 };
}
