//! Changes of a list, to be done together.

/// What becomes of one key of a list. A contract sees the keys of removals as `KeyFor::sought`
/// gives them.
#[derive(Drop)]
pub enum Change<T, K> {
    /// The item takes the place of the one with its key, or comes in where there is none.
    Put(T),
    /// The item with that key goes, if there is one.
    Remove(K),
}
