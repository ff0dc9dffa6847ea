//! What the desk, a key, or a note from one to the other knows.

/// What the holder of a seat at the table knows. No value of it is made: contracts alone see it,
/// and an array stands there for a list of any length.
pub struct View {
    /// It is the desk's, which hands out keys.
    pub deals: bool,
    /// How many keys the desk handed out.
    pub made: u64,
    /// It is a key's, which raises the word of its number.
    pub grants: bool,
    /// The key's number.
    pub number: u64,
    /// How often the key was granted: the word of its number.
    pub granted: u64,
    /// For each number a count that its word is not below.
    pub counts: [u64; 0],
    /// For each number what the word was seen not to be below.
    pub low: [u64; 0],
}
