//! What a message does to be written.

ghost use Rattle.std.specs.Prelude.{◌≡◌, ℕ, List, ◌++◌, OnOk};
ghost use Rattle.feed_defs.specs.Rows.{message_bytes, Message as Table};
ghost use Rattle.feed_write.specs.Puts.{StartsWith};

use crate::NoMemory;

/// A message of the reference, as its table says.
pub(crate) trait Message {
    ghost table: { Table Self };
    // The message with a prefix before its ids of the timetable.
    ghost renamed: { List ℕ → Self → Self };

    /// Whether it is likely to take 128 bytes or more. Two bytes are kept for the length of such a
    /// one, so that it needn't move when that becomes known; one that is shorter after all does.
    fn is_long(&self) -> bool {
        false
    }

    /// Appends the bytes of the message with the prefix before each id of the timetable in it that
    /// is there and isn't empty: its fields by rising number, and then those that it doesn't know.
    fn put(&self, prefix: &str, out: &mut Vec<u8>) -> Result<(), NoMemory>
        ensures written { OnOk result (out.new.items
            ≡ out.old.items ++ message_bytes table (renamed prefix.now self.now)) }
        ensures begins { StartsWith out.old.items out.new.items };
}
