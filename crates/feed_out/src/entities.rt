//! The entities of the combined feed.

ghost use Rattle.std.specs.Prelude.{◌≡◌, ◌++◌, OnOk};
ghost use Rattle.std.specs.Io.{StartsWith};
ghost use Rattle.std.specs.List.{flat_map};
ghost use Rattle.feed_out.specs.Fields.{combined_field};

use crate::NoMemory;
use board_parts::HeldEntities;
use feed_write::write_under_feed;

/// Appends some entities, one after another, or as many as memory allows: the ids of the timetable
/// in each under the prefix, and its own under its feed's name.
pub(crate) fn push_entities(
    prefix: &str,
    entities: HeldEntities<'_>,
    out: &mut Vec<u8>,
) -> Result<(), NoMemory>
    ensures written { OnOk result (out.new.items
        ≡ out.old.items ++ flat_map (combined_field prefix.now) entities.entry) }
    ensures begins { StartsWith out.new.items out.old.items }
{
    for held in entities {
        let feed = held.feed().name.as_str();
        write_under_feed(feed, prefix, &held.stored().entity, out)?;
    }
    Ok(())
}
