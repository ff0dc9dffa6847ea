//! The message of a byte list.

ghost use Rattle.feed_defs.specs.Table.{read};
ghost use Rattle.answer_defs.specs.Defined.{AsDefined};
ghost use Rattle.field_read.specs.Causes.{cause_of};

use crate::message::read_one;
use field_read::ReadFault;
use rt_types::FeedMessage;
use std::alloc::Global;

/// The message of the bytes, or their first fault (GTFS Realtime 2.0; Protocol Buffers,
/// "Encoding").
#[tactic(auto, unfolding(feed_defs::specs::Table::read))]
pub fn read_message(alloc: Global, bytes: &[u8]) -> Result<FeedMessage, ReadFault>
    ensures { AsDefined (λ x. x) cause_of (read bytes.now) result }
{
    read_one(alloc, bytes)
}
