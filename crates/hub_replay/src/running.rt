//! A replay, from its first record to its end.
ghost use Rattle.std.specs.Prelude.{◌≤◌, Some};
ghost use Rattle.hub_replay_defs.specs.Output.{longest_script};
ghost use Rattle.hub_replay.specs.Steps.{at, place_sum, Leaves, HasCause};

use crate::steps::{Ending, Replay, advance};
use hub_outside::{Sink, Source};
use std::alloc::Global;

/// Does all records up to the end, or to a fault. What was said and not yet written is left in the
/// replay.
pub(crate) fn do_all<S: Source, K: Sink>(
    alloc: Global,
    run: &mut Replay,
    input: &mut S,
    out: &mut K,
) -> Ending
    requires { place_sum (at run.old) ≤ longest_script }
    ensures leaves { Leaves result (at run.old) run.new.said.items (S.left input.old)
        (S.left input.new) (K.written out.old) (K.written out.new) }
    ensures cause { HasCause (Some result) (S.faults input.old) (S.faults input.new)
        (K.faults out.old) (K.faults out.new) }
{
    'records: loop {
        match advance(alloc, run, input, out) {
            Some(ending) => return ending,
            None => {}
        }
    }
}
