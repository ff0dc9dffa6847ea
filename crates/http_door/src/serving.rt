//! The links of a door, one after another.
ghost use Rattle.std.specs.Prelude.{◌≡◌, false};
ghost use Rattle.http_serve.specs.Serves.{Serves};
ghost use Rattle.http_serve.specs.Setting.{setting};
ghost use Rattle.http_serve.specs.Views.{AreOfHistory};
ghost use Rattle.http_door.specs.Doors.{ServesDoor};
ghost use Rattle.http_door.specs.Visits.{ends, hub};

use crate::report::{DoorEnd, DoorReport};
use board_parts::Oracle;
use delta_out::Kept;
use http_serve::ConnectionServer;
use hub_outside::{Clock, Door, DoorAnswer, Gate, GatePoint, Sink, Source};
use std::alloc::Global;
use std::sync::Wait;

/// Serves the links of a door, up to its first end or fault. Each is served between two points of
/// the gate, which have the number of this reader, and then given back. Where memory is wanting for
/// a link, it is given back all the same, and the next one is served. Router and buffers are made
/// once for all links, and the views that are kept of the last looks go on from link to link.
pub fn serve_door<D: Door, O: Oracle, C: Clock, G: Gate, R: Wait>(
    rt: &R,
    alloc: Global,
    door: &mut D,
    oracle: &mut O,
    clock: &mut C,
    gate: &G,
    reader: u32,
    kept: &mut Kept,
) -> DoorReport
    requires { AreOfHistory (O.plans oracle.old) (O.history oracle.old) kept.old }
    ensures serves { ServesDoor (ends D.In.left D.In.faults D.Out.written D.Out.faults)
        (D.links door.old) (D.links door.new) (D.faults door.old) (D.faults door.new)
        (hub (C.ahead clock.old) (O.plans oracle.old) (O.history oracle.old) (O.reads oracle.old)
        (O.steady oracle.old) kept.old)
        (hub (C.ahead clock.new) (O.plans oracle.new) (O.history oracle.new) (O.reads oracle.new)
        (O.steady oracle.new) kept.new) result }
    ensures kept { AreOfHistory (O.plans oracle.new) (O.history oracle.new) kept.new }
    ensures lets_go { O.holds oracle.old ≡ false → O.holds oracle.new ≡ false }
{
    let mut report = DoorReport::none();
    let mut server = ConnectionServer::new(alloc);
    'links: for _ in rt.forever() {
        match door.next() {
            DoorAnswer::Link(mut input, mut output) => {
                gate.pass(GatePoint::BeforeAnswer(reader));
                let session = server.serve_since(&mut input, &mut output, oracle, clock, kept);
                gate.pass(GatePoint::Answered(reader));
                door.done(input, output);
                report.count(&session);
            }
            DoorAnswer::End => return report.ended(DoorEnd::Ended),
            DoorAnswer::Failed => return report.ended(DoorEnd::Failed),
        }
    }
    unreachable!()
}
