//! A connection keeps no view while its response is written.
ghost use Rattle.std.specs.Prelude.{Some, true, false};
ghost use Rattle.hub_outside.specs.Memory.{bytes_written, sink_faults};

use crate::given::hub;
use board_parts::{HubView, Oracle};
use http_serve::{End, NoMemory, serve_connection};
use hub_outside::{FixedClock, MemorySink, MemorySource, Sink, WriteAnswer};
use hub_state::ReplayHub;
use std::cell::Cell;
use std::test::Fail;

/// A hub that tells how many of the views that were looked up are kept.
#[derive(Drop)]
struct Tallied<'a> {
    hub: ReplayHub,
    kept: &'a Cell<u32>,
}

impl<'a> Oracle for Tallied<'a> {
    ghost history = { λ o. o.hub.history };

    ghost plans = { λ o. o.hub.shown.plans };

    ghost reads = { λ o. o.hub.reads };

    ghost shown = { λ o. o.hub.shown };

    ghost holds = { λ _. false };

    ghost steady = { λ _. true };

    fn look(&mut self) -> Result<u64, NoMemory> {
        let number = self.hub.look()?;
        self.kept.set(self.kept.get().saturating_add(1));
        Ok(number)
    }

    fn view(&self) -> &HubView {
        self.hub.view()
    }

    fn release(&mut self) {
        self.hub.release();
        self.kept.set(0);
    }
}

/// A sink that notes whether a view was kept at one of its writes.
#[derive(Drop)]
struct Watching<'a> {
    sink: MemorySink,
    kept: &'a Cell<u32>,
    saw_one: bool,
}

impl<'a> Sink for Watching<'a> {
    ghost written = { λ s. Some (bytes_written s.sink) };

    ghost faults = { λ s. sink_faults s.sink };

    fn write(&mut self, bytes: &[u8]) -> WriteAnswer {
        self.saw_one = self.saw_one || self.kept.get() > 0;
        self.sink.write(bytes)
    }
}

#[test]
fn the_view_goes_before_the_first_byte(rt: HostRuntime) -> Result<(), Fail> {
    let alloc = rt.alloc();
    let kept = Cell::new(1);
    let mut oracle = Tallied {
        hub: hub(alloc)?,
        kept: &kept,
    };
    let mut sink = Watching {
        sink: MemorySink::new(alloc, vec![in alloc; 1, 7]?, Vec::new(alloc)),
        kept: &kept,
        saw_one: false,
    };
    let asks =
        b"GET /status HTTP/1.1\r\n\r\nGET /feed/city HTTP/1.1\r\n\r\nGET /no HTTP/1.1\r\n\r\n";
    let mut source = MemorySource::new(asks.to_vec(alloc)?, Vec::new(alloc), Vec::new(alloc));
    let mut clock = FixedClock::new(vec![in alloc; 7]?);
    let session = serve_connection(alloc, &mut source, &mut sink, &mut oracle, &mut clock);
    assert_eq!(rt; session.end, End::Ended);
    assert_eq!(rt; session.numbers.len(), 3);
    assert!(rt; !sink.saw_one && kept.get() == 0);
    Ok(())
}
