ghost use Rattle.std.specs.Prelude.{◌≤◌};
ghost use Rattle.outside_io.specs.declared.mem_sink.TheConstants.{ROOM};

use crate::failing_calls::FailingCalls;
use crate::{Sink, SinkFailed};

/// How many bytes a sink in memory has room for.
const ROOM: usize = 4096;

/// A sink in memory, with room for 4,096 bytes, whose calls fail on demand. It tells its bytes.
///
/// A piece that does not fit is cut to what fits, which counts as a fault. A call that is to fail writes nothing.
#[derive(Drop)]
pub struct MemSink {
    room: [u8; ROOM],
    len: usize,
    failing: FailingCalls,
    faults: u64,
    ghost within: { len ≤ ROOM },
}

impl MemSink {
    ghost use Rattle.std.specs.Prelude.{◌≡◌, []};
    ghost use Rattle.outside_io.specs.MemSink.{mem_written, mem_sink_state, sink_calls};
    ghost use Rattle.outside_io.specs.FailingCalls.{calls_made, failing_numbers};

    /// A sink to which nothing was written, none of whose calls is to fail.
    pub fn new() -> MemSink
        ensures written { mem_written result ≡ [] }
        ensures faults { (mem_sink_state result).faults ≡ 0 }
        ensures made { calls_made (sink_calls result) ≡ 0 }
        ensures numbers { failing_numbers (sink_calls result) ≡ [] }
    {
        MemSink {
            room: [0; ROOM],
            len: 0,
            failing: FailingCalls::new(),
            faults: 0,
        }
    }

    /// From now on these calls are to fail, and no others. Calls are counted from 1, from the making of the sink on.
    pub fn fail_on(&mut self, calls: Vec<u64>)
        ensures state { mem_sink_state self.new ≡ mem_sink_state self.old }
        ensures made { calls_made (sink_calls self.new) ≡ calls_made (sink_calls self.old) }
        ensures numbers { failing_numbers (sink_calls self.new) ≡ calls.items }
    {
        self.failing.set(calls);
    }

    /// The bytes that were written.
    pub fn bytes(&self) -> &[u8]
        ensures { result.now ≡ mem_written self.now }
    {
        &self.room[..self.len]
    }
}

impl Sink for MemSink {
    ghost use Rattle.std.specs.Prelude.{◌≡◌, true, false, MatchResult};
    ghost use Rattle.outside_io.specs.State.{Wrote, WroteFront};
    ghost use Rattle.outside_io.specs.Counts.{after_write};
    ghost use Rattle.outside_io.specs.MemSink.{mem_sink_state, sink_calls, WritesNothing, AppendsWhatFits};
    ghost use Rattle.outside_io.specs.FailingCalls.{is_next_failing, CallMade};

    ghost state = { mem_sink_state };

    fn write_all(&mut self, bytes: &[u8]) -> Result<(), SinkFailed>
        ensures answer { MatchResult result
            (λ _. Wrote (mem_sink_state self.old) (mem_sink_state self.new) bytes.now)
            (λ _. WroteFront (mem_sink_state self.old) (mem_sink_state self.new) bytes.now) }
        ensures later { (mem_sink_state self.old).faults ≤ (mem_sink_state self.new).faults }
        ensures counts { (mem_sink_state self.new).faults ≡ after_write (mem_sink_state self.old).faults result }
        ensures refused { is_next_failing (sink_calls self.old) ≡ true → WritesNothing self.old self.new result }
        ensures written { is_next_failing (sink_calls self.old) ≡ false → AppendsWhatFits self.old self.new bytes.now result }
        ensures counted { CallMade (sink_calls self.old) (sink_calls self.new) }
    {
        if self.failing.fails_next() {
            self.faults = self.faults.saturating_add(1);
            return Err(SinkFailed);
        }
        let count = bytes.len().min(ROOM - self.len);
        let end = self.len + count;
        self.room[self.len..end].copy_from_slice(&bytes[..count]);
        self.len = end;
        if count < bytes.len() {
            self.faults = self.faults.saturating_add(1);
            return Err(SinkFailed);
        }
        Ok(())
    }
}
