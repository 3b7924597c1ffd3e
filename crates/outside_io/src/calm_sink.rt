ghost use Rattle.std.specs.Prelude.{◌≡◌, ◌≤◌, length, IsOk, MatchResult};
ghost use Rattle.outside_io.specs.Counts.{after_write};
ghost use Rattle.outside_io.specs.State.{Wrote, WroteFront};
ghost use Rattle.outside_io.specs.CalmSink.{calm_sink_state, byte_count, count_after};

use crate::{Sink, SinkFailed};

/// A sink that counts the bytes written, keeps none of them and never fails: its count of faults is always 0.
#[derive(Drop)]
pub struct CalmSink {
    count: u64,
}

impl CalmSink {
    /// A sink to which nothing was written.
    pub fn new() -> CalmSink
        ensures { byte_count result ≡ 0 }
    {
        CalmSink { count: 0 }
    }

    /// How many bytes were written, at most 2^64 - 1.
    pub fn count(&self) -> u64
        ensures { result ≡ byte_count self.now }
    {
        self.count
    }
}

impl Sink for CalmSink {
    ghost state = { calm_sink_state };

    fn write_all(&mut self, bytes: &[u8]) -> Result<(), SinkFailed>
        ensures answer { MatchResult result
            (λ _. Wrote (calm_sink_state self.old) (calm_sink_state self.new) bytes.now)
            (λ _. WroteFront (calm_sink_state self.old) (calm_sink_state self.new) bytes.now) }
        ensures later { (calm_sink_state self.old).faults ≤ (calm_sink_state self.new).faults }
        ensures counts { (calm_sink_state self.new).faults ≡ after_write (calm_sink_state self.old).faults result }
        ensures never_fails { IsOk result }
        ensures count { byte_count self.new ≡ count_after (byte_count self.old) (length bytes.now) }
    {
        self.count = self.count.saturating_add(bytes.len() as u64);
        Ok(())
    }
}
