ghost use Rattle.std.specs.Prelude.{◌≡◌, ◌≤◌, MatchResult, OnOk};
ghost use Rattle.std.specs.Io.KnownBytes.{Appends};
ghost use Rattle.outside_io.specs.State.{Wrote, WroteFront};
ghost use Rattle.outside_io.specs.Counts.{after_write};
ghost use Rattle.outside_io.specs.StdSink.{std_sink_state};

use crate::{Sink, SinkFailed};
use std::io;
use std::io::Write;

/// The standard output of the system. It tells its count of faults and no contents.
#[derive(Drop)]
pub struct StdSink<R: Drop> {
    rt: R,
    faults: u64,
}

impl<R: Print + Drop> StdSink<R> {
    /// The standard output, to which nothing was written by this value.
    pub fn new(rt: R) -> StdSink<R>
        ensures { (std_sink_state result).faults ≡ 0 }
    {
        StdSink { rt, faults: 0 }
    }
}

impl<R: Print + Drop> Sink for StdSink<R> {
    ghost state = { std_sink_state };

    fn write_all(&mut self, bytes: &[u8]) -> Result<(), SinkFailed>
        ensures answer { MatchResult result
            (λ _. Wrote (std_sink_state self.old) (std_sink_state self.new) bytes.now)
            (λ _. WroteFront (std_sink_state self.old) (std_sink_state self.new) bytes.now) }
        ensures later { (std_sink_state self.old).faults ≤ (std_sink_state self.new).faults }
        ensures counts { (std_sink_state self.new).faults ≡ after_write (std_sink_state self.old).faults result }
    {
        if write_piece(&mut io::writer(&self.rt), bytes).is_err() {
            self.faults = self.faults.saturating_add(1);
            return Err(SinkFailed);
        }
        Ok(())
    }
}

// Writes a piece. A writer that tells its bytes shows that they grew by the whole piece.
fn write_piece<W: Write>(out: &mut W, bytes: &[u8]) -> Result<(), SinkFailed>
    ensures { OnOk result (Appends (W.contents out.old) (W.contents out.new) bytes.now) }
{
    match out.write_all(bytes) {
        Ok(()) => Ok(()),
        Err(_) => Err(SinkFailed),
    }
}
