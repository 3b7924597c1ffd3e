ghost use Rattle.std.specs.Prelude.{◌≡◌, ◌≤◌, MatchResult};
ghost use Rattle.outside_io.specs.Counts.{after_write};
ghost use Rattle.outside_io.specs.State.{SinkState, Wrote, WroteFront};

/// A piece was not written whole: a front of it was, maybe none of it.
#[derive(Clone, Copy, Debug, PartialEq, Eq)]
pub struct SinkFailed;

/// Where a run writes its one line. A failure raises the count of faults by one, and nothing else does; the count never
/// falls, and stands still at its last value, 2^64 - 1.
pub trait Sink {
    /// What it tells: the bytes written, where it knows them, and its count of faults.
    ghost state: { Self → SinkState };

    /// Appends the whole piece, or a front of it where it fails.
    fn write_all(&mut self, bytes: &[u8]) -> Result<(), SinkFailed>
        ensures answer { MatchResult result
            (λ _. Wrote (state self.old) (state self.new) bytes.now)
            (λ _. WroteFront (state self.old) (state self.new) bytes.now) }
        ensures later { (state self.old).faults ≤ (state self.new).faults }
        ensures counts { (state self.new).faults ≡ after_write (state self.old).faults result };
}
