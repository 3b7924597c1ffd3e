//! The best of some rounds.

use std::rt::Clock;
use std::test::Fail;
use std::time::Instant;

/// The shortest of some rounds.
#[derive(Clone, Copy)]
pub struct Best {
    nanoseconds: u128,
}

impl Best {
    /// No round yet.
    pub fn none() -> Best {
        Best {
            nanoseconds: u128::MAX,
        }
    }

    /// Notes a round that began then and ends now.
    pub fn note<R: Clock>(&mut self, rt: &R, start: Instant) -> Result<(), Fail> {
        let took = start.elapsed(rt)?.as_nanos();
        self.nanoseconds = self.nanoseconds.min(took);
        Ok(())
    }

    /// Notes a round that took so many nanoseconds.
    pub fn note_time(&mut self, nanoseconds: u128) {
        self.nanoseconds = self.nanoseconds.min(nanoseconds);
    }

    /// The shortest, in nanoseconds.
    pub fn nanoseconds(&self) -> u128 {
        self.nanoseconds
    }

    /// Prints the shortest in nanoseconds.
    pub fn print<R: Print>(self, rt: &R, name: &str) -> Result<(), Fail> {
        let best = self.nanoseconds;
        println!(rt; "{name} {best}")?;
        Ok(())
    }

    /// Prints the shortest in nanoseconds, and what the rounds gave, so that no compiler leaves their work out.
    pub fn print_with<R: Print>(self, rt: &R, name: &str, gave: u64) -> Result<(), Fail> {
        let best = self.nanoseconds;
        println!(rt; "{name} {best} {gave}")?;
        Ok(())
    }
}
