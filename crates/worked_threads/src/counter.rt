//! A counter that keeps the list of its additions.

ghost use Rattle.std.specs.Prelude.{◌≡◌, [], IfOk};

use std::alloc::{AllocError, Global};
use turn_cell::{Chronicle, Job};

/// A number that was added, and by whom.
#[derive(Clone, Copy, Debug, PartialEq, Eq)]
pub struct Addition {
    pub by: u64,
    pub number: u64,
}

/// The sum of its additions.
#[derive(Drop)]
pub struct Counter {
    pub sum: u64,
    pub additions: Vec<Addition>,
}

impl Counter {
    /// A counter with room for so many additions.
    pub(crate) fn new(alloc: Global, room: usize) -> Result<Counter, AllocError>
        ensures { IfOk result (λ c. c.additions.items ≡ []) }
    {
        let additions = Vec::with_capacity(alloc, room)?;
        Ok(Counter { sum: 0, additions })
    }
}

impl Chronicle for Counter {
    type Plan = u64;

    type Entry = Addition;

    ghost plan = { λ _. 0 };

    ghost history = { λ c. c.additions.items };

    ghost author = { λ a. a.by };
}

/// Adds a number, where there is room for the addition.
#[derive(Drop)]
pub struct Add(pub Addition);

impl Job<Counter> for Add {
    type Answer = bool;

    ghost acts_as = { λ j. j.0.by };

    ghost can_act = { λ _ _. Unit {0} };

    ghost gives = { λ _ _ _ _. Unit {0} };

    fn act(self, value: &mut Counter) -> bool {
        if value.additions.len() >= value.additions.capacity() {
            return false;
        }
        value.additions.push_reserved(self.0);
        value.sum = value.sum.wrapping_add(self.0.number);
        true
    }
}
