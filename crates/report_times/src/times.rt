ghost use Rattle.std.specs.Prelude.{◌≡◌, ℕ, IfOk};
ghost use Rattle.report_times.specs.Moments.{is_time};
ghost use Rattle.report_times.specs.inside.Stretches.{has_step};

use crate::item::Item;
use crate::stretch::{Stretch, stretch_of};
use sqlite_items::Items;
use std::alloc::{AllocError, Global};

/// Steps of a run.
#[derive(Drop)]
pub struct Times {
    end: u32,
    stretches: Items<Stretch>,
}

impl Times {
    /// The steps that a list of items has in a run with this last step.
    pub fn of(alloc: Global, items: &[Item], end: u32) -> Result<Times, AllocError>
        ensures { IfOk result (λ times. (step : ℕ) → has_step times step ≡ is_time end items.now step) }
    {
        let mut stretches = Items::new(alloc);
        for item in items {
            if let Some(stretch) = stretch_of(end, item) {
                stretches.push(stretch)?;
            }
        }
        Ok(Times { end, stretches })
    }

    /// Whether the step is one of them. Takes time by the number of items, and by no number of steps.
    pub fn has(&self, step: u32) -> bool
        ensures { result ≡ has_step self.now step }
    {
        if step < 1 || step > self.end {
            return false;
        }
        for stretch in self.stretches.as_slice() {
            if stretch.has(step) {
                return true;
            }
        }
        false
    }
}
