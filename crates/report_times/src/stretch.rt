//! Items whose points are told by their steps.

ghost use Rattle.std.specs.Prelude.{◌≡◌, ◌≤◌, ◌<◌, ℕ, IfSome, MatchOption, false};
ghost use Rattle.report_times.specs.Moments.{is_in_item, is_in_run, step_of_point};
ghost use Rattle.report_times.specs.inside.Stretches.{in_found, in_stretch};

use crate::item::{Item, Point};

/// The steps from a first one on, up to a last one, each so many behind the one before.
#[derive(Clone, Copy, Debug)]
pub struct Stretch {
    first: u32,
    by: u32,
    last: u32,
}

// The step of a point.
fn step_of_point(end: u32, point: Point) -> u32
    ensures { result ≡ step_of_point end point }
{
    match point {
        Point::Step(step) => step,
        Point::EndTime => end,
    }
}

/// The steps of an item in a run with this last step, if it has any up to it.
pub fn stretch_of(end: u32, item: &Item) -> Option<Stretch>
    ensures { (step : ℕ) → step ≤ end → in_found step result ≡ is_in_item end step item.now }
{
    let first = step_of_point(end, item.first);
    let last = step_of_point(end, item.last);
    if first > last || first > end {
        return None;
    }
    Some(Stretch {
        first,
        by: item.by,
        last,
    })
}

impl Stretch {
    /// Whether it has the step.
    pub fn has(&self, step: u32) -> bool
        ensures { result ≡ in_stretch step self.now }
    {
        if step < self.first || step > self.last {
            return false;
        }
        if self.by == 0 {
            return step == self.first;
        }
        (step - self.first) % self.by == 0
    }
}
