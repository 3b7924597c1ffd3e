//! Outcomes, one behind another.

ghost use Rattle.std.specs.Prelude.{◌≡◌, ◌+◌, ◌<◌, ◌≤◌, ℕ, length, IfOk, OnOk};
ghost use Rattle.text_base.specs.Limits.{most_cells};
ghost use Rattle.tile_map.specs.Parts.{or_over_at};

use cell_values::{Cell, Cells, Over};
use std::alloc::{AllocError, Global};
use tile_map::Part;

// The first of two places, of which the later one is Over.
fn earlier(found: Option<u32>, place: u32) -> Option<u32>
    ensures { result ≡ or_over_at place (Err (record {})) found }
{
    match found {
        Some(_) => found,
        None => Some(place),
    }
}

/// The outcomes of the places so far: their cells, and the first place whose outcome is Over.
#[derive(Drop)]
pub struct Outcomes {
    pub cells: Vec<Cell>,
    pub over: Option<u32>,
}

impl Outcomes {
    ghost use Rattle.tile_map.specs.Parts.{Outcome, part_of};
    ghost use Rattle.window_ops.specs.inside.Outcomes.{AreOutcomes};

    /// No outcomes, with room for so many.
    pub fn with_room(alloc: Global, places: usize) -> Result<Outcomes, AllocError>
        requires { places ≤ most_cells }
        ensures { IfOk result (λ made. (outcome : ℕ → Outcome) → AreOutcomes outcome 0 made.cells.items made.over) }
    {
        let cells = Vec::with_capacity(alloc, places)?;
        Ok(Outcomes { cells, over: None })
    }

    /// One more outcome.
    #[tactic(auto, using(crate::proofs::OutcomeLemmas::push_cell, crate::proofs::OutcomeLemmas::push_over))]
    pub fn push(&mut self, outcome: Result<Cell, Over>) -> Result<(), AllocError>
        requires { length self.old.cells.items < most_cells }
        ensures size { OnOk result (length self.new.cells.items ≡ length self.old.cells.items + 1) }
        ensures each { OnOk result ((f : ℕ → Outcome) (places : ℕ) → AreOutcomes f places self.old.cells.items self.old.over → f places ≡ outcome → AreOutcomes f (places + 1) self.new.cells.items self.new.over) }
    {
        match outcome {
            Ok(cell) => {
                self.cells.push(cell)?;
                Ok(())
            }
            Err(_) => {
                let place = self.cells.len() as u32;
                self.cells.push(Cell::Mv)?;
                self.over = earlier(self.over, place);
                Ok(())
            }
        }
    }

    /// The part of all outcomes.
    pub fn into_part(self) -> Part
        ensures { (f : ℕ → Outcome) (places : ℕ) → AreOutcomes f places self.cells.items self.over → result ≡ part_of f places }
    {
        let Outcomes { cells, over } = self;
        Part {
            cells: Cells::from_vec(cells),
            over,
        }
    }
}
