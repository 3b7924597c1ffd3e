//! The least and the greatest of two.

ghost use Rattle.map_meaning.specs.Local.{max_of, min_of};

use crate::rule::CellRule;
use cell_values::{Cell, Over};

/// `min`.
pub struct Least;

/// `max`.
pub struct Greatest;

impl CellRule for Least {
    ghost rule = { λ _ a b _ _. min_of a b };

    fn at(&self, a: Cell, b: Cell, _c: Cell, _d: Cell) -> Result<Cell, Over> {
        match (a, b) {
            (Cell::Val(a), Cell::Val(b)) => Ok(Cell::Val(if a <= b { a } else { b })),
            _ => Ok(Cell::Mv),
        }
    }
}

impl CellRule for Greatest {
    ghost rule = { λ _ a b _ _. max_of a b };

    fn at(&self, a: Cell, b: Cell, _c: Cell, _d: Cell) -> Result<Cell, Over> {
        match (a, b) {
            (Cell::Val(a), Cell::Val(b)) => Ok(Cell::Val(if a <= b { b } else { a })),
            _ => Ok(Cell::Mv),
        }
    }
}
