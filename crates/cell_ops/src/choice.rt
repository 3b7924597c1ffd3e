//! Choices between cells, and the test on what is defined.

ghost use Rattle.map_meaning.specs.Local.{copy_of, cover_of, defined_of, if_else_of, if_then_of};

use crate::comparison::truth;
use crate::logic::is_one;
use crate::rule::CellRule;
use cell_values::{Cell, Over};

/// The operand as it is.
pub struct Copy;

/// `if(c then a)`.
pub struct IfThen;

/// `if(c then a else b)`.
pub struct IfElse;

/// `cover`.
pub struct Cover;

/// `defined`.
pub struct Defined;

impl CellRule for Copy {
    ghost rule = { λ _ a _ _ _. copy_of a };

    fn at(&self, a: Cell, _b: Cell, _c: Cell, _d: Cell) -> Result<Cell, Over> {
        Ok(a)
    }
}

impl CellRule for IfThen {
    ghost rule = { λ _ a b _ _. if_then_of a b };

    fn at(&self, a: Cell, b: Cell, _c: Cell, _d: Cell) -> Result<Cell, Over> {
        match a {
            Cell::Val(a) if is_one(a) => Ok(b),
            _ => Ok(Cell::Mv),
        }
    }
}

impl CellRule for IfElse {
    ghost rule = { λ _ a b c _. if_else_of a b c };

    fn at(&self, a: Cell, b: Cell, c: Cell, _d: Cell) -> Result<Cell, Over> {
        match a {
            Cell::Mv => Ok(Cell::Mv),
            Cell::Val(a) => Ok(if is_one(a) { b } else { c }),
        }
    }
}

impl CellRule for Cover {
    ghost rule = { λ _ a b _ _. cover_of a b };

    fn at(&self, a: Cell, b: Cell, _c: Cell, _d: Cell) -> Result<Cell, Over> {
        match a {
            Cell::Mv => Ok(b),
            Cell::Val(_) => Ok(a),
        }
    }
}

impl CellRule for Defined {
    ghost rule = { λ _ a _ _ _. defined_of a };

    fn at(&self, a: Cell, _b: Cell, _c: Cell, _d: Cell) -> Result<Cell, Over> {
        match a {
            Cell::Mv => Ok(truth(false)),
            Cell::Val(_) => Ok(truth(true)),
        }
    }
}
