//! Comparisons of two numbers.

ghost use Rattle.std.specs.Prelude.{◌≡◌, Bool, ℤ, int_le, int_lt, not};
ghost use Rattle.std.specs.Ordering.{int_eq};
ghost use Rattle.map_meaning.specs.Local.{compared, truth};

use crate::rule::CellRule;
use cell_values::{Cell, Over};

/// A boolean cell.
pub fn truth(holds: bool) -> Cell
    ensures { result ≡ truth holds }
{
    if holds { Cell::Val(1) } else { Cell::Val(0) }
}

/// A test of two numbers.
pub trait Comparison {
    /// Whether it holds.
    ghost holds: { Self → ℤ → ℤ → Bool };

    /// Whether it holds of these numbers.
    fn test(&self, a: i64, b: i64) -> bool
        ensures { result ≡ holds self.now a b };
}

/// A test of two numbers as a rule.
pub struct Compared<T> {
    /// The test.
    pub comparison: T,
}

impl<T: Comparison> CellRule for Compared<T> {
    ghost rule = { λ s a b _ _. compared (T.holds s.comparison) a b };

    fn at(&self, a: Cell, b: Cell, _c: Cell, _d: Cell) -> Result<Cell, Over> {
        match (a, b) {
            (Cell::Val(a), Cell::Val(b)) => Ok(truth(self.comparison.test(a, b))),
            _ => Ok(Cell::Mv),
        }
    }
}

/// `==`.
pub struct Equal;

/// `!=`.
pub struct NotEqual;

/// `<`.
pub struct Less;

/// `<=`.
pub struct LessEqual;

/// `>`.
pub struct Greater;

/// `>=`.
pub struct GreaterEqual;

impl Comparison for Equal {
    ghost holds = { λ _. int_eq };

    fn test(&self, a: i64, b: i64) -> bool {
        a == b
    }
}

impl Comparison for NotEqual {
    ghost holds = { λ _ a b. not (int_eq a b) };

    fn test(&self, a: i64, b: i64) -> bool {
        a != b
    }
}

impl Comparison for Less {
    ghost holds = { λ _. int_lt };

    fn test(&self, a: i64, b: i64) -> bool {
        a < b
    }
}

impl Comparison for LessEqual {
    ghost holds = { λ _. int_le };

    fn test(&self, a: i64, b: i64) -> bool {
        a <= b
    }
}

impl Comparison for Greater {
    ghost holds = { λ _ a b. int_lt b a };

    fn test(&self, a: i64, b: i64) -> bool {
        a > b
    }
}

impl Comparison for GreaterEqual {
    ghost holds = { λ _ a b. int_le b a };

    fn test(&self, a: i64, b: i64) -> bool {
        a >= b
    }
}
