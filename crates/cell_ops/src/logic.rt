//! Logic on booleans, of which 1 is true.

ghost use Rattle.std.specs.Prelude.{◌≡◌, ◌&&◌, ◌||◌};
ghost use Rattle.map_meaning.specs.Local.{is_either, is_one, not_of};

use crate::comparison::{Comparison, truth};
use crate::rule::CellRule;
use cell_values::{Cell, Over};

/// Whether the number of a boolean is true.
pub fn is_one(a: i64) -> bool
    ensures { result ≡ is_one a }
{
    a == 1
}

/// `and`.
pub struct And;

/// `or`.
pub struct Or;

/// `xor`.
pub struct Xor;

/// `not`.
pub struct Not;

impl Comparison for And {
    ghost holds = { λ _ a b. is_one a && is_one b };

    fn test(&self, a: i64, b: i64) -> bool {
        is_one(a) & is_one(b)
    }
}

impl Comparison for Or {
    ghost holds = { λ _ a b. is_one a || is_one b };

    fn test(&self, a: i64, b: i64) -> bool {
        is_one(a) | is_one(b)
    }
}

impl Comparison for Xor {
    ghost holds = { λ _ a b. is_either (is_one a) (is_one b) };

    fn test(&self, a: i64, b: i64) -> bool {
        is_one(a) != is_one(b)
    }
}

impl CellRule for Not {
    ghost rule = { λ _ a _ _ _. not_of a };

    fn at(&self, a: Cell, _b: Cell, _c: Cell, _d: Cell) -> Result<Cell, Over> {
        match a {
            Cell::Mv => Ok(Cell::Mv),
            Cell::Val(a) => Ok(truth(!is_one(a))),
        }
    }
}
