//! Operations on scalars.

ghost use Rattle.std.specs.Prelude.{◌≡◌, ◌≤◌, ◌^◌, ℤ, pos, neg_ℤ, unsigned_abs, Ok};
ghost use Rattle.cell_values.specs.declared.kind.Kind.TheVariants.{Scalar};
ghost use Rattle.cell_values.specs.Arithmetic.{scalar_difference, scalar_product, scalar_quotient, scalar_remainder, scalar_sum, scalar_whole_quotient};
ghost use Rattle.cell_values.specs.Kinds.{cell_of_number};
ghost use Rattle.map_meaning.specs.Missing.{at_cell};
ghost use Rattle.map_meaning.specs.Whole.{whole_above, whole_below, whole_nearest};

use crate::rule::CellRule;
use cell_values::{Cell, Kind, Over, add, div, int_div, int_mod, mul, round_div, sub, to_cell};

/// How many millionths make one.
const MILLION: i128 = 1_000_000;

/// `+`.
pub struct Sum;

/// `-` of two.
pub struct Difference;

/// `*`.
pub struct Product;

/// `/`.
pub struct Quotient;

/// `idiv`.
pub struct WholeQuotient;

/// `mod`.
pub struct Remainder;

impl CellRule for Sum {
    ghost rule = { λ _ a b _ _. scalar_sum a b };

    fn at(&self, a: Cell, b: Cell, _c: Cell, _d: Cell) -> Result<Cell, Over> {
        add(a, b)
    }
}

impl CellRule for Difference {
    ghost rule = { λ _ a b _ _. scalar_difference a b };

    fn at(&self, a: Cell, b: Cell, _c: Cell, _d: Cell) -> Result<Cell, Over> {
        sub(a, b)
    }
}

impl CellRule for Product {
    ghost rule = { λ _ a b _ _. scalar_product a b };

    fn at(&self, a: Cell, b: Cell, _c: Cell, _d: Cell) -> Result<Cell, Over> {
        mul(a, b)
    }
}

impl CellRule for Quotient {
    ghost rule = { λ _ a b _ _. scalar_quotient a b };

    fn at(&self, a: Cell, b: Cell, _c: Cell, _d: Cell) -> Result<Cell, Over> {
        div(a, b)
    }
}

impl CellRule for WholeQuotient {
    ghost rule = { λ _ a b _ _. scalar_whole_quotient a b };

    fn at(&self, a: Cell, b: Cell, _c: Cell, _d: Cell) -> Result<Cell, Over> {
        int_div(a, b)
    }
}

impl CellRule for Remainder {
    ghost rule = { λ _ a b _ _. Ok (scalar_remainder a b) };

    fn at(&self, a: Cell, b: Cell, _c: Cell, _d: Cell) -> Result<Cell, Over> {
        Ok(int_mod(a, b))
    }
}

/// A function of one scalar, in millionths.
pub trait ScalarFunction {
    /// Its value.
    ghost value: { Self → ℤ → ℤ };

    /// Its value at this scalar.
    fn of(&self, a: i64) -> i128
        ensures { result ≡ value self.now a };
}

/// A function of one scalar as a rule.
pub struct OnScalar<F> {
    /// The function.
    pub function: F,
}

impl<F: ScalarFunction> CellRule for OnScalar<F> {
    ghost rule = { λ s a _ _ _. at_cell (λ z. cell_of_number Scalar (F.value s.function z)) a };

    fn at(&self, a: Cell, _b: Cell, _c: Cell, _d: Cell) -> Result<Cell, Over> {
        match a {
            Cell::Mv => Ok(Cell::Mv),
            Cell::Val(a) => to_cell(Kind::Scalar, self.function.of(a)),
        }
    }
}

/// Unary `-`.
pub struct Negative;

/// `abs`.
pub struct Size;

/// `rounddown`.
pub struct WholeBelow;

/// `roundup`.
pub struct WholeAbove;

/// `roundoff`.
pub struct WholeNearest;

impl ScalarFunction for Negative {
    ghost value = { λ _ z. neg_ℤ z };

    fn of(&self, a: i64) -> i128 {
        -(a as i128)
    }
}

impl ScalarFunction for Size {
    ghost value = { λ _ z. pos (unsigned_abs z) };

    fn of(&self, a: i64) -> i128 {
        a.unsigned_abs() as i128
    }
}

// The greatest whole number that is not above.
fn whole_below(a: i128) -> i128
    requires { unsigned_abs a ≤ 2 ^ 64 }
    ensures value { result ≡ whole_below a }
    ensures size { unsigned_abs result ≤ 2 ^ 65 }
{
    a.div_euclid(MILLION) * MILLION
}

impl ScalarFunction for WholeBelow {
    ghost value = { λ _ z. whole_below z };

    fn of(&self, a: i64) -> i128 {
        whole_below(a as i128)
    }
}

impl ScalarFunction for WholeAbove {
    ghost value = { λ _ z. whole_above z };

    fn of(&self, a: i64) -> i128 {
        -whole_below(-(a as i128))
    }
}

impl ScalarFunction for WholeNearest {
    ghost value = { λ _ z. whole_nearest z };

    fn of(&self, a: i64) -> i128 {
        round_div(a as i128, MILLION) * MILLION
    }
}
