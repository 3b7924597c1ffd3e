//! Sums, differences, products, quotients and remainders of scalars, at the edges of their range among others.

use cell_values::Cell::{Mv, Val};
use cell_values::{Cell, Over, add, div, int_div, int_mod, mul, sub};
use std::process::Abort;

/// What is computed of two scalars.
#[derive(Clone, Copy, Debug)]
enum Op {
    Sum,
    Difference,
    Product,
    Quotient,
    IntQuotient,
    Remainder,
}

use Op::{Difference, IntQuotient, Product, Quotient, Remainder, Sum};

/// The greatest scalar; the least is its negative.
const MOST: i64 = 9_000_000_000_000_000_000;

/// Two operands, their sum and their difference.
static SUMS: [(Cell, Cell, Result<Cell, Over>, Result<Cell, Over>); 8] = [
    (
        Val(1_500_000),
        Val(-250_000),
        Ok(Val(1_250_000)),
        Ok(Val(1_750_000)),
    ),
    (Val(MOST), Val(0), Ok(Val(MOST)), Ok(Val(MOST))),
    (Val(MOST), Val(1), Err(Over), Ok(Val(MOST - 1))),
    (Val(MOST), Val(-1), Ok(Val(MOST - 1)), Err(Over)),
    (Val(-MOST), Val(1), Ok(Val(1 - MOST)), Err(Over)),
    (Val(-MOST), Val(-MOST), Err(Over), Ok(Val(0))),
    (Mv, Val(1), Ok(Mv), Ok(Mv)),
    (Val(1), Mv, Ok(Mv), Ok(Mv)),
];

/// Two operands and their product.
static PRODUCTS: [(Cell, Cell, Result<Cell, Over>); 13] = [
    (Val(1_500_000), Val(-2_000_000), Ok(Val(-3_000_000))),
    (Val(1), Val(499_999), Ok(Val(0))),
    (Val(1), Val(500_000), Ok(Val(1))),
    (Val(-1), Val(500_000), Ok(Val(-1))),
    (Val(-3), Val(-500_000), Ok(Val(2))),
    (
        Val(3_000_000_000_000),
        Val(3_000_000_000_000),
        Ok(Val(MOST)),
    ),
    (
        Val(1_000_023),
        Val(8_999_793_004_760_890_500),
        Ok(Val(MOST)),
    ),
    (Val(1_217_000), Val(7_395_234_182_415_776_500), Err(Over)),
    (
        Val(-1_000_023),
        Val(8_999_793_004_760_890_500),
        Ok(Val(-MOST)),
    ),
    (Val(1_217_000), Val(-7_395_234_182_415_776_500), Err(Over)),
    (Val(MOST), Val(-MOST), Err(Over)),
    (Mv, Val(0), Ok(Mv)),
    (Val(0), Mv, Ok(Mv)),
];

/// Two operands and their quotient, rounded and cut.
static QUOTIENTS: [(Cell, Cell, Result<Cell, Over>, Result<Cell, Over>); 15] = [
    (
        Val(7_000_000),
        Val(2_000_000),
        Ok(Val(3_500_000)),
        Ok(Val(3_000_000)),
    ),
    (
        Val(-7_000_000),
        Val(2_000_000),
        Ok(Val(-3_500_000)),
        Ok(Val(-3_000_000)),
    ),
    (
        Val(2_000_000),
        Val(-3_000_000),
        Ok(Val(-666_667)),
        Ok(Val(0)),
    ),
    (
        Val(-5_000_000),
        Val(-3_000_000),
        Ok(Val(1_666_667)),
        Ok(Val(1_000_000)),
    ),
    (Val(1_000_000), Val(3_000_000), Ok(Val(333_333)), Ok(Val(0))),
    (Val(1), Val(2_000_000), Ok(Val(1)), Ok(Val(0))),
    (Val(1), Val(-2_000_000), Ok(Val(-1)), Ok(Val(0))),
    (Val(MOST), Val(-1_000_000), Ok(Val(-MOST)), Ok(Val(-MOST))),
    (Val(MOST), Val(999_999), Err(Over), Err(Over)),
    (Val(9_000_000_000_000), Val(1), Ok(Val(MOST)), Ok(Val(MOST))),
    (Val(9_000_000_000_001), Val(-1), Err(Over), Err(Over)),
    (Val(0), Val(-5), Ok(Val(0)), Ok(Val(0))),
    (Val(5), Val(0), Ok(Mv), Ok(Mv)),
    (Mv, Val(1), Ok(Mv), Ok(Mv)),
    (Val(1), Mv, Ok(Mv), Ok(Mv)),
];

/// Two operands and what is left of the first.
static REMAINDERS: [(Cell, Cell, Result<Cell, Over>); 9] = [
    (Val(7_000_000), Val(2_000_000), Ok(Val(1_000_000))),
    (Val(-7_000_000), Val(2_000_000), Ok(Val(-1_000_000))),
    (Val(7_000_000), Val(-2_000_000), Ok(Val(1_000_000))),
    (Val(-7_000_000), Val(-2_000_000), Ok(Val(-1_000_000))),
    (Val(5_500_000), Val(400_000), Ok(Val(300_000))),
    (Val(MOST), Val(-1), Ok(Val(0))),
    (Val(5), Val(0), Ok(Mv)),
    (Mv, Val(5), Ok(Mv)),
    (Val(5), Mv, Ok(Mv)),
];

// What an operation gives of two scalars.
fn computed(op: Op, a: Cell, b: Cell) -> Result<Cell, Over> {
    match op {
        Sum => add(a, b),
        Difference => sub(a, b),
        Product => mul(a, b),
        Quotient => div(a, b),
        IntQuotient => int_div(a, b),
        Remainder => Ok(int_mod(a, b)),
    }
}

// An operation gives this of two scalars.
fn expect_computed(rt: &impl Abort, op: Op, a: Cell, b: Cell, wanted: Result<Cell, Over>) {
    assert_eq!(rt; computed(op, a, b), wanted, "{op:?} of {a:?} and {b:?}");
}

// Two operations give what stands in each row beside its operands.
fn expect_both(
    rt: &impl Abort,
    ops: (Op, Op),
    rows: &[(Cell, Cell, Result<Cell, Over>, Result<Cell, Over>)],
) {
    for (a, b, first, second) in rows {
        expect_computed(rt, ops.0, *a, *b, *first);
        expect_computed(rt, ops.1, *a, *b, *second);
    }
}

// An operation gives what stands in each row beside its operands.
fn expect_one(rt: &impl Abort, op: Op, rows: &[(Cell, Cell, Result<Cell, Over>)]) {
    for (a, b, wanted) in rows {
        expect_computed(rt, op, *a, *b, *wanted);
    }
}

#[test]
fn computes_by_the_tables(rt: HostRuntime) {
    expect_both(&rt, (Sum, Difference), &SUMS);
    expect_one(&rt, Product, &PRODUCTS);
    expect_both(&rt, (Quotient, IntQuotient), &QUOTIENTS);
    expect_one(&rt, Remainder, &REMAINDERS);
}
