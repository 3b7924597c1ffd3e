//! Cells of one kind as cells of another.

use cell_values::Cell::{Mv, Val};
use cell_values::Kind::{Boolean, Directional, Ldd, Nominal, Ordinal, Scalar};
use cell_values::{Cell, Kind, Over, to_kind};
use std::process::Abort;

// A cell of one kind as one of another, where there is such a conversion.
fn converted(from: Kind, to: Kind, cell: Cell) -> Option<Result<Cell, Over>> {
    match (from, to) {
        (_, Ldd)
        | (Directional | Ldd, Boolean)
        | (Directional, Nominal | Ordinal)
        | (Boolean | Nominal | Ordinal | Ldd, Directional) => None,
        _ => Some(to_kind(from, to, cell)),
    }
}

// Converts each number and compares.
fn expect_conversions(rt: &impl Abort, from: Kind, to: Kind, rows: &[(Cell, Result<Cell, Over>)]) {
    for (cell, wanted) in rows {
        assert_eq!(rt;
            converted(from, to, *cell),
            Some(*wanted),
            "of {cell:?} as {to:?}"
        );
    }
}

/// Scalars as directions.
const TURNS: &[(Cell, Result<Cell, Over>)] = &[
    (Val(358_000_000), Ok(Val(358_000_000))),
    (Val(359_999_999), Ok(Val(359_999_999))),
    (Val(360_000_000), Ok(Val(0))),
    (Val(720_000_000), Ok(Val(0))),
    (Val(725_500_000), Ok(Val(5_500_000))),
    (Val(-1_000_000), Ok(Val(359_000_000))),
    (Val(-1), Ok(Val(359_999_999))),
    (Val(-360_000_000), Ok(Val(0))),
    (Mv, Ok(Mv)),
];

/// Scalars as classes.
const CLASSES: &[(Cell, Result<Cell, Over>)] = &[
    (Val(2_900_000), Ok(Val(2))),
    (Val(-2_900_000), Ok(Val(-2))),
    (Val(-999_999), Ok(Val(0))),
    (Val(2_147_483_647_999_999), Ok(Val(2_147_483_647))),
    (Val(2_147_483_648_000_000), Err(Over)),
    (Val(-2_147_483_647_999_999), Ok(Val(-2_147_483_647))),
    (Val(-2_147_483_648_000_000), Err(Over)),
    (Mv, Ok(Mv)),
];

/// Numbers as booleans.
const TRUTHS: &[(Cell, Result<Cell, Over>)] = &[
    (Val(0), Ok(Val(0))),
    (Val(1), Ok(Val(1))),
    (Val(-3), Ok(Val(1))),
    (Mv, Ok(Mv)),
];

/// Two kinds, and cells of the first as cells of the second.
static CONVERSIONS: [(Kind, Kind, &[(Cell, Result<Cell, Over>)]); 11] = [
    (Scalar, Directional, TURNS),
    (Scalar, Nominal, CLASSES),
    (Scalar, Ordinal, CLASSES),
    (Scalar, Boolean, TRUTHS),
    (Nominal, Boolean, TRUTHS),
    (Ordinal, Scalar, &[(Val(-3), Ok(Val(-3_000_000)))]),
    (Boolean, Nominal, &[(Val(1), Ok(Val(1)))]),
    (Ldd, Scalar, &[(Val(9), Ok(Val(9_000_000)))]),
    (Ldd, Ordinal, &[(Val(9), Ok(Val(9)))]),
    (
        Directional,
        Scalar,
        &[(Val(359_999_999), Ok(Val(359_999_999)))],
    ),
    (Directional, Directional, &[(Mv, Ok(Mv))]),
];

#[test]
fn converts_by_the_table(rt: HostRuntime) {
    for (from, to, rows) in CONVERSIONS.iter() {
        expect_conversions(&rt, *from, *to, rows);
    }
}
