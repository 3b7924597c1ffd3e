//! The texts of cells, and of numbers that went through a grid.

use cell_values::Cell::{Mv, Val};
use cell_values::Kind::{Boolean, Directional, Ldd, Nominal, Ordinal, Scalar};
use cell_values::{Cell, Kind, print_cell};
use grid_text::{Grid, ReadGrid, read_grid};
use std::alloc::{AllocError, Global};
use std::process::Abort;
use std::test::Fail;

/// A kind, a cell of it and its text.
static PRINTED: [(Kind, Cell, &str); 14] = [
    (Boolean, Val(1), "1"),
    (Nominal, Val(-2_147_483_647), "-2147483647"),
    (Ordinal, Val(0), "0"),
    (Ldd, Val(9), "9"),
    (Ldd, Mv, "1e31"),
    (Scalar, Mv, "1e31"),
    (Scalar, Val(0), "0"),
    (Scalar, Val(100_000_000), "100"),
    (Scalar, Val(3_500_000), "3.5"),
    (Scalar, Val(-500_000), "-0.5"),
    (Scalar, Val(-1), "-0.000001"),
    (Scalar, Val(1_020_300), "1.0203"),
    (Scalar, Val(9_000_000_000_000_000_000), "9000000000000"),
    (Directional, Val(359_999_999), "359.999999"),
];

/// A number as other programs write it, and as it is printed after it was read as a scalar.
static REPRINTED: [(&str, &str); 20] = [
    ("1e-05", "0.00001"),
    ("-1e-05", "-0.00001"),
    ("1e-07", "0"),
    // at half a millionth, and beside it
    ("5e-07", "0.000001"),
    ("4.9999999999999998e-07", "0"),
    ("5.0000000000000004e-07", "0.000001"),
    ("0.0000005", "0.000001"),
    ("-0.0000005", "-0.000001"),
    ("0.00000049999999999999999", "0"),
    ("-0.00000049999999999999999", "0"),
    ("1.0000005", "1.000001"),
    ("-1.0000005", "-1.000001"),
    ("1.00000049999999999", "1"),
    ("0.9999995", "1"),
    ("999999.9999995", "1000000"),
    // seventeen digits
    ("0.10000000000000001", "0.1"),
    ("123.45670000000000", "123.4567"),
    ("-9.9999999999999995e-07", "-0.000001"),
    // the missing value of the head below
    ("-3.4028234663852886e+38", "1e31"),
    ("-340282346638528860000000000000000000000", "1e31"),
];

// The text of a cell behind two bytes.
fn printed_behind(alloc: Global, kind: Kind, cell: Cell) -> Result<Vec<u8>, AllocError> {
    let mut out = Vec::from_slice(alloc, b"> ")?;
    print_cell(alloc, kind, cell, &mut out)?;
    Ok(out)
}

// What a grid of one cell with this number is read as.
fn read_one(alloc: Global, number: &str) -> Result<Grid, ReadGrid> {
    let mut text = Vec::from_slice(
        alloc,
        b"ncols 1 nrows 1 xllcorner 0 yllcorner 0 cellsize 1 NODATA_value -3.4028234663852886e+38 ",
    )?;
    text.extend_from_slice(number.as_bytes())?;
    read_grid(alloc, Scalar, &text)
}

// The cell that such a grid has.
fn cell_of_one(alloc: Global, number: &str) -> Result<Cell, Fail> {
    let grid = read_one(alloc, number)?;
    match grid.cells.as_slice() {
        [cell] => Ok(*cell),
        _ => Err(Fail::new("not one cell")),
    }
}

// A cell is printed so, behind two bytes.
fn expect_printed(
    rt: &impl Abort,
    alloc: Global,
    kind: Kind,
    cell: Cell,
    text: &str,
    row: &str,
) -> Result<(), AllocError> {
    let out = printed_behind(alloc, kind, cell)?;
    let wanted = format!(in alloc; "> {text}")?;
    assert_eq!(rt; out.as_slice(), wanted.as_bytes(), "for {row}");
    Ok(())
}

#[test]
fn prints_each_kind(rt: HostRuntime) -> Result<(), Fail> {
    for (kind, cell, text) in PRINTED.iter() {
        expect_printed(&rt, rt.alloc(), *kind, *cell, text, text)?;
    }
    Ok(())
}

#[test]
fn prints_what_other_programs_write(rt: HostRuntime) -> Result<(), Fail> {
    for (number, text) in REPRINTED.iter() {
        let cell = cell_of_one(rt.alloc(), number)?;
        expect_printed(&rt, rt.alloc(), Scalar, cell, text, number)?;
    }
    Ok(())
}
