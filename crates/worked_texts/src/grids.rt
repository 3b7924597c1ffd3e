//! Grid texts: each fault with its place, the variety that is read, and what is written.

ghost use Rattle.std.specs.Prelude.{length, ◌≡◌};

use cell_values::Cell::{Mv, Val};
use cell_values::Kind::{Boolean, Directional, Ldd, Nominal, Scalar};
use cell_values::{Cell, Kind, Word};
use grid_text::GridKind::{BadNumber, Count, Range};
use grid_text::{Grid, GridFault, GridKind, Head, ReadGrid, read_grid, write_grid};
use std::alloc::{AllocError, Global};
use std::process::Abort;
use std::test::Fail;

/// A kind, a text that is no grid of it, and its first fault with the byte place.
static FAULTS: [(Kind, &str, GridKind, u64); 24] = [
    (Scalar, "ncols 2 nrows 1 NCols 2", GridKind::Head, 16),
    (Scalar, "xllcorner 0 xllcenter 0", GridKind::Head, 12),
    (Scalar, "ncols 2 ncols", GridKind::Head, 8),
    (Scalar, "ncols 0", GridKind::Head, 6),
    (Scalar, "nrows 00000001", GridKind::Head, 6),
    (Scalar, "ncols nrows 1", GridKind::Head, 6),
    (Scalar, "yllcorner 0x1", GridKind::Head, 10),
    (Scalar, "cellsize 0.0e3", GridKind::Head, 9),
    (Scalar, "cellsize -1", GridKind::Head, 9),
    (Scalar, "NODATA_value none", GridKind::Head, 13),
    (Scalar, "ncols 4194305", GridKind::Head, 6),
    (
        Scalar,
        "ncols 4194305\nnrows 1\nxllcorner 0\nyllcorner 0\ncellsize 1\n1\n",
        GridKind::Head,
        6,
    ),
    (
        Scalar,
        "ncols 2\nnrows 1\nnrows 1\nyllcorner 0\ncellsize 1\n1\n",
        GridKind::Head,
        16,
    ),
    (
        Scalar,
        "nrows 2048 cellsize 1 ncols 2049",
        GridKind::Head,
        28,
    ),
    (Scalar, "", GridKind::Head, 0),
    (
        Scalar,
        "ncols 2 nrows 1 xllcorner 0 yllcorner 0 7 8",
        GridKind::Head,
        40,
    ),
    (
        Scalar,
        "ncols 2 nrows 1 xllcorner 0 yllcorner 0 \n",
        GridKind::Head,
        41,
    ),
    (
        Scalar,
        "ncols 2 nrows 1 xllcorner 0 yllcorner 0 cellsize 1 NODATA_value",
        GridKind::Head,
        63,
    ),
    (
        Scalar,
        "ncols 2 nrows 1 xllcorner 0 yllcorner 0 cellsize 1 7 x",
        BadNumber,
        53,
    ),
    (
        Scalar,
        "ncols 2 nrows 1 xllcorner 0 yllcorner 0 cellsize 1 nan",
        BadNumber,
        51,
    ),
    (
        Boolean,
        "ncols 2 nrows 1 xllcorner 0 yllcorner 0 cellsize 1 2 x",
        Range,
        51,
    ),
    (
        Boolean,
        "ncols 2 nrows 1 xllcorner 0 yllcorner 0 cellsize 1 0 0.5",
        Range,
        53,
    ),
    (
        Scalar,
        "ncols 2 nrows 1 xllcorner 0 yllcorner 0 cellsize 1 7 8 x",
        Count,
        55,
    ),
    (
        Scalar,
        "ncols 2 nrows 1 xllcorner 0 yllcorner 0 cellsize 1 7\n",
        Count,
        53,
    ),
];

/// A kind, a text that is a grid of two cells of it, and the cells.
static GRIDS: [(Kind, &str, [Cell; 2]); 7] = [
    (
        Scalar,
        "ncols 2 nrows 1 xllcorner 0 yllcorner 0 cellsize 1 .5 -9999",
        [Val(500_000), Mv],
    ),
    (
        Scalar,
        "CELLSIZE +1e1\r\nYllCenter 0 xllCENTER -.5e-3\tNROWS 0001 ncols 2\r\n.5\r\n-9.999E3\r\n",
        [Val(500_000), Mv],
    ),
    (
        Scalar,
        "nodata_VALUE -3.4028234663852886e+38 ncols 1 nrows 2 xllcorner 0 yllcorner 0 cellsize 1\n5e-1\n-340282346638528860000000000000000000000",
        [Val(500_000), Mv],
    ),
    (
        Scalar,
        "NODATA_value NaN ncols 1 nrows 2 xllcorner 0 yllcorner 0 cellsize 1 nAN 0.50",
        [Mv, Val(500_000)],
    ),
    (
        Nominal,
        "NODATA_value -0 ncols 1 nrows 2 xllcorner 0 yllcorner 0 cellsize 1 0.0 -9999",
        [Mv, Val(-9999)],
    ),
    (
        Ldd,
        "ncols 2 nrows 1 xllcorner 0 yllcorner 0 cellsize 1 5.0 -9999.0",
        [Val(5), Mv],
    ),
    (
        Directional,
        "ncols 2 nrows 1 xllcorner 0 yllcorner 0 cellsize 1 0.5 359.999999",
        [Val(500_000), Val(359_999_999)],
    ),
];

// What a text is read as.
fn read(alloc: Global, kind: Kind, text: &[u8]) -> Result<Grid, ReadGrid> {
    read_grid(alloc, kind, text)
}

// A head.
fn head(alloc: Global) -> Result<Head, AllocError> {
    Ok(Head {
        x_center: true,
        y_center: false,
        x: Word::new(alloc, b"-12.50")?,
        y: Word::new(alloc, b"0")?,
        size: Word::new(alloc, b"1e2")?,
    })
}

// The text of a grid of two rows and two columns with this head.
fn written(alloc: Global, cells: &[Cell]) -> Result<Vec<u8>, AllocError>
    requires { length cells.now ≡ 4 }
{
    let head = head(alloc)?;
    write_grid(alloc, Scalar, 2, 2, &head, cells)
}

// Compares a grid with that head and these cells.
fn expect_grid(rt: &impl Abort, grid: &Grid, cells: &[Cell]) {
    let head = &grid.head;
    assert_eq!(rt;
        (grid.rows, grid.cols, head.x_center, head.y_center),
        (2, 2, true, false)
    );
    assert_eq!(rt;
        [head.x.bytes(), head.y.bytes(), head.size.bytes()],
        [b"-12.50".as_slice(), b"0".as_slice(), b"1e2".as_slice()]
    );
    assert_eq!(rt; grid.cells.as_slice(), cells);
}

#[test]
fn tells_the_first_fault(rt: HostRuntime) {
    for (kind, text, fault, at) in FAULTS.iter() {
        let wanted = ReadGrid::Fault(GridFault {
            kind: *fault,
            at: *at,
        });
        assert_eq!(rt;
            read(rt.alloc(), *kind, text.as_bytes()).err(),
            Some(wanted),
            "for {text}"
        );
    }
}

#[test]
fn reads_grids(rt: HostRuntime) -> Result<(), Fail> {
    for (kind, text, wanted) in GRIDS.iter() {
        let grid = read(rt.alloc(), *kind, text.as_bytes())?;
        assert_eq!(rt; grid.cells.as_slice(), wanted.as_slice(), "for {text}");
    }
    Ok(())
}

#[test]
fn reads_what_it_writes(rt: HostRuntime) -> Result<(), Fail> {
    let cells = [Val(1_500_000), Mv, Val(-2_000_000), Val(0)];
    let text = written(rt.alloc(), &cells)?;
    let wanted =
        "ncols 2\nnrows 2\nxllcenter -12.50\nyllcorner 0\ncellsize 1e2\nNODATA_value 1e31\n1.5 1e31\n-2 0\n";
    assert_eq!(rt; text.as_slice(), wanted.as_bytes());
    let grid = read(rt.alloc(), Scalar, &text)?;
    expect_grid(&rt, &grid, &cells);
    Ok(())
}
