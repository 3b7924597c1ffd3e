//! Time series: each fault with its line, the cells of a step, and the written text.

use cell_values::Cell::{Mv, Val};
use cell_values::Kind::{Boolean, Directional, Nominal, Ordinal, Scalar};
use cell_values::{Cell, Cells, Kind};
use std::alloc::Global;
use std::process::Abort;
use std::test::Fail;
use time_series::SeriesKind::{BadNumber, Columns, Order, Range, Title};
use time_series::{
    ReadSeries, Series, SeriesFault, SeriesKind, SeriesRow, read_series, write_series,
};

/// One unit in millionths.
const ONE: i64 = 1_000_000;

/// A kind, a text that is no series of it, and its first fault with the line.
static FAULTS: [(Kind, &str, SeriesKind, u32); 50] = [
    (Scalar, "", Title, 1),
    (Scalar, " \n\t\r\n", Title, 1),
    (Scalar, "2", Title, 1),
    (Scalar, "rain", Title, 1),
    (Scalar, "\n\nrain\n\n", Title, 3),
    (Scalar, "rain\n2", Title, 2),
    (Scalar, "rain\n2\na", Title, 3),
    (Scalar, "rain\n\n3\n\na\n \nb\n\n", Title, 7),
    (Scalar, "rain\n1\na\n1", Title, 2),
    (Scalar, "rain\n0\na", Title, 2),
    (Scalar, "rain\n-2\na\nb", Title, 2),
    (Scalar, "rain\n+2\na\nb", Title, 2),
    (Scalar, "rain\n2.0\na\nb", Title, 2),
    (Scalar, "rain\n2 2\na\nb", Title, 2),
    (Scalar, "rain\n00000002\na\nb", Title, 2),
    (Scalar, "rain\n10000000\na\nb", Title, 2),
    (Scalar, "rain\n9999999\na\nb", Title, 4),
    (Scalar, "rain\nx\n", Title, 2),
    (Scalar, "1 2 x\n3\na", Title, 3),
    (Scalar, "1 nan\n1 2", Title, 2),
    (Scalar, "\u{feff}1 2\n2 3", Title, 2),
    (Scalar, "1 5\n1 6", Order, 2),
    (Scalar, "2 5\n1 6", Order, 2),
    (Scalar, "1 5\n\n\n1 6", Order, 4),
    (Scalar, "rain\n2\na\nb\n1 4\n1 2", Order, 6),
    (Scalar, "rain\n2\na\nb\n1", Columns, 5),
    (Scalar, "rain\n2\na\nb\n1 2 3", Columns, 5),
    (Scalar, "1 2\n3", Columns, 2),
    (Scalar, "1 2\n2 3\n3 4 5", Columns, 3),
    (Scalar, "1 2\nx", Columns, 2),
    (Scalar, "1 2\nx 2", BadNumber, 2),
    (Scalar, "1 2\n2 x", BadNumber, 2),
    (Scalar, "1 2\n1 x", BadNumber, 2),
    (Scalar, "1 2 3\n2 1e30 x", Range, 2),
    (Scalar, "1 2 3\n2 x 1e30", BadNumber, 2),
    (Scalar, "0 2", Range, 1),
    (Scalar, "-1 2", Range, 1),
    (Scalar, "1.5 2", Range, 1),
    (Scalar, "0.0000001 2", Range, 1),
    (Scalar, "2147483648 2", Range, 1),
    (Scalar, "1e31 2", Range, 1),
    (Scalar, "1 2\n0 x", Range, 2),
    (Scalar, "1 9000000000000.1", Range, 1),
    (Scalar, "1 1.0000001e31", Range, 1),
    (Scalar, "1 -1e31", Range, 1),
    (Scalar, "1 1e30", Range, 1),
    (Boolean, "1 2", Range, 1),
    (Nominal, "1 2\n2 1.5", Range, 2),
    (Directional, "1 360", Range, 1),
    (Scalar, "1 2\n2 3\nend", Columns, 3),
];

/// A kind, a series, a step, a column and the cell there.
static VALUES: [(Kind, &str, u32, i64, Cell); 49] = [
    (Scalar, "1 1\n2 2\n3 4", 1, 1, Val(ONE)),
    (Scalar, "1 1\n2 2\n3 4", 2, 1, Val(2 * ONE)),
    (Scalar, "1 1\n2 2\n3 4", 3, 1, Val(4 * ONE)),
    (Scalar, "1 1\n2 2\n3 4", 4, 1, Mv),
    (Scalar, "1 1\n2 2\n3 4", 0, 1, Mv),
    (Scalar, "1 1\n2 2\n3 4", u32::MAX, 1, Mv),
    (Scalar, "1 1\n2 2\n3 4", 1, 0, Mv),
    (Scalar, "1 1\n2 2\n3 4", 1, 2, Mv),
    (Scalar, "1 1\n2 2\n3 4", 1, -1, Mv),
    (Scalar, "1 1\n2 2\n3 4", 1, i64::MIN, Mv),
    (Scalar, "1 1\n2 2\n3 4", 1, i64::MAX, Mv),
    (
        Scalar,
        "rain\n2\ntimestep\nzone 1\n1 4\n2 2",
        1,
        1,
        Val(4 * ONE),
    ),
    (
        Scalar,
        "rain\n2\ntimestep\nzone 1\n1 4\n2 2",
        2,
        1,
        Val(2 * ONE),
    ),
    (
        Scalar,
        "timeseries scalar\n3\ntimestep\n1\n2\n1 20 10\n2 20 10\n",
        1,
        1,
        Val(20 * ONE),
    ),
    (
        Scalar,
        "timeseries scalar\n3\ntimestep\n1\n2\n1 20 10\n2 20 10\n",
        1,
        2,
        Val(10 * ONE),
    ),
    (
        Scalar,
        "timeseries scalar\n3\ntimestep\n1\n2\n1 20 10\n2 20 10\n",
        2,
        2,
        Val(10 * ONE),
    ),
    (
        Scalar,
        "timeseries scalar\n3\ntimestep\n1\n2\n1 20 10\n2 20 10\n",
        2,
        3,
        Mv,
    ),
    (Scalar, "timeseries scalar\n2\ntimestep\n1\n", 1, 1, Mv),
    (
        Scalar,
        "1 9000000000000\n2 1",
        1,
        1,
        Val(9_000_000_000_000 * ONE),
    ),
    (Scalar, "\r\n1 1\r\n\r\n5 2\r\n", 5, 1, Val(2 * ONE)),
    (
        Scalar,
        "\n rain \n\n 2\t\n\na\n\nb c\n\n1 7\n\n",
        1,
        1,
        Val(7 * ONE),
    ),
    (Scalar, "1 1e31", 1, 1, Mv),
    (Scalar, "1 1.0e+31", 1, 1, Mv),
    (Scalar, "1 0.1E32", 1, 1, Mv),
    (Scalar, "1 10000000000000000000000000000000", 1, 1, Mv),
    (Nominal, "1 1e31", 1, 1, Mv),
    (Scalar, "1 -9999", 1, 1, Val(-9_999 * ONE)),
    (Scalar, "1.0 5", 1, 1, Val(5 * ONE)),
    (Scalar, "+1 5", 1, 1, Val(5 * ONE)),
    (Scalar, "01 5", 1, 1, Val(5 * ONE)),
    (Scalar, "1e0 5", 1, 1, Val(5 * ONE)),
    (Scalar, "2147483647 5", 2_147_483_647, 1, Val(5 * ONE)),
    (Scalar, "1\t2\t3\n2\t4\t5\n", 2, 2, Val(5 * ONE)),
    (Scalar, "1 2 x\n2\n1 2\n3 4\n5 6", 5, 1, Val(6 * ONE)),
    (Scalar, "1 2 x\n2\n1 2\n3 4\n5 6", 1, 1, Mv),
    (Scalar, "2\n2\na\nb\n1 5", 1, 1, Val(5 * ONE)),
    (Scalar, "rain\n0000002\na\nb\n1 5", 1, 1, Val(5 * ONE)),
    (Scalar, "rain\n3\na\nb\n1 2 3", 1, 1, Mv),
    (Scalar, "1 1\n3 3\n5 5\n7 7\n9 9", 1, 1, Val(ONE)),
    (Scalar, "1 1\n3 3\n5 5\n7 7\n9 9", 4, 1, Mv),
    (Scalar, "1 1\n3 3\n5 5\n7 7\n9 9", 5, 1, Val(5 * ONE)),
    (Scalar, "1 1\n3 3\n5 5\n7 7\n9 9", 9, 1, Val(9 * ONE)),
    (Scalar, "1 1\n3 3\n5 5\n7 7\n9 9", 10, 1, Mv),
    (Nominal, "1 3.0", 1, 1, Val(3)),
    (Ordinal, "1 -4", 1, 1, Val(-4)),
    (Boolean, "1 1", 1, 1, Val(1)),
    (Directional, "1 359.9999994", 1, 1, Val(359_999_999)),
    (
        Scalar,
        "timeseries scalar\n2\ntimestep\n1\n       1          4.5\n       2         1e31\n",
        1,
        1,
        Val(4_500_000),
    ),
    (
        Scalar,
        "timeseries scalar\n2\ntimestep\n1\n       1          4.5\n       2         1e31\n",
        2,
        1,
        Mv,
    ),
];

// Reads a series of a kind that is no drain map's.
fn read(rt: &impl Abort, alloc: Global, kind: Kind, text: &[u8]) -> Result<Series, ReadSeries> {
    assert!(rt; kind != Kind::Ldd);
    assert!(rt; text.len() <= 1000);
    read_series(alloc, kind, text)
}

// A row of one cell.
fn row(alloc: Global, step: u32, cell: Cell) -> Result<SeriesRow, Fail> {
    let mut cells = Vec::new(alloc);
    cells.push(cell)?;
    Ok(SeriesRow {
        step,
        cells: Cells::from_vec(cells),
    })
}

// Writes a series of one column and one row.
fn write_row(
    rt: &impl Abort,
    alloc: Global,
    kind: Kind,
    name: i64,
    row: SeriesRow,
) -> Result<Vec<u8>, Fail> {
    assert!(rt; row.cells.len() == 1);
    let mut rows = Vec::new(alloc);
    rows.push(row)?;
    Ok(write_series(alloc, kind, &[name], rows.as_slice())?)
}

#[test]
fn tells_the_first_fault(rt: HostRuntime) {
    for (kind, text, fault, line) in FAULTS.iter() {
        let wanted = ReadSeries::Fault(SeriesFault {
            kind: *fault,
            line: *line,
        });
        assert_eq!(rt;
            read(&rt, rt.alloc(), *kind, text.as_bytes()).err(),
            Some(wanted),
            "for '{text}'"
        );
    }
}

#[test]
fn finds_values(rt: HostRuntime) -> Result<(), Fail> {
    for (kind, text, step, column, wanted) in VALUES.iter() {
        let series = read(&rt, rt.alloc(), *kind, text.as_bytes())?;
        assert_eq!(rt; series.value(*step, *column), *wanted, "in '{text}'");
    }
    Ok(())
}

#[test]
fn gives_rows(rt: HostRuntime) -> Result<(), Fail> {
    let series = read(&rt, rt.alloc(), Scalar, b"1 20 10\n3 1e31 5")?;
    let Some(cells) = series.row_of(3) else {
        return Err(Fail::new("no row"));
    };
    assert_eq!(rt; cells.len(), 2);
    assert_eq!(rt; cells.get(0).copied(), Some(Mv));
    assert_eq!(rt; cells.get(1).copied(), Some(Val(5 * ONE)));
    assert!(rt; series.row_of(2).is_none());
    assert!(rt; series.row_of(0).is_none());
    Ok(())
}

#[test]
fn writes_series(rt: HostRuntime) -> Result<(), Fail> {
    let alloc = rt.alloc();
    let none = write_series(alloc, Scalar, &[1], &[])?;
    assert_eq!(rt;
        none.as_slice(),
        b"timeseries scalar\n2\ntimestep\n1\n".as_slice()
    );
    let value = write_row(&rt, alloc, Scalar, -7, row(alloc, 12, Val(-2_500_000))?)?;
    assert_eq!(rt;
        value.as_slice(),
        b"timeseries scalar\n2\ntimestep\n-7\n12 -2.5\n".as_slice()
    );
    let missing = write_row(&rt, alloc, Nominal, 1, row(alloc, 1, Mv)?)?;
    assert_eq!(rt;
        missing.as_slice(),
        b"timeseries nominal\n2\ntimestep\n1\n1 1e31\n".as_slice()
    );
    Ok(())
}
