//! Lookup tables: each fault with its line, and the value at some numbers.

use cell_values::Cell::{Mv, Val};
use cell_values::Kind::{Boolean, Directional, Nominal, Scalar};
use cell_values::{Cell, Kind};
use lookup_table::TableKind::{BadInterval, BadNumber, Columns, Range};
use lookup_table::{ReadTable, Table, TableFault, TableKind, read_table};
use std::alloc::Global;
use std::process::Abort;
use std::test::Fail;

/// One unit in millionths.
const ONE: i64 = 1_000_000;

/// A number of keys, a kind, a text that is no such table, and its first fault with the line.
static FAULTS: [(u32, Kind, &str, TableKind, u32); 40] = [
    (2, Scalar, "[1,2 3", BadInterval, 1),
    (1, Scalar, "1", Columns, 1),
    (1, Scalar, "1 2 3", Columns, 1),
    (2, Scalar, "1[2,3]", Columns, 1),
    (1, Scalar, "1[2,3]", BadNumber, 1),
    (1, Scalar, "[,]", Columns, 1),
    (1, Scalar, "[1,2]3 4", Columns, 1),
    (1, Scalar, "1 1\r\n2\r\n", Columns, 2),
    (1, Scalar, "1 1\n\n \t\r\n2 x", BadNumber, 4),
    (1, Scalar, "\n\n\n1", Columns, 4),
    (1, Scalar, "1 1\nx 1\n1", BadNumber, 2),
    (1, Scalar, "1] 2", BadNumber, 1),
    (1, Scalar, "]1,2[ 3", BadInterval, 1),
    (1, Scalar, "1 2 3 [4", BadInterval, 1),
    (1, Scalar, "[1,\n2] 3", BadInterval, 1),
    (1, Scalar, "[1;2] 3", BadInterval, 1),
    (1, Scalar, "[1;2] 3 4", Columns, 1),
    (1, Scalar, "[1,2,3] 4", BadInterval, 1),
    (1, Scalar, "[1 2] 4", BadInterval, 1),
    (1, Scalar, "[1 1,2] 4", BadInterval, 1),
    (1, Scalar, "[a,2] 4", BadInterval, 1),
    (1, Scalar, "[1,a] 4", BadInterval, 1),
    (1, Scalar, "[1[2,3] 4", BadInterval, 1),
    (1, Scalar, "[] 4", BadInterval, 1),
    (1, Scalar, "[1e30,2] 4", Range, 1),
    (1, Scalar, "[1,1e30] 4", Range, 1),
    (1, Scalar, "[1e30,x] 4", BadInterval, 1),
    (1, Scalar, "9000000000000.1 4", Range, 1),
    (1, Scalar, "1e31 4", Range, 1),
    (1, Scalar, "1 1e31", Range, 1),
    (1, Scalar, "x 1e31", BadNumber, 1),
    (1, Scalar, "1e31 x", Range, 1),
    (1, Scalar, "nan 1", BadNumber, 1),
    (2, Scalar, "1 x [1,2]", BadNumber, 1),
    (1, Scalar, "1 [1,2]", BadNumber, 1),
    (1, Boolean, "1 2", Range, 1),
    (1, Nominal, "1 1.5", Range, 1),
    (1, Nominal, "1 2147483648", Range, 1),
    (1, Directional, "1 359.9999996", Range, 1),
    (1, Scalar, "\u{feff}1 2", BadNumber, 1),
];

/// The numbers of up to four keys, in millionths.
type Numbers = (i64, i64, i64, i64);

/// A number of keys, a kind, a table, numbers and the value there.
static VALUES: [(u32, Kind, &str, Numbers, Cell); 47] = [
    (
        1,
        Scalar,
        "[0,10> 1\n[10,> 2",
        (10 * ONE, 0, 0, 0),
        Val(2 * ONE),
    ),
    (
        1,
        Scalar,
        "[0,10> 1\n[10,> 2",
        (9_999_999, 0, 0, 0),
        Val(ONE),
    ),
    (1, Scalar, "[0,10> 1\n[10,> 2", (-ONE, 0, 0, 0), Mv),
    (1, Scalar, "[0,10> 1\n[10,> 2", (0, 0, 0, 0), Val(ONE)),
    (1, Scalar, "1 0.5\n2 2\n", (ONE, 7, 8, 9), Val(500_000)),
    (1, Scalar, "1 0.5\n2 2\n", (2 * ONE, 0, 0, 0), Val(2 * ONE)),
    (1, Scalar, "1 0.5\n2 2\n", (2, 0, 0, 0), Mv),
    (1, Scalar, "", (0, 0, 0, 0), Mv),
    (1, Scalar, " \n\r\n", (0, 0, 0, 0), Mv),
    (1, Scalar, "1 10\n1 20", (ONE, 0, 0, 0), Val(10 * ONE)),
    (1, Scalar, "2 10\n1 20", (ONE, 0, 0, 0), Val(20 * ONE)),
    (1, Scalar, "[0,5] 1\n[3,8] 2", (4 * ONE, 0, 0, 0), Val(ONE)),
    (
        1,
        Scalar,
        "[0,5] 1\n[3,8] 2",
        (6 * ONE, 0, 0, 0),
        Val(2 * ONE),
    ),
    (1, Scalar, "[0,5] 1\n[5,8] 2", (5 * ONE, 0, 0, 0), Val(ONE)),
    (1, Scalar, "[0,5> 1\n<5,8] 2", (5 * ONE, 0, 0, 0), Mv),
    (1, Scalar, "<,> 7", (i64::MIN, 0, 0, 0), Val(7 * ONE)),
    (1, Scalar, "[,] 7", (i64::MAX, 0, 0, 0), Val(7 * ONE)),
    (1, Scalar, "< 1 ,\t2 ] 3", (ONE, 0, 0, 0), Mv),
    (
        1,
        Scalar,
        "< 1 ,\t2 ] 3",
        (1_000_001, 0, 0, 0),
        Val(3 * ONE),
    ),
    (1, Scalar, "< 1 ,\t2 ] 3", (2 * ONE, 0, 0, 0), Val(3 * ONE)),
    (1, Scalar, "[2,1] 5\n[0,9] 6", (ONE, 0, 0, 0), Val(6 * ONE)),
    (1, Scalar, "<1,1.000001> 5", (ONE, 0, 0, 0), Mv),
    (1, Scalar, "[1,2]3", (1_500_000, 0, 0, 0), Val(3 * ONE)),
    (1, Scalar, "[0.0000005,1] 1", (0, 0, 0, 0), Mv),
    (1, Scalar, "[0.0000005,1] 1", (1, 0, 0, 0), Val(ONE)),
    (1, Scalar, "-1e0 +4.", (-ONE, 0, 0, 0), Val(4 * ONE)),
    (
        2,
        Scalar,
        "1 2 30\n<,> 2 40",
        (ONE, 2 * ONE, 0, 0),
        Val(30 * ONE),
    ),
    (
        2,
        Scalar,
        "1 2 30\n<,> 2 40",
        (5, 2 * ONE, 0, 0),
        Val(40 * ONE),
    ),
    (2, Scalar, "1 2 30\n<,> 2 40", (ONE, 3 * ONE, 0, 0), Mv),
    (
        3,
        Scalar,
        "1 2 3 4",
        (ONE, 2 * ONE, 3 * ONE, 0),
        Val(4 * ONE),
    ),
    (3, Scalar, "1 2 3 4", (ONE, 2 * ONE, 0, 3 * ONE), Mv),
    (
        4,
        Nominal,
        "1 2 3 4 5",
        (ONE, 2 * ONE, 3 * ONE, 4 * ONE),
        Val(5),
    ),
    (4, Nominal, "1 2 3 4 5", (ONE, 2 * ONE, 3 * ONE, 5), Mv),
    (4, Nominal, "1 2 3 4 5", (0, 2 * ONE, 3 * ONE, 4 * ONE), Mv),
    (1, Nominal, "7 3.0", (7 * ONE, 0, 0, 0), Val(3)),
    (1, Boolean, "0 0\n<0,> 1", (ONE, 0, 0, 0), Val(1)),
    (
        1,
        Directional,
        "1 359.9999994",
        (ONE, 0, 0, 0),
        Val(359_999_999),
    ),
    (
        1,
        Scalar,
        "1\t1e-05\r\n2\t2.5E+01\r\n",
        (ONE, 0, 0, 0),
        Val(10),
    ),
    (
        1,
        Scalar,
        "1\t1e-05\r\n2\t2.5E+01\r\n",
        (2 * ONE, 0, 0, 0),
        Val(25 * ONE),
    ),
    (1, Scalar, "\n\t1\t2\n \n", (ONE, 0, 0, 0), Val(2 * ONE)),
    (
        1,
        Scalar,
        "1 1\n3 3\n5 5\n7 7\n9 9",
        (ONE, 0, 0, 0),
        Val(ONE),
    ),
    (
        1,
        Scalar,
        "1 1\n3 3\n5 5\n7 7\n9 9",
        (5 * ONE, 0, 0, 0),
        Val(5 * ONE),
    ),
    (
        1,
        Scalar,
        "1 1\n3 3\n5 5\n7 7\n9 9",
        (9 * ONE, 0, 0, 0),
        Val(9 * ONE),
    ),
    (1, Scalar, "1 1\n3 3\n5 5\n7 7\n9 9", (4 * ONE, 0, 0, 0), Mv),
    (1, Scalar, "1 1\n3 3\n5 5\n7 7\n9 9", (0, 0, 0, 0), Mv),
    (
        1,
        Scalar,
        "1 1\n3 3\n5 5\n7 7\n9 9",
        (10 * ONE, 0, 0, 0),
        Mv,
    ),
    (
        1,
        Scalar,
        "1 1\n3 3\n5 5\n5 7",
        (5 * ONE, 0, 0, 0),
        Val(5 * ONE),
    ),
];

// Reads a table of one to four keys that is no drain map.
fn read(
    rt: &impl Abort,
    alloc: Global,
    keys: u32,
    kind: Kind,
    text: &[u8],
) -> Result<Table, ReadTable> {
    assert!(rt; keys >= 1);
    assert!(rt; keys <= 4);
    assert!(rt; kind != Kind::Ldd);
    assert!(rt; text.len() <= 1000);
    read_table(alloc, keys, kind, text)
}

// The value of a table.
fn value(table: &Table, numbers: Numbers) -> Cell {
    table.find(numbers.0, numbers.1, numbers.2, numbers.3)
}

#[test]
fn tells_the_first_fault(rt: HostRuntime) {
    for (keys, kind, text, fault, line) in FAULTS.iter() {
        let wanted = ReadTable::Fault(TableFault {
            kind: *fault,
            line: *line,
        });
        assert_eq!(rt;
            read(&rt, rt.alloc(), *keys, *kind, text.as_bytes()).err(),
            Some(wanted),
            "for '{text}'"
        );
    }
}

#[test]
fn finds_values(rt: HostRuntime) -> Result<(), Fail> {
    for (keys, kind, text, numbers, wanted) in VALUES.iter() {
        let table = read(&rt, rt.alloc(), *keys, *kind, text.as_bytes())?;
        assert_eq!(rt; value(&table, *numbers), *wanted, "in '{text}'");
    }
    Ok(())
}
