//! Texts and what they stand for, and the values that layers hand on.

use cell_values::Cell::Val;
use cell_values::Kind::{Boolean, Directional, Ldd, Nominal, Ordinal, Scalar};
use cell_values::NumberFault::{BadNumber, Range};
use cell_values::{Cell, Cells, Kind, NumberFault, Word, is_decimal, read_cell, same_decimal};
use std::alloc::{AllocError, Global};
use std::test::Fail;

/// A kind, a text and what the kind reads from it.
static READ: [(Kind, &str, Result<Cell, NumberFault>); 72] = [
    (Scalar, "123.4567", Ok(Val(123_456_700))),
    (Scalar, "0.0000005", Ok(Val(1))),
    (Scalar, "-0.0000005", Ok(Val(-1))),
    (Scalar, "0.00000049", Ok(Val(0))),
    (Scalar, "-0.0000001", Ok(Val(0))),
    (Scalar, "1.9999995", Ok(Val(2_000_000))),
    (Scalar, "1.99999949999", Ok(Val(1_999_999))),
    (Scalar, "9000000000000", Ok(Val(9_000_000_000_000_000_000))),
    (
        Scalar,
        "9000000000000.0000004",
        Ok(Val(9_000_000_000_000_000_000)),
    ),
    (Scalar, "9000000000000.0000005", Err(Range)),
    (
        Scalar,
        "-9000000000000",
        Ok(Val(-9_000_000_000_000_000_000)),
    ),
    (Scalar, "-9000000000000.000001", Err(Range)),
    (Scalar, "18446744073709.551616", Err(Range)),
    (Directional, "0", Ok(Val(0))),
    (Directional, "-0.0000004", Ok(Val(0))),
    (Directional, "-0.0000005", Err(Range)),
    (Directional, "359.9999994", Ok(Val(359_999_999))),
    (Directional, "359.9999996", Err(Range)),
    (Directional, "360", Err(Range)),
    (Boolean, "0", Ok(Val(0))),
    (Boolean, "1", Ok(Val(1))),
    (Boolean, "2", Err(Range)),
    (Boolean, "-1", Err(Range)),
    (Boolean, "-0", Ok(Val(0))),
    (Boolean, "0.5", Err(Range)),
    (Nominal, "2147483647", Ok(Val(2_147_483_647))),
    (Nominal, "2147483648", Err(Range)),
    (Nominal, "-2147483647", Ok(Val(-2_147_483_647))),
    (Nominal, "-2147483648", Err(Range)),
    (Ordinal, "3.0", Ok(Val(3))),
    (Ordinal, "30e-1", Ok(Val(3))),
    (Ordinal, "0.3E1", Ok(Val(3))),
    (Ordinal, "3.0000001", Err(Range)),
    (Ordinal, "18446744073709551616", Err(Range)),
    (Ldd, "1", Ok(Val(1))),
    (Ldd, "9", Ok(Val(9))),
    (Ldd, "0", Err(Range)),
    (Ldd, "10", Err(Range)),
    (Ldd, "500e-2", Ok(Val(5))),
    (Scalar, "+1.5e+3", Ok(Val(1_500_000_000))),
    (Scalar, "1e-6", Ok(Val(1))),
    (Scalar, "5e-7", Ok(Val(1))),
    (Scalar, "5e-8", Ok(Val(0))),
    (Scalar, "99e-8", Ok(Val(1))),
    (Scalar, "1e31", Err(Range)),
    (Scalar, "1e400000", Err(Range)),
    (Scalar, "1e-400000", Ok(Val(0))),
    (Scalar, "0e999999", Ok(Val(0))),
    (Scalar, "-1e-999999", Ok(Val(0))),
    (Nominal, "1e-400000", Err(Range)),
    (Nominal, "0e-999999", Ok(Val(0))),
    (Scalar, "5.", Ok(Val(5_000_000))),
    (Scalar, ".5", Ok(Val(500_000))),
    (Scalar, "1e000001", Ok(Val(10_000_000))),
    (Scalar, "", Err(BadNumber)),
    (Scalar, "+", Err(BadNumber)),
    (Scalar, "-", Err(BadNumber)),
    (Scalar, "--1", Err(BadNumber)),
    (Scalar, ".", Err(BadNumber)),
    (Scalar, "-.", Err(BadNumber)),
    (Scalar, "1e", Err(BadNumber)),
    (Scalar, "1e+", Err(BadNumber)),
    (Scalar, "1e1234567", Err(BadNumber)),
    (Scalar, "1.2.3", Err(BadNumber)),
    (Scalar, "e5", Err(BadNumber)),
    (Scalar, "1 ", Err(BadNumber)),
    (Scalar, "1e5 ", Err(BadNumber)),
    (Scalar, "0x1", Err(BadNumber)),
    (Scalar, "1,5", Err(BadNumber)),
    (Scalar, "nan", Err(BadNumber)),
    (
        Scalar,
        "000000000000000000000000000000000000000000000000000000000000000000000000000000000000000000000000000000000000000000000000001.5e+0",
        Ok(Val(1_500_000)),
    ),
    (
        Scalar,
        "0000000000000000000000000000000000000000000000000000000000000000000000000000000000000000000000000000000000000000000000000001.5e+0",
        Err(BadNumber),
    ),
];

/// Two texts, and whether they have one exact value.
static SAME: [(&str, &str, bool); 20] = [
    ("1", "1.0", true),
    ("1", "1", true),
    ("-9999", "-9999.0", true),
    ("-9999", "-9.999e3", true),
    ("-9999", "9999", false),
    ("0", "-0", true),
    ("0e5", "0e-999999", true),
    ("0", "1e-999999", false),
    ("100", "1e2", true),
    ("100", "1e3", false),
    ("0.00000010", "1E-7", true),
    ("0.0000001", "0.0000002", false),
    ("1e31", "10000000000000000000000000000000", true),
    (
        "-3.4028234663852886e+38",
        "-340282346638528860000000000000000000000.0",
        true,
    ),
    ("1e400000", "10e399999", true),
    ("1e400000", "1e-400000", false),
    ("012.50", ".125e2", true),
    ("12", "120", false),
    ("5.", "+5", true),
    ("1e-6", "0.0000014", false),
];

#[test]
fn reads_texts(rt: HostRuntime) {
    for (kind, text, cell) in READ.iter() {
        let bytes = text.as_bytes();
        assert_eq!(rt;
            (read_cell(*kind, bytes), is_decimal(bytes)),
            (*cell, *cell != Err(BadNumber)),
            "of '{text}' as {kind:?}"
        );
    }
}

// Whether two texts have one exact value, where they are decimals.
fn are_same(a: &str, b: &str) -> Option<bool> {
    let (a, b) = (a.as_bytes(), b.as_bytes());
    if is_decimal(a) && is_decimal(b) {
        Some(same_decimal(a, b))
    } else {
        None
    }
}

#[test]
fn compares_texts(rt: HostRuntime) {
    for (left, right, same) in SAME.iter() {
        assert_eq!(rt;
            [are_same(left, right), are_same(right, left)],
            [Some(*same), Some(*same)],
            "of '{left}' and '{right}'"
        );
    }
}

// A word that is handed on, behind the end of the first.
fn twin_of(alloc: Global, bytes: &[u8]) -> Result<Word, AllocError> {
    let word = Word::new(alloc, bytes)?;
    let twin = word.twin(alloc)?;
    drop(word);
    Ok(twin)
}

#[test]
fn hands_on_words(rt: HostRuntime) -> Result<(), Fail> {
    let twin = twin_of(rt.alloc(), b"rain.asc")?;
    assert_eq!(rt; twin.bytes(), b"rain.asc".as_slice());
    Ok(())
}

#[test]
fn hands_on_cells(rt: HostRuntime) -> Result<(), Fail> {
    let cells = Cells::from_vec(vec![in rt.alloc(); Val(7), Cell::Mv]?);
    assert_eq!(rt; cells.len(), 2);
    assert_eq!(rt; cells.as_slice(), [Val(7), Cell::Mv].as_slice());
    let back = cells.into_vec();
    assert_eq!(rt; back.as_slice(), [Val(7), Cell::Mv].as_slice());
    Ok(())
}
