//! Lookups in a table of ten rows.

use crate::best::Best;
use cell_values::Cell::{Mv, Val};
use cell_values::{Cell, Kind};
use lookup_table::{Table, read_table};
use std::alloc::Global;
use std::rt::Clock;
use std::test::Fail;
use std::time::Instant;

/// A table of one key: ten intervals that ascend.
const TABLE: &[u8] =
    b"[0,1> 10\n[1,2> 20\n[2,3> 30\n[3,4> 40\n[4,5> 50\n[5,6> 60\n[6,7> 70\n[7,8> 80\n[8,9> 90\n[9,10> 5\n";

/// How many lookups a round has.
const LOOKUPS: u32 = 1_000_000;

/// How many rounds are timed.
const ROUNDS: u32 = 20;

// The table, unless memory runs out.
fn made_table(alloc: Global) -> Option<Table> {
    read_table(alloc, 1, Kind::Scalar, TABLE).ok()
}

// A round of lookups, of which the first is of the key: the key that would be next.
fn find_keys(table: &Table, key: i64) -> i64 {
    let mut key = key;
    for _ in 0..LOOKUPS {
        key = next_key(table.find(key, 0, 0, 0), key);
    }
    key
}

// The key after a lookup.
fn next_key(found: Cell, key: i64) -> i64 {
    match found {
        Val(found) => found.wrapping_mul(7).wrapping_add(key) & 0x7f_ffff,
        Mv => 3_000_001,
    }
}

// Times so many rounds of lookups, and prints the best one.
fn time_finds<R: Clock + Print>(rt: &R, table: &Table) -> Result<(), Fail> {
    let mut best = Best::none();
    let mut key = 0i64;
    for _ in 0..ROUNDS {
        let start = Instant::now(rt)?;
        key = find_keys(table, key);
        best.note(rt, start)?;
    }
    best.print_with(rt, "find", key.unsigned_abs())
}

/// Times lookups, each of which needs the one before, and prints the best round in nanoseconds.
pub fn time_table<R: Clock + Print + AllocGlobal>(rt: &R) -> Result<(), Fail> {
    let Some(table) = made_table(rt.alloc()) else {
        println!(rt; "no table")?;
        return Ok(());
    };
    time_finds(rt, &table)
}
