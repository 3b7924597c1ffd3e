//! Times single calls, for `make bench`: `tiles`, `cells`, `maps`, `table`, `turns`, `drains`, `windows`, `areas`, `sums` or `merges`. Without a word it says these.
#![tactic(auto)]

mod areas;
mod best;
mod cells;
mod drains;
mod table;
mod tasks;
mod tiles;
mod turns;
mod windows;

use areas::time_areas;
use cells::time_cells;
use drains::time_drains;
use std::env;
use std::rt::{Clock, Env};
use std::sync::Wait;
use std::test::Fail;
use table::time_table;
use tasks::{time_merges, time_sums};
use tiles::time_tiles;
use turns::time_turns;
use windows::time_windows;

// Times what a word names, or says the words.
fn time<R: Clock + Print + AllocGlobal + Wait>(rt: &R, word: &[u8]) -> Result<(), Fail> {
    match word {
        b"tiles" => time_tiles(rt),
        b"cells" => time_cells(rt, 100_000, 200),
        b"maps" => time_cells(rt, 2048 * 2048, 5),
        b"table" => time_table(rt),
        b"turns" => time_turns(rt),
        b"drains" => time_drains(rt),
        b"windows" => time_windows(rt),
        b"areas" => time_areas(rt),
        b"sums" => time_sums(rt),
        b"merges" => time_merges(rt),
        _ => say_words(rt),
    }
}

// Says the words.
fn say_words<R: Print>(rt: &R) -> Result<(), Fail> {
    println!(rt;
        "tiles | cells | maps | table | turns | drains | windows | areas | sums | merges"
    )?;
    Ok(())
}

// Times what the first word names.
fn run<R: Clock + Env + Print + AllocGlobal + Wait>(rt: &R) -> Result<(), Fail> {
    match env::args(rt)?.nth(1) {
        Some(word) => time(rt, word.as_bytes()),
        None => say_words(rt),
    }
}

fn main(rt: HostRuntime) -> Result<(), Fail> {
    run(&rt)
}
