//! How many tasks are too many.

ghost use Rattle.std.specs.Prelude.{IfOk};
ghost use Rattle.map_meaning.specs.Programs.{IsWellFormed};
ghost use Rattle.script_syntax.specs.WellMade.{IsWellMade};

use map_meaning::{BlockRunner, Program, StageEnd};
use script_syntax::{Script, read_script};
use script_types::lower;
use span_runner::{SpanCall, SpanRunner};
use std::alloc::{AllocError, Global};
use std::process::Abort;
use std::test::Fail;

// The script of a text.
fn script_of(alloc: Global, text: &[u8]) -> Result<Script, Fail>
    ensures { IfOk result IsWellMade }
{
    if text.len() > 1000 {
        return Err(Fail::from("too long"));
    }
    match read_script(alloc, text) {
        Ok(script) => Ok(script),
        Err(_) => Err(Fail::from("no script")),
    }
}

// The program of a text.
fn program_of(alloc: Global, text: &[u8]) -> Result<Program, Fail>
    ensures { IfOk result IsWellFormed }
{
    let script = script_of(alloc, text)?;
    match lower(alloc, &script) {
        Ok(program) => Ok(program),
        Err(_) => Err(Fail::from("no program")),
    }
}

// What the runner tells of the program over a map of 1,024 rows, by tiles of one row and so many columns.
fn admitted(program: &Program, cols: u32, tile_cols: u32) -> Option<u64>
    requires { IsWellFormed program.now }
{
    let none = |_call: SpanCall| -> Result<StageEnd, AllocError> { Err(AllocError) };
    let runner = SpanRunner::new(1, tile_cols.clamp(1, 4096), 1, none);
    runner.admit(program, 1024, cols.clamp(1, 4096))
}

/// An addition, and two at each of many steps.
const SCRIPT: &[u8] =
    b"binding A = a.asc; areamap A; timer 1 9 1; initial S = A + 1; dynamic B = S + 1; S = B + 1;";

/// The columns of the map and of a tile, and the number that is told.
const TOLD: [(u32, u32, Option<u64>); 5] = [
    (512, 1, None),
    (513, 1, Some(1_050_624)),
    (513, 513, None),
    (1024, 2, None),
    (1025, 2, Some(1_050_624)),
];

#[test]
fn too_many_tasks_are_told(rt: HostRuntime) -> Result<(), Fail> {
    let program = program_of(rt.alloc(), SCRIPT)?;
    for (cols, tile_cols, expected) in TOLD {
        let told = admitted(&program, cols, tile_cols);
        assert_eq!(rt; told, expected, "{cols} by {tile_cols}");
    }
    Ok(())
}
