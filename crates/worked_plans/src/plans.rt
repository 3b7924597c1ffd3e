//! Programs of scripts, and their plans.

ghost use Rattle.std.specs.Prelude.{◌≡◌, ◌≤◌, ◌<◌, IfOk, true};
ghost use Rattle.map_meaning.specs.Limits.{most_block};
ghost use Rattle.map_meaning.specs.Programs.{IsWellFormed};
ghost use Rattle.map_meaning.specs.Spans.{IsSpan};
ghost use Rattle.map_meaning.specs.declared.known.Span.TheVariants.{Steps};
ghost use Rattle.script_syntax.specs.WellMade.{IsWellMade};

use map_meaning::{Program, Span};
use script_syntax::{Script, read_script};
use script_types::lower;
use std::alloc::Global;
use std::test::Fail;
use task_graph::{Plan, PlanEnd, build_plan, count_tasks};
use tile_map::Tiling;

// The script of a text.
fn script_of(alloc: Global, text: &str) -> Result<Script, Fail>
    ensures { IfOk result IsWellMade }
{
    if text.len() > 268_435_456 {
        return Err(Fail::from("too long"));
    }
    match read_script(alloc, text.as_bytes()) {
        Ok(script) => Ok(script),
        Err(_) => Err(Fail::from("no script")),
    }
}

// The program of a script.
fn lowered(alloc: Global, script: &Script) -> Result<Program, Fail>
    requires { IsWellMade script.now }
    ensures { IfOk result IsWellFormed }
{
    match lower(alloc, script) {
        Ok(program) => Ok(program),
        Err(_) => Err(Fail::from("no program")),
    }
}

/// The program of a text.
pub(crate) fn program_of(alloc: Global, text: &str) -> Result<Program, Fail>
    ensures { IfOk result IsWellFormed }
{
    let script = script_of(alloc, text)?;
    lowered(alloc, &script)
}

/// The tiling of a map of this size into tiles of this size.
pub(crate) fn tiling_of([rows, cols, tile_rows, tile_cols]: [u32; 4]) -> Result<Tiling, Fail> {
    if rows == 0 || cols == 0 || tile_rows == 0 || tile_cols == 0 {
        return Err(Fail::from("no tiling"));
    }
    if u64::from(rows) * u64::from(cols) > 4_194_304 {
        return Err(Fail::from("too large a map"));
    }
    if tile_rows > 4096 || tile_cols > 4096 {
        return Err(Fail::from("too large a tile"));
    }
    Ok(Tiling::new(rows, cols, tile_rows, tile_cols))
}

/// How many tasks the program of a text has.
pub(crate) fn counted(alloc: Global, text: &str, sides: [u32; 4], block: u32) -> Result<u64, Fail> {
    let program = program_of(alloc, text)?;
    let tiling = tiling_of(sides)?;
    if block > 64 {
        return Err(Fail::from("too long a block"));
    }
    Ok(count_tasks(&program, &tiling, block))
}

// The plan of the steps from the first one on.
fn steps_plan(
    alloc: Global,
    program: &Program,
    last: u32,
    tiling: &Tiling,
) -> Result<Result<Plan, PlanEnd>, Fail>
    requires { IsWellFormed program.now }
{
    if last < 1 || last > program.steps || last > 64 {
        return Err(Fail::from("no such steps"));
    }
    Ok(build_plan(alloc, program, Span::Steps { first: 1, last }, tiling))
}

/// The plan of the first steps of a text's program.
pub(crate) fn planned(
    alloc: Global,
    text: &str,
    sides: [u32; 4],
    last: u32,
) -> Result<Result<Plan, PlanEnd>, Fail> {
    let program = program_of(alloc, text)?;
    let tiling = tiling_of(sides)?;
    steps_plan(alloc, &program, last, &tiling)
}

/// That plan, which there is.
pub(crate) fn plan_of(alloc: Global, text: &str, sides: [u32; 4], last: u32) -> Result<Plan, Fail> {
    match planned(alloc, text, sides, last)? {
        Ok(plan) => Ok(plan),
        Err(_) => Err(Fail::from("no plan")),
    }
}
