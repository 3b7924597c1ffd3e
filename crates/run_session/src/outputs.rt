//! The outputs of a program: grids of `initial`, stacks, and time series.

ghost use Rattle.std.specs.Prelude.{◌≡◌, ◌≤◌, ◌*◌, [], ◌++◌, ◌∷◌, ℕ, List, length, slice_get, true, IfOk, OnOk, IsSomeAnd, ◌<◌, ◌+◌, if◌then◌else◌};
ghost use Rattle.std.specs.List.{filter};
ghost use Rattle.text_base.specs.Limits.{most_cells};
ghost use Rattle.map_meaning.specs.Limits.{most_inputs};
ghost use Rattle.map_meaning.specs.Maps.{nth};
ghost use Rattle.map_meaning.specs.Programs.{IsWellFormed, is_grid_role, is_initial_grid, is_stack_grid};
ghost use Rattle.map_meaning.specs.Spans.{at_inputs};
ghost use Rattle.map_meaning.specs.declared.program.OutputUse.{OutputUse as TheOutput};
ghost use Rattle.script_types.specs.Lowered.{as_shown};
ghost use Rattle.run_session.specs.Samples.{sample_begun};
ghost use Rattle.run_session.specs.inside.Outputs.{AreBegun, IsKeptFor, SampleFits, grids_before, operand_input};
ghost use Rattle.run_session.specs.inside.Parts.{AreInputsOf};
ghost use Rattle.run_session.specs.inside.Standings.{IsSample, sampled_of};

use crate::inputs::Inputs;
use crate::samples::{Sample, begin_sample};
use cell_values::Cells;
use map_meaning::{InputUse, Map, Operand, OutputKind, OutputUse, Program, Role};
use sqlite_items::{Items, at};
use std::alloc::{AllocError, Global};

// The same output once more.
fn output_twin(alloc: Global, output: &OutputUse) -> Result<OutputUse, AllocError>
    ensures { IfOk result (λ twin. twin ≡ output.now) }
{
    Ok(OutputUse {
        file: output.file.twin(alloc)?,
        kind: output.kind,
        value: output.value,
        cell_kind: output.cell_kind,
        statement: output.statement,
    })
}

/// The outputs that are grids of `initial`.
pub fn first_grids(alloc: Global, outputs: &[OutputUse]) -> Result<Items<OutputUse>, AllocError>
    ensures { IfOk result (λ grids. grids ≡ filter (λ output. is_initial_grid output.kind) outputs.now) }
{
    let mut grids = Items::new(alloc);
    for output in outputs {
        if let OutputKind::InitialGrid = output.kind {
            grids.push(output_twin(alloc, output)?)?;
        }
    }
    Ok(grids)
}

/// The outputs that are stacks.
pub fn stack_grids(alloc: Global, outputs: &[OutputUse]) -> Result<Items<OutputUse>, AllocError>
    ensures { IfOk result (λ grids. grids ≡ filter (λ output. is_stack_grid output.kind) outputs.now) }
{
    let mut grids = Items::new(alloc);
    for output in outputs {
        if let OutputKind::StackGrid = output.kind {
            grids.push(output_twin(alloc, output)?)?;
        }
    }
    Ok(grids)
}

// One more, where there is one.
fn counted(count: u32, one: bool) -> u32
    requires { count < most_inputs }
    ensures { result ≡ (if one then count + 1 else count) }
{
    if one { count + 1 } else { count }
}

// How many of the inputs before the one with the number n are grids: the place of its map among those of the inputs.
fn grids_before(uses: &[InputUse], n: u32) -> u32
    requires within { n ≤ length uses.now }
    requires few { length uses.now ≤ most_inputs }
    ensures { result ≡ grids_before uses.now n }
{
    let mut count = 0;
    for k in 0..n {
        count = counted(count, matches!(uses[k as usize].role, Role::Grid));
    }
    count
}

// The number of the input that an operand is; 0 where it is none.
fn operand_input(operand: Operand) -> u32
    ensures { result ≡ operand_input operand }
{
    match operand {
        Operand::Input(n) => n,
        _ => 0,
    }
}

/// The map of the input with the number n, which is a grid.
pub fn map_of(alloc: Global, uses: &[InputUse], maps: &[Map], n: u32) -> Result<Map, AllocError>
    requires few { length uses.now ≤ most_inputs }
    requires grid { IsSomeAnd (slice_get uses.now n) (λ input. is_grid_role input.role ≡ true) }
    ensures { IfOk result (λ m. m ≡ nth (at_inputs is_grid_role [] uses.now maps.now) n) }
{
    match at(maps, grids_before(uses, n) as usize) {
        Some(map) => map.share(),
        None => Map::new(alloc, Cells::from_vec(Vec::new(alloc))),
    }
}

// The time series of an output, without rows.
fn begun(
    alloc: Global,
    uses: &[InputUse],
    maps: &[Map],
    output: &OutputUse,
    ids: u32,
) -> Result<Sample, AllocError>
    requires few { length uses.now ≤ most_inputs }
    requires grid { IsSomeAnd (slice_get uses.now ids) (λ input. is_grid_role input.role ≡ true) }
    requires within { operand_input output.now.value ≤ length uses.now }
    requires size { length (nth (at_inputs is_grid_role [] uses.now maps.now) ids) ≤ most_cells }
    ensures seen { IfOk result (λ s. sampled_of s ≡ sample_begun (at_inputs is_grid_role [] uses.now maps.now) ids (as_shown output.now)) }
    ensures kept { IfOk result (IsKeptFor uses.now output.now) }
    ensures sample { IfOk result (IsSample (length (nth (at_inputs is_grid_role [] uses.now maps.now) ids))) }
{
    let file = output.file.twin(alloc)?;
    let ids = map_of(alloc, uses, maps, ids)?;
    let input = grids_before(uses, operand_input(output.value));
    begin_sample(alloc, file, output.cell_kind, output.value, input, ids)
}

// Adds the time series of an output, if it is one.
fn add_sample(
    alloc: Global,
    uses: &[InputUse],
    maps: &[Map],
    _places: usize,
    output: &OutputUse,
    all: &mut Vec<Sample>,
) -> Result<(), AllocError>
    requires few { length uses.now ≤ most_inputs }
    requires places { _places ≤ most_cells }
    requires fits { (ids : ℕ) → output.now.kind ≡ OutputKind.Sample ids → SampleFits _places uses.now maps.now output.now ids }
    ensures { OnOk result ((before : List TheOutput) → AreBegun _places uses.now maps.now before all.old.items → AreBegun _places uses.now maps.now (before ++ output.now ∷ []) all.new.items) }
{
    let OutputKind::Sample { ids } = output.kind else {
        return Ok(());
    };
    all.push(begun(alloc, uses, maps, output, ids)?)?;
    Ok(())
}

/// The time series of the outputs, without rows, in their order.
pub fn begin_samples(
    alloc: Global,
    program: &Program,
    inputs: &Inputs,
) -> Result<Vec<Sample>, AllocError>
    requires program { IsWellFormed program.now }
    requires inputs { AreInputsOf program.now.inputs inputs.now }
    ensures { IfOk result (λ all. AreBegun (inputs.now.frame.rows * inputs.now.frame.cols) program.now.inputs inputs.now.maps program.now.outputs all.items) }
{
    let uses = program.inputs.as_slice();
    let outputs = program.outputs.as_slice();
    let places = inputs.frame.rows as usize * inputs.frame.cols as usize;
    let mut all = Vec::new(alloc);
    for i in 0..outputs.len() {
        add_sample(
            alloc,
            uses,
            inputs.maps.as_slice(),
            places,
            &outputs[i],
            &mut all,
        )?;
    }
    Ok(all)
}
