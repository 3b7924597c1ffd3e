//! The inputs that are read once.

ghost use Rattle.std.specs.Prelude.{◌≡◌, ◌≢◌, ◌++◌, ◌∷◌, [], ◌+◌, ◌<◌, ◌≤◌, ℕ, All, List, length, slice_get, IfOk, OnOk, Some};
ghost use Rattle.cell_values.specs.declared.kind.Kind.TheVariants.{Ldd};
ghost use Rattle.grid_text.specs.declared.grid.Grid.{Grid as TheGrid};
ghost use Rattle.map_meaning.specs.declared.program.Role.TheVariants as role;
ghost use Rattle.outside_io.specs.Runs.{in_turn};
ghost use Rattle.outside_io.specs.inside.Parts.{seen_by};
ghost use Rattle.grid_text.specs.Form.{IsSize};
ghost use Rattle.map_meaning.specs.declared.program.InputUse.{InputUse as TheInput};
ghost use Rattle.map_meaning.specs.Programs.{IsWellFormed, SuitsRole};
ghost use Rattle.run_session.specs.Course.{area_run, frame_of, grid_input_run, input_by_role, inputs_run, nothing_given, numbered_input, one_more_input};
ghost use Rattle.run_session.specs.inside.Parts.{AreSourcesOf, HasAreaMap, IsSource, Makes, area_grid, as_grid, given_of};

use crate::drains::{Source, sound_source, source_twin};
use crate::ends::Stop;
use crate::frame::Frame;
use crate::grids::{grid_at, map_at};
use crate::tables::{series_at, table_at};
use grid_text::Grid;
use map_meaning::{InputUse, Map, Program, Role, SharedDrain, SharedSeries, SharedTable};
use outside_io::Folder;
use sqlite_items::Items;
use std::alloc::{AllocError, Global};

/// The area map.
#[derive(Drop)]
pub struct Area {
    pub frame: Frame,
    pub source: Source,
}

/// What the inputs of a script give that are read once, each sort in the order of the inputs.
#[derive(Drop)]
pub struct Inputs {
    /// The frame of the area map.
    pub frame: Frame,
    /// The maps.
    pub maps: Items<Map>,
    /// The lookup tables.
    pub tables: Items<SharedTable>,
    /// The time series.
    pub series: Items<SharedSeries>,
}

/// The inputs that are read once, and the drain maps among them.
#[derive(Drop)]
pub struct Sources {
    pub inputs: Inputs,
    /// For each input the drain map that it is, if it is one.
    pub drains: Items<Option<SharedDrain>>,
}

// The frame of a grid, and its map.
fn framed(alloc: Global, grid: Grid) -> Result<(Frame, Map), AllocError>
    ensures frame { IfOk result (λ both. both.0 ≡ frame_of grid) }
    ensures cells { IfOk result (λ both. both.1 ≡ grid.cells) }
{
    let Grid {
        rows,
        cols,
        head,
        cells,
    } = grid;
    let cells = Map::new(alloc, cells)?;
    Ok((Frame { rows, cols, head }, cells))
}

// Reads the area map.
fn area_at<F: Folder>(alloc: Global, folder: &mut F, input: &InputUse) -> Result<Area, Stop>
    ensures meets { Makes (area_run input.now) (F.state folder.old) (F.state folder.new) (seen_by as_grid result) }
    ensures size { IfOk result (λ area. IsSize area.frame.rows area.frame.cols) }
    ensures source { IfOk result (λ area. IsSource area.frame input.now area.source) }
{
    let grid = grid_at(alloc, folder, input.kind, &input.file)?;
    let (frame, cells) = framed(alloc, grid)?;
    let source = sound_source(alloc, &frame, input, cells)?;
    Ok(Area { frame, source })
}

// What the input with the number n is; the area map, which has this number, was read before.
fn input_source<F: Folder>(
    alloc: Global,
    folder: &mut F,
    number: usize,
    frame: &Frame,
    area: &Source,
    n: usize,
    input: &InputUse,
) -> Result<Source, Stop>
    requires size { IsSize frame.now.rows frame.now.cols }
    requires area { n ≡ number → IsSource frame.now input.now area.now }
    ensures meets { Makes (grid_input_run number (area_grid frame.now area.now.cells) n input.now)
        (F.state folder.old) (F.state folder.new) (seen_by (λ source. source.cells) result) }
    ensures source { IfOk result (IsSource frame.now input.now) }
{
    if n == number {
        return Ok(source_twin(area)?);
    }
    let cells = map_at(alloc, folder, frame, input.kind, &input.file)?;
    sound_source(alloc, frame, input, cells)
}

// Reads a grid, which is the input with the number n.
fn add_grid<F: Folder>(
    alloc: Global,
    folder: &mut F,
    number: usize,
    area: &Source,
    n: usize,
    input: &InputUse,
    sources: &mut Sources,
) -> Result<(), Stop>
    requires size { IsSize sources.old.inputs.frame.rows sources.old.inputs.frame.cols }
    requires area { n ≡ number → IsSource sources.old.inputs.frame input.now area.now }
    requires role { input.now.role ≡ role.Grid }
    ensures meets { Makes (input_by_role number (area_grid sources.old.inputs.frame area.now.cells) (given_of n sources.old.inputs) input.now role.Grid)
        (F.state folder.old) (F.state folder.new) (seen_by (λ _. given_of (n + 1) sources.new.inputs) result) }
    ensures frame { sources.new.inputs.frame ≡ sources.old.inputs.frame }
    ensures more { OnOk result ((before : List TheInput) → AreSourcesOf before sources.old → AreSourcesOf (before ++ input.now ∷ []) sources.new) }
{
    let source = input_source(alloc, folder, number, &sources.inputs.frame, area, n, input)?;
    let Source { cells, drain } = source;
    sources.inputs.maps.push(cells)?;
    sources.drains.push(drain)?;
    Ok(())
}

// Reads a table, which is the input with the number _n.
fn add_table<F: Folder>(
    alloc: Global,
    folder: &mut F,
    _n: usize,
    keys: u32,
    input: &InputUse,
    sources: &mut Sources,
) -> Result<(), Stop>
    requires some { 1 ≤ keys }
    requires few { keys ≤ 4 }
    requires kind { input.now.kind ≢ Ldd }
    requires role { input.now.role ≡ role.Table keys }
    ensures meets { (number : ℕ) (area : TheGrid) → Makes (input_by_role number area (given_of _n sources.old.inputs) input.now (role.Table keys))
        (F.state folder.old) (F.state folder.new) (seen_by (λ _. given_of (_n + 1) sources.new.inputs) result) }
    ensures frame { sources.new.inputs.frame ≡ sources.old.inputs.frame }
    ensures more { OnOk result ((before : List TheInput) → AreSourcesOf before sources.old → AreSourcesOf (before ++ input.now ∷ []) sources.new) }
{
    let table = table_at(alloc, folder, keys, input)?;
    sources.inputs.tables.push(table)?;
    sources.drains.push(None)?;
    Ok(())
}

// Reads a time series, which is the input with the number _n.
fn add_series<F: Folder>(
    alloc: Global,
    folder: &mut F,
    _n: usize,
    input: &InputUse,
    sources: &mut Sources,
) -> Result<(), Stop>
    requires kind { input.now.kind ≢ Ldd }
    requires role { input.now.role ≡ role.Series }
    ensures meets { (number : ℕ) (area : TheGrid) → Makes (input_by_role number area (given_of _n sources.old.inputs) input.now role.Series)
        (F.state folder.old) (F.state folder.new) (seen_by (λ _. given_of (_n + 1) sources.new.inputs) result) }
    ensures frame { sources.new.inputs.frame ≡ sources.old.inputs.frame }
    ensures more { OnOk result ((before : List TheInput) → AreSourcesOf before sources.old → AreSourcesOf (before ++ input.now ∷ []) sources.new) }
{
    let series = series_at(alloc, folder, input)?;
    sources.inputs.series.push(series)?;
    sources.drains.push(None)?;
    Ok(())
}

// Reads one more input, the one with the number n.
fn read_input<F: Folder>(
    alloc: Global,
    folder: &mut F,
    number: usize,
    area: &Source,
    n: usize,
    input: &InputUse,
    sources: &mut Sources,
) -> Result<(), Stop>
    requires size { IsSize sources.old.inputs.frame.rows sources.old.inputs.frame.cols }
    requires area { n ≡ number → IsSource sources.old.inputs.frame input.now area.now }
    requires suits { SuitsRole input.now.kind input.now.role }
    ensures meets { Makes (one_more_input number (area_grid sources.old.inputs.frame area.now.cells) (given_of n sources.old.inputs) input.now)
        (F.state folder.old) (F.state folder.new) (seen_by (λ _. given_of (n + 1) sources.new.inputs) result) }
    ensures frame { sources.new.inputs.frame ≡ sources.old.inputs.frame }
    ensures more { OnOk result ((before : List TheInput) → AreSourcesOf before sources.old → AreSourcesOf (before ++ input.now ∷ []) sources.new) }
{
    match input.role {
        Role::Grid => add_grid(alloc, folder, number, area, n, input, sources),
        Role::Table { keys } => add_table(alloc, folder, n, keys, input, sources),
        Role::Series => add_series(alloc, folder, n, input, sources),
        Role::Stack => {
            sources.drains.push(None)?;
            Ok(())
        }
    }
}

// Nothing is read yet but the area map.
fn no_sources(alloc: Global, frame: Frame) -> Sources
    requires { IsSize frame.rows frame.cols }
    ensures frame { result.inputs.frame ≡ frame }
    ensures given { given_of 0 result.inputs ≡ nothing_given }
    ensures sources { AreSourcesOf [] result }
{
    Sources {
        inputs: Inputs {
            frame,
            maps: Items::new(alloc),
            tables: Items::new(alloc),
            series: Items::new(alloc),
        },
        drains: Items::new(alloc),
    }
}

// Reads the inputs, in their order.
fn read_all<F: Folder>(
    alloc: Global,
    folder: &mut F,
    number: usize,
    frame: Frame,
    area: &Source,
    uses: &[InputUse],
) -> Result<Sources, Stop>
    requires size { IsSize frame.rows frame.cols }
    requires area { HasAreaMap frame number uses.now area.now }
    requires suits { All (λ input. SuitsRole input.kind input.role) uses.now }
    ensures meets { Makes (in_turn (one_more_input number (area_grid frame area.now.cells)) nothing_given uses.now)
        (F.state folder.old) (F.state folder.new) (seen_by (λ sources. given_of (length uses.now) sources.inputs) result) }
    ensures frame { IfOk result (λ sources. sources.inputs.frame ≡ frame) }
    ensures sources { IfOk result (AreSourcesOf uses.now) }
{
    let mut sources = no_sources(alloc, frame);
    for n in 0..uses.len() {
        read_input(alloc, folder, number, area, n, &uses[n], &mut sources)?;
    }
    Ok(sources)
}

// The input with this number.
#[tactic(auto, using(crate::proofs::Lists::numbered, crate::proofs::Lists::got))]
fn numbered(uses: &[InputUse], number: usize) -> &InputUse
    requires { number < length uses.now }
    ensures value { result.now ≡ numbered_input uses.now number }
    ensures item { slice_get uses.now number ≡ Some result.now }
{
    &uses[number]
}

/// Reads the area map, and then each other input in the order of the section `binding`.
#[tactic(auto, using(crate::proofs::Lists::has_area))]
pub fn read_inputs<F: Folder>(
    alloc: Global,
    folder: &mut F,
    program: &Program,
) -> Result<Sources, Stop>
    requires { IsWellFormed program.now }
    ensures meets { Makes (inputs_run program.now.inputs program.now.area)
        (F.state folder.old) (F.state folder.new) (seen_by (λ sources. sources.inputs) result) }
    ensures sources { IfOk result (AreSourcesOf program.now.inputs) }
{
    let uses = program.inputs.as_slice();
    let number = program.area as usize;
    let Area { frame, source } = area_at(alloc, folder, numbered(uses, number))?;
    Ok(read_all(alloc, folder, number, frame, &source, uses)?)
}
