//! Time series that are written.

ghost use Rattle.std.specs.Prelude.{◌≡◌, ◌≤◌, [], map, length, All, IfErr, IfOk, OnOk};
ghost use Rattle.std.specs.BTreeMap.{insert_entry, keys, values};
ghost use Rattle.std.specs.Ordering.{int_cmp};
ghost use Rattle.text_base.specs.Limits.{most_cells};
ghost use Rattle.outside_io.specs.Runs.{in_turn};
ghost use Rattle.run_session.specs.Steps.{series_run};
ghost use Rattle.run_session.specs.inside.Columns.{first_places};
ghost use Rattle.tile_map.specs.Args.{arg_cell};
ghost use Rattle.run_session.specs.inside.Parts.{CutsOff, Makes};
ghost use Rattle.run_session.specs.inside.Standings.{AscendFrom, IsOrdered, IsSample, IsWritable, held_cell, sampled_of, with_held_row};

use crate::ends::Stop;
use crate::files::store;
use crate::kept::held_arg;
use cell_values::{Cell, Cells, Kind, Word};
use map_meaning::{Arg, Known, Map, Operand, StepMap};
use outside_io::Folder;
use sqlite_items::Items;
use std::alloc::{AllocError, Global};
use std::collections::BTreeMap;
use time_series::{SeriesRow, write_series};

/// A time series that is written: its columns, and its rows so far.
#[derive(Drop)]
pub struct Sample {
    pub file: Word,
    /// The kind of its cells.
    pub kind: Kind,
    /// The map that is sampled.
    pub value: Operand,
    /// The place of that map among those of the inputs, where it is one of them.
    pub input: u32,
    /// The map of its ids.
    pub ids: Map,
    /// The ids of its columns.
    pub names: Items<i64>,
    /// The first place of each of them.
    pub places: Items<u32>,
    /// A row for each settled step.
    pub rows: Items<SeriesRow>,
}

// Notes a place of an id.
fn note_place(places: &mut BTreeMap<i64, u32>, id: i64, place: u32) -> Result<(), AllocError>
    ensures { OnOk result (places.new.entries ≡ insert_entry int_cmp places.old.entries id place) }
{
    places.insert(id, place)?;
    Ok(())
}

// The first place of each positive id.
fn first_places(alloc: Global, ids: &[Cell]) -> Result<BTreeMap<i64, u32>, AllocError>
    requires { length ids.now ≤ most_cells }
    ensures { IfOk result (λ places. places.entries ≡ first_places 0 ids.now) }
{
    let mut places = BTreeMap::new(alloc);
    let mut place = ids.len();
    'place: while place > 0 {
        place -= 1;
        if let Cell::Val(id) = ids[place] {
            if id > 0 {
                note_place(&mut places, id, place as u32)?;
            }
        }
    }
    Ok(places)
}

// The ids, in ascending order.
fn names_of(alloc: Global, places: &BTreeMap<i64, u32>) -> Result<Vec<i64>, AllocError>
    ensures { IfOk result (λ names. names.items ≡ keys places.now) }
{
    places.keys().copied().collect(alloc)
}

// The first place of each id.
fn places_of(alloc: Global, places: &BTreeMap<i64, u32>) -> Result<Vec<u32>, AllocError>
    ensures { IfOk result (λ firsts. firsts.items ≡ values places.now) }
{
    places.values().copied().collect(alloc)
}

/// A time series without rows.
pub fn begin_sample(
    alloc: Global,
    file: Word,
    kind: Kind,
    value: Operand,
    input: u32,
    ids: Map,
) -> Result<Sample, AllocError>
    requires { length ids ≤ most_cells }
    ensures seen { IfOk result (λ s. sampled_of s ≡ record { file = file; kind = kind; ids = ids; rows = [] }) }
    ensures operand { IfOk result (λ s. (s.value ≡ value) × (s.input ≡ input)) }
    ensures sample { IfOk result (IsSample (length ids)) }
{
    let places = first_places(alloc, ids.cells())?;
    let names = names_of(alloc, &places)?;
    let firsts = places_of(alloc, &places)?;
    Ok(Sample {
        file,
        kind,
        value,
        input,
        ids,
        names: Items::from_vec(names),
        places: Items::from_vec(firsts),
        rows: Items::new(alloc),
    })
}

// The cell of an operand at a place.
fn cell_at(arg: Arg<'_>, place: u32) -> Cell
    ensures { result ≡ arg_cell arg.entry place }
{
    match arg {
        Arg::Unused => Cell::Mv,
        Arg::One(cell) => cell,
        Arg::Cells(cells) => match cells.get(place as usize) {
            Some(cell) => *cell,
            None => Cell::Mv,
        },
    }
}

// The cells of a time series at a step.
fn sampled(
    alloc: Global,
    known: &Known,
    now: &[StepMap],
    step: u32,
    sample: &Sample,
) -> Result<Cells, AllocError>
    requires ordered { IsOrdered known.now }
    requires ascend { AscendFrom 0 now.now }
    ensures { IfOk result (λ cells. cells ≡ map (held_cell known.now now.now step sample.now.input sample.now.value) sample.now.places) }
{
    let arg = held_arg(known, now, step, sample.input, sample.value);
    let mut cells = Vec::with_capacity(alloc, sample.places.len())?;
    for place in sample.places.as_slice() {
        cells.push(cell_at(arg, *place))?;
    }
    Ok(Cells::from_vec(cells))
}

/// Notes the row of a step.
pub fn add_row(
    alloc: Global,
    known: &Known,
    now: &[StepMap],
    step: u32,
    sample: &mut Sample,
) -> Result<(), AllocError>
    requires ordered { IsOrdered known.now }
    requires ascend { AscendFrom 0 now.now }
    ensures { OnOk result (sample.new ≡ with_held_row known.now now.now step sample.old) }
{
    let cells = sampled(alloc, known, now, step, sample)?;
    sample.rows.push(SeriesRow { step, cells })?;
    Ok(())
}

/// Notes the row of a step in each time series.
pub fn add_rows(
    alloc: Global,
    known: &Known,
    now: &[StepMap],
    step: u32,
    samples: &mut [Sample],
) -> Result<(), AllocError>
    requires ordered { IsOrdered known.now }
    requires ascend { AscendFrom 0 now.now }
    ensures { OnOk result (samples.new ≡ map (with_held_row known.now now.now step) samples.old) }
{
    for i in 0..samples.len() {
        add_row(alloc, known, now, step, &mut samples[i])?;
    }
    Ok(())
}

// Puts a time series.
fn put_sample<F: Folder>(alloc: Global, folder: &mut F, sample: &Sample) -> Result<(), Stop>
    requires { IsWritable sample.now }
    ensures meets { Makes (series_run tt (sampled_of sample.now)) (F.state folder.old) (F.state folder.new) result }
    ensures apart { IfErr result CutsOff }
{
    let text = write_series(
        alloc,
        sample.kind,
        sample.names.as_slice(),
        sample.rows.as_slice(),
    )?;
    store(alloc, folder, sample.file.bytes(), &text)
}

/// Puts the time series, in their order.
pub fn put_samples<F: Folder>(alloc: Global, folder: &mut F, samples: &[Sample]) -> Result<(), Stop>
    requires { All IsWritable samples.now }
    ensures meets { Makes (in_turn series_run tt (map sampled_of samples.now)) (F.state folder.old) (F.state folder.new) result }
    ensures apart { IfErr result CutsOff }
{
    for sample in samples {
        put_sample(alloc, folder, sample)?;
    }
    Ok(())
}
