//! What is known in a stage and at a step.

ghost use Rattle.std.specs.Prelude.{◌≡◌, IfOk};
ghost use Rattle.run_session.specs.inside.Standings.{known_at};

use crate::inputs::Inputs;
use crate::stages::StageMaps;
use map_meaning::{Known, Map, SharedDrain, SharedSeries, SharedTable, StepMap};
use sqlite_items::Items;
use std::alloc::{AllocError, Global};
use std::sync::Arc;

// Some maps, held once more.
fn shared_maps(alloc: Global, maps: &[Map]) -> Result<Items<Map>, AllocError>
    ensures { IfOk result (λ all. all ≡ maps.now) }
{
    let mut all = Items::new(alloc);
    for map in maps {
        all.push(map.share()?)?;
    }
    Ok(all)
}

// Some tables, held once more.
fn shared_tables(alloc: Global, tables: &[SharedTable]) -> Result<Items<SharedTable>, AllocError>
    ensures { IfOk result (λ all. all ≡ tables.now) }
{
    let mut all = Items::new(alloc);
    for table in tables {
        all.push(table.share()?)?;
    }
    Ok(all)
}

// Some series, held once more.
fn shared_series(alloc: Global, series: &[SharedSeries]) -> Result<Items<SharedSeries>, AllocError>
    ensures { IfOk result (λ all. all ≡ series.now) }
{
    let mut all = Items::new(alloc);
    for one in series {
        all.push(one.share()?)?;
    }
    Ok(all)
}

// Some drain maps, held once more.
fn shared_drains(alloc: Global, drains: &[SharedDrain]) -> Result<Items<SharedDrain>, AllocError>
    ensures { IfOk result (λ all. all ≡ drains.now) }
{
    let mut all = Items::new(alloc);
    for drain in drains {
        all.push(drain.share()?)?;
    }
    Ok(all)
}

// Some kept maps, held once more.
fn shared_kept(alloc: Global, maps: &[StepMap]) -> Result<Items<StepMap>, AllocError>
    ensures { IfOk result (λ all. all ≡ maps.now) }
{
    let mut all = Items::new(alloc);
    for map in maps {
        let cells = map.cells.share()?;
        all.push(StepMap {
            step: map.step,
            operation: map.operation,
            cells,
        })?;
    }
    Ok(all)
}

// What is known over the inputs in a stage of `initial` or at a step, where these are the maps that stages left, the grids of
// the step's stacks and the kept maps of the step before. No map is copied.
fn known_at(
    alloc: Global,
    inputs: &Inputs,
    left: &StageMaps,
    stacks: Items<StepMap>,
    last: Items<StepMap>,
) -> Result<Known, AllocError>
    ensures { IfOk result (λ known. known ≡ known_at inputs.now left.now stacks last) }
{
    let maps = shared_maps(alloc, inputs.maps.as_slice())?;
    let tables = shared_tables(alloc, inputs.tables.as_slice())?;
    let series = shared_series(alloc, inputs.series.as_slice())?;
    let drains = shared_drains(alloc, left.drains.as_slice())?;
    let initial = shared_kept(alloc, left.kept.as_slice())?;
    Ok(Known {
        rows: inputs.frame.rows,
        cols: inputs.frame.cols,
        maps,
        tables,
        series,
        drains,
        stacks,
        initial,
        last,
    })
}

/// What is known in a stage or at a step, for the runner.
pub fn shared_known(
    alloc: Global,
    inputs: &Inputs,
    left: &StageMaps,
    stacks: Items<StepMap>,
    last: Items<StepMap>,
) -> Result<Arc<Known>, AllocError>
    ensures { IfOk result (λ known. known.value ≡ known_at inputs.now left.now stacks last) }
{
    let known = known_at(alloc, inputs, left, stacks, last)?;
    Ok(Arc::new(alloc, known)?)
}
