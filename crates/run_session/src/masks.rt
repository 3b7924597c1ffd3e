//! The drain maps of a program.

ghost use Rattle.std.specs.Prelude.{◌≡◌, ◌<◌, ◌≤◌, length, slice_index_or, slice_get, None, Some, IfOk};
ghost use Rattle.std.specs.Option.{unwrap_or};
ghost use Rattle.drain_meaning.specs.Masks.{lddmask_of};
ghost use Rattle.map_meaning.specs.Limits.{most_inputs};
ghost use Rattle.run_session.specs.inside.Stages.{HasMask, HasSource, held_drain, mask_cell, no_drain};
ghost use Rattle.run_session.specs.inside.Standings.{AscendFrom};

use crate::kept::kept_cells;
use crate::outputs::map_of;
use crate::stages::StageMaps;
use crate::work::Work;
use drain_meaning::Drain;
use drain_ops::mask_drain;
use map_meaning::{Arg, DrainFrom, InputUse, Map, Operand, SharedDrain, StepMap};
use std::alloc::{AllocError, Global};

// The part of a drain map that a mask keeps: a number, the map of an input, or a kept map of `initial`.
fn masked(
    alloc: Global,
    uses: &[InputUse],
    maps: &[Map],
    kept: &[StepMap],
    drain: &Drain,
    by: Operand,
) -> Result<Drain, AllocError>
    requires few { length uses.now ≤ most_inputs }
    requires ascend { AscendFrom 0 kept.now }
    requires mask { HasMask (length drain.now.codes) uses.now maps.now kept.now by }
    ensures { IfOk result (λ m. m ≡ lddmask_of drain.now (mask_cell uses.now maps.now kept.now by)) }
{
    match by {
        Operand::Literal(_, cell) => mask_drain(alloc, drain, Arg::One(cell)),
        Operand::Input(n) => {
            let map = map_of(alloc, uses, maps, n)?;
            mask_drain(alloc, drain, Arg::Cells(map.cells()))
        }
        Operand::Initial(n) => mask_drain(alloc, drain, Arg::Cells(kept_cells(kept, n))),
        _ => mask_drain(alloc, drain, Arg::Unused),
    }
}

// The drain map that an input is.
fn drain_of_input(drains: &[Option<SharedDrain>], n: u32) -> Result<SharedDrain, AllocError>
    requires there { n < length drains.now }
    requires one { slice_index_or drains.now n None ≡ None → ⊥ }
    ensures { IfOk result (λ drain. drain ≡ unwrap_or (slice_index_or drains.now n None) no_drain) }
{
    match &drains[n as usize] {
        Some(drain) => drain.share(),
        None => unreachable!(),
    }
}

/// A drain map that comes from what is known: the input that it is, another drain map, or the part of one that a mask keeps.
pub fn drain_map(
    alloc: Global,
    work: &Work,
    left: &StageMaps,
    from: DrainFrom,
) -> Result<SharedDrain, AllocError>
    requires few { length work.now.program.value.inputs ≤ most_inputs }
    requires ascend { AscendFrom 0 left.now.kept }
    requires source { HasSource work.now left.now from }
    ensures { IfOk result (λ drain. drain ≡ held_drain work.now left.now from) }
{
    match from {
        DrainFrom::Input(n) => drain_of_input(work.drains.as_slice(), n),
        DrainFrom::Same(n) => left.drains.as_slice()[n as usize].share(),
        DrainFrom::Mask { of, by } => {
            let drain = masked(
                alloc,
                work.program.inputs.as_slice(),
                work.inputs.maps.as_slice(),
                left.kept.as_slice(),
                left.drains.as_slice()[of as usize].drain(),
                by,
            )?;
            SharedDrain::new(alloc, drain)
        }
    }
}
