ghost use Rattle.std.specs.Prelude.{◌≡◌, ◌<◌, IfOk, length};
ghost use Rattle.drain_meaning.specs.Masks.{is_kept, lddmask_of, masked_code};
ghost use Rattle.drain_meaning.specs.Sound.{IsDrain};
ghost use Rattle.tile_map.specs.Args.{SpansPlaces, arg_cell};

use crate::size::cell_number;
use cell_values::Cell;
use drain_meaning::{Drain, Next};
use std::alloc::{AllocError, Global};
use tile_map::Arg;

// Whether a cell is kept: it has a direction, and the mask is 1 there.
fn keeps(drain: &Drain, mask: Arg<'_>, place: u32) -> bool
    requires place { place < length drain.now.codes }
    requires mask { SpansPlaces mask (length drain.now.codes) }
    ensures { result ≡ is_kept drain.now (arg_cell mask.entry) place }
{
    match (drain.next(place), mask.at(place as usize)) {
        (Next::Missing, _) => false,
        (_, Cell::Val(1)) => true,
        _ => false,
    }
}

// The code at a place of the masked map.
fn masked(drain: &Drain, mask: Arg<'_>, place: u32) -> Cell
    requires map { IsDrain drain.now }
    requires place { place < length drain.now.codes }
    requires mask { SpansPlaces mask (length drain.now.codes) }
    ensures { result ≡ masked_code drain.now (arg_cell mask.entry) place }
{
    if !keeps(drain, mask, place) {
        return Cell::Mv;
    }
    match drain.next(place) {
        Next::Cell(down) => {
            if keeps(drain, mask, down) {
                drain.code(place)
            } else {
                Cell::Val(5)
            }
        }
        Next::Pit | Next::Outside | Next::Missing => drain.code(place),
    }
}

/// The part of a drain map that a mask keeps (`lddmask`): the direction of each cell whose mask is 1, a pit where the cell
/// that it drained into is not kept, and no direction elsewhere.
#[tactic(auto, unfolding(drain_meaning::specs::Masks::lddmask_of))]
pub fn mask_drain(alloc: Global, drain: &Drain, mask: Arg<'_>) -> Result<Drain, AllocError>
    requires { SpansPlaces mask (length drain.now.codes) }
    ensures { IfOk result (λ masked. masked ≡ lddmask_of drain.now (arg_cell mask.entry)) }
{
    let count = cell_number(drain);
    let mut cells = Vec::with_capacity(alloc, count as usize)?;
    for place in 0..count {
        cells.push(masked(drain, mask, place))?;
    }
    Ok(Drain::of_sound(drain.rows(), drain.cols(), cells))
}
