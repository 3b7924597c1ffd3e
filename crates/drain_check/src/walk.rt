//! One walk over all cells, each of them visited once, with no recursion along a path.

ghost use Rattle.std.specs.Prelude.{◌≡◌, ◌≤◌, ◌<◌, IfErr, IfOk, length};
ghost use Rattle.drain_meaning.specs.Drains.{IsDrainMap};
ghost use Rattle.drain_meaning.specs.Orders.{IsDrainOrder};
ghost use Rattle.drain_meaning.specs.Paths.{HasPath, IsSound};
ghost use Rattle.drain_check.specs.Checks.{IsRefused};
ghost use Rattle.drain_check.specs.inside.Walks.{Arrived, CameDown, IsAtRest, WalkResult, map_of};

use crate::check::CheckEnd;
use crate::codes::Codes;
use drain_meaning::Next;
use std::alloc::{AllocFailed, Global};

/// How far the walk has come with a cell.
#[derive(Clone, Copy, Debug, PartialEq, Eq)]
pub(crate) enum Mark {
    /// No walk has come to the cell.
    Unseen,
    /// The walk that is under way has come to the cell.
    Walked,
    /// The cell has a path.
    Done,
}

// Goes down from the place until a cell that is done, or a pit, which is then done; leaves behind the cells on the way.
// False where the walk comes to no pit.
fn walk_down(
    codes: Codes<'_>,
    place: u32,
    marks: &mut [Mark],
    trail: &mut Vec<u32>,
    order: &mut Vec<u32>,
) -> Result<bool, AllocFailed<u32>>
    requires map { IsDrainMap (map_of codes) }
    requires within { place < length codes.cells.now }
    requires at_rest { IsAtRest (map_of codes) marks.old order.old.items }
    requires empty { length trail.old.items ≡ 0 }
    ensures { WalkResult result (Arrived (map_of codes.entry) place marks.old marks.new trail.new.items order.new.items) (HasPath (map_of codes.entry) place) }
{
    let mut at = place;
    while let Mark::Unseen = marks[at as usize] {
        match codes.next(at) {
            Next::Cell(down) => {
                marks[at as usize] = Mark::Walked;
                trail.push(at)?;
                at = down;
            }
            Next::Pit => {
                marks[at as usize] = Mark::Done;
                order.push(at)?;
            }
            Next::Outside | Next::Missing => return Ok(false),
        }
    }
    match marks[at as usize] {
        Mark::Done => Ok(true),
        Mark::Unseen | Mark::Walked => Ok(false),
    }
}

// Settles the place and all cells on its path. False where it has no path.
fn settle(
    codes: Codes<'_>,
    place: u32,
    marks: &mut [Mark],
    trail: &mut Vec<u32>,
    order: &mut Vec<u32>,
) -> Result<bool, AllocFailed<u32>>
    requires map { IsDrainMap (map_of codes) }
    requires within { place < length codes.cells.now }
    requires at_rest { IsAtRest (map_of codes) marks.old order.old.items }
    requires empty { length trail.old.items ≡ 0 }
    ensures { WalkResult result (CameDown (map_of codes.entry) place marks.old marks.new trail.new.items order.new.items) (HasPath (map_of codes.entry) place) }
{
    if !walk_down(codes, place, marks, trail, order)? {
        return Ok(false);
    }
    while let Some(last) = trail.pop() {
        marks[last as usize] = Mark::Done;
        order.push(last)?;
    }
    Ok(true)
}

// Settles all places. The order then has all cells with a direction.
fn settle_all(
    codes: Codes<'_>,
    marks: &mut [Mark],
    trail: &mut Vec<u32>,
    order: &mut Vec<u32>,
) -> Result<(), CheckEnd>
    requires map { IsDrainMap (map_of codes) }
    requires at_rest { IsAtRest (map_of codes) marks.old order.old.items }
    requires empty { length trail.old.items ≡ 0 }
    ensures sound { IfOk result (λ _. IsSound (map_of codes.entry)) }
    ensures order { IfOk result (λ _. IsDrainOrder (map_of codes.entry) order.new.items) }
    ensures refused { IfErr result (IsRefused (map_of codes.entry)) }
{
    for place in 0..codes.count() {
        match codes.next(place) {
            Next::Missing => {}
            Next::Pit | Next::Cell(_) | Next::Outside => {
                if !settle(codes, place, marks, trail, order)? {
                    return Err(CheckEnd::Unsound { place });
                }
            }
        }
    }
    Ok(())
}

/// All cells with a direction, each once and after the one that it drains into. `Unsound` comes exactly where a cell with a
/// direction has no path, with the first such place in row-major order.
pub(crate) fn order_of(alloc: Global, codes: Codes<'_>) -> Result<Vec<u32>, CheckEnd>
    requires { IsDrainMap (map_of codes) }
    ensures sound { IfOk result (λ _. IsSound (map_of codes.entry)) }
    ensures order { IfOk result (λ order. IsDrainOrder (map_of codes.entry) order.items) }
    ensures refused { IfErr result (IsRefused (map_of codes.entry)) }
{
    let mut marks = vec![in alloc; Mark::Unseen; codes.cells.len()]?;
    let mut trail = Vec::new(alloc);
    let mut order = Vec::with_capacity(alloc, codes.cells.len())?;
    settle_all(codes, &mut marks, &mut trail, &mut order)?;
    Ok(order)
}
