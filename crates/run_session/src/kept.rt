//! Maps that are kept, by the numbers of their operations, and drain maps by their numbers.

ghost use Rattle.std.specs.Prelude.{◌≡◌, ◌==◌, if◌then◌else◌, ℕ};
ghost use Rattle.map_meaning.specs.Maps.{nth, step_cell};
ghost use Rattle.map_meaning.specs.Spans.{kept_map};
ghost use Rattle.tile_map.specs.Args.{arg_cell};
ghost use Rattle.run_session.specs.inside.Standings.{AscendFrom, IsOrdered, codes_of, held_cell};

use cell_values::Cell;
use map_meaning::{Arg, Known, Operand, SharedDrain, StepMap};
use sqlite_items::at;

/// The cells of the kept map of the operation with this number, by halving; none where it is not kept.
pub fn kept_cells(maps: &[StepMap], number: u32) -> &[Cell]
    requires { AscendFrom 0 maps.now }
    ensures { result.now ≡ kept_map maps.now number }
{
    match maps.binary_search_by_key(&number, |map| map.operation) {
        Ok(place) => maps[place].cells.cells(),
        Err(_) => &[],
    }
}

// The number of a step as a cell.
fn step_number(step: u32) -> Cell
    ensures { result ≡ step_cell step }
{
    Cell::Val(step as i64 * 1_000_000)
}

// What a name has at the end of the step before: at step 1 the map of `initial`.
fn last_cells(known: &Known, step: u32, dynamic: u32, initial: u32) -> &[Cell]
    requires { IsOrdered known.now }
    ensures { result.now ≡ (if step == 1 then kept_map known.now.initial initial else kept_map known.now.last dynamic) }
{
    if step == 1 {
        kept_cells(known.initial.as_slice(), initial)
    } else {
        kept_cells(known.last.as_slice(), dynamic)
    }
}

/// The codes of the drain map with this number; none where there is no such.
pub fn drain_cells(drains: &[SharedDrain], number: u32) -> &[Cell]
    ensures { result.now ≡ nth (codes_of drains.now) number }
{
    match at(drains, number as usize) {
        Some(drain) => drain.drain().cells(),
        None => &[],
    }
}

/// An operand that an output names, where a map of an input has this place among the maps.
pub fn held_arg<'a>(
    known: &'a Known,
    now: &'a [StepMap],
    step: u32,
    input: u32,
    operand: Operand,
) -> Arg<'a>
    requires ordered { IsOrdered known.now }
    requires ascend { AscendFrom 0 now.now }
    ensures { (place : ℕ) → arg_cell result place ≡ held_cell known.now now.now step input operand place }
{
    match operand {
        Operand::Unused => Arg::Unused,
        Operand::Literal(_, cell) => Arg::One(cell),
        Operand::Time => Arg::One(step_number(step)),
        Operand::Input(_) => match known.maps.get(input as usize) {
            Some(map) => Arg::Cells(map.cells()),
            None => Arg::Unused,
        },
        Operand::Stack(n) => Arg::Cells(kept_cells(known.stacks.as_slice(), n)),
        Operand::Initial(n) => Arg::Cells(kept_cells(known.initial.as_slice(), n)),
        Operand::Now(n) => Arg::Cells(kept_cells(now, n)),
        Operand::Last { dynamic, initial } => {
            Arg::Cells(last_cells(known, step, dynamic, initial))
        }
        Operand::Drain(n) => Arg::Cells(drain_cells(known.drains.as_slice(), n)),
    }
}
