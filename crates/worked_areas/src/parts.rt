//! What an operation gives over areas, by the partial of a map, and by those of two parts of it.

ghost use Rattle.std.specs.Prelude.{◌≡◌, ◌+◌, ◌≤◌, length, IfOk};
ghost use Rattle.text_base.specs.Limits.{most_cells};

use area_ops::Partial;
use cell_values::Cell;
use cell_values::Cell::Val;
use region_meaning::AreaOp;
use std::alloc::Global;
use std::test::Fail;
use tile_map::{Arg, Part};

/// How many cells a map may have.
const MOST: usize = 4_194_304;

/// The classes of places, or none where the map is one area.
pub type Classes<'a> = Option<&'a [Cell]>;

// The partial of some places.
fn partial_of(
    alloc: Global,
    op: AreaOp,
    values: &[Cell],
    classes: Classes<'_>,
) -> Result<Partial, Fail>
    ensures op { IfOk result (λ partial. partial.op ≡ op) }
    ensures cells { IfOk result (λ partial. partial.cells ≡ length values.now) }
{
    let len = values.len();
    if len > MOST {
        Err("the map is too large")?
    }
    let taken = match op {
        AreaOp::Area => Arg::Unused,
        _ => Arg::Cells(values),
    };
    let partial = match classes {
        None => Partial::of(alloc, op, taken, Arg::One(Val(1)), len)?,
        Some(classes) => {
            if classes.len() != len {
                Err("there are not as many classes as values")?
            }
            Partial::of(alloc, op, taken, Arg::Cells(classes), len)?
        }
    };
    Ok(partial)
}

// What the partial gives at the places.
fn spread(
    alloc: Global,
    partial: &Partial,
    classes: Classes<'_>,
    len: usize,
) -> Result<Part, Fail> {
    if len > MOST {
        Err("the map is too large")?
    }
    match classes {
        None => Ok(partial.spread(alloc, Arg::One(Val(1)), len)?),
        Some(classes) => {
            if classes.len() != len {
                Err("there are not as many classes as values")?
            }
            Ok(partial.spread(alloc, Arg::Cells(classes), len)?)
        }
    }
}

/// What the partial of the whole map gives.
pub(crate) fn in_one(
    alloc: Global,
    op: AreaOp,
    values: &[Cell],
    classes: Classes<'_>,
) -> Result<Part, Fail> {
    let partial = partial_of(alloc, op, values, classes)?;
    spread(alloc, &partial, classes, values.len())
}

// The classes before a place and from there on.
fn split(classes: Classes<'_>, at: usize) -> Result<(Classes<'_>, Classes<'_>), Fail> {
    match classes {
        None => Ok((None, None)),
        Some(classes) => {
            if at > classes.len() {
                Err("the map ends before")?
            }
            Ok((Some(&classes[..at]), Some(&classes[at..])))
        }
    }
}

/// What two parts of the map give, the places before one and those from there on: the second one merged into the first, or
/// the first into the second.
pub(crate) fn in_two(
    alloc: Global,
    op: AreaOp,
    values: &[Cell],
    classes: Classes<'_>,
    at: usize,
    turned: bool,
) -> Result<Part, Fail> {
    if values.len() > MOST || at > values.len() {
        Err("the map ends before")?
    }
    let (before, behind) = split(classes, at)?;
    let mut first = partial_of(alloc, op, &values[..at], before)?;
    let mut second = partial_of(alloc, op, &values[at..], behind)?;
    if turned {
        second.merge(alloc, &first)?;
        spread(alloc, &second, classes, values.len())
    } else {
        first.merge(alloc, &second)?;
        spread(alloc, &first, classes, values.len())
    }
}
