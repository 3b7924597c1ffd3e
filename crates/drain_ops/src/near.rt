//! One step up or down stream, in a rectangle of a map.
//!
//! The cells around the rectangle are seen as a map of their own: neighbours of the rectangle's cells lie in it.

ghost use Rattle.std.specs.Prelude.{◌≡◌, ◌≤◌, ◌<◌, ◌+◌, IfOk, ℕ, length, List};
ghost use Rattle.text_base.specs.Limits.{most_cells};
ghost use Rattle.drain_meaning.specs.Drains.{next_at};
ghost use Rattle.cell_values.specs.declared.kind.Kind.TheVariants.{Scalar};
ghost use Rattle.drain_meaning.specs.Flows.{FlowFits, flow_outcome, material, together};
ghost use Rattle.drain_meaning.specs.Near.{downstream_of, near_flow, upstream_of};
ghost use Rattle.drain_meaning.specs.Transports.{where_directed};
ghost use Rattle.drain_ops.specs.Surroundings.{AreSomeSurroundings, IsNearPart};
ghost use Rattle.drain_ops.specs.inside.Cutout.{HasNumber, IsCutout, LiesWithin, cutout, fed, flow_or_nothing, flow_within, number_around};
ghost use Rattle.tile_map.specs.Cuts.{cell_at};
ghost use Rattle.tile_map.specs.Parts.{or_missing, or_over_at, part_of};
ghost use Rattle.tile_map.specs.Rects.{cell_count};

use crate::down::{no_inflows, receive};
use cell_values::{Cell, Cells, Kind, Over};
use drain_meaning::{AccuRule, Flow, NearOp, Next, drain_cell, next_cell};
use std::alloc::{AllocError, Global};
use tile_map::{Part, Rect};

// Where a cell drains to.
#[tactic(auto, unfolding(drain_meaning::specs::Drains::next_at))]
fn next_around(around: Rect, codes: &[Cell], cells: &[Cell], number: u32) -> Next
    requires cutout { IsCutout around codes.now cells.now }
    requires number { number < length codes.now }
    ensures { result ≡ next_at (cutout around codes.now) number }
{
    next_cell(around.rows, around.cols, number, codes[number as usize])
}

// A cell's number as a flow.
fn flow_of(cell: Cell) -> Flow
    ensures { result ≡ material cell }
{
    match cell {
        Cell::Mv => Flow::Mv,
        Cell::Val(number) => Flow::Num(i128::from(number)),
    }
}

// Adds the value of a cell to what has come to the one that it drains into.
fn pass_on(around: Rect, codes: &[Cell], cells: &[Cell], number: u32, flows: &mut [Flow])
    requires cutout { IsCutout around codes.now cells.now }
    requires number { number < length codes.now }
    requires many { length flows.old ≡ length codes.now }
    requires fit { (d : ℕ) → FlowFits (flow_or_nothing flows.old d) number }
    ensures many { length flows.new ≡ length flows.old }
    ensures came { (d : ℕ) → flow_or_nothing flows.new d ≡ together (flow_or_nothing flows.old d) (fed (cutout around codes.now) (cell_at cells.now) d number) }
    ensures fit { (d : ℕ) → FlowFits (flow_or_nothing flows.new d) (number + 1) }
{
    if let Next::Cell(down) = next_around(around, codes, cells, number) {
        receive(
            &AccuRule,
            flows,
            down as usize,
            flow_of(cells[number as usize]),
        );
    }
}

// What comes to each cell from those that drain into it.
fn upstream_flows(
    alloc: Global,
    around: Rect,
    codes: &[Cell],
    cells: &[Cell],
) -> Result<Vec<Flow>, AllocError>
    requires cutout { IsCutout around codes.now cells.now }
    ensures many { IfOk result (λ flows. length flows.items ≡ length codes.now) }
    ensures each { IfOk result (λ flows. (d : ℕ) → d < length codes.now → flow_or_nothing flows.items d ≡ upstream_of (cutout around codes.now) (cell_at cells.now) d) }
{
    let mut flows = no_inflows(alloc, &AccuRule, codes.len())?;
    for number in 0..codes.len() as u32 {
        pass_on(around, codes, cells, number, &mut flows);
    }
    Ok(flows)
}

// The value of the cell that a cell drains into; at a pit its own.
fn downstream_flow(around: Rect, codes: &[Cell], cells: &[Cell], number: u32) -> Flow
    requires cutout { IsCutout around codes.now cells.now }
    requires number { number < length codes.now }
    ensures { result ≡ downstream_of (cutout around codes.now) (cell_at cells.now) number }
{
    match next_around(around, codes, cells, number) {
        Next::Cell(down) => flow_of(cells[down as usize]),
        Next::Pit | Next::Outside | Next::Missing => flow_of(cells[number as usize]),
    }
}

// The value of the cell that each cell drains into; at a pit its own.
fn downstream_flows(
    alloc: Global,
    around: Rect,
    codes: &[Cell],
    cells: &[Cell],
) -> Result<Vec<Flow>, AllocError>
    requires cutout { IsCutout around codes.now cells.now }
    ensures many { IfOk result (λ flows. length flows.items ≡ length codes.now) }
    ensures each { IfOk result (λ flows. (d : ℕ) → d < length codes.now → flow_or_nothing flows.items d ≡ downstream_of (cutout around codes.now) (cell_at cells.now) d) }
{
    let mut flows = Vec::with_capacity(alloc, codes.len())?;
    for number in 0..codes.len() as u32 {
        flows.push(downstream_flow(around, codes, cells, number))?;
    }
    Ok(flows)
}

// What an operation comes to at each cell.
fn near_flows(
    alloc: Global,
    op: NearOp,
    around: Rect,
    codes: &[Cell],
    cells: &[Cell],
) -> Result<Vec<Flow>, AllocError>
    requires cutout { IsCutout around codes.now cells.now }
    ensures many { IfOk result (λ flows. length flows.items ≡ length codes.now) }
    ensures each { IfOk result (λ flows. (d : ℕ) → d < length codes.now → flow_or_nothing flows.items d ≡ near_flow op (cutout around codes.now) (cell_at cells.now) d) }
{
    match op {
        NearOp::Upstream => upstream_flows(alloc, around, codes, cells),
        NearOp::Downstream => downstream_flows(alloc, around, codes, cells),
    }
}

// The number of a cell of the inner rectangle in the one around it.
#[tactic(auto, unfolding(crate::specs::inside::Cutout::number_around))]
fn number_of(around: Rect, inner: Rect, count: usize, i: u32) -> u32
    requires top { around.top ≤ inner.top }
    requires left { around.left ≤ inner.left }
    requires few { count ≤ most_cells }
    requires number { HasNumber around inner count i }
    ensures value { result ≡ number_around around inner i }
    ensures below { result < count }
{
    (inner.top - around.top + i / inner.cols) * around.cols
        + (inner.left - around.left + i % inner.cols)
}

// The cell of a flow, missing where there is no direction.
fn outcome_of(next: Next, flow: Flow) -> Result<Cell, Over>
    ensures { result ≡ flow_outcome Scalar (where_directed next flow) }
{
    match next {
        Next::Missing => Ok(Cell::Mv),
        Next::Pit | Next::Outside | Next::Cell(_) => drain_cell(Kind::Scalar, flow),
    }
}

// The outcome at a cell of the inner rectangle.
fn outcome_at(
    around: Rect,
    codes: &[Cell],
    cells: &[Cell],
    flows: &[Flow],
    inner: Rect,
    i: u32,
) -> Result<Cell, Over>
    requires cutout { IsCutout around codes.now cells.now }
    requires many { length flows.now ≡ length codes.now }
    requires within { LiesWithin around inner (length codes.now) }
    requires number { i < cell_count inner }
    ensures { result ≡ flow_within around codes.now flows.now inner i }
{
    let number = number_of(around, inner, codes.len(), i);
    let next = next_around(around, codes, cells, number);
    outcome_of(next, flows[number as usize])
}

// The cell of an outcome, missing where it is out of range, and the first place out of range so far.
fn cell_and_first(outcome: Result<Cell, Over>, place: u32, over: Option<u32>) -> (Cell, Option<u32>)
    ensures cell { result.0 ≡ or_missing outcome }
    ensures over { result.1 ≡ or_over_at place outcome over }
{
    match (outcome, over) {
        (Ok(cell), None) => (cell, None),
        (Err(Over), None) => (Cell::Mv, Some(place)),
        (Ok(cell), Some(first)) => (cell, Some(first)),
        (Err(Over), Some(first)) => (Cell::Mv, Some(first)),
    }
}

// The part of the inner rectangle.
fn inner_part(
    alloc: Global,
    around: Rect,
    codes: &[Cell],
    cells: &[Cell],
    flows: &[Flow],
    inner: Rect,
) -> Result<Part, AllocError>
    requires cutout { IsCutout around codes.now cells.now }
    requires many { length flows.now ≡ length codes.now }
    requires within { LiesWithin around inner (length codes.now) }
    ensures { IfOk result (λ part. part ≡ part_of (flow_within around codes.now flows.now inner) (cell_count inner)) }
{
    let count = inner.rows * inner.cols;
    let mut results = Vec::with_capacity(alloc, count as usize)?;
    let mut over = None;
    for i in 0..count {
        let outcome = outcome_at(around, codes, cells, flows, inner, i);
        let (cell, first) = cell_and_first(outcome, i, over);
        results.push(cell)?;
        over = first;
    }
    Ok(Part {
        cells: Cells::from_vec(results),
        over,
    })
}

/// One step up or down stream in a rectangle of a map, `inner`: the sum over the cells that drain directly into a cell
/// (`upstream`), or the value of the cell that it drains into, at a pit its own (`downstream`), in the unit of the values.
/// `around` is `inner` grown by 1 on each side, as far as the map goes; `codes` and `cells` are those of a drain map, and of
/// scalars over it, in `around`, row by row. The cells of the part are those of `inner`.
pub fn near_part(
    alloc: Global,
    op: NearOp,
    codes: &[Cell],
    cells: &[Cell],
    around: Rect,
    inner: Rect,
) -> Result<Part, AllocError>
    requires { AreSomeSurroundings codes.now cells.now around inner }
    ensures { IfOk result (IsNearPart op codes.now cells.now around inner) }
{
    let flows = near_flows(alloc, op, around, codes, cells)?;
    inner_part(alloc, around, codes, cells, flows.as_slice(), inner)
}
