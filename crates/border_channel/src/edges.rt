ghost use Rattle.std.specs.Prelude.{◌≡◌, ◌+◌, ◌*◌, ◌%◌, ◌<◌, ◌≤◌, ◌++◌, ◌∷◌, [], IfOk, OnOk, EachIndex, length, slice_index};
ghost use Rattle.border_channel.specs.Edges.{HasSizeOf, border_edges_of, crossing, edges_below};
ghost use Rattle.border_channel.specs.inside.Inside.{NoneBetween};
ghost use Rattle.drain_meaning.specs.Sound.{IsDrain};

use crate::edge::Edge;
use crate::fed::push_fed;
use drain_meaning::{Drain, Orient};
use std::alloc::{AllocError, Global};
use tile_map::Tiling;

// Appends the edge between two cells where they lie in different tiles.
fn push_edge(
    tiling: &Tiling,
    source: u32,
    target: u32,
    edges: &mut Vec<Edge>,
) -> Result<(), AllocError>
    requires source { source < tiling.now.rows * tiling.now.cols }
    requires target { target < tiling.now.rows * tiling.now.cols }
    ensures { OnOk result (edges.new.items ≡ edges.old.items ++ crossing tiling.now source (target ∷ [])) }
{
    if tiling.tile_of(source) != tiling.tile_of(target) {
        edges.push(Edge { source, target })?;
    }
    Ok(())
}

// Appends the edges from a cell to those of some others that lie in another tile.
fn push_edges(
    tiling: &Tiling,
    source: u32,
    targets: &[u32],
    edges: &mut Vec<Edge>,
) -> Result<(), AllocError>
    requires source { source < tiling.now.rows * tiling.now.cols }
    requires targets { EachIndex targets.now (λ k. slice_index targets.now k < tiling.now.rows * tiling.now.cols) }
    ensures { OnOk result (edges.new.items ≡ edges.old.items ++ crossing tiling.now source targets.now) }
{
    for target in targets {
        push_edge(tiling, source, *target, edges)?;
    }
    Ok(())
}

// Appends the border edges from one more cell; `fed` is for the cells that it feeds.
fn push_cell(
    drain: &Drain,
    tiling: &Tiling,
    orient: Orient,
    source: u32,
    fed: &mut Vec<u32>,
    edges: &mut Vec<Edge>,
) -> Result<(), AllocError>
    requires size { HasSizeOf drain.now tiling.now }
    requires drain { IsDrain drain.now }
    requires source { source < length drain.now.codes }
    requires before { edges.old.items ≡ edges_below drain.now tiling.now orient source }
    ensures { OnOk result (edges.new.items ≡ edges_below drain.now tiling.now orient (source + 1)) }
{
    fed.clear();
    push_fed(drain, tiling, orient, source, fed)?;
    push_edges(tiling, source, fed, edges)
}

// Appends the border edges from the cells of a whole row.
fn push_row(
    drain: &Drain,
    tiling: &Tiling,
    orient: Orient,
    row: u32,
    fed: &mut Vec<u32>,
    edges: &mut Vec<Edge>,
) -> Result<(), AllocError>
    requires size { HasSizeOf drain.now tiling.now }
    requires drain { IsDrain drain.now }
    requires row { row < tiling.now.rows }
    requires before { edges.old.items ≡ edges_below drain.now tiling.now orient (row * tiling.now.cols) }
    ensures { OnOk result (edges.new.items ≡ edges_below drain.now tiling.now orient ((row + 1) * tiling.now.cols)) }
{
    let start = row * tiling.cols;
    for col in 0..tiling.cols {
        push_cell(drain, tiling, orient, start + col, fed, edges)?;
    }
    Ok(())
}

// Appends the border edges from a stretch of cells, where the first and the last alone may have some.
fn push_ends(
    drain: &Drain,
    tiling: &Tiling,
    orient: Orient,
    from: u32,
    to: u32,
    fed: &mut Vec<u32>,
    edges: &mut Vec<Edge>,
) -> Result<(), AllocError>
    requires size { HasSizeOf drain.now tiling.now }
    requires drain { IsDrain drain.now }
    requires from { from < to }
    requires to { to ≤ length drain.now.codes }
    requires between { NoneBetween drain.now tiling.now orient from to }
    requires before { edges.old.items ≡ edges_below drain.now tiling.now orient from }
    ensures { OnOk result (edges.new.items ≡ edges_below drain.now tiling.now orient to) }
{
    push_cell(drain, tiling, orient, from, fed, edges)?;
    if from + 1 < to {
        push_cell(drain, tiling, orient, to - 1, fed, edges)?;
    }
    Ok(())
}

// Appends the border edges from the cells of a row whose neighbours above and below lie in the same tiles: from the first and
// the last cell of each tile.
fn push_sides(
    drain: &Drain,
    tiling: &Tiling,
    orient: Orient,
    row: u32,
    fed: &mut Vec<u32>,
    edges: &mut Vec<Edge>,
) -> Result<(), AllocError>
    requires size { HasSizeOf drain.now tiling.now }
    requires drain { IsDrain drain.now }
    requires row { row < tiling.now.rows }
    requires above { 0 < row % tiling.now.tile_rows }
    requires below { row % tiling.now.tile_rows + 1 < tiling.now.tile_rows }
    requires before { edges.old.items ≡ edges_below drain.now tiling.now orient (row * tiling.now.cols) }
    ensures { OnOk result (edges.new.items ≡ edges_below drain.now tiling.now orient ((row + 1) * tiling.now.cols)) }
{
    let start = row * tiling.cols;
    let mut left = 0;
    while left < tiling.cols {
        let right = tiling.cols.min(left + tiling.tile_cols);
        push_ends(
            drain,
            tiling,
            orient,
            start + left,
            start + right,
            fed,
            edges,
        )?;
        left = right;
    }
    Ok(())
}

/// All border edges of a drain map, by ascending source and then target: the number of an edge is its place in this list. Only
/// cells on the borders of tiles are looked at.
pub fn border_edges(
    alloc: Global,
    drain: &Drain,
    tiling: &Tiling,
    orient: Orient,
) -> Result<Vec<Edge>, AllocError>
    requires { HasSizeOf drain.now tiling.now }
    ensures { IfOk result (λ edges. edges.items ≡ border_edges_of drain.now tiling.now orient) }
{
    let mut edges = Vec::new(alloc);
    let mut fed = Vec::new(alloc);
    let places = drain.cells().len() as u32;
    for row in 0..places / tiling.cols {
        let within = row % tiling.tile_rows;
        if within == 0 || within + 1 == tiling.tile_rows {
            push_row(drain, tiling, orient, row, &mut fed, &mut edges)?;
        } else {
            push_sides(drain, tiling, orient, row, &mut fed, &mut edges)?;
        }
    }
    Ok(edges)
}
