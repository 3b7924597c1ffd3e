//! What a transport over a tile begins with: for each cell of the tile the cells that it feeds there, from how many flow comes to
//! it, and whether it has a direction; and the border edges of the tile.

ghost use Rattle.std.specs.Prelude.{◌≡◌, ◌+◌, ◌*◌, ◌<◌, ◌++◌, ◌∷◌, [], ℕ, ◌≤◌, EachIndex, IfOk, OnOk, false, length, map, replicate, slice_index, true, vec_capacity};
ghost use Rattle.border_channel.specs.Edges.{HasSizeOf};
ghost use Rattle.drain_meaning.specs.Sound.{IsDrain};
ghost use Rattle.flow_task.specs.inside.Begins.{CanLink, coded_first, edge_end, fed_in_tile, is_coded, lies_in_tile, missing_first, none_missing, over_cells, tile_link, tile_numbers, turned_round};
ghost use Rattle.text_base.specs.Limits.{most_cells};
ghost use Rattle.tile_map.specs.Rects.{HoldsPlace, IsInMap, cell_count, number_in};
ghost use Rattle.tile_map.specs.Tiles.{rect_of, tile_count};

use crate::fed::FedCells;
use crate::link::Link;
use border_channel::{Edge, Message, push_fed};
use cell_values::Cell;
use drain_meaning::{Drain, FlowRule, Orient};
use std::alloc::{AllocError, Global};
use tile_cuts::place;
use tile_map::{Rect, Tiling};

// The number of a place in a rectangle that holds it.
#[tactic(auto, unfolding(tile_map::specs::Rects::number_in))]
fn cell_of(tiling: &Tiling, rect: Rect, place: u32) -> u32
    requires rect { IsInMap tiling.now.rows tiling.now.cols rect }
    requires holds { HoldsPlace tiling.now.cols rect place }
    ensures { result ≡ number_in tiling.now.cols rect place }
{
    (place / tiling.cols - rect.top) * rect.cols + (place % tiling.cols - rect.left)
}

// How many cells a rectangle has.
fn count_of(tiling: &Tiling, rect: Rect) -> u32
    requires { IsInMap tiling.now.rows tiling.now.cols rect }
    ensures value { result ≡ cell_count rect }
    ensures few { result ≤ most_cells }
{
    let _ = tiling;
    rect.rows * rect.cols
}

// Whether a tile of this rectangle has a place.
fn holds(tiling: &Tiling, tile: u32, rect: Rect, place: u32) -> bool
    requires tile { tile < tile_count tiling.now }
    requires rect { rect ≡ rect_of tiling.now tile }
    requires inside { IsInMap tiling.now.rows tiling.now.cols rect }
    requires place { place < tiling.now.rows * tiling.now.cols }
    ensures { result ≡ lies_in_tile tiling.now tile place }
{
    let row = place / tiling.cols;
    let col = place % tiling.cols;
    if row < rect.top {
        return false;
    }
    if col < rect.left {
        return false;
    }
    if row - rect.top >= rect.rows {
        return false;
    }
    if col - rect.left >= rect.cols {
        return false;
    }
    true
}

// Appends the numbers of those of some places that lie in the tile.
fn push_numbers(
    tiling: &Tiling,
    tile: u32,
    rect: Rect,
    places: &[u32],
    numbers: &mut Vec<u32>,
) -> Result<(), AllocError>
    requires tile { tile < tile_count tiling.now }
    requires rect { rect ≡ rect_of tiling.now tile }
    requires inside { IsInMap tiling.now.rows tiling.now.cols rect }
    requires places { EachIndex places.now (λ k. slice_index places.now k < tiling.now.rows * tiling.now.cols) }
    ensures { OnOk result (numbers.new.items ≡ numbers.old.items ++ tile_numbers tiling.now tile places.now) }
{
    for place in places {
        if holds(tiling, tile, rect, *place) {
            numbers.push(cell_of(tiling, rect, *place))?;
        }
    }
    Ok(())
}

// Appends the cells of the tile that one of its cells feeds, by their numbers.
fn push_fed_cells(
    drain: &Drain,
    tiling: &Tiling,
    tile: u32,
    rect: Rect,
    orient: Orient,
    cell: u32,
    places: &mut Vec<u32>,
    cells: &mut Vec<u32>,
) -> Result<(), AllocError>
    requires size { HasSizeOf drain.now tiling.now }
    requires drain { IsDrain drain.now }
    requires tile { tile < tile_count tiling.now }
    requires rect { rect ≡ rect_of tiling.now tile }
    requires inside { IsInMap tiling.now.rows tiling.now.cols rect }
    requires cell { cell < cell_count rect }
    ensures { OnOk result (cells.new.items ≡ cells.old.items ++ fed_in_tile orient drain.now tiling.now tile cell) }
{
    places.clear();
    push_fed(drain, tiling, orient, place(tiling, rect, cell), places)?;
    push_numbers(tiling, tile, rect, places, cells)
}

// For each cell of the tile the cells that it feeds there, by their numbers. These are no more than the tile's cells: in one
// orientation a cell feeds one at most, in the other it is fed by one at most.
pub(crate) fn fed_lists(
    alloc: Global,
    drain: &Drain,
    tiling: &Tiling,
    tile: u32,
    rect: Rect,
    orient: Orient,
) -> Result<FedCells, AllocError>
    requires size { HasSizeOf drain.now tiling.now }
    requires drain { IsDrain drain.now }
    requires tile { tile < tile_count tiling.now }
    requires rect { rect ≡ rect_of tiling.now tile }
    requires inside { IsInMap tiling.now.rows tiling.now.cols rect }
    ensures { IfOk result (λ fed. fed ≡ over_cells (fed_in_tile orient drain.now tiling.now tile) (cell_count rect)) }
{
    let count = count_of(tiling, rect);
    let mut ends = Vec::with_capacity(alloc, count as usize)?;
    let mut cells = Vec::with_capacity(alloc, count as usize)?;
    let mut places = Vec::new(alloc);
    for cell in 0..count {
        push_fed_cells(
            drain,
            tiling,
            tile,
            rect,
            orient,
            cell,
            &mut places,
            &mut cells,
        )?;
        ends.push(cells.len() as u32)?;
    }
    Ok(FedCells::of(ends, cells))
}

// The orientation in which what feeds and what is fed change places.
fn turned_round(orient: Orient) -> Orient
    ensures { result ≡ turned_round orient }
{
    match orient {
        Orient::Down => Orient::Up,
        Orient::Up => Orient::Down,
    }
}

// From how many cells flow comes to each cell of the tile.
pub(crate) fn missing_counts(
    alloc: Global,
    drain: &Drain,
    tiling: &Tiling,
    tile: u32,
    rect: Rect,
    orient: Orient,
) -> Result<Vec<u8>, AllocError>
    requires size { HasSizeOf drain.now tiling.now }
    requires drain { IsDrain drain.now }
    requires tile { tile < tile_count tiling.now }
    requires rect { rect ≡ rect_of tiling.now tile }
    requires inside { IsInMap tiling.now.rows tiling.now.cols rect }
    ensures { IfOk result (λ missing. missing.items ≡ over_cells (missing_first orient drain.now tiling.now tile) (cell_count rect)) }
{
    let count = count_of(tiling, rect);
    let mut missing = Vec::with_capacity(alloc, count as usize)?;
    let mut feeders = Vec::new(alloc);
    for cell in 0..count {
        feeders.clear();
        push_fed(
            drain,
            tiling,
            turned_round(orient),
            place(tiling, rect, cell),
            &mut feeders,
        )?;
        missing.push(feeders.len() as u8)?;
    }
    Ok(missing)
}

// Whether a cell has a code.
fn is_coded(code: Cell) -> bool
    ensures { result ≡ is_coded code }
{
    match code {
        Cell::Mv => false,
        Cell::Val(_) => true,
    }
}

// Whether each cell of the tile has a direction.
pub(crate) fn directed_cells(
    alloc: Global,
    codes: &[Cell],
    tiling: &Tiling,
    tile: u32,
    rect: Rect,
) -> Result<Vec<bool>, AllocError>
    requires codes { length codes.now ≡ tiling.now.rows * tiling.now.cols }
    requires tile { tile < tile_count tiling.now }
    requires rect { rect ≡ rect_of tiling.now tile }
    requires inside { IsInMap tiling.now.rows tiling.now.cols rect }
    ensures { IfOk result (λ directed. directed.items ≡ over_cells (coded_first codes.now tiling.now tile) (cell_count rect)) }
{
    let count = count_of(tiling, rect);
    let mut directed = Vec::with_capacity(alloc, count as usize)?;
    for cell in 0..count {
        let at = place(tiling, rect, cell) as usize;
        directed.push(is_coded(codes[at]))?;
    }
    Ok(directed)
}

// The cells to which nothing is to come, with room for all.
pub(crate) fn first_queue(alloc: Global, missing: &[u8]) -> Result<Vec<u32>, AllocError>
    requires { length missing.now ≤ 4294967295 }
    ensures items { IfOk result (λ queue. queue.items ≡ none_missing missing.now) }
    ensures room { IfOk result (λ queue. length missing.now ≤ vec_capacity queue) }
{
    let mut queue = Vec::with_capacity(alloc, missing.len())?;
    for cell in 0..missing.len() {
        if missing[cell] == 0 {
            queue.push(cell as u32)?;
        }
    }
    Ok(queue)
}

// The end of an edge that lies in the tile.
fn end_of(edge: Edge, inward: bool) -> u32
    ensures { result ≡ edge_end inward edge }
{
    if inward { edge.target } else { edge.source }
}

// The links of some edges into the tile, or out of it.
pub(crate) fn tile_links(
    alloc: Global,
    tiling: &Tiling,
    tile: u32,
    rect: Rect,
    edges: &[Edge],
    numbers: &[u32],
    inward: bool,
) -> Result<Vec<Link>, AllocError>
    requires tile { tile < tile_count tiling.now }
    requires rect { rect ≡ rect_of tiling.now tile }
    requires inside { IsInMap tiling.now.rows tiling.now.cols rect }
    requires can { EachIndex numbers.now (λ k. CanLink tiling.now tile edges.now inward (slice_index numbers.now k)) }
    ensures { IfOk result (λ links. links.items ≡ map (tile_link tiling.now tile edges.now inward) numbers.now) }
{
    let mut links = Vec::with_capacity(alloc, numbers.len())?;
    for number in numbers {
        let place = end_of(edges[*number as usize], inward);
        let link = Link {
            edge: *number,
            cell: cell_of(tiling, rect, place),
        };
        links.push(link)?;
    }
    Ok(links)
}

// Nothing has come to any of so many cells.
fn no_inflows<R: FlowRule>(alloc: Global, rule: &R, count: usize) -> Result<Vec<R::Acc>, AllocError>
    ensures { IfOk result (λ inflows. inflows.items ≡ over_cells (λ _. (R.rule rule.now).none) count) }
{
    let mut inflows = Vec::with_capacity(alloc, count)?;
    for _ in 0..count {
        inflows.push(rule.zero())?;
    }
    Ok(inflows)
}

// The cells of a tile to which nothing has come yet.
#[derive(Drop)]
pub(crate) struct FirstCells<A> {
    pub fed: FedCells,
    pub directed: Vec<bool>,
    pub missing: Vec<u8>,
    pub queue: Vec<u32>,
    pub inflows: Vec<A>,
}

// The cells of the tile.
pub(crate) fn first_cells<R: FlowRule>(
    alloc: Global,
    rule: &R,
    drain: &Drain,
    tiling: &Tiling,
    tile: u32,
    rect: Rect,
) -> Result<FirstCells<R::Acc>, AllocError>
    requires size { HasSizeOf drain.now tiling.now }
    requires tile { tile < tile_count tiling.now }
    requires rect { rect ≡ rect_of tiling.now tile }
    requires inside { IsInMap tiling.now.rows tiling.now.cols rect }
    ensures drain { IsDrain drain.now }
    ensures fed { IfOk result (λ c. c.fed ≡ over_cells (fed_in_tile (R.transport rule.now).orient drain.now tiling.now tile) (cell_count rect)) }
    ensures directed { IfOk result (λ c. c.directed.items ≡ over_cells (coded_first drain.now.codes tiling.now tile) (cell_count rect)) }
    ensures missing { IfOk result (λ c. c.missing.items ≡ over_cells (missing_first (R.transport rule.now).orient drain.now tiling.now tile) (cell_count rect)) }
    ensures queue { IfOk result (λ c. c.queue.items ≡ none_missing c.missing.items) }
    ensures room { IfOk result (λ c. cell_count rect ≤ vec_capacity c.queue) }
    ensures inflows { IfOk result (λ c. c.inflows.items ≡ over_cells (λ _. (R.rule rule.now).none) (cell_count rect)) }
{
    let cells = drain.cells();
    let orient = rule.orient();
    let count = count_of(tiling, rect) as usize;
    let fed = fed_lists(alloc, drain, tiling, tile, rect, orient)?;
    let directed = directed_cells(alloc, cells, tiling, tile, rect)?;
    let missing = missing_counts(alloc, drain, tiling, tile, rect, orient)?;
    let queue = first_queue(alloc, &missing)?;
    let inflows = no_inflows(alloc, rule, count)?;
    Ok(FirstCells {
        fed,
        directed,
        missing,
        queue,
        inflows,
    })
}

// The border edges of a tile over which nothing has come or gone yet.
#[derive(Drop)]
pub(crate) struct FirstBorder {
    pub inbound: Vec<Link>,
    pub outbound: Vec<Link>,
    pub taken: Vec<Message>,
    pub unsent: Vec<bool>,
    pub sent: Vec<u32>,
}

// The border edges of the tile, by their numbers.
pub(crate) fn first_border(
    alloc: Global,
    tiling: &Tiling,
    tile: u32,
    rect: Rect,
    edges: &[Edge],
    into: &[u32],
    out: &[u32],
) -> Result<FirstBorder, AllocError>
    requires tile { tile < tile_count tiling.now }
    requires rect { rect ≡ rect_of tiling.now tile }
    requires inside { IsInMap tiling.now.rows tiling.now.cols rect }
    requires into { EachIndex into.now (λ k. CanLink tiling.now tile edges.now true (slice_index into.now k)) }
    requires out { EachIndex out.now (λ k. CanLink tiling.now tile edges.now false (slice_index out.now k)) }
    ensures inbound { IfOk result (λ b. b.inbound.items ≡ map (tile_link tiling.now tile edges.now true) into.now) }
    ensures outbound { IfOk result (λ b. b.outbound.items ≡ map (tile_link tiling.now tile edges.now false) out.now) }
    ensures taken { IfOk result (λ b. b.taken.items ≡ []) }
    ensures taken_room { IfOk result (λ b. length into.now ≤ vec_capacity b.taken) }
    ensures unsent { IfOk result (λ b. b.unsent.items ≡ replicate (length out.now) true) }
    ensures sent { IfOk result (λ b. b.sent.items ≡ []) }
    ensures sent_room { IfOk result (λ b. length out.now ≤ vec_capacity b.sent) }
{
    let inbound = tile_links(alloc, tiling, tile, rect, edges, into, true)?;
    let outbound = tile_links(alloc, tiling, tile, rect, edges, out, false)?;
    let taken = Vec::with_capacity(alloc, into.len())?;
    let unsent = vec![in alloc; true; out.len()]?;
    let sent = Vec::with_capacity(alloc, out.len())?;
    Ok(FirstBorder {
        inbound,
        outbound,
        taken,
        unsent,
        sent,
    })
}
