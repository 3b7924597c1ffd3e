//! What a finished board hands out.

ghost use Rattle.std.specs.Prelude.{◌≡◌, ◌<◌, ◌≤◌, ◌+◌, ◌++◌, IfOk, IfSome, List, OnOk, length, true};
ghost use Rattle.map_meaning.specs.Maps.{WholeMap};
ghost use Rattle.map_meaning.specs.Limits.{most_block};
ghost use Rattle.map_meaning.specs.Spans.{IsSpan, first_operation, kept_maps, span_operations, stage_of};
ghost use Rattle.tile_map.specs.Tiles.{tile_count};
ghost use Rattle.task_graph.specs.Classes.{before_value, op_class, tasks_for};
ghost use Rattle.task_graph.specs.Counts.{tasks_of};
ghost use Rattle.task_board.specs.Boards.{IsFinished};
ghost use Rattle.task_board.specs.inside.Collected.{AreTilesOfMap, HaveTiles, first_maps, held_cells, span_begin, step_count, steps_told, with_kept_map};
ghost use Rattle.task_board.specs.inside.Held.{tile_for};

use crate::board::Board;
use cell_values::{Cell, Cells};
use flow_task::FlowKit;
use map_meaning::{
    Map, Op, Operation, OverAt, Program, Span, StageEnd, StepMap, first_over_is_the_least_noted,
};
use sqlite_items::Items;
use std::alloc::{AllocError, Global};
use std::sync::Arc;
use task_graph::{Class, op_class};
use task_tiles::Tile;
use tile_map::{Rect, TileSource, Tiling};

// The tiles of a map, from the task of the first one on.
#[derive(Drop)]
struct MapTiles<'a> {
    tiles: &'a [Option<Arc<Tile>>],
    first: usize,
}

impl TileSource for MapTiles<'_> {
    ghost tiles = { λ s tile. held_cells (tile_for s.tiles.now (s.first + tile)) };

    ghost has = { λ s tile. s.first + tile < length s.tiles.now };

    fn tile(&self, tile: u32) -> &[Cell] {
        match &self.tiles[self.first + tile as usize] {
            Some(tile) => match &**tile {
                Tile::Part(part) => part.cells.as_slice(),
                Tile::Partial(_) => &[],
            },
            None => &[],
        }
    }
}

// The map whose tiles are those of the tasks from this one on.
fn whole_map(
    alloc: Global,
    tiling: &Tiling,
    tiles: &[Option<Arc<Tile>>],
    first: usize,
) -> Result<Map, AllocError>
    requires { (m : WholeMap) × AreTilesOfMap tiling.now tiles.now first m }
    ensures { IfOk result (λ map. (m : WholeMap) → AreTilesOfMap tiling.now tiles.now first m → map ≡ m) }
{
    let whole = Rect {
        top: 0,
        left: 0,
        rows: tiling.rows,
        cols: tiling.cols,
    };
    let cells = tiling.gather(alloc, &MapTiles { tiles, first }, whole)?;
    Map::new(alloc, Cells::from_vec(cells))
}

// How many tasks an operation has.
fn size(tiles: u32, op: Op) -> usize
    ensures { result ≡ tasks_for tiles (op_class op) }
{
    let tiles = tiles as usize;
    match op_class(op) {
        Class::Area => tiles + (1 + tiles),
        _ => tiles,
    }
}

// How many of them come before those of its value.
fn before(tiles: u32, op: Op) -> usize
    ensures { result ≡ before_value tiles (op_class op) }
{
    match op_class(op) {
        Class::Area => tiles as usize + 1,
        _ => 0,
    }
}

// Puts the map of an operation behind the others, where it is kept.
fn keep_map(
    alloc: Global,
    tiling: &Tiling,
    tiles: &[Option<Arc<Tile>>],
    step: u32,
    number: u32,
    operation: Operation,
    first: usize,
    into: &mut Items<StepMap>,
) -> Result<(), AllocError>
    requires { operation.kept ≡ true → (m : WholeMap) × AreTilesOfMap tiling.now tiles.now first m }
    ensures { OnOk result ((m : WholeMap) → (operation.kept ≡ true → AreTilesOfMap tiling.now tiles.now first m) → into.new ≡ with_kept_map step number operation m into.old) }
{
    if !operation.kept {
        return Ok(());
    }
    let cells = whole_map(alloc, tiling, tiles, first)?;
    into.push(StepMap {
        step,
        operation: number,
        cells,
    })
}

// Puts the kept maps of operations at a step, whose tasks begin at this one, behind the others. Gives the task behind theirs.
fn step_maps(
    alloc: Global,
    tiling: &Tiling,
    tiles: &[Option<Arc<Tile>>],
    operations: &[Operation],
    step: u32,
    number: u32,
    start: usize,
    into: &mut Items<StepMap>,
) -> Result<usize, AllocError>
    requires few { number + length operations.now < 4294967296 }
    requires tasks { start + tasks_of (tile_count tiling.now) operations.now < 2305843009213693952 }
    requires there { (maps : List WholeMap) × HaveTiles tiling.now tiles.now start number maps operations.now }
    ensures next { IfOk result (λ next. next ≡ start + tasks_of (tile_count tiling.now) operations.now) }
    ensures maps { OnOk result ((maps : List WholeMap) → HaveTiles tiling.now tiles.now start number maps operations.now → into.new ≡ into.old ++ kept_maps step maps number operations.now) }
{
    let count = tiling.count();
    let mut task = start;
    for (k, operation) in operations.iter().enumerate() {
        let first = task + before(count, operation.op);
        keep_map(
            alloc,
            tiling,
            tiles,
            step,
            number + k as u32,
            *operation,
            first,
            into,
        )?;
        task += size(count, operation.op);
    }
    Ok(task)
}

// The operations of a span, at each of its steps.
fn operations_of(program: &Program, span: Span) -> &[Operation]
    requires { IsSpan program.now span most_block }
    ensures { result.now ≡ span_operations program.now span }
{
    match span {
        Span::Initial { first, end } => &program.initial.as_slice()[first as usize..end as usize],
        Span::Steps { .. } => program.dynamic.as_slice(),
    }
}

// The number of a span's first operation.
fn first_number(span: Span) -> u32
    ensures { result ≡ first_operation span }
{
    match span {
        Span::Initial { first, .. } => first,
        Span::Steps { .. } => 0,
    }
}

// The first step of a span.
fn begin(span: Span) -> u32
    ensures { result ≡ span_begin span }
{
    match span {
        Span::Initial { .. } => 0,
        Span::Steps { first, .. } => first,
    }
}

// How many steps a span has before the one of an Over; all, where there is none.
fn steps_before(span: Span, over: Option<OverAt>) -> u32
    requires some { 1 ≤ step_count span }
    requires few { span_begin span + step_count span < 4294967296 }
    requires inside { IfSome over (λ at. span_begin span ≤ at.step) }
    ensures { result ≡ steps_told span over }
{
    match over {
        Some(at) => at.step - begin(span),
        None => match span {
            Span::Initial { .. } => 1,
            Span::Steps { first, last } => last + 1 - first,
        },
    }
}

impl<K: FlowKit> Board<K> {
    // The kept maps of the first so many steps.
    fn first_maps(&self, alloc: Global, steps: u32) -> Result<Items<StepMap>, AllocError>
        requires finished { IsFinished self.now }
        requires steps { steps ≤ step_count self.now.plan.span }
        ensures { IfOk result (λ maps. maps ≡ first_maps self.now.program self.now.plan.span self.now.known steps) }
    {
        let span = self.plan.span();
        let _tasks = self.plan.tasks();
        let operations = operations_of(&self.program, span);
        let mut task = 0;
        let mut maps = Items::new(alloc);
        for n in 0..steps {
            task = step_maps(
                alloc,
                self.plan.plan().tiling(),
                self.tiles.as_slice(),
                operations,
                begin(span) + n,
                first_number(span),
                task,
                &mut maps,
            )?;
        }
        Ok(maps)
    }

    /// The kept maps of a finished board's steps before the first Over, and that Over. Want of memory is its only refusal.
    pub fn collect(self, alloc: Global) -> Result<StageEnd, AllocError>
        requires { IsFinished self }
        ensures { IfOk result (λ end. end ≡ stage_of self.program self.plan.span self.known) }
    {
        first_over_is_the_least_noted();
        let over = self.over;
        let steps = steps_before(self.plan.span(), over);
        let maps = self.first_maps(alloc, steps)?;
        Ok(StageEnd { maps, over })
    }
}
