//! What the tests share: a script over whole maps, and by tiles with workers or in rounds. Helpers that tests
//! call have no `ensures`, so that a test sees few facts.

ghost use Rattle.std.specs.Prelude.{◌<◌, ◌≤◌, IfOk};
ghost use Rattle.std.specs.Thread.{IsSend, IsSync};
ghost use Rattle.flow_task.specs.Kits.{KnowsAll};
ghost use Rattle.map_meaning.specs.Table.{is_transport};
ghost use Rattle.span_runner.specs.SpanCalls.{CanEvaluate, GivesStage, MayBeAsked};
ghost use Rattle.tile_map.specs.Limits.{longest_tile_side};

use flow_task::{BaseKit, FlowKit};
use map_meaning::StageEnd;
use outside_io::{Gate, MemFolder};
use plain_eval::PlainRunner;
use run_session::{SessionEnd, run_script};
use span_runner::{SpanCall, SpanRunner};
use std::alloc::{AllocError, Global};
use std::process::Abort;
use std::sync::Wait;
use std::thread::Threads;

/// The workers, each in its thread; or rounds.
#[derive(Clone, Copy, Debug)]
pub enum Way {
    Workers,
    Rounds,
}

/// Rows and columns of tiles, and how many workers there are.
#[derive(Clone, Copy)]
pub struct Tiles {
    rows: u32,
    cols: u32,
    workers: u32,
    ghost some_rows: { 0 < rows },
    ghost some_cols: { 0 < cols },
    ghost few_rows: { rows ≤ longest_tile_side },
    ghost few_cols: { cols ≤ longest_tile_side },
    ghost some_workers: { 1 ≤ workers },
    ghost few_workers: { workers ≤ 64 },
}

impl Tiles {
    /// These, within their limits.
    pub(crate) fn of(rows: u32, cols: u32, workers: u32) -> Tiles {
        Tiles {
            rows: rows.clamp(1, 4096),
            cols: cols.clamp(1, 4096),
            workers: workers.clamp(1, 64),
        }
    }
}

/// How a run came out: how many files it put, and which was the last step; its first place out of range, by the step, the statement,
/// the operation, the row and the column; want of memory; or something else.
#[derive(Clone, Copy, Debug, PartialEq, Eq)]
pub enum Told {
    Done(u64, u32),
    Over([u32; 5]),
    Memory,
    Other,
}

// What the end tells.
fn outcome(end: &SessionEnd) -> Told {
    match end {
        SessionEnd::Done { files, steps } => Told::Done(*files, *steps),
        SessionEnd::Overflow(at) => {
            Told::Over([at.step, at.statement, at.operation, at.row, at.col])
        }
        SessionEnd::Memory => Told::Memory,
        _ => Told::Other,
    }
}

/// How the script comes out over whole maps.
pub(crate) fn whole(alloc: Global, folder: &mut MemFolder) -> Told {
    let mut runner = PlainRunner::new(BaseKit);
    outcome(&run_script(alloc, b"m.mod", folder, &mut runner))
}

// How the script comes out where each span is evaluated by this call.
fn run_by<C: Fn(SpanCall) -> Result<StageEnd, AllocError> + Drop>(
    alloc: Global,
    tiles: Tiles,
    folder: &mut MemFolder,
    evaluate: C,
) -> Told
    requires { CanEvaluate (C.pre evaluate) (C.post evaluate) tiles.rows tiles.cols 1 }
{
    let mut runner = SpanRunner::new(tiles.rows, tiles.cols, 1, evaluate);
    outcome(&run_script(alloc, b"m.mod", folder, &mut runner))
}

// What a span gives by workers.
fn by_workers<K: FlowKit + Send + Sync, G: Gate + Sync, R: Threads + Wait + Sync>(
    rt: &R,
    alloc: Global,
    kit: K,
    gate: &G,
    tiles: Tiles,
    call: SpanCall,
) -> Result<StageEnd, AllocError>
where
    K::Work: Send,
    requires kit { KnowsAll is_transport (K.known kit) }
    requires call { MayBeAsked tiles.rows tiles.cols 1 call }
    ensures { IfOk result (GivesStage call) }
{
    tile_runtime::run_span(
        rt,
        alloc,
        kit,
        gate,
        call,
        tiles.rows,
        tiles.cols,
        1,
        tiles.workers,
    )
}

// How the script comes out by workers.
fn run_workers<K: FlowKit + Send + Sync, G: Gate + Sync, R: Threads + Wait + Sync>(
    rt: &R,
    alloc: Global,
    kit: K,
    gate: &G,
    tiles: Tiles,
    folder: &mut MemFolder,
) -> Told
where
    K::Work: Send,
    requires kit { KnowsAll is_transport (K.known kit) }
{
    let evaluate = move |call: SpanCall| -> Result<StageEnd, AllocError>
        requires { IsSync R.row × IsSync G.row × IsSend K.row × IsSync K.row × IsSend K.Work.row × KnowsAll is_transport (K.known kit) × MayBeAsked tiles.rows tiles.cols 1 call }
        ensures { IfOk result (GivesStage call) }
    { by_workers(rt, alloc, kit, gate, tiles, call) };
    run_by(alloc, tiles, folder, evaluate)
}

// What a span gives in rounds.
fn in_rounds<K: FlowKit + Send + Sync, G: Gate + Sync, R: Threads + Wait + Sync>(
    rt: &R,
    alloc: Global,
    kit: K,
    gate: &G,
    tiles: Tiles,
    call: SpanCall,
) -> Result<StageEnd, AllocError>
where
    K::Work: Send,
    requires kit { KnowsAll is_transport (K.known kit) }
    requires call { MayBeAsked tiles.rows tiles.cols 1 call }
    ensures { IfOk result (GivesStage call) }
{
    round_runtime::run_span(
        rt,
        alloc,
        kit,
        gate,
        call,
        tiles.rows,
        tiles.cols,
        1,
        tiles.workers,
    )
}

// How the script comes out by rounds.
fn run_in_rounds<K: FlowKit + Send + Sync, G: Gate + Sync, R: Threads + Wait + Sync>(
    rt: &R,
    alloc: Global,
    kit: K,
    gate: &G,
    tiles: Tiles,
    folder: &mut MemFolder,
) -> Told
where
    K::Work: Send,
    requires kit { KnowsAll is_transport (K.known kit) }
{
    let evaluate = move |call: SpanCall| -> Result<StageEnd, AllocError>
        requires { IsSync R.row × IsSync G.row × IsSend K.row × IsSync K.row × IsSend K.Work.row × KnowsAll is_transport (K.known kit) × MayBeAsked tiles.rows tiles.cols 1 call }
        ensures { IfOk result (GivesStage call) }
    { in_rounds(rt, alloc, kit, gate, tiles, call) };
    run_by(alloc, tiles, folder, evaluate)
}

/// How the script comes out in this way.
pub(crate) fn tiled<K: FlowKit + Send + Sync, G: Gate + Sync, R: Threads + Wait + Sync>(
    rt: &R,
    alloc: Global,
    way: Way,
    kit: K,
    gate: &G,
    tiles: Tiles,
    folder: &mut MemFolder,
) -> Told
where
    K::Work: Send,
    requires kit { KnowsAll is_transport (K.known kit) }
{
    match way {
        Way::Workers => run_workers(rt, alloc, kit, gate, tiles, folder),
        Way::Rounds => run_in_rounds(rt, alloc, kit, gate, tiles, folder),
    }
}

/// The file that was put first ends with these rows.
pub(crate) fn expect_rows(rt: &impl Abort, folder: &MemFolder, rows: &str, case: &str) {
    assert!(rt; folder.put_count() > 0, "{case}");
    if folder.put_count() > 0 {
        assert!(rt; folder.put_bytes(0).ends_with(rows.as_bytes()), "{case}");
    }
}

/// The same files were put, in the same order.
pub(crate) fn expect_same_puts(rt: &impl Abort, tiled: &MemFolder, whole: &MemFolder, case: &str) {
    assert_eq!(rt; tiled.put_count(), whole.put_count(), "puts of {case}");
    for i in 0..tiled.put_count() {
        if i < whole.put_count() {
            assert_eq!(rt; tiled.put_name(i), whole.put_name(i), "{case}");
            assert_eq!(rt; tiled.put_bytes(i), whole.put_bytes(i), "{case}");
        }
    }
}
