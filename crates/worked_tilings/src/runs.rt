//! What the tests share: a script over whole maps and by tiles, and the comparing. No helper has a clause, so that a test sees
//! few facts.

ghost use Rattle.std.specs.Prelude.{IfOk};
ghost use Rattle.span_runner.specs.SpanCalls.{GivesStage, MayBeAsked};

use crate::files::folder_of;
use flow_task::BaseKit;
use map_meaning::StageEnd;
use outside_io::MemFolder;
use plain_eval::PlainRunner;
use run_session::{SessionEnd, run_script};
use span_runner::{SpanCall, SpanRunner, make_board};
use std::alloc::{AllocError, Global};
use std::process::Abort;
use std::test::Fail;

/// Rows and columns of tiles: one cell; rows and columns of cells; some that the map is no multiple of; more than the map.
pub const SIDES: [[u32; 2]; 6] = [[1, 1], [1, 3], [3, 1], [2, 2], [3, 4], [64, 4096]];

/// How a run came out: how many files it put and which was the last step; or its first place out of range, by the step, the
/// statement, the operation, the row and the column.
#[derive(Clone, Copy, Debug, PartialEq, Eq)]
pub enum Told {
    Done(u64, u32),
    Over([u32; 5]),
    Other,
}

/// The statements of a script, and how it comes out.
pub type Case = (&'static str, Told);

// What the end tells.
fn outcome(end: &SessionEnd) -> Told {
    match end {
        SessionEnd::Done { files, steps } => Told::Done(*files, *steps),
        SessionEnd::Overflow(at) => {
            Told::Over([at.step, at.statement, at.operation, at.row, at.col])
        }
        _ => Told::Other,
    }
}

// How the script comes out over whole maps.
fn whole(alloc: Global, folder: &mut MemFolder) -> Told {
    let mut runner = PlainRunner::new(BaseKit);
    outcome(&run_script(alloc, b"m.mod", folder, &mut runner))
}

// What a span gives whose board is driven by the caller alone.
fn alone(alloc: Global, rows: u32, cols: u32, call: SpanCall) -> Result<StageEnd, AllocError>
    requires { MayBeAsked rows cols 1 call }
    ensures { IfOk result (GivesStage call) }
{
    let mut board = make_board(alloc, BaseKit, call, rows, cols, 1, 1)?;
    board.drive_alone(alloc)?;
    board.collect(alloc)
}

// How the script comes out by tiles of this size.
fn tiled(alloc: Global, [rows, cols]: [u32; 2], folder: &mut MemFolder) -> Told {
    let rows = rows.clamp(1, 4096);
    let cols = cols.clamp(1, 4096);
    let call = move |call: SpanCall| -> Result<StageEnd, AllocError>
        requires { MayBeAsked rows cols 1 call }
        ensures { IfOk result (GivesStage call) }
    { alone(alloc, rows, cols, call) };
    let mut runner = SpanRunner::new(rows, cols, 1, call);
    outcome(&run_script(alloc, b"m.mod", folder, &mut runner))
}

// The same files were put, in the same order.
fn expect_same_puts(rt: &impl Abort, tiled: &MemFolder, whole: &MemFolder, case: &str) {
    assert_eq!(rt; tiled.put_count(), whole.put_count(), "puts of {case}");
    for i in 0..tiled.put_count() {
        if i < whole.put_count() {
            assert_eq!(rt; tiled.put_name(i), whole.put_name(i), "{case}");
            assert_eq!(rt; tiled.put_bytes(i), whole.put_bytes(i), "{case}");
        }
    }
}

// By tiles of each size the script comes out as it is to, with the files that it puts over whole maps.
fn expect_case(rt: &impl Abort, alloc: Global, first: &str, case: &Case) -> Result<(), Fail> {
    let (statements, expected) = *case;
    let mut maps = folder_of(alloc, first, statements)?;
    assert_eq!(rt; whole(alloc, &mut maps), expected, "{statements}");
    for sides in SIDES {
        let mut tiles = folder_of(alloc, first, statements)?;
        assert_eq!(rt;
            tiled(alloc, sides, &mut tiles),
            expected,
            "{statements} by {sides:?}"
        );
        expect_same_puts(rt, &tiles, &maps, statements);
    }
    Ok(())
}

/// So do all these scripts, behind this first line.
pub(crate) fn expect_cases(
    rt: &impl Abort,
    alloc: Global,
    first: &str,
    cases: &[Case],
) -> Result<(), Fail> {
    for case in cases {
        expect_case(rt, alloc, first, case)?;
    }
    Ok(())
}
