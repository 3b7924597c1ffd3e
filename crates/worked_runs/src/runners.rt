//! Scripts that other runners run than the plain one.

use crate::faults::{FILES, SCRIPT};
use crate::files::{File, INPUTS, PUT_ELSEWHERE, THREE, THREE_PUTS, folder_with};
use crate::noting::{Asked, Note, NotingRunner};
use crate::runs::expect_puts;
use crate::weak::WeakRunner;
use flow_task::BaseKit;
use outside_io::MemFolder;
use plain_eval::PlainRunner;
use run_session::{SessionEnd, run_script};
use std::alloc::Global;
use std::process::Abort;
use std::sync::Wait;
use std::test::Fail;
use std::thread::Threads;

// The end of the script by a runner without memory.
fn weak_end(alloc: Global, folder: &mut MemFolder) -> Result<SessionEnd, Fail> {
    let mut runner = WeakRunner {
        plain: PlainRunner::new(BaseKit),
    };
    Ok(run_script(alloc, b"m.mod", folder, &mut runner))
}

#[test]
fn puts_nothing_where_the_runner_has_no_memory(rt: HostRuntime) -> Result<(), Fail> {
    let mut folder = folder_with(rt.alloc(), THREE, INPUTS, 0)?;
    let end = weak_end(rt.alloc(), &mut folder)?;
    assert!(rt; matches!(end, SessionEnd::Memory));
    expect_puts(&rt, rt.alloc(), &folder, PUT_ELSEWHERE, &[], "no memory")
}

// The end of the script by a runner that notes what it is asked, and its notes.
fn noted_end(alloc: Global, folder: &mut MemFolder) -> Result<(SessionEnd, Vec<Note>), Fail> {
    let mut runner = NotingRunner {
        plain: PlainRunner::new(BaseKit),
        notes: Vec::new(alloc),
    };
    let end = run_script(alloc, b"m.mod", folder, &mut runner);
    Ok((end, runner.notes))
}

#[test]
fn asks_its_runner_once(rt: HostRuntime) -> Result<(), Fail> {
    let mut folder = folder_with(rt.alloc(), THREE, INPUTS, 0)?;
    let (end, notes) = noted_end(rt.alloc(), &mut folder)?;
    assert!(rt; matches!(end, SessionEnd::Done { files: 3, steps: 0 }));
    let note = Note {
        asked: Asked::Stage(0, 7),
        rows: 1,
        cols: 3,
        maps: 3,
        drains: 0,
        stacks: 0,
    };
    assert_eq!(rt; notes.as_slice(), [note].as_slice());
    expect_puts(&rt, rt.alloc(), &folder, PUT_ELSEWHERE, THREE_PUTS, "noted")
}

#[test]
fn asks_no_runner_before_all_is_read(rt: HostRuntime) -> Result<(), Fail> {
    let mut folder = folder_with(rt.alloc(), THREE, INPUTS, 4)?;
    let (end, notes) = noted_end(rt.alloc(), &mut folder)?;
    assert!(rt; matches!(end, SessionEnd::FolderReadFault(_)));
    assert!(rt; notes.is_empty());
    expect_puts(&rt, rt.alloc(), &folder, PUT_ELSEWHERE, &[], "read fault")
}

// What the runner is asked for this span over one row of two cells.
fn span_note(asked: Asked, stacks: usize) -> Note {
    Note {
        asked,
        rows: 1,
        cols: 2,
        maps: 1,
        drains: 0,
        stacks,
    }
}

#[test]
fn asks_its_runner_for_each_step(rt: HostRuntime) -> Result<(), Fail> {
    let mut folder = folder_with(rt.alloc(), SCRIPT, FILES, 0)?;
    let (end, notes) = noted_end(rt.alloc(), &mut folder)?;
    assert!(rt; matches!(end, SessionEnd::Done { files: 7, steps: 2 }));
    let expected = [
        span_note(Asked::Stage(0, 1), 0),
        span_note(Asked::Steps(1, 1), 1),
        span_note(Asked::Steps(2, 2), 1),
    ];
    assert_eq!(rt; notes.as_slice(), expected.as_slice());
    Ok(())
}

/// The files of the scripts in stages: a row that drains to its last cell, and its cells.
static ROW: [File; 2] = [("l.asc", "6 6 6 5"), ("b.asc", "1 2 3 4")];

/// A script, and for each run that its runner is asked for the span and how many drain maps are known.
type Stages = (&'static str, &'static [(Asked, usize)]);

static STAGES: [Stages; 6] = [
    // two drain maps: a stage for each, with the operations of its mask, and one behind the last
    (
        "binding L = l.asc : ldd; B = b.asc; areamap L; initial Up = upstream(L, B); K = lddmask(L, Up < 2); \
            C = accuflux(K, 1); J = lddmask(K, C == 1 and Up > 0); report D = accuflux(J, B);",
        &[
            (Asked::Stage(0, 2), 1),
            (Asked::Stage(2, 6), 2),
            (Asked::Stage(6, 7), 3),
        ],
    ),
    // no section `initial`: a stage without operations before the steps
    (
        "binding L = l.asc : ldd; areamap L; timer 1 2 1; dynamic report Q = accuflux(L, time());",
        &[
            (Asked::Stage(0, 0), 1),
            (Asked::Steps(1, 1), 1),
            (Asked::Steps(2, 2), 1),
        ],
    ),
    // a drain map in the last statement, with a number for a mask
    (
        "binding L = l.asc : ldd; B = b.asc; areamap L; initial A = B; report K = lddmask(L, 1);",
        &[(Asked::Stage(0, 1), 1), (Asked::Stage(1, 1), 2)],
    ),
    // drain maps in the first statements, one of them a name alone and so there from the start, and steps that share them
    (
        "binding L = l.asc : ldd; B = b.asc; areamap B; timer 1 1 1; initial K = L; J = lddmask(K, B > 1); \
            dynamic report Q = accuflux(J, B) + upstream(K, B);",
        &[
            (Asked::Stage(0, 0), 2),
            (Asked::Stage(0, 1), 2),
            (Asked::Stage(1, 1), 3),
            (Asked::Steps(1, 1), 3),
        ],
    ),
    // a result out of range in the second of three stages: none is asked for behind it
    (
        "binding L = l.asc : ldd; B = b.asc; areamap L; initial K = lddmask(L, B > 1); A = B * 9000000000000; \
            J = lddmask(K, B > 2); C = A;",
        &[(Asked::Stage(0, 1), 1), (Asked::Stage(1, 3), 2)],
    ),
    // no drain map
    (
        "binding B = b.asc; areamap B; initial report C = windowtotal(B, 3) + maptotal(B);",
        &[(Asked::Stage(0, 3), 0)],
    ),
];

// The runner was asked for these spans.
fn expect_asked(rt: &(impl Abort + Threads + Wait + Sync), notes: &[Note], case: &Stages) {
    assert_eq!(rt; notes.len(), case.1.len(), "runs of {}", case.0);
    for (note, (asked, drains)) in notes.iter().zip(case.1) {
        assert_eq!(rt; note.asked, *asked, "in {}", case.0);
        assert_eq!(rt; note.drains, *drains, "known to {asked:?} in {}", case.0);
    }
}

#[test]
fn asks_its_runner_for_each_stage(rt: HostRuntime) -> Result<(), Fail> {
    for case in &STAGES {
        let mut folder = folder_with(rt.alloc(), case.0, &ROW, 0)?;
        let (_, notes) = noted_end(rt.alloc(), &mut folder)?;
        expect_asked(&rt, &notes, case);
    }
    Ok(())
}
