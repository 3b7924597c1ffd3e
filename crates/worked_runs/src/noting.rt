//! A runner that notes what it is asked.

ghost use Rattle.std.specs.Prelude.{◌≡◌, length, ⊤, None};

use flow_task::BaseKit;
use map_meaning::{BlockRunner, Known, Program, Span, StageEnd};
use plain_eval::PlainRunner;
use std::alloc::{AllocError, Global};
use std::sync::Arc;

/// The span of a run: the operations of `initial` from a number up to, and without, another; or the first and the last step.
#[derive(Clone, Copy, Debug, PartialEq, Eq)]
pub enum Asked {
    Stage(u32, u32),
    Steps(u32, u32),
}

/// What a runner was asked: the span, the size, and how many maps of inputs, drain maps and grids of stacks are known.
#[derive(Clone, Copy, Debug, PartialEq, Eq)]
pub struct Note {
    pub asked: Asked,
    pub rows: u32,
    pub cols: u32,
    pub maps: usize,
    pub drains: usize,
    pub stacks: usize,
}

/// A runner that notes each run and passes it on to the plain one.
#[derive(Drop)]
pub struct NotingRunner {
    pub plain: PlainRunner<BaseKit>,
    pub notes: Vec<Note>,
}

// The span as it is noted.
fn asked_of(span: Span) -> Asked {
    match span {
        Span::Initial { first, end } => Asked::Stage(first, end),
        Span::Steps { first, last } => Asked::Steps(first, last),
    }
}

// What is asked with these known values.
fn note_of(span: Span, known: &Known) -> Note {
    Note {
        asked: asked_of(span),
        rows: known.rows,
        cols: known.cols,
        maps: known.maps.len(),
        drains: known.drains.len(),
        stacks: known.stacks.len(),
    }
}

impl BlockRunner for NotingRunner {
    ghost ready = { λ _. ⊤ };

    ghost block_of = { λ _. 1 };

    ghost admits = { λ _ _ _ _. None };

    ghost asked = { λ noting runs. length noting.notes.items ≡ length runs };

    fn admit(&self, program: &Program, rows: u32, cols: u32) -> Option<u64> {
        self.plain.admit(program, rows, cols)
    }

    fn block(&self) -> u32 {
        self.plain.block()
    }

    fn run(
        &mut self,
        alloc: Global,
        program: &Arc<Program>,
        span: Span,
        known: &Arc<Known>,
    ) -> Result<StageEnd, AllocError> {
        self.notes.push(note_of(span, known))?;
        self.plain.run(alloc, program, span, known)
    }
}
