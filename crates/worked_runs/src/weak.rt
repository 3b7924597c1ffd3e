//! A runner that finds no memory.

ghost use Rattle.std.specs.Prelude.{None, ⊤};

use flow_task::BaseKit;
use map_meaning::{BlockRunner, Known, Program, Span, StageEnd};
use plain_eval::PlainRunner;
use std::alloc::{AllocError, Global};
use std::sync::Arc;

/// A runner that passes on to the plain one what it is asked, and then answers want of memory.
#[derive(Drop)]
pub struct WeakRunner {
    pub plain: PlainRunner<BaseKit>,
}

impl BlockRunner for WeakRunner {
    ghost ready = { λ _. ⊤ };

    ghost block_of = { λ _. 1 };

    ghost admits = { λ _ _ _ _. None };

    ghost asked = { λ _ _. ⊤ };

    fn admit(&self, program: &Program, rows: u32, cols: u32) -> Option<u64> {
        self.plain.admit(program, rows, cols)
    }

    fn block(&self) -> u32 {
        self.plain.block()
    }

    fn run(
        &mut self,
        alloc: Global,
        program: &Arc<Program>,
        span: Span,
        known: &Arc<Known>,
    ) -> Result<StageEnd, AllocError> {
        let _ = self.plain.run(alloc, program, span, known)?;
        Err(AllocError)
    }
}
