ghost use Rattle.std.specs.Prelude.{None, ⊤};
ghost use Rattle.flow_task.specs.Kits.{KnowsAll};
ghost use Rattle.map_meaning.specs.Table.{is_transport};

use crate::stage::stage;
use flow_task::FlowKit;
use map_meaning::{BlockRunner, Known, Program, Span, StageEnd};
use std::alloc::{AllocError, Global};
use std::sync::Arc;

/// Evaluates the operations of a span one by one over whole maps, on one thread and without waiting. Its spans have at
/// most one step, and no program is too large for it. Transports are those of its kit.
#[derive(Drop)]
pub struct PlainRunner<K: FlowKit> {
    kit: K,
    ghost knows: { KnowsAll is_transport (K.known kit) },
}

impl<K: FlowKit> PlainRunner<K> {
    /// A plain runner with a kit that knows every transport that has a word. It keeps nothing between its runs.
    pub fn new(kit: K) -> PlainRunner<K>
        requires { KnowsAll is_transport (K.known kit) }
    {
        PlainRunner { kit }
    }
}

impl<K: FlowKit> BlockRunner for PlainRunner<K> {
    ghost ready = { λ _. ⊤ };

    ghost block_of = { λ _. 1 };

    ghost admits = { λ _ _ _ _. None };

    ghost asked = { λ _ _. ⊤ };

    fn admit(&self, _program: &Program, _rows: u32, _cols: u32) -> Option<u64> {
        None
    }

    fn block(&self) -> u32 {
        1
    }

    fn run(
        &mut self,
        alloc: Global,
        program: &Arc<Program>,
        span: Span,
        known: &Arc<Known>,
    ) -> Result<StageEnd, AllocError> {
        stage(alloc, self.kit, program, span, known)
    }
}
