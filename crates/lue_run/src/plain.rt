ghost use Rattle.outside_io.specs.Met.{Meets};
ghost use Rattle.run_session.specs.Asked.{IfTooMany};
ghost use Rattle.run_session.specs.Ends.{session_outcome, why};
ghost use Rattle.lue_run.specs.Course.{plain_run};

use cell_values::Word;
use flow_task::BaseKit;
use outside_io::Folder;
use plain_eval::PlainRunner;
use run_session::{SessionEnd, run_script};
use std::alloc::Global;

/// Runs the script of this name over whole maps, on one thread.
pub fn run_plain<F: Folder>(alloc: Global, name: &Word, folder: &mut F) -> SessionEnd
    ensures meets { Meets why (plain_run name.now) (F.state folder.old) (F.state folder.new) (session_outcome result) }
    ensures few { IfTooMany result (λ _. ⊥) }
{
    run_script(alloc, name.bytes(), folder, &mut PlainRunner::new(BaseKit))
}
