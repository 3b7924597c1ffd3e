//! What holds of all scripts and their programs.

ghost use Rattle.script_tasks.specs.Laws.{LoweringKeepsTheTasks};

/// The program that a script is lowered to has as many tasks as the script, for all tilings and blocks.
#[tactic(auto, using(crate::proofs::CountLemmas::same_tasks))]
pub fn lowered_programs_have_the_tasks_of_their_scripts()
    ensures { LoweringKeepsTheTasks }
{}
