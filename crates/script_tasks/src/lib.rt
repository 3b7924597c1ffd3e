//! How many tasks a script has by tiles: of its statements, and of the program that it is lowered to.
#![tactic(auto)]

mod laws;

pub use laws::lowered_programs_have_the_tasks_of_their_scripts;
