//! The run of a script: what is read, evaluated and put, in which order, and how it ends.
//!
//! `run_script` reads a script and its inputs from a folder, has a runner evaluate its sections step by step, and puts what
//! the statements report. Its contract says so over the script's tree, statement by statement, for any folder and any runner.
#![tactic(auto)]

mod drains;
mod ends;
mod evaluating;
mod files;
mod frame;
mod grids;
mod inputs;
mod kept;
mod known;
mod laws;
mod loading;
mod masks;
mod outputs;
mod reports;
mod samples;
mod script;
mod session;
mod stacks;
mod stages;
mod start;
mod step;
mod steps;
mod tables;
mod work;

pub use ends::{InputKind, ScriptFault, SessionEnd};
pub use laws::columns_are_the_positive_ids;
pub use session::run_script;
