//! A board that asynchronous workers run, each in a thread of its own and in turns behind one turn cell.
#![tactic(auto)]

mod crew;
mod flow;
mod jobs;
mod run;
mod span;
mod threads;
mod turns;
mod worker;

pub use run::run_board;
pub use span::run_span;
