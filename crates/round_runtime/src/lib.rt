//! A board that its caller runs in rounds: the tasks of a round are computed in threads, and then their steps are made.
#![tactic(auto)]

mod compute;
mod round;
mod run;
mod span;
mod steps;

pub use run::run_rounds;
pub use span::run_span;
