//! One value behind one turn word, shared by threads, with a history that every seat can rest on.
#![tactic(auto)]

mod cell;
mod chronicle;
mod rule;
mod view;

pub use cell::{TurnCell, TurnSeat};
pub use chronicle::{Chronicle, Job};
