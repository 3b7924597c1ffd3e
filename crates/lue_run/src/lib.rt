//! Running models: the top calls of the program, and what they promise.
//!
//! A call reads a script and its inputs from a folder and puts its outputs into it, or puts the files of a model that it
//! makes, and writes one line to a sink. Its
//! contract says which files are put, in which order, with which end, and why each answer comes.
#![tactic(auto)]

mod asked;
mod command;
mod ended;
mod exit_status;
mod kinds;
mod line;
mod make;
mod pieces;
mod plain;
mod script_line;
mod tiles;
mod top;

pub use ended::Ended;
pub use exit_status::status;
pub use top::{lue_main, lue_plain};
