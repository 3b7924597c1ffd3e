//! The work of one task: a tile of an operation's map, or a partial of it, from the tiles that the task reads and what is known.
#![tactic(auto)]

mod areas;
mod flow;
mod halo;
mod handed;
mod laws;
mod local;
mod own;
mod run;
mod zones;

pub use flow::begin_flow;
pub use laws::{messages_fit_loads, settled_works_give_their_tiles};
pub use run::run_task;
