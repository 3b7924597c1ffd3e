//! Where each task of a run stands, which can be claimed, and who holds what: what a board keeps of the state of the core, so
//! that each of its steps takes little time and no memory.
#![tactic(auto)]

mod fresh;
mod states;

pub use states::{TaskState, TaskStates};
