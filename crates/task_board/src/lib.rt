//! The board of tasks that the workers of a run share: each call is one step of the core.
#![tactic(auto)]

mod board;
mod calls;
mod channels;
mod collect;
mod drive;
mod flow_calls;
mod flow_drive;
mod fresh;
mod inputs;
mod jobs;
mod laws;
mod let_go;
mod looks;
mod noted;
mod tasks;
mod ticket;
mod unread;

pub use board::Board;
pub use jobs::{BoardPlan, ClaimTask, TakeOrPark};
pub use laws::good_tickets_stay_good;
pub use tasks::{task_tile, task_work};
pub use ticket::{Claim, Ticket, Waiting};
