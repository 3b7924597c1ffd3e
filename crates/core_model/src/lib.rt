//! The core of a board of tasks: its state, its steps, and the laws over every run of them.
#![tactic(auto)]

mod laws;
mod step;

pub use laws::{
    bounded, held_stays, holds_one, left_by_others, never_stuck, once, puts_down_once, right,
    settled_least,
};
pub use step::Step;
