//! Operations along drain directions: transports over whole maps by one walk in drain order, masks, and one step up or down
//! stream over rectangles.
//!
//! Maps are lists of cells in row-major order.
#![tactic(auto)]

mod down;
mod flow;
mod judge;
mod mask;
mod near;
mod operand;
mod size;
mod up;

pub use flow::flow_whole;
pub use mask::mask_drain;
pub use near::near_part;
