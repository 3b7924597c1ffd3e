//! Laws of numbers and of drains that say what their definitions mean in other words, and worked examples. No crate stands on them,
//! so that a further law changes nothing below.
#![tactic(auto)]

mod laws;

pub use laws::{
    catchments_are_last_points, conversions_by_example, directions_are_reduced, quotients_are_cut,
    transports_below_zero_come_out,
};
