//! What drain directions mean: where a code leads, the path of a cell, sound maps; transports along drain directions,
//! masks, and the values of cells up and down stream; and the rules by which a transport is computed, with their laws.
//!
//! Rows, columns and places are counted from 0, places in row-major order.
#![tactic(auto)]

mod accu;
mod drain;
mod end;
mod flow;
mod laws;
mod next;
mod op;
mod point;
mod rule;
mod sum;
mod threshold;

pub use accu::AccuRule;
pub use drain::Drain;
pub use end::{FlowEnd, drain_cell};
pub use flow::Flow;
pub use laws::{
    accumulations_keep_mass, accumulations_sum_over_paths, catchments_choose_on_paths,
    directions_stay_in_the_map, masked_maps_stay_sound, missing_directions_give_missing_values,
    paths_list_their_cells, the_first_unsound_place_is_found, thresholds_keep_or_let_pass,
    transports_meet_their_equation, worked_examples_come_out,
};
pub use next::{Next, next_cell};
pub use op::{FlowOp, NearOp, Orient};
pub use point::PointRule;
pub use rule::FlowRule;
pub use threshold::ThresholdRule;
