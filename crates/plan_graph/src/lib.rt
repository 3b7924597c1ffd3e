//! A plan with its graph: what its tasks read, who reads them, and what leads in and out of them.
#![tactic(auto)]

mod borders;
mod build;
mod channels;
mod graph;
mod joined;
mod joints;
mod laws;
mod places;
mod transports;

pub use borders::Borders;
pub use build::build_graph;
pub use graph::PlanGraph;
pub use laws::{plans_are_sound, transports_have_their_drains};
