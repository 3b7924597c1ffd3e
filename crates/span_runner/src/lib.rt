//! A runner that has each span evaluated by tiles, and the boards on which that is done.
//!
//! How a board comes to its end is not its affair: it is made with a call that evaluates a span.
#![tactic(auto)]

mod board_of;
mod runner;
mod span_call;

pub use board_of::make_board;
pub use runner::SpanRunner;
pub use span_call::SpanCall;
