//! Transports by kits: which transports a runner knows, and how it computes them.
//!
//! A kit is a value without contents that names the rule of each transport that it knows. Runners take a kit as a type
//! parameter, so a kit that knows more transports changes nothing in them.
#![tactic(auto)]

mod about;
mod base;
mod begin;
mod due;
mod fed;
mod kit;
mod link;
mod packed;
mod settle;
mod state;
mod work;

pub use base::{BaseKit, BaseWork};
pub use kit::FlowKit;
pub use work::FlowWork;
