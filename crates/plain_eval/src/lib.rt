//! The plain runner: it evaluates the operations of a program one by one over whole maps, on one thread.
//!
//! A map is held once, however many operations and outputs read it, and it is let go behind the last operation that reads
//! it. So there are never more maps than those that are kept, those that a later operation reads, and one result.
#![tactic(auto)]

mod along;
mod arg;
mod focal;
mod held;
mod laws;
mod local;
mod part;
mod readers;
mod runner;
mod site;
mod stage;
mod value;
mod zonal;

pub use laws::the_base_kit_knows_all_words;
pub use runner::PlainRunner;
