//! Lists of numbers, one after another in one piece of memory, and such lists turned round.
#![tactic(auto)]

mod laws;
mod lists;
mod turned;

pub use laws::turned_lists_have_their_holders;
pub use lists::Lists;
