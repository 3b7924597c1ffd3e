//! What a script means: the roles of its names and the kinds of its expressions, its first fault of meaning, and the
//! program that has its value.
#![tactic(auto)]

mod bindings;
mod call;
mod drains;
mod emit;
mod end;
mod fault;
mod kept;
mod laws;
mod line;
mod lowering;
mod names;
mod operands;
mod program;
mod reports;
mod same;
mod scope;
mod section;
mod settle;
mod stacks;
mod table;
mod tables;
mod typed;
mod typing;

pub use end::LowerEnd;
pub use fault::{MeaningFault, MeaningKind, Place};
pub use laws::{
    a_kind_is_that_of_the_last_assignment_above, a_role_is_that_of_the_first_use,
    drain_maps_of_inputs_stand_first, the_first_fault_is_told,
};
pub use lowering::lower;
