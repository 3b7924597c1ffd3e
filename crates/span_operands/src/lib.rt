//! What the operands of an operation are before a span makes its own maps, and what the operation computes: the part of an
//! evaluation that knows a program and what is known, and nothing of how maps are cut.
#![tactic(auto)]

mod arg;
mod computing;
mod drains;
mod inputs;
mod scope;
mod sheets;

pub use arg::{is_made, known_arg, span_start};
pub use computing::{kind_or_scalar, work};
pub use drains::drain_map;
pub use scope::{Scope, scope_of};
pub use sheets::{made, sheet};
