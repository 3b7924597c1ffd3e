//! The tasks of a span and what each reads.
#![tactic(auto)]

mod admitted;
mod build;
mod class;
mod count;
mod flows;
mod laws;
mod lay;
mod layout;
mod needs;
mod plan;
mod task;

pub use admitted::too_many_tasks;
pub use class::{Class, op_class};
pub use count::{count_tasks, span_tasks};
pub use flows::FlowTasks;
pub use laws::{
    plans_have_the_tasks_of_their_spans, spans_fit_the_count, tasks_are_of_the_span,
    tasks_give_the_values, tasks_read_earlier_operations, tasks_read_lower_ones,
    tasks_stand_in_order,
};
pub use layout::{Laid, Layout};
pub use plan::{MOST_TASKS, Plan, PlanEnd, build_plan};
pub use task::{Task, Work};
