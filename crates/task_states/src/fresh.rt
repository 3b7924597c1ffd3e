//! Lists before any step.

ghost use Rattle.std.specs.Prelude.{◌≡◌, ℕ, ◌<◌, ◌≤◌, ◌^◌, length, IfOk, slice_index_or, slice_index, vec_capacity};
ghost use Rattle.core_model.specs.Graphs.{Each};
ghost use Rattle.number_lists.specs.Turned.{times};
ghost use Rattle.task_states.specs.States.{due};
ghost use Rattle.task_states.specs.declared.states.TaskState.TheVariants.{Ready};

use std::alloc::{AllocError, Global};

/// So many times this value.
pub fn filled<T: Copy>(alloc: Global, count: usize, value: T) -> Result<Vec<T>, AllocError>
    ensures all { IfOk result (λ v. length v.items ≡ count) }
    ensures each { IfOk result (λ v. (k : ℕ) → slice_index_or v.items k value ≡ value) }
{
    let mut list = Vec::with_capacity(alloc, count)?;
    for _ in 0..count {
        list.push(value)?;
    }
    Ok(list)
}

/// The tasks that can be claimed before any step, given how many tasks each of them reads: the lowest comes last, so that it
/// is claimed first.
pub fn claimable_first(alloc: Global, unmet: &[u32]) -> Result<Vec<u32>, AllocError>
    requires { length unmet.now ≤ 2 ^ 32 }
    ensures within { IfOk result (λ v. Each (λ t. t < length unmet.now) v.items) }
    ensures due { IfOk result (λ v. (t : ℕ) → t < length unmet.now → times t v.items ≡ due Ready (slice_index unmet.now t)) }
    ensures room { IfOk result (λ v. length unmet.now ≤ vec_capacity v) }
{
    let count = unmet.len();
    let mut claimable = Vec::with_capacity(alloc, count)?;
    for back in 0..count {
        let task = count - 1 - back;
        if unmet[task] == 0 {
            claimable.push_reserved(task as u32);
        }
    }
    Ok(claimable)
}
