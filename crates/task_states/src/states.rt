//! Where each task stands, and which can be claimed.

ghost use Rattle.std.specs.Prelude.{◌≡◌, ◌≢◌, ℕ, ◌+◌, ◌<◌, ◌≤◌, [], ◌∷◌, length, Option, Some, None, MatchOption, IfSome, IfOk, vec_len, vec_capacity, true, false, slice_index, not, ◌^◌};
ghost use Rattle.core_model.specs.Graphs.{Graph, Each, IsSoundGraph};
ghost use Rattle.core_model.specs.Cores.{Core, opening, held};
ghost use Rattle.core_model.specs.Steps.{HoldsNone, Claimable, NoneWaits, effect, sent_on, taken_in};
ghost use Rattle.core_model.specs.Runs.{BegunHaveNeeds};
ghost use Rattle.core_model.specs.declared.step.Step.TheVariants.{Claim, Publish, Park, PutDown};
ghost use Rattle.task_states.specs.declared.states.TaskState.TheVariants.{Ready};
ghost use Rattle.task_states.specs.States.{CountsNeeds, Reflects, ReadsIt, state_at, due};
ghost use Rattle.number_lists.specs.Turned.{times};

use crate::fresh::{claimable_first, filled};
use std::alloc::{AllocError, Global};

/// Where a task stands. One that is due is parked, and a message waits for it.
#[derive(Clone, Copy)]
pub enum TaskState {
    Ready,
    Held { worker: u32 },
    Parked,
    Due,
    Published,
}

/// By task, its state and how many of its needs are unpublished; the tasks that can be claimed; by worker, the task that it
/// holds, and whether it has put one down.
#[derive(Drop)]
pub struct TaskStates {
    pub states: Vec<TaskState>,
    pub unmet: Vec<u32>,
    pub claimable: Vec<u32>,
    pub holding: Vec<Option<u32>>,
    pub put_downs: Vec<bool>,
}

// Each reader lacks one need less. Who then lacks none can be claimed.
fn release(states: &[TaskState], unmet: &mut [u32], claimable: &mut Vec<u32>, readers: &[u32])
    requires all { length states.now ≡ length unmet.old }
    requires ready { Each (λ r. (r < length unmet.old) × (state_at states.now r ≡ Ready)) readers.now }
    requires owed { (r : ℕ) → times r readers.now ≤ slice_index unmet.old r }
    requires due { (t : ℕ) → t < length unmet.old → times t claimable.old.items ≡ due (state_at states.now t) (slice_index unmet.old t) }
    requires within { Each (λ t. t < length unmet.old) claimable.old.items }
    requires room { length unmet.old ≤ vec_capacity claimable.old }
    ensures unmet { (r : ℕ) → slice_index unmet.new r + times r readers.now ≡ slice_index unmet.old r }
    ensures due { (t : ℕ) → t < length unmet.old → times t claimable.new.items ≡ due (state_at states.now t) (slice_index unmet.new t) }
    ensures within { Each (λ t. t < length unmet.old) claimable.new.items }
    ensures room { vec_capacity claimable.new ≡ vec_capacity claimable.old }
{
    let _ = states;
    for r in readers {
        let task = *r as usize;
        let left = unmet[task] - 1;
        unmet[task] = left;
        if left == 0 {
            claimable.push_reserved(*r);
        }
    }
}

impl TaskStates {
    /// What is kept of tasks before any step, given how many tasks each of them reads.
    pub fn make(alloc: Global, unmet: Vec<u32>, workers: u32) -> Result<TaskStates, AllocError>
        requires tasks { length unmet.items ≤ 2 ^ 32 }
        requires workers { workers ≤ 64 }
        ensures { IfOk result (λ m. (g : Graph) → CountsNeeds g unmet.items → Reflects g workers opening m) }
    {
        let tasks = unmet.len();
        let numbers = workers as usize + 1;
        let states = filled(alloc, tasks, TaskState::Ready)?;
        let claimable = claimable_first(alloc, unmet.as_slice())?;
        let holding = filled(alloc, numbers, None)?;
        let put_downs = filled(alloc, numbers, false)?;
        Ok(TaskStates {
            states,
            unmet,
            claimable,
            holding,
            put_downs,
        })
    }

    /// A task that can be claimed, if there is one.
    pub fn task_to_claim(&self) -> Option<u32>
        ensures { (g : Graph) (n : ℕ) (s : Core) → Reflects g n s self.now → MatchOption result (self.now.claimable.items ≡ []) (λ t. (t < g.tasks) × Claimable g s t) }
    {
        let count = self.claimable.len();
        if count == 0 {
            return None;
        }
        Some(self.claimable[count - 1])
    }

    /// A worker claims a task, if there is one.
    pub fn claim(&mut self, worker: u32) -> Option<u32>
        requires { (g : Graph) × (n : ℕ) × (s : Core) × Reflects g n s self.old × (worker ≤ n) }
        ensures { (g : Graph) (n : ℕ) (s : Core) → Reflects g n s self.old → worker ≤ n → HoldsNone g s worker → MatchOption result ((self.old.claimable.items ≡ []) × Reflects g n s self.new) (λ t. (t < g.tasks) × Claimable g s t × Reflects g n (effect g s (Claim worker t)) self.new) }
    {
        match self.claimable.pop() {
            None => None,
            Some(task) => {
                self.states[task as usize] = TaskState::Held { worker };
                self.holding[worker as usize] = Some(task);
                Some(task)
            }
        }
    }

    /// A worker publishes its task, which these tasks read.
    pub fn publish(&mut self, worker: u32, task: u32, readers: &[u32])
        requires { (g : Graph) × (n : ℕ) × (s : Core) × Reflects g n s self.old × BegunHaveNeeds g s × (worker ≤ n) × (task < g.tasks) × (s.status task ≡ held worker) × ReadsIt g task readers.now }
        ensures { (g : Graph) (n : ℕ) (s : Core) → Reflects g n s self.old → BegunHaveNeeds g s → worker ≤ n → task < g.tasks → s.status task ≡ held worker → ReadsIt g task readers.now → Reflects g n (effect g s (Publish worker task)) self.new }
    {
        self.states[task as usize] = TaskState::Published;
        self.holding[worker as usize] = None;
        release(
            self.states.as_slice(),
            self.unmet.as_mut_slice(),
            &mut self.claimable,
            readers,
        );
    }

    /// A worker puts its task down.
    pub fn put_down(&mut self, worker: u32, task: u32)
        requires { (g : Graph) × (n : ℕ) × (s : Core) × Reflects g n s self.old × (worker ≤ n) × (task < g.tasks) × (s.status task ≡ held worker) }
        ensures { (g : Graph) (n : ℕ) (s : Core) → Reflects g n s self.old → BegunHaveNeeds g s → worker ≤ n → task < g.tasks → s.status task ≡ held worker → Reflects g n (effect g s (PutDown worker task)) self.new }
    {
        self.states[task as usize] = TaskState::Ready;
        self.holding[worker as usize] = None;
        self.put_downs[worker as usize] = true;
        self.claimable.push_reserved(task);
    }

    /// A worker parks its task, for which no message waits.
    pub fn park(&mut self, worker: u32, task: u32)
        requires { (g : Graph) × (n : ℕ) × (s : Core) × Reflects g n s self.old × (worker ≤ n) × (task < g.tasks) }
        ensures { (g : Graph) (n : ℕ) (s : Core) → Reflects g n s self.old → worker ≤ n → task < g.tasks → s.status task ≡ held worker → NoneWaits g s task → Reflects g n (effect g s (Park worker task)) self.new }
    {
        self.states[task as usize] = TaskState::Parked;
        self.holding[worker as usize] = None;
    }

    /// A message was sent to the task.
    pub fn wake(&mut self, task: u32)
        requires { (g : Graph) × (n : ℕ) × (s : Core) × Reflects g n s self.old × (task < g.tasks) }
        ensures { (g : Graph) (n : ℕ) (s : Core) (e : ℕ) → Reflects g n s self.old → task < g.tasks → g.channel_of e < g.channels → g.into (g.channel_of e) ≡ task → Reflects g n (sent_on g s e) self.new }
    {
        let place = task as usize;
        if let TaskState::Parked = self.states[place] {
            self.states[place] = TaskState::Due;
            self.claimable.push_reserved(task);
        }
    }

    /// Whether the worker has put none down.
    pub fn can_put_down(&self, worker: u32) -> bool
        requires { (g : Graph) × (n : ℕ) × (s : Core) × Reflects g n s self.now × (worker ≤ n) }
        ensures { (g : Graph) (n : ℕ) (s : Core) → Reflects g n s self.now → worker ≤ n → s.has_put_down worker ≡ not result }
    {
        !self.put_downs[worker as usize]
    }

    /// A worker that holds a task, and that task, if there is one.
    pub fn holder(&self) -> Option<(u32, u32)>
        requires { length self.now.holding.items < 2 ^ 32 }
        ensures { (g : Graph) (n : ℕ) (s : Core) → Reflects g n s self.now → MatchOption result ((t w : ℕ) → t < g.tasks → s.status t ≢ held w) (λ h. (h.1 < g.tasks) × (s.status h.1 ≡ held h.0)) }
    {
        for (worker, held) in self.holding.iter().enumerate() {
            if let Some(task) = held {
                return Some((worker as u32, *task));
            }
        }
        None
    }
}
