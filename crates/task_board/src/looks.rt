//! What can be done on a board, and whether anything is left.

ghost use Rattle.std.specs.Prelude.{◌≡◌, MatchBool, MatchOption};
ghost use Rattle.core_model.specs.Steps.{Enabled};
ghost use Rattle.plan_graph.specs.PlanGraphs.{graph_of};
ghost use Rattle.task_board.specs.Boards.{CanBePutDown, IsFinished, IsLegal, state_of};

use crate::board::Board;
use core_model::Step;
use flow_task::FlowKit;

impl<K: FlowKit> Board<K> {
    /// Whether all tasks are published.
    pub fn is_finished(&self) -> bool
        ensures finished { MatchBool result (IsFinished self.now) (IsFinished self.now → ⊥) }
        ensures legal { IsLegal self.now }
    {
        match self.states.task_to_claim() {
            Some(_) => false,
            None => match self.states.holder() {
                Some(_) => false,
                None => true,
            },
        }
    }

    /// An enabled step; None exactly where all tasks are published. What is left to do for a transport's task is known to its
    /// work, which its holder has, so such a task can but be put down.
    pub fn next_step(&self) -> Option<Step>
        requires { CanBePutDown self.now }
        ensures step { MatchOption result (IsFinished self.now) (λ x. Enabled (graph_of self.now.plan) (state_of self.now) self.now.workers x) }
        ensures legal { IsLegal self.now }
    {
        match self.states.holder() {
            Some((worker, task)) => {
                if self.plan.is_flow(task) {
                    Some(Step::PutDown { worker, task })
                } else {
                    Some(Step::Publish { worker, task })
                }
            }
            None => match self.states.task_to_claim() {
                Some(task) => Some(Step::Claim { worker: 0, task }),
                None => None,
            },
        }
    }
}
