ghost use Rattle.task_graph.specs.Counts.{FitTheCount};
ghost use Rattle.task_graph.specs.Plans.{AreOfTheSpan, CountTasks, GiveTheValues, ReadEarlier, ReadLower, StandInOrder};

/// A plan has as many tasks as its span.
pub fn plans_have_the_tasks_of_their_spans()
    ensures { CountTasks }
{}

/// The tasks of a plan ascend by step, operation, work and tile, so each stands in it once, and those of one operation stand
/// together.
pub fn tasks_stand_in_order()
    ensures { StandInOrder }
{}

/// Each task reads tasks with lower numbers alone.
pub fn tasks_read_lower_ones()
    ensures { ReadLower }
{}

/// What a task reads comes from an earlier operation, or from its own, which is no transport then.
pub fn tasks_read_earlier_operations()
    ensures { ReadEarlier }
{}

/// No span that a runner may be asked for has more tasks than its program, with the runner's block.
pub fn spans_fit_the_count()
    ensures { FitTheCount }
{}

/// Each task is that of an operation of the span at its step, and reads what such a task does.
pub fn tasks_are_of_the_span()
    ensures { AreOfTheSpan }
{}

/// The tasks that give an operation's value stand one after another, by tile.
pub fn tasks_give_the_values()
    ensures { GiveTheValues }
{}
