ghost use Rattle.plan_graph.specs.Borders.{AreKnownDrains};
ghost use Rattle.plan_graph.specs.PlanGraphs.{AreSoundPlans};

/// What is known to a span has the drain map of each transport of its plan, sound and of its size.
pub fn transports_have_their_drains()
    ensures { AreKnownDrains }
{}

/// The graph of the plan of each span is sound, and its transports, with their border edges and channels, are numbered in it as
/// is said.
pub fn plans_are_sound()
    ensures { AreSoundPlans }
{}
