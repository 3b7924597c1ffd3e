//! The laws of the core, over every run of every sound graph.

ghost use Rattle.core_model.specs.Laws.{Once, HoldsOne, HeldStays, LeftByOthers, Bounded, PutsDownOnce, NeverStuck, SettledLeast};
ghost use Rattle.core_model.specs.Values.{Right};

/// Each task is published at most once, each edge is sent at most once, and taken at most once and only if it was sent.
pub fn once()
    ensures { Once }
{}

/// A worker holds one task at most.
pub fn holds_one()
    ensures { HoldsOne }
{}

/// What a worker holds changes only by that worker's steps.
pub fn held_stays()
    ensures { HeldStays }
{}

/// What a worker held in what was seen it still holds, and who held none holds none, if none of the steps that came after is
/// its own.
pub fn left_by_others()
    ensures { LeftByOthers }
{}

/// A worker puts down at most once, so a run has no more such steps than there are workers' numbers.
pub fn puts_down_once()
    ensures { PutsDownOnce }
{}

/// A run has at most so many steps.
pub fn bounded()
    ensures { Bounded }
{}

/// A state that is not finished has an enabled step; so has each holder; and where nobody holds, each worker can claim.
pub fn never_stuck()
    ensures { NeverStuck }
{}

/// The settled points are the least set that holds each point all of whose feeds are in it or taken.
pub fn settled_least()
    ensures { SettledLeast }
{}

/// Each published tile, and each message that was sent, is that of the whole maps.
pub fn right<V, F>()
    ensures { Right V F }
{}
