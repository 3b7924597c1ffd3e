//! The rule of the table, and its kinds of step.

ghost use Rattle.std.specs.Prelude.{◌≡◌};
ghost use Rattle.turn_cell.specs.inside.Views.{opening_view, left_view, newcomer_view, told_view, spent_view};
ghost use Rattle.turn_cell.specs.inside.Views.{boxed, looked, settled_both, took_turn, gave_turn};

use crate::chronicle::Chronicle;
use crate::view::View;
use atomic_table::{Join, Play, Split, TableRule};
use std::marker::PhantomData;
use std::snapshot::Snapshot;

/// Where the value is at home. It lies in a block of its own, so that a turn moves a pointer and no more.
pub type Slot<B> = Option<Box<B>>;

/// What the table is told when it is made: the value that it begins with, and how many seats there may be.
pub struct About<B> {
    pub start: Snapshot<B>,
    pub seats: u64,
}

impl<B> About<B> {
    /// About a cell with this value.
    pub fn of(value: &B, seats: u32) -> About<B>
        ensures { (result.start.value ≡ value.now) × (result.seats ≡ seats) }
    {
        About {
            start: Snapshot::of(value),
            seats: seats as u64,
        }
    }
}

impl<B> Drop for About<B> {
    fn drop(self) {
        let About { start: _, seats: _ } = self;
    }
}

/// The rule of the turn.
pub struct Turns<B> {
    marker: PhantomData<B>,
}

impl<B: Chronicle> TableRule<Slot<B>, View<B::Plan, B::Entry>, About<B>> for Turns<B> {
    ghost use Rattle.turn_cell.specs.inside.Ruled.{KeepsTurns};

    ghost holds = { λ about. KeepsTurns (boxed B.plan) (boxed B.history) B.author (B.plan about.start.value) about.seats };

    ghost first = { λ about. opening_view (B.plan about.start.value) about.seats };
}

/// A seat gives its greatest author away.
pub struct Cut;

impl<P, E> Split<View<P, E>> for Cut {
    ghost left = { left_view };

    ghost right = { newcomer_view };
}

/// A seat takes another in, and is told what that one knew.
pub struct Glue;

impl<P, E> Join<View<P, E>> for Glue {
    ghost both = { told_view };

    ghost spent = { spent_view };
}

/// A load of the turn.
pub struct Look;

impl<B, P, E> Play<Option<B>, View<P, E>> for Look {
    ghost then = { looked };
}

/// The load that settles what a join told.
pub struct Settle<B> {
    marker: PhantomData<B>,
}

impl<B: Chronicle> Play<Slot<B>, View<B::Plan, B::Entry>> for Settle<B> {
    ghost then = { settled_both B.author };
}

/// The compare-and-exchange that takes the turn.
pub struct Take<B> {
    marker: PhantomData<B>,
}

impl<B: Chronicle> Play<Slot<B>, View<B::Plan, B::Entry>> for Take<B> {
    ghost then = { took_turn (boxed B.plan) (boxed B.history) B.author };
}

/// The store that gives the turn back.
pub struct Give<B> {
    marker: PhantomData<B>,
}

impl<B: Chronicle> Play<Slot<B>, View<B::Plan, B::Entry>> for Give<B> {
    ghost then = { gave_turn (boxed B.history) };
}
