//! How often each number stands in each class.

ghost use Rattle.std.specs.Prelude.{◌≡◌, ◌+◌, ◌≤◌, ◌<◌, ℤ, IfOk, OnOk};
ghost use Rattle.text_base.specs.Limits.{most_cells};
ghost use Rattle.tile_map.specs.Args.{SpansPlaces};
ghost use Rattle.region_meaning.specs.Areas.{area_places, numbers_of};
ghost use Rattle.region_meaning.specs.Numbers.{occurrences};
ghost use Rattle.area_ops.specs.inside.Counts.{AreCounts, Member, count_at, count_seen, times_given};

use crate::partial::taken;
use cell_values::Cell;
use region_meaning::AreaOp;
use std::alloc::{AllocError, Global};
use std::collections::BTreeMap;
use tile_map::Arg;

/// How often each number stands in each class: a count for each class and number that there are.
pub type Counts = BTreeMap<(i64, i64), u32>;

// How often a number stands in a class.
#[tactic(auto, unfolding(crate::specs::inside::Counts::count_in))]
fn count_at(counts: &Counts, member: (i64, i64)) -> u32
    ensures { result ≡ count_at counts.now member }
{
    counts.get(&member).copied().unwrap_or(0)
}

// Counts a number of a class further times.
fn add_count(counts: &mut Counts, member: (i64, i64), more: u32) -> Result<(), AllocError>
    requires old { AreCounts most_cells counts.old.entries }
    requires some { 0 < more }
    requires few { count_at counts.old member + more ≤ most_cells }
    ensures counts { OnOk result ((own : Member) → count_at counts.new own ≡ count_at counts.old own + count_seen own member more) }
    ensures sound { OnOk result (AreCounts most_cells counts.new.entries) }
{
    let count = count_at(counts, member) + more;
    counts.insert(member, count)?;
    Ok(())
}

// Counts what an operation takes from a place.
fn count_place(counts: &mut Counts, op: AreaOp, value: Cell, area: Cell) -> Result<(), AllocError>
    requires old { AreCounts most_cells counts.old.entries }
    requires few { (own : Member) → count_at counts.old own + 1 ≤ most_cells }
    ensures counts { OnOk result ((own : Member) → count_at counts.new own ≡ count_at counts.old own + times_given op own value area) }
    ensures sound { OnOk result (AreCounts most_cells counts.new.entries) }
{
    match (area, taken(op, value)) {
        (Cell::Val(class), Some(number)) => add_count(counts, (class, number), 1),
        _ => Ok(()),
    }
}

/// How often each number stands in each class over so many places.
pub fn counts(
    alloc: Global,
    op: AreaOp,
    values: Arg<'_>,
    classes: Arg<'_>,
    len: usize,
) -> Result<Counts, AllocError>
    requires few { len ≤ most_cells }
    requires values { SpansPlaces values len }
    requires classes { SpansPlaces classes len }
    ensures counts { IfOk result (λ counts. (class number : ℤ) → count_at counts (class, number) ≡ occurrences (numbers_of op (area_places values.entry classes.entry len) class) number) }
    ensures sound { IfOk result (λ counts. AreCounts len counts.entries) }
{
    let mut counts = BTreeMap::new(alloc);
    for place in 0..len {
        count_place(&mut counts, op, values.at(place), classes.at(place))?;
    }
    Ok(counts)
}

/// Adds all counts of a map to those of another.
pub fn pour_counts(into: &mut Counts, from: &Counts) -> Result<(), AllocError>
    requires into { AreCounts most_cells into.old.entries }
    requires from { AreCounts most_cells from.now.entries }
    requires few { (own : Member) → count_at into.old own + count_at from.now own ≤ most_cells }
    ensures counts { OnOk result ((own : Member) → count_at into.new own ≡ count_at into.old own + count_at from.now own) }
    ensures sound { OnOk result (AreCounts most_cells into.new.entries) }
{
    for (member, count) in from {
        add_count(into, *member, *count)?;
    }
    Ok(())
}

/// The counts of two maps together.
pub fn counts_of_both(alloc: Global, a: &Counts, b: &Counts) -> Result<Counts, AllocError>
    requires a { AreCounts most_cells a.now.entries }
    requires b { AreCounts most_cells b.now.entries }
    requires few { (own : Member) → count_at a.now own + count_at b.now own ≤ most_cells }
    ensures counts { IfOk result (λ counts. (own : Member) → count_at counts own ≡ count_at a.now own + count_at b.now own) }
    ensures sound { IfOk result (λ counts. AreCounts most_cells counts.entries) }
{
    let mut counts = BTreeMap::new(alloc);
    pour_counts(&mut counts, a)?;
    pour_counts(&mut counts, b)?;
    Ok(counts)
}
