//! Partials of area operations.

ghost use Rattle.std.specs.Prelude.{◌≡◌, ◌+◌, ◌≤◌, ◌++◌, ◌∷◌, [], ℤ, List, IfOk, OnOk, OnErr};
ghost use Rattle.text_base.specs.Limits.{most_cells};
ghost use Rattle.tile_map.specs.Args.{SpansPlaces, arg_cell};
ghost use Rattle.tile_map.specs.Parts.{part_of};
ghost use Rattle.region_meaning.specs.Areas.{AreaPlace, area_places, numbers_of, taken};
ghost use Rattle.area_ops.specs.Partials.{StandsFor};
ghost use Rattle.region_meaning.specs.AreaResults.{area_outcome, area_result};
ghost use Rattle.area_ops.specs.inside.Counts.{counts_numbers};
ghost use Rattle.area_ops.specs.inside.Leaders.{class_result};
ghost use Rattle.area_ops.specs.inside.Tallies.{IsTally, seen_from, tally_at, tally_join};

use crate::counts::{Counts, counts, counts_of_both, pour_counts};
use crate::results::{Results, counted, outcomes, tallied};
use crate::runs::tallies;
use crate::tally::Tally;
use cell_values::Cell;
use region_meaning::AreaOp;
use std::alloc::{AllocError, Global};
use std::collections::BTreeMap;
use std::marker::Model;
use tile_map::{Arg, Part};

/// What an area operation keeps of the cells of a map, or of a part of one: what its result needs, for each class.
/// Contracts see the operation, how many cells the partial stands for, and the tally of each class.
#[derive(Drop)]
pub struct Partial {
    op: AreaOp,
    cells: usize,
    areas: BTreeMap<i64, Tally>,
    counts: Counts,
}

impl Model for Partial {
    ghost use Rattle.std.specs.Prelude.{◌≤◌};
    ghost use Rattle.text_base.specs.Limits.{most_cells};
    ghost use Rattle.area_ops.specs.Partials.{PartialValue};
    ghost use Rattle.area_ops.specs.inside.Counts.{AreCounts};
    ghost use Rattle.area_ops.specs.inside.Tallies.{AreTallies, tally_at};

    ghost Value = { PartialValue };

    ghost view = { λ p. record { op = p.op; cells = p.cells; tallies = p.areas.entries; counts = p.counts.entries } };

    ghost invariant = { λ p. (p.cells ≤ most_cells) × AreTallies p.cells (tally_at p.areas) × AreCounts p.cells p.counts.entries };
}

// Whether the operation asks how often each number stands in a class.
fn counts_numbers(op: AreaOp) -> bool
    ensures { result ≡ counts_numbers op }
{
    matches!(op, AreaOp::Diversity | AreaOp::Majority)
}

// What an operation takes from a value.
#[inline(always)]
pub(crate) fn taken(op: AreaOp, value: Cell) -> Option<i64>
    ensures { result ≡ taken op value }
{
    match (op, value) {
        (AreaOp::Area, _) => Some(0),
        (_, Cell::Mv) => None,
        (_, Cell::Val(number)) => Some(number),
    }
}

/// Adds a tally to that of a class.
pub(crate) fn add(
    areas: &mut BTreeMap<i64, Tally>,
    class: i64,
    more: Tally,
) -> Result<(), AllocError>
    requires old { (own : ℤ) → IsTally (tally_at areas.old own) }
    requires more { IsTally more }
    requires few { (tally_at areas.old class).count + more.count ≤ most_cells }
    ensures tallies { OnOk result ((own : ℤ) → tally_at areas.new own ≡ tally_join (tally_at areas.old own) (seen_from own class more)) }
    ensures sound { OnOk result ((own : ℤ) → IsTally (tally_at areas.new own)) }
{
    let tally = areas.entry(class)?.or_insert(Tally::none());
    *tally = tally.join(more);
    Ok(())
}

// Adds the tallies of all classes of a map to those of another.
fn pour(into: &mut BTreeMap<i64, Tally>, from: &BTreeMap<i64, Tally>) -> Result<(), AllocError>
    requires into { (class : ℤ) → IsTally (tally_at into.old class) }
    requires from { (class : ℤ) → IsTally (tally_at from.now class) }
    requires few { (class : ℤ) → (tally_at into.old class).count + (tally_at from.now class).count ≤ most_cells }
    ensures tallies { OnOk result ((class : ℤ) → tally_at into.new class ≡ tally_join (tally_at into.old class) (tally_at from.now class)) }
    ensures sound { OnOk result ((own : ℤ) → IsTally (tally_at into.new own)) }
{
    for (class, tally) in from {
        add(into, *class, *tally)?;
    }
    Ok(())
}

// The tallies of the classes of two maps.
fn poured(
    alloc: Global,
    a: &BTreeMap<i64, Tally>,
    b: &BTreeMap<i64, Tally>,
) -> Result<BTreeMap<i64, Tally>, AllocError>
    requires a { (class : ℤ) → IsTally (tally_at a.now class) }
    requires b { (class : ℤ) → IsTally (tally_at b.now class) }
    requires few { (class : ℤ) → (tally_at a.now class).count + (tally_at b.now class).count ≤ most_cells }
    ensures tallies { IfOk result (λ areas. (class : ℤ) → tally_at areas class ≡ tally_join (tally_at a.now class) (tally_at b.now class)) }
    ensures sound { IfOk result (λ areas. (own : ℤ) → IsTally (tally_at areas own)) }
{
    let mut areas = BTreeMap::new(alloc);
    pour(&mut areas, a)?;
    pour(&mut areas, b)?;
    Ok(areas)
}

impl Partial {
    /// The partial of so many places: of their values, and of the classes that they belong to. The number of cells of an
    /// area takes no value, and any operand does.
    pub fn of(
        alloc: Global,
        op: AreaOp,
        values: Arg<'_>,
        classes: Arg<'_>,
        len: usize,
    ) -> Result<Partial, AllocError>
        requires few { len ≤ most_cells }
        requires values { SpansPlaces values len }
        requires classes { SpansPlaces classes len }
        ensures op { IfOk result (λ partial. partial.op ≡ op) }
        ensures cells { IfOk result (λ partial. partial.cells ≡ len) }
        ensures stands { IfOk result (λ partial. StandsFor partial (area_places values.entry classes.entry len)) }
    {
        if counts_numbers(op) {
            let counts = counts(alloc, op, values, classes, len)?;
            return Ok(Partial {
                op,
                cells: len,
                areas: BTreeMap::new(alloc),
                counts,
            });
        }
        let areas = tallies(alloc, op, values, classes, len)?;
        Ok(Partial {
            op,
            cells: len,
            areas,
            counts: BTreeMap::new(alloc),
        })
    }

    /// Takes in the cells of another partial of the same operation. A refused merge leaves the partial as it was. Takes
    /// time in proportion to the classes of both, times the logarithm of their number.
    pub fn merge(&mut self, alloc: Global, other: &Partial) -> Result<(), AllocError>
        requires op { self.old.op ≡ other.now.op }
        requires few { self.old.cells + other.now.cells ≤ most_cells }
        // It stands for the places of both.
        ensures stands { OnOk result ((xs ys : List AreaPlace) → StandsFor self.old xs → StandsFor other.now ys → StandsFor self.new (xs ++ ys)) }
        ensures cells { OnOk result (self.new.cells ≡ self.old.cells + other.now.cells) }
        // The operation stays, and after a refusal all does.
        ensures op { self.new.op ≡ self.old.op }
        ensures refused { OnErr result (self.new ≡ self.old) }
    {
        let areas = poured(alloc, &self.areas, &other.areas)?;
        let counts = counts_of_both(alloc, &self.counts, &other.counts)?;
        self.areas = areas;
        self.counts = counts;
        self.cells += other.cells;
        Ok(())
    }

    /// This partial with the cells of another one of the same operation, which are poured into it; after a refusal there is
    /// none. Takes time in proportion to the classes of the other, times the logarithm of the number of all, so that many
    /// partials are put together in the time of their classes.
    pub fn with(self, other: &Partial) -> Result<Partial, AllocError>
        requires op { self.op ≡ other.now.op }
        requires few { self.cells + other.now.cells ≤ most_cells }
        // It stands for the places of both.
        ensures stands { IfOk result (λ both. (xs ys : List AreaPlace) → StandsFor self xs → StandsFor other.now ys → StandsFor both (xs ++ ys)) }
        ensures cells { IfOk result (λ both. both.cells ≡ self.cells + other.now.cells) }
        ensures op { IfOk result (λ both. both.op ≡ self.op) }
    {
        let mut both = self;
        pour(&mut both.areas, &other.areas)?;
        pour_counts(&mut both.counts, &other.counts)?;
        both.cells += other.cells;
        Ok(both)
    }

    // What the operation gives of each class.
    fn results(&self, alloc: Global) -> Result<Results, AllocError>
        ensures { (places : List AreaPlace) → StandsFor self.now places → IfOk result (λ results. (class : ℤ) → class_result results.entries class ≡ area_result self.now.op (numbers_of self.now.op places class)) }
    {
        if counts_numbers(self.op) {
            return counted(alloc, self.op, &self.counts);
        }
        tallied(alloc, self.op, &self.areas)
    }

    /// The result at each of so many places, by the class of each: the cell, a missing value where the class is missing,
    /// has no value, or the result is out of range, and the first place whose result is out of range.
    pub fn spread(&self, alloc: Global, classes: Arg<'_>, len: usize) -> Result<Part, AllocError>
        requires few { len ≤ most_cells }
        requires classes { SpansPlaces classes len }
        ensures { (places : List AreaPlace) → StandsFor self.now places → IfOk result (λ part. part ≡ part_of (λ place. area_outcome self.now.op places (arg_cell classes.entry place)) len) }
    {
        outcomes(alloc, &self.results(alloc)?, classes, len)
    }
}
