//! Runs of places of one class, whose tallies no map has yet: a class that stands in one is not searched for.

ghost use Rattle.std.specs.Prelude.{◌≡◌, [], ◌+◌, ◌<◌, ◌≤◌, ℕ, ℤ, IfOk, OnOk};
ghost use Rattle.text_base.specs.Limits.{most_cells};
ghost use Rattle.tile_map.specs.Args.{SpansPlaces};
ghost use Rattle.region_meaning.specs.Areas.{area_places, numbers_of};
ghost use Rattle.area_ops.specs.inside.Runs.{AreRuns, run_at, class_slot, slots, tally_with, tally_with_runs};
ghost use Rattle.area_ops.specs.inside.Tallies.{AreTallies, IsTally, no_tally, number_tally, place_tally, seen_from, tally_at, tally_join, tally_of_one};

use crate::partial::{add, taken};
use crate::tally::Tally;
use cell_values::Cell;
use region_meaning::AreaOp;
use std::alloc::{AllocError, Global};
use std::collections::BTreeMap;
use tile_map::Arg;

/// How many runs there are at once.
pub(crate) const SLOTS: usize = 61;

/// The tally of places of one class, one after another, that no map has yet.
#[derive(Clone, Copy)]
struct Run {
    class: i64,
    tally: Tally,
}

/// The slot that a class's run stands at. Classes that follow one another have slots of their own, and so have most that are
/// multiples of a number, since the number of slots is a prime.
#[inline(always)]
pub(crate) fn class_slot(class: i64) -> usize
    ensures value { result ≡ class_slot class }
    ensures below { result < slots }
{
    class.unsigned_abs() as usize % SLOTS
}

// Adds a run of places to the tallies of the classes.
fn end_run(areas: &mut BTreeMap<i64, Tally>, run: Run) -> Result<(), AllocError>
    requires old { (own : ℤ) → IsTally (tally_at areas.old own) }
    requires run { IsTally run.tally }
    requires few { (own : ℤ) → (tally_with areas.old run own).count ≤ most_cells }
    ensures tallies { OnOk result ((own : ℤ) → tally_at areas.new own ≡ tally_with areas.old run own) }
    ensures sound { OnOk result ((own : ℤ) → IsTally (tally_at areas.new own)) }
{
    if run.tally.count == 0 {
        return Ok(());
    }
    add(areas, run.class, run.tally)
}

// Adds a number of a class: to the run, which ends where it is of another class.
fn add_number(
    areas: &mut BTreeMap<i64, Tally>,
    run: &mut Run,
    class: i64,
    number: i64,
) -> Result<(), AllocError>
    requires old { (own : ℤ) → IsTally (tally_at areas.old own) }
    requires run { IsTally run.old.tally }
    requires few { (own : ℤ) → (tally_with areas.old run.old own).count + 1 ≤ most_cells }
    ensures tallies { OnOk result ((own : ℤ) → tally_with areas.new run.new own ≡ tally_join (tally_with areas.old run.old own) (seen_from own class (tally_of_one number))) }
    ensures sound { OnOk result ((own : ℤ) → IsTally (tally_at areas.new own)) }
    ensures run { OnOk result (IsTally run.new.tally) }
    ensures class { OnOk result (run.new.class ≡ class) }
{
    let one = Tally::one(number);
    if class == run.class {
        run.tally = run.tally.join(one);
        return Ok(());
    }
    end_run(areas, *run)?;
    *run = Run { class, tally: one };
    Ok(())
}

// Adds a number of a class: to the run that stands at its slot.
fn add_to_runs(
    areas: &mut BTreeMap<i64, Tally>,
    runs: &mut [Run],
    class: i64,
    number: i64,
) -> Result<(), AllocError>
    requires old { (own : ℤ) → IsTally (tally_at areas.old own) }
    requires runs { AreRuns runs.old }
    requires few { (own : ℤ) → (tally_with_runs areas.old runs.old own).count + 1 ≤ most_cells }
    ensures tallies { OnOk result ((own : ℤ) → tally_with_runs areas.new runs.new own ≡ tally_join (tally_with_runs areas.old runs.old own) (seen_from own class (tally_of_one number))) }
    ensures sound { OnOk result ((own : ℤ) → IsTally (tally_at areas.new own)) }
    ensures runs { OnOk result (AreRuns runs.new) }
{
    add_number(areas, &mut runs[class_slot(class)], class, number)?;
    Ok(())
}

// Adds a place to the tallies of the classes.
fn add_place(
    areas: &mut BTreeMap<i64, Tally>,
    runs: &mut [Run],
    op: AreaOp,
    value: Cell,
    area: Cell,
) -> Result<(), AllocError>
    requires old { (own : ℤ) → IsTally (tally_at areas.old own) }
    requires runs { AreRuns runs.old }
    requires few { (own : ℤ) → (tally_with_runs areas.old runs.old own).count + 1 ≤ most_cells }
    ensures tallies { OnOk result ((own : ℤ) → tally_with_runs areas.new runs.new own ≡ tally_join (tally_with_runs areas.old runs.old own) (place_tally op own value area)) }
    ensures sound { OnOk result ((own : ℤ) → IsTally (tally_at areas.new own)) }
    ensures runs { OnOk result (AreRuns runs.new) }
{
    match (area, taken(op, value)) {
        (Cell::Val(class), Some(number)) => add_to_runs(areas, runs, class, number),
        _ => Ok(()),
    }
}

// A run without numbers at each slot.
fn no_runs(alloc: Global) -> Result<Vec<Run>, AllocError>
    ensures runs { IfOk result (λ runs. AreRuns runs.items) }
    ensures none { IfOk result (λ runs. (slot : ℕ) → slot < slots → (run_at runs.items slot).tally ≡ no_tally) }
{
    let mut runs = Vec::with_capacity(alloc, SLOTS)?;
    for class in 0..SLOTS {
        runs.push(Run {
            class: class as i64,
            tally: Tally::none(),
        })?;
    }
    Ok(runs)
}

// Adds all runs to the tallies of the classes.
fn end_runs(areas: &mut BTreeMap<i64, Tally>, runs: &[Run]) -> Result<(), AllocError>
    requires old { (own : ℤ) → IsTally (tally_at areas.old own) }
    requires runs { AreRuns runs.now }
    requires few { (own : ℤ) → (tally_with_runs areas.old runs.now own).count ≤ most_cells }
    ensures tallies { OnOk result ((own : ℤ) → tally_at areas.new own ≡ tally_with_runs areas.old runs.now own) }
    ensures sound { OnOk result ((own : ℤ) → IsTally (tally_at areas.new own)) }
{
    for run in runs {
        end_run(areas, *run)?;
    }
    Ok(())
}

// Adds so many places to the tallies of no classes.
fn add_places(
    areas: &mut BTreeMap<i64, Tally>,
    runs: &mut [Run],
    op: AreaOp,
    values: Arg<'_>,
    classes: Arg<'_>,
    len: usize,
) -> Result<(), AllocError>
    requires few { len ≤ most_cells }
    requires values { SpansPlaces values len }
    requires classes { SpansPlaces classes len }
    requires empty { areas.old.entries ≡ [] }
    requires runs { AreRuns runs.old }
    requires none { (slot : ℕ) → slot < slots → (run_at runs.old slot).tally ≡ no_tally }
    ensures numbers { OnOk result ((class : ℤ) → tally_at areas.new class ≡ number_tally (numbers_of op (area_places values.entry classes.entry len) class)) }
    ensures sound { OnOk result (AreTallies len (tally_at areas.new)) }
{
    for place in 0..len {
        add_place(areas, runs, op, values.at(place), classes.at(place))?;
    }
    end_runs(areas, runs)?;
    Ok(())
}

/// The tallies of the classes over so many places.
pub(crate) fn tallies(
    alloc: Global,
    op: AreaOp,
    values: Arg<'_>,
    classes: Arg<'_>,
    len: usize,
) -> Result<BTreeMap<i64, Tally>, AllocError>
    requires few { len ≤ most_cells }
    requires values { SpansPlaces values len }
    requires classes { SpansPlaces classes len }
    ensures numbers { IfOk result (λ areas. (class : ℤ) → tally_at areas class ≡ number_tally (numbers_of op (area_places values.entry classes.entry len) class)) }
    ensures sound { IfOk result (λ areas. AreTallies len (tally_at areas)) }
{
    let mut areas = BTreeMap::new(alloc);
    let mut runs = no_runs(alloc)?;
    add_places(&mut areas, &mut runs, op, values, classes, len)?;
    Ok(areas)
}
