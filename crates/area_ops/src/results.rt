//! What an operation gives of each class, and of each place by its class.

ghost use Rattle.std.specs.Prelude.{◌≡◌, ℤ, ◌≤◌, List, [], true, false, option_map, None, IfOk};
ghost use Rattle.std.specs.BTreeMap.{get};
ghost use Rattle.std.specs.List.Sorted.{IsStrictlySortedBy};
ghost use Rattle.std.specs.Map.{keys_of};
ghost use Rattle.std.specs.Ordering.{int_cmp};
ghost use Rattle.text_base.specs.Limits.{most_cells};
ghost use Rattle.tile_map.specs.Args.{SpansPlaces, arg_cell};
ghost use Rattle.tile_map.specs.Parts.{part_of};
ghost use Rattle.region_meaning.specs.Numbers.{occurrences};
ghost use Rattle.region_meaning.specs.AreaResults.{area_result};
ghost use Rattle.area_ops.specs.inside.Counts.{AreCounts, count_at, counts_numbers, member_cmp};
ghost use Rattle.area_ops.specs.inside.Leaders.{AreKnown, class_result, led_by_entries, led_result, place_result};
ghost use Rattle.area_ops.specs.inside.Tallies.{AreTallies, tally_at, tally_result};

use crate::counts::Counts;
use crate::leader::Leader;
use crate::runs::{SLOTS, class_slot};
use crate::tally::Tally;
use cell_values::{Cell, Cells, Over};
use region_meaning::AreaOp;
use std::alloc::{AllocError, Global};
use std::collections::BTreeMap;
use tile_map::{Arg, Part};

/// What an operation gives of each class that has numbers.
pub type Results = BTreeMap<i64, Result<Cell, Over>>;

/// The results by the tallies of the classes.
pub fn tallied(
    alloc: Global,
    op: AreaOp,
    areas: &BTreeMap<i64, Tally>,
) -> Result<Results, AllocError>
    requires op { counts_numbers op ≡ false }
    requires sound { AreTallies most_cells (tally_at areas.now) }
    ensures { IfOk result (λ results. (class : ℤ) → get int_cmp results class ≡ option_map (tally_result op) (get int_cmp areas.now class)) }
{
    let mut results = BTreeMap::new(alloc);
    for (class, tally) in areas {
        results.insert(*class, tally.result(op))?;
    }
    Ok(results)
}

// The leader of each class, by how often each number stands there.
fn leaders(alloc: Global, counts: &Counts) -> Result<BTreeMap<i64, Leader>, AllocError>
    ensures leaders { IfOk result (λ leaders. (class : ℤ) → get int_cmp leaders class ≡ led_by_entries class None counts.now.entries) }
    ensures ordered { IfOk result (λ leaders. IsStrictlySortedBy member_cmp (keys_of counts.now.entries)) }
{
    let mut leaders = BTreeMap::new(alloc);
    for ((class, number), count) in counts {
        let leader = Leader::with(leaders.get(class).copied(), *number, *count);
        leaders.insert(*class, leader)?;
    }
    Ok(leaders)
}

// The results by the leaders of the classes.
fn led(alloc: Global, op: AreaOp, leaders: &BTreeMap<i64, Leader>) -> Result<Results, AllocError>
    requires op { counts_numbers op ≡ true }
    ensures { IfOk result (λ results. (class : ℤ) → get int_cmp results class ≡ option_map (led_result op) (get int_cmp leaders.now class)) }
{
    let mut results = BTreeMap::new(alloc);
    for (class, leader) in leaders {
        results.insert(*class, leader.result(op))?;
    }
    Ok(results)
}

/// The results by how often each number stands in each class.
pub fn counted(alloc: Global, op: AreaOp, counts: &Counts) -> Result<Results, AllocError>
    requires op { counts_numbers op ≡ true }
    requires sound { AreCounts most_cells counts.now.entries }
    ensures { IfOk result (λ results. (class : ℤ) (numbers : List ℤ) → ((number : ℤ) → count_at counts.now (class, number) ≡ occurrences numbers number) → class_result results.entries class ≡ area_result op numbers) }
{
    led(alloc, op, &leaders(alloc, counts)?)
}

// What the results give of a class.
#[tactic(auto, unfolding(crate::specs::inside::Leaders::class_result))]
fn class_outcome(results: &Results, class: i64) -> Result<Cell, Over>
    ensures { result ≡ class_result results.now.entries class }
{
    results.get(&class).copied().unwrap_or(Ok(Cell::Mv))
}

// What the results give of one class, kept for places of the same class.
#[derive(Clone, Copy)]
struct Known {
    class: i64,
    outcome: Result<Cell, Over>,
}

// What the results give of a class. What is known already is not looked up again.
fn known_outcome(results: &Results, known: &mut Known, class: i64) -> Result<Cell, Over>
    requires { known.old.outcome ≡ class_result results.now.entries known.old.class }
    ensures known { known.new.outcome ≡ class_result results.now.entries known.new.class }
    ensures value { result ≡ class_result results.now.entries class }
{
    if class != known.class {
        *known = Known {
            class,
            outcome: class_outcome(results, class),
        };
    }
    known.outcome
}

// What the results give at a place of a class, which is kept at the class's slot.
fn outcome(results: &Results, known: &mut [Known], area: Cell) -> Result<Cell, Over>
    requires { AreKnown results.now.entries known.old }
    ensures known { AreKnown results.now.entries known.new }
    ensures value { result ≡ place_result results.now.entries area }
{
    match area {
        Cell::Mv => Ok(Cell::Mv),
        Cell::Val(class) => known_outcome(results, &mut known[class_slot(class)], class),
    }
}

// What the results give at so many places of classes, put behind no cells.
fn fill(
    results: &Results,
    known: &mut [Known],
    classes: Arg<'_>,
    len: usize,
    none: Vec<Cell>,
) -> Result<Part, AllocError>
    requires len { len ≤ most_cells }
    requires classes { SpansPlaces classes len }
    requires none { none.items ≡ [] }
    requires known { AreKnown results.now.entries known.old }
    ensures { IfOk result (λ part. part ≡ part_of (λ place. place_result results.now.entries (arg_cell classes.entry place)) len) }
{
    let mut cells = none;
    let mut over = None;
    for place in 0..len {
        match outcome(results, known, classes.at(place)) {
            Ok(cell) => cells.push(cell)?,
            Err(_) => {
                cells.push(Cell::Mv)?;
                if over.is_none() {
                    over = Some(place as u32);
                }
            }
        }
    }
    Ok(Part {
        cells: Cells::from_vec(cells),
        over,
    })
}

/// What the results give at so many places of classes.
pub fn outcomes(
    alloc: Global,
    results: &Results,
    classes: Arg<'_>,
    len: usize,
) -> Result<Part, AllocError>
    requires len { len ≤ most_cells }
    requires classes { SpansPlaces classes len }
    ensures { IfOk result (λ part. part ≡ part_of (λ place. place_result results.now.entries (arg_cell classes.entry place)) len) }
{
    let none = Vec::with_capacity(alloc, len)?;
    let first = Known {
        class: 0,
        outcome: class_outcome(results, 0),
    };
    let mut known = vec![in alloc; first; SLOTS]?;
    let part = fill(results, &mut known, classes, len, none)?;
    Ok(part)
}
