//! How often each class stands among cells.

ghost use Rattle.std.specs.Prelude.{◌≡◌, ◌<◌, ◌≤◌, ◌*◌, ◌+◌, ◌∷◌, ℤ, List, cond, Some, None, OnOk};
ghost use Rattle.std.specs.HashMap.{get, IsUnchanged};
ghost use Rattle.std.specs.Ordering.{int_eq};
ghost use Rattle.cell_values.specs.declared.cell.Cell.{Cell as TheCell};
ghost use Rattle.region_meaning.specs.Numbers.{occurrences};
ghost use Rattle.region_meaning.specs.inside.MostFrequent.{most_frequent};
ghost use Rattle.window_ops.specs.inside.Classes.{AreSome, class_count, class_in_cell};
ghost use Rattle.window_ops.specs.inside.Sums.{most_summed};

use cell_values::Cell;
use std::alloc::AllocError;
use std::collections::HashMap;

/// How often each class stands among cells: a count for each class that stands there.
pub type Counts = HashMap<i64, usize>;

// Counts one more cell of a class.
fn add_one(counts: &mut Counts, class: i64) -> Result<(), AllocError>
    requires some { AreSome counts.old }
    requires few { class_count counts.old class < most_summed }
    ensures counts { OnOk result ((own : ℤ) → class_count counts.new own ≡ class_count counts.old own + cond (int_eq class own) 1 0) }
    ensures some { OnOk result (AreSome counts.new) }
{
    let count = counts.entry(class)?.or_insert(0);
    *count += 1;
    Ok(())
}

// Takes one cell from the count of a class, and says how many are left.
fn less_one(counts: &mut Counts, class: i64) -> usize
    requires there { 0 < class_count counts.old class }
    ensures left { result + 1 ≡ class_count counts.old class }
    ensures counts { (own : ℤ) → get int_eq counts.new own ≡ cond (int_eq class own) (Some result) (get int_eq counts.old own) }
{
    match counts.get_mut(&class) {
        Some(count) => {
            *count -= 1;
            *count
        }
        None => 0,
    }
}

// Counts one cell of a class no more. A class without a cell has no count.
fn take_one(counts: &mut Counts, class: i64)
    requires some { AreSome counts.old }
    requires there { 0 < class_count counts.old class }
    ensures counts { (own : ℤ) → class_count counts.new own + cond (int_eq class own) 1 0 ≡ class_count counts.old own }
    ensures some { AreSome counts.new }
{
    if less_one(counts, class) == 0 {
        counts.remove(&class);
    }
}

/// Counts a cell, unless it is missing.
pub fn take_cell(counts: &mut Counts, cell: Cell) -> Result<(), AllocError>
    requires some { AreSome counts.old }
    requires few { (class : ℤ) → class_count counts.old class < most_summed }
    ensures counts { OnOk result ((class : ℤ) → class_count counts.new class ≡ class_count counts.old class + class_in_cell class cell) }
    ensures some { OnOk result (AreSome counts.new) }
{
    match cell {
        Cell::Mv => Ok(()),
        Cell::Val(class) => add_one(counts, class),
    }
}

/// Counts a cell that was counted no more.
pub fn leave_cell(counts: &mut Counts, cell: Cell)
    requires some { AreSome counts.old }
    requires there { (class : ℤ) → class_in_cell class cell ≤ class_count counts.old class }
    ensures counts { (class : ℤ) → class_count counts.new class + class_in_cell class cell ≡ class_count counts.old class }
    ensures some { AreSome counts.new }
{
    if let Cell::Val(class) = cell {
        take_one(counts, class);
    }
}

// A class and how often it stands there.
#[derive(Clone, Copy)]
struct Ranked {
    value: i64,
    count: usize,
}

impl Ranked {
    ghost use Rattle.window_ops.specs.inside.Classes.{first_ranked};

    // The one of two values that is the more frequent one, or the less one of two that are as frequent.
    fn or(self, other: Ranked) -> Ranked
        ensures { result ≡ first_ranked self other }
    {
        if other.count > self.count || other.count == self.count && other.value < self.value {
            other
        } else {
            self
        }
    }
}

/// The most frequent class, the least of several.
pub fn leader(counts: &Counts) -> i64
    requires { AreSome counts.now }
    ensures { (first : ℤ) (rest : List ℤ) → ((class : ℤ) → class_count counts.now class ≡ occurrences (first ∷ rest) class) → result ≡ most_frequent (first ∷ rest) first }
{
    let mut best = Ranked { value: 0, count: 0 };
    for (value, count) in counts {
        best = best.or(Ranked {
            value: *value,
            count: *count,
        });
    }
    best.value
}
