//! The loop over places, and the choice of the operands' shapes before it.

ghost use Rattle.std.specs.Prelude.{◌≡◌, ◌≤◌, IfOk};
ghost use Rattle.text_base.specs.Limits.{most_cells};
ghost use Rattle.cell_values.specs.declared.cell.Cell.TheVariants.{Mv};
ghost use Rattle.tile_map.specs.Args.{SpansPlaces, arg_cell};
ghost use Rattle.tile_map.specs.Parts.{part_of};

use crate::rule::CellRule;
use crate::shape::{Any, Each, Everywhere, Nowhere, Shape};
use cell_values::{Cell, Cells};
use map_meaning::{Arg, Part};
use std::alloc::{AllocError, Global};

// The outcomes of a rule at all places. It is a function of its own for each rule and shapes: in one with many loops a
// compiler runs out of registers.
#[inline(never)]
fn each_place<R: CellRule, A: Shape, B: Shape, C: Shape, D: Shape>(
    alloc: Global,
    rule: &R,
    len: usize,
    a: &A,
    b: &B,
    c: &C,
    d: &D,
) -> Result<Part, AllocError>
    requires few { len ≤ most_cells }
    requires a { A.covers a.now len }
    requires b { B.covers b.now len }
    requires c { C.covers c.now len }
    requires d { D.covers d.now len }
    ensures { IfOk result (λ part. part ≡ part_of (λ place. R.rule rule.now (A.cell a.now place) (B.cell b.now place) (C.cell c.now place) (D.cell d.now place)) len) }
{
    let mut cells = Vec::with_capacity(alloc, len)?;
    let mut over = None;
    for place in 0..len {
        match rule.at(
            a.at(place, len),
            b.at(place, len),
            c.at(place, len),
            d.at(place, len),
        ) {
            Ok(cell) => cells.push(cell)?,
            Err(_) => {
                cells.push(Cell::Mv)?;
                if over.is_none() {
                    over = Some(place as u32);
                }
            }
        }
    }
    Ok(Part {
        cells: Cells::from_vec(cells),
        over,
    })
}

/// The outcomes of a rule of one operand.
pub fn one<R: CellRule>(alloc: Global, rule: &R, len: usize, a: Arg<'_>) -> Result<Part, AllocError>
    requires few { len ≤ most_cells }
    requires a { SpansPlaces a len }
    ensures { IfOk result (λ part. part ≡ part_of (λ place. R.rule rule.now (arg_cell a.entry place) Mv Mv Mv) len) }
{
    match a {
        Arg::Unused => each_place(alloc, rule, len, &Nowhere, &Nowhere, &Nowhere, &Nowhere),
        Arg::One(cell) => each_place(
            alloc,
            rule,
            len,
            &Everywhere(cell),
            &Nowhere,
            &Nowhere,
            &Nowhere,
        ),
        Arg::Cells(cells) => each_place(
            alloc,
            rule,
            len,
            &Each(cells),
            &Nowhere,
            &Nowhere,
            &Nowhere,
        ),
    }
}

// The outcomes of a rule of two operands, of which the first has its shape.
fn one_more<R: CellRule, A: Shape>(
    alloc: Global,
    rule: &R,
    len: usize,
    a: &A,
    b: Arg<'_>,
) -> Result<Part, AllocError>
    requires few { len ≤ most_cells }
    requires a { A.covers a.now len }
    requires b { SpansPlaces b len }
    ensures { IfOk result (λ part. part ≡ part_of (λ place. R.rule rule.now (A.cell a.now place) (arg_cell b.entry place) Mv Mv) len) }
{
    match b {
        Arg::Unused => each_place(alloc, rule, len, a, &Nowhere, &Nowhere, &Nowhere),
        Arg::One(cell) => each_place(alloc, rule, len, a, &Everywhere(cell), &Nowhere, &Nowhere),
        Arg::Cells(cells) => each_place(alloc, rule, len, a, &Each(cells), &Nowhere, &Nowhere),
    }
}

/// The outcomes of a rule of two operands.
pub fn two<R: CellRule>(
    alloc: Global,
    rule: &R,
    len: usize,
    a: Arg<'_>,
    b: Arg<'_>,
) -> Result<Part, AllocError>
    requires few { len ≤ most_cells }
    requires a { SpansPlaces a len }
    requires b { SpansPlaces b len }
    ensures { IfOk result (λ part. part ≡ part_of (λ place. R.rule rule.now (arg_cell a.entry place) (arg_cell b.entry place) Mv Mv) len) }
{
    match a {
        Arg::Unused => one_more(alloc, rule, len, &Nowhere, b),
        Arg::One(cell) => one_more(alloc, rule, len, &Everywhere(cell), b),
        Arg::Cells(cells) => one_more(alloc, rule, len, &Each(cells), b),
    }
}

// The outcomes of a rule of three operands, of which the first two have their shapes.
fn last_more<R: CellRule, A: Shape, B: Shape>(
    alloc: Global,
    rule: &R,
    len: usize,
    a: &A,
    b: &B,
    c: Arg<'_>,
) -> Result<Part, AllocError>
    requires few { len ≤ most_cells }
    requires a { A.covers a.now len }
    requires b { B.covers b.now len }
    requires c { SpansPlaces c len }
    ensures { IfOk result (λ part. part ≡ part_of (λ place. R.rule rule.now (A.cell a.now place) (B.cell b.now place) (arg_cell c.entry place) Mv) len) }
{
    match c {
        Arg::Unused => each_place(alloc, rule, len, a, b, &Nowhere, &Nowhere),
        Arg::One(cell) => each_place(alloc, rule, len, a, b, &Everywhere(cell), &Nowhere),
        Arg::Cells(cells) => each_place(alloc, rule, len, a, b, &Each(cells), &Nowhere),
    }
}

// The outcomes of a rule of three operands, of which the first has its shape.
fn two_more<R: CellRule, A: Shape>(
    alloc: Global,
    rule: &R,
    len: usize,
    a: &A,
    b: Arg<'_>,
    c: Arg<'_>,
) -> Result<Part, AllocError>
    requires few { len ≤ most_cells }
    requires a { A.covers a.now len }
    requires b { SpansPlaces b len }
    requires c { SpansPlaces c len }
    ensures { IfOk result (λ part. part ≡ part_of (λ place. R.rule rule.now (A.cell a.now place) (arg_cell b.entry place) (arg_cell c.entry place) Mv) len) }
{
    match b {
        Arg::Unused => last_more(alloc, rule, len, a, &Nowhere, c),
        Arg::One(cell) => last_more(alloc, rule, len, a, &Everywhere(cell), c),
        Arg::Cells(cells) => last_more(alloc, rule, len, a, &Each(cells), c),
    }
}

/// The outcomes of a rule of three operands.
pub fn three<R: CellRule>(
    alloc: Global,
    rule: &R,
    len: usize,
    a: Arg<'_>,
    b: Arg<'_>,
    c: Arg<'_>,
) -> Result<Part, AllocError>
    requires few { len ≤ most_cells }
    requires a { SpansPlaces a len }
    requires b { SpansPlaces b len }
    requires c { SpansPlaces c len }
    ensures { IfOk result (λ part. part ≡ part_of (λ place. R.rule rule.now (arg_cell a.entry place) (arg_cell b.entry place) (arg_cell c.entry place) Mv) len) }
{
    match a {
        Arg::Unused => two_more(alloc, rule, len, &Nowhere, b, c),
        Arg::One(cell) => two_more(alloc, rule, len, &Everywhere(cell), b, c),
        Arg::Cells(cells) => two_more(alloc, rule, len, &Each(cells), b, c),
    }
}

// The outcomes of a rule of four operands, of which the first has its shape.
fn three_more<R: CellRule, A: Shape>(
    alloc: Global,
    rule: &R,
    len: usize,
    a: &A,
    b: Arg<'_>,
    c: Arg<'_>,
    d: Arg<'_>,
) -> Result<Part, AllocError>
    requires few { len ≤ most_cells }
    requires a { A.covers a.now len }
    requires b { SpansPlaces b len }
    requires c { SpansPlaces c len }
    requires d { SpansPlaces d len }
    ensures { IfOk result (λ part. part ≡ part_of (λ place. R.rule rule.now (A.cell a.now place) (arg_cell b.entry place) (arg_cell c.entry place) (arg_cell d.entry place)) len) }
{
    each_place(alloc, rule, len, a, &Any(b), &Any(c), &Any(d))
}

/// The outcomes of a rule of four operands. The shape of the first is chosen before the loop, those of the others in it.
pub fn four<R: CellRule>(
    alloc: Global,
    rule: &R,
    len: usize,
    a: Arg<'_>,
    b: Arg<'_>,
    c: Arg<'_>,
    d: Arg<'_>,
) -> Result<Part, AllocError>
    requires few { len ≤ most_cells }
    requires a { SpansPlaces a len }
    requires b { SpansPlaces b len }
    requires c { SpansPlaces c len }
    requires d { SpansPlaces d len }
    ensures { IfOk result (λ part. part ≡ part_of (λ place. R.rule rule.now (arg_cell a.entry place) (arg_cell b.entry place) (arg_cell c.entry place) (arg_cell d.entry place)) len) }
{
    match a {
        Arg::Unused => three_more(alloc, rule, len, &Nowhere, b, c, d),
        Arg::One(cell) => three_more(alloc, rule, len, &Everywhere(cell), b, c, d),
        Arg::Cells(cells) => three_more(alloc, rule, len, &Each(cells), b, c, d),
    }
}
