//! One walk down stream: each cell after all cells that drain into it.

ghost use Rattle.std.specs.Prelude.{◌≡◌, ◌<◌, ◌-◌, IfOk, ℕ, [], length, slice_index, slice_index_or, slice_set};
ghost use Rattle.cell_values.specs.declared.cell.Cell.TheVariants.{Mv};
ghost use Rattle.drain_meaning.specs.Rules.{FitTogether, FitsBefore};
ghost use Rattle.drain_meaning.specs.Transports.{transport_outcome};
ghost use Rattle.drain_meaning.specs.declared.op.Orient.TheVariants.{Down};
ghost use Rattle.drain_ops.specs.Operands.{AreInRange, flow_operand};
ghost use Rattle.drain_ops.specs.inside.Waits.{AreWaits};
ghost use Rattle.tile_map.specs.Args.{HasPlace, SpansPlaces};
ghost use Rattle.tile_map.specs.Cuts.{cell_at};
ghost use Rattle.tile_map.specs.Parts.{part_of};

use crate::judge::judged;
use crate::operand::operand;
use crate::size::cell_number;
use cell_values::{Cell, Cells, Kind};
use drain_meaning::{Drain, Flow, FlowEnd, FlowRule, Next};
use std::alloc::{AllocError, Global};
use tile_map::{Arg, Part};

/// What a cell waits for that has had its turn, or never has one.
const DONE: u32 = u32::MAX;

// The end of a cell, by what came to it and its operands.
fn end_at<R: FlowRule>(rule: &R, inflows: &[R::Acc], at: u32, a: Arg<'_>, b: Arg<'_>) -> FlowEnd
    requires within { at < length inflows.now }
    requires a { HasPlace a at }
    requires b { HasPlace b at }
    requires fits { FitsBefore (R.rule rule.now) (slice_index_or inflows.now at (R.rule rule.now).none) }
    ensures { result ≡ (R.rule rule.now).ended (slice_index_or inflows.now at (R.rule rule.now).none) (flow_operand a.entry at) (flow_operand b.entry at) }
{
    rule.finish(inflows[at as usize], operand(a, at), operand(b, at))
}

// Joins an outflow with what came to the cell before.
pub(crate) fn receive<R: FlowRule>(rule: &R, inflows: &mut [R::Acc], down: usize, out: Flow)
    requires within { down < length inflows.old }
    requires fit { FitTogether (R.rule rule.now) (slice_index_or inflows.old down (R.rule rule.now).none) ((R.rule rule.now).lifted out) }
    ensures { inflows.new ≡ slice_set inflows.old down
        ((R.rule rule.now).joined (slice_index_or inflows.old down (R.rule rule.now).none) ((R.rule rule.now).lifted out)) }
{
    inflows[down] = rule.add(inflows[down], rule.lift(out));
}

// A cell waits for one cell less.
fn one_less(waits: &mut [u32], down: usize)
    requires within { down < length waits.old }
    requires some { 0 < slice_index waits.old down }
    ensures { waits.new ≡ slice_set waits.old down (slice_index waits.old down - 1) }
{
    waits[down] -= 1;
}

// Passes the flow of each cell on, once all cells that drain into it have done so: down from each place as long as the next
// cell waits for no other one. Tells the first place that is out of range.
fn pass_down<R: FlowRule>(
    rule: &R,
    kind: Kind,
    drain: &Drain,
    a: Arg<'_>,
    b: Arg<'_>,
    waits: &mut [u32],
    inflows: &mut [R::Acc],
    results: &mut [Cell],
) -> Option<u32>
    requires down { (R.transport rule.now).orient ≡ Down }
    requires a { SpansPlaces a (length drain.now.codes) }
    requires b { SpansPlaces b (length drain.now.codes) }
    requires a_range { AreInRange (flow_operand a) }
    requires b_range { AreInRange (flow_operand b) }
    requires waiting { AreWaits drain.now [] waits.old }
    requires inflows_many { length inflows.old ≡ length drain.now.codes }
    requires results_many { length results.old ≡ length drain.now.codes }
    requires nothing { (d : ℕ) → slice_index_or inflows.old d (R.rule rule.now).none ≡ (R.rule rule.now).none }
    requires missing { (d : ℕ) → cell_at results.old d ≡ Mv }
    ensures { record { cells = results.new; over = result } ≡ part_of (transport_outcome (R.transport rule.now) kind drain.now (flow_operand a.entry) (flow_operand b.entry)) (length drain.now.codes) }
{
    let mut over = None;
    for place in 0..cell_number(drain) {
        let mut at = place;
        while waits[at as usize] == 0 {
            let end = end_at(rule, inflows, at, a, b);
            let (cell, first) = judged(kind, end.result, at, over);
            waits[at as usize] = DONE;
            results[at as usize] = cell;
            over = first;
            if let Next::Cell(down) = drain.next(at) {
                receive(rule, inflows, down as usize, end.out);
                one_less(waits, down as usize);
                at = down;
            }
        }
    }
    over
}

// Counts at each cell those that drain into it.
fn count_waits(drain: &Drain, waits: &mut [u32])
    requires many { length waits.old ≡ length drain.now.codes }
    requires none { (d : ℕ) → slice_index waits.old d ≡ 0 }
    ensures many { length waits.new ≡ length waits.old }
    ensures waits { AreWaits drain.now [] waits.new }
{
    for place in 0..cell_number(drain) {
        match drain.next(place) {
            Next::Cell(down) => waits[down as usize] += 1,
            Next::Pit | Next::Outside => {}
            Next::Missing => waits[place as usize] = DONE,
        }
    }
}

// How many cells each cell waits for before the walk begins.
fn first_waits(alloc: Global, drain: &Drain) -> Result<Vec<u32>, AllocError>
    ensures { IfOk result (λ waits. AreWaits drain.now [] waits.items) }
{
    let mut waits = vec![in alloc; 0; cell_number(drain) as usize]?;
    count_waits(drain, &mut waits);
    Ok(waits)
}

// Nothing has come to any of so many cells yet.
pub(crate) fn no_inflows<R: FlowRule>(
    alloc: Global,
    rule: &R,
    count: usize,
) -> Result<Vec<R::Acc>, AllocError>
    ensures count { IfOk result (λ inflows. length inflows.items ≡ count) }
    ensures nothing { IfOk result (λ inflows. (d : ℕ) → slice_index_or inflows.items d (R.rule rule.now).none ≡ (R.rule rule.now).none) }
{
    let mut inflows = Vec::with_capacity(alloc, count)?;
    for _ in 0..count {
        inflows.push(rule.zero())?;
    }
    Ok(inflows)
}

/// The results of a transport whose cells are fed by those that drain into them.
pub(crate) fn flow_down<R: FlowRule>(
    alloc: Global,
    rule: &R,
    kind: Kind,
    drain: &Drain,
    a: Arg<'_>,
    b: Arg<'_>,
) -> Result<Part, AllocError>
    requires down { (R.transport rule.now).orient ≡ Down }
    requires a { SpansPlaces a (length drain.now.codes) }
    requires b { SpansPlaces b (length drain.now.codes) }
    requires a_range { AreInRange (flow_operand a) }
    requires b_range { AreInRange (flow_operand b) }
    ensures { IfOk result (λ part. part ≡ part_of (transport_outcome (R.transport rule.now) kind drain.now (flow_operand a.entry) (flow_operand b.entry)) (length drain.now.codes)) }
{
    let count = cell_number(drain) as usize;
    let mut waits = first_waits(alloc, drain)?;
    let mut inflows = no_inflows(alloc, rule, count)?;
    let mut results = vec![in alloc; Cell::Mv; count]?;
    let over = pass_down(
        rule,
        kind,
        drain,
        a,
        b,
        &mut waits,
        &mut inflows,
        &mut results,
    );
    Ok(Part {
        cells: Cells::from_vec(results),
        over,
    })
}
