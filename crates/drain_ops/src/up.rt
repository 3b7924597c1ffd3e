//! One walk up stream: each cell after the one that it drains into.

ghost use Rattle.std.specs.Prelude.{◌≡◌, ◌<◌, IfOk, ℕ, false, length, slice_index_or};
ghost use Rattle.cell_values.specs.declared.cell.Cell.TheVariants.{Mv};
ghost use Rattle.drain_meaning.specs.Drains.{next_at};
ghost use Rattle.drain_meaning.specs.Rules.{FitsBefore};
ghost use Rattle.drain_meaning.specs.Sound.{IsDrain};
ghost use Rattle.drain_meaning.specs.Transports.{transport_outcome};
ghost use Rattle.drain_meaning.specs.declared.op.Orient.TheVariants.{Up};
ghost use Rattle.drain_ops.specs.Operands.{AreInRange, flow_operand};
ghost use Rattle.drain_ops.specs.inside.Trails.{IsEndedOrOnTrail, LeadsDown};
ghost use Rattle.drain_ops.specs.inside.Upward.{flow_at, from_below};
ghost use Rattle.tile_map.specs.Args.{HasPlace, SpansPlaces};
ghost use Rattle.tile_map.specs.Cuts.{cell_at};
ghost use Rattle.tile_map.specs.Parts.{part_of};

use crate::judge::judged;
use crate::operand::operand;
use crate::size::cell_number;
use cell_values::{Cell, Cells, Kind};
use drain_meaning::{Drain, Flow, FlowEnd, FlowRule, Next};
use std::alloc::{AllocError, Global};
use tile_map::{Arg, Part};

// What comes to a cell from the one that it drains into.
fn come_up<R: FlowRule>(rule: &R, drain: &Drain, outs: &[Flow], place: u32) -> R::Acc
    requires drain { IsDrain drain.now }
    requires within { place < length drain.now.codes }
    requires many { length outs.now ≡ length drain.now.codes }
    ensures { result ≡ from_below (R.rule rule.now) (flow_at outs.now) (next_at drain.now place) }
{
    match drain.next(place) {
        Next::Cell(down) => rule.lift(outs[down as usize]),
        Next::Pit | Next::Outside | Next::Missing => rule.zero(),
    }
}

// The end of a cell, by what comes up to it and its operands.
fn end_above<R: FlowRule>(
    rule: &R,
    drain: &Drain,
    outs: &[Flow],
    at: u32,
    a: Arg<'_>,
    b: Arg<'_>,
) -> FlowEnd
    requires drain { IsDrain drain.now }
    requires within { at < length drain.now.codes }
    requires many { length outs.now ≡ length drain.now.codes }
    requires a { HasPlace a at }
    requires b { HasPlace b at }
    requires fits { FitsBefore (R.rule rule.now) (from_below (R.rule rule.now) (flow_at outs.now) (next_at drain.now at)) }
    ensures { result ≡ (R.rule rule.now).ended (from_below (R.rule rule.now) (flow_at outs.now) (next_at drain.now at)) (flow_operand a.entry at) (flow_operand b.entry at) }
{
    rule.finish(
        come_up(rule, drain, outs, at),
        operand(a, at),
        operand(b, at),
    )
}

// Goes down from a place until a cell that has its end, or a pit, and notes the cells on the way.
fn go_down(
    drain: &Drain,
    place: u32,
    ended: &[bool],
    trail: &mut Vec<u32>,
) -> Result<(), AllocError>
    requires drain { IsDrain drain.now }
    requires within { place < length drain.now.codes }
    requires many { length ended.now ≡ length drain.now.codes }
    requires empty { length trail.old.items ≡ 0 }
    ensures leads { IfOk result (λ _. LeadsDown drain.now ended.now trail.new.items) }
    ensures found { IfOk result (λ _. IsEndedOrOnTrail drain.now ended.now trail.new.items place) }
{
    let mut at = place;
    while !ended[at as usize] {
        match drain.next(at) {
            Next::Cell(down) => {
                trail.push(at)?;
                at = down;
            }
            Next::Pit | Next::Outside => {
                trail.push(at)?;
                return Ok(());
            }
            Next::Missing => return Ok(()),
        }
    }
    Ok(())
}

// Gives each cell its end once the cell that it drains into has its own: down from each place, and up again. Tells the first
// place that is out of range.
fn pass_up<R: FlowRule>(
    rule: &R,
    kind: Kind,
    drain: &Drain,
    a: Arg<'_>,
    b: Arg<'_>,
    trail: &mut Vec<u32>,
    ended: &mut [bool],
    outs: &mut [Flow],
    results: &mut [Cell],
) -> Result<Option<u32>, AllocError>
    requires up { (R.transport rule.now).orient ≡ Up }
    requires a { SpansPlaces a (length drain.now.codes) }
    requires b { SpansPlaces b (length drain.now.codes) }
    requires a_range { AreInRange (flow_operand a) }
    requires b_range { AreInRange (flow_operand b) }
    requires empty { length trail.old.items ≡ 0 }
    requires ended_many { length ended.old ≡ length drain.now.codes }
    requires outs_many { length outs.old ≡ length drain.now.codes }
    requires results_many { length results.old ≡ length drain.now.codes }
    requires none { (u : ℕ) → slice_index_or ended.old u false ≡ false }
    requires missing { (d : ℕ) → cell_at results.old d ≡ Mv }
    ensures { IfOk result (λ over. record { cells = results.new; over = over } ≡ part_of (transport_outcome (R.transport rule.now) kind drain.now (flow_operand a.entry) (flow_operand b.entry)) (length drain.now.codes)) }
{
    let mut over = None;
    for place in 0..cell_number(drain) {
        go_down(drain, place, ended, trail)?;
        while let Some(at) = trail.pop() {
            let end = end_above(rule, drain, outs, at, a, b);
            let (cell, first) = judged(kind, end.result, at, over);
            ended[at as usize] = true;
            outs[at as usize] = end.out;
            results[at as usize] = cell;
            over = first;
        }
    }
    Ok(over)
}

/// The results of a transport whose cells are fed by the one that they drain into.
pub(crate) fn flow_up<R: FlowRule>(
    alloc: Global,
    rule: &R,
    kind: Kind,
    drain: &Drain,
    a: Arg<'_>,
    b: Arg<'_>,
) -> Result<Part, AllocError>
    requires up { (R.transport rule.now).orient ≡ Up }
    requires a { SpansPlaces a (length drain.now.codes) }
    requires b { SpansPlaces b (length drain.now.codes) }
    requires a_range { AreInRange (flow_operand a) }
    requires b_range { AreInRange (flow_operand b) }
    ensures { IfOk result (λ part. part ≡ part_of (transport_outcome (R.transport rule.now) kind drain.now (flow_operand a.entry) (flow_operand b.entry)) (length drain.now.codes)) }
{
    let count = cell_number(drain) as usize;
    let mut trail = Vec::new(alloc);
    let mut ended = vec![in alloc; false; count]?;
    let mut outs = vec![in alloc; Flow::Mv; count]?;
    let mut results = vec![in alloc; Cell::Mv; count]?;
    let over = pass_up(
        rule,
        kind,
        drain,
        a,
        b,
        &mut trail,
        &mut ended,
        &mut outs,
        &mut results,
    )?;
    Ok(Part {
        cells: Cells::from_vec(results),
        over,
    })
}
