ghost use Rattle.std.specs.Prelude.{◌≡◌, ◌<◌, ◌≤◌, ◌&&◌, ◌==◌, ◌++◌, ◌∷◌, [], ℕ, length, Some, None, OnOk, nat_lt, slice_index_or, if◌then◌else◌};
ghost use Rattle.plain_eval.specs.inside.Finished.{LetsGo, with_kept};
ghost use Rattle.plain_eval.specs.inside.Held.{held_at};
ghost use Rattle.plain_eval.specs.inside.Readers.{NamesBelow, ReadsBelow};
ghost use Rattle.plain_eval.specs.inside.Sections.{is_own};

use crate::site::own_number;
use map_meaning::{Map, Operand, Operation, Span, StepMap};
use sqlite_items::Items;
use std::alloc::AllocError;

// Lets go of the map that an operand names, where the operation n is the last one that reads it.
fn let_go(held: &mut Items<Option<Map>>, last: &[u32], n: u32, span: Span, operand: Operand)
    requires below { NamesBelow span (length held.old) operand }
    requires known { length held.old ≤ length last.now }
    ensures count { length held.new ≡ length held.old }
    ensures each { (k : ℕ) → held_at held.new k ≡ (if slice_index_or last.now k 0 == n && is_own span k operand then None else held_at held.old k) }
{
    if let Some(k) = own_number(span, operand) {
        let k = k as usize;
        if last[k] == n {
            held.set(k, None);
        }
    }
}

/// Lets go of the maps that the operation n is the last one to read.
pub fn let_go_of_operands(
    held: &mut Items<Option<Map>>,
    last: &[u32],
    n: u32,
    span: Span,
    operation: Operation,
)
    requires below { ReadsBelow span (length held.old) operation }
    requires known { length held.old ≤ length last.now }
    ensures { LetsGo span last.now n operation held.old held.new }
{
    let_go(held, last, n, span, operation.a);
    let_go(held, last, n, span, operation.b);
    let_go(held, last, n, span, operation.c);
    let_go(held, last, n, span, operation.d);
}

/// Holds the map of the operation n, where a later one reads it.
pub fn hold(held: &mut Items<Option<Map>>, last: &[u32], n: u32, map: Map) -> Result<(), AllocError>
    requires { n < length last.now }
    ensures { OnOk result (held.new ≡ held.old ++ (if nat_lt n (slice_index_or last.now n 0) then Some map else None) ∷ []) }
{
    held.push(if n < last[n as usize] {
        Some(map)
    } else {
        None
    })
}

/// Keeps the map of the operation with this number in its section at a step, where it is to be handed out.
pub fn keep(
    kept: &mut Items<StepMap>,
    step: u32,
    n: u32,
    operation: Operation,
    map: &Map,
) -> Result<(), AllocError>
    ensures { OnOk result (kept.new ≡ with_kept step kept.old n operation map.now) }
{
    if !operation.kept {
        return Ok(());
    }
    kept.push(StepMap {
        step,
        operation: n,
        cells: map.share()?,
    })
}
