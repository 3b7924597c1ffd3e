ghost use Rattle.std.specs.Prelude.{◌≡◌, IfOk, length};
ghost use Rattle.flow_task.specs.Kits.{KnowsAll};
ghost use Rattle.map_meaning.specs.Programs.{IsWellFormed};
ghost use Rattle.map_meaning.specs.Spans.{IsSpan, Knows, stage_of};
ghost use Rattle.map_meaning.specs.Table.{is_transport};

use crate::held::{hold, keep, let_go_of_operands};
use crate::readers::last_readers;
use crate::site::{first_operation, span_operations};
use crate::value::value;
use flow_task::FlowKit;
use map_meaning::{Known, Program, Span, StageEnd};
use span_operands::span_start;
use sqlite_items::Items;
use std::alloc::{AllocError, Global};

/// The kept maps of a stage of `initial` or of one step, or its first Over.
pub fn stage<K: FlowKit>(
    alloc: Global,
    kit: K,
    program: &Program,
    span: Span,
    known: &Known,
) -> Result<StageEnd, AllocError>
    requires kit { KnowsAll is_transport (K.known kit) }
    requires program { IsWellFormed program.now }
    requires span { IsSpan program.now span 1 }
    requires known { Knows program.now span known.now }
    ensures { IfOk result (λ end. end ≡ stage_of program.now span known.now) }
{
    let step = span_start(span);
    let first = first_operation(span);
    let operations = span_operations(program, span);
    let last = last_readers(alloc, span, operations)?;
    let mut held = Items::new(alloc);
    let mut kept = Items::new(alloc);
    for (n, operation) in operations.iter().enumerate() {
        let n = n as u32;
        let map = match value(
            alloc,
            kit,
            program,
            *operation,
            span,
            known,
            held.as_slice(),
        )? {
            Ok(map) => map,
            Err(at) => {
                return Ok(StageEnd {
                    maps: Items::new(alloc),
                    over: Some(at),
                });
            }
        };
        keep(&mut kept, step, first + n, *operation, &map)?;
        let_go_of_operands(&mut held, &last, n, span, *operation);
        hold(&mut held, &last, n, map)?;
    }
    Ok(StageEnd {
        maps: kept,
        over: None,
    })
}
