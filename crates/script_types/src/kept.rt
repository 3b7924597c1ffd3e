ghost use Rattle.std.specs.Prelude.{◌≡◌, ◌==◌, IfOk, OnOk, length};
ghost use Rattle.std.specs.List.{list_any};
ghost use Rattle.map_meaning.specs.Programs.{is_initial, is_last, is_read_behind, operands_of};
ghost use Rattle.script_types.specs.inside.Kept.{AreBegins, KeepsOperations, Marks, begins_stage, is_earlier, is_kept_by, is_kept_in_steps_by, is_marked, is_now_or_last, kept_where, some_mask, some_operand, some_output};

use map_meaning::{DrainFrom, DrainUse, Operand, Operation, OutputUse};
use sqlite_items::Items;
use std::alloc::{AllocError, Global};

/// What was written of statements.
#[derive(Drop)]
pub struct Written {
    pub initial: Items<Operation>,
    pub dynamic: Items<Operation>,
    pub drains: Items<DrainUse>,
    pub outputs: Items<OutputUse>,
}

// Marks the operation with this number, where there is one.
fn mark(marks: &mut [bool], number: u32)
    ensures { Marks marks.old marks.new (λ n. number == n) }
{
    let at = number as usize;
    if at < marks.len() {
        marks[at] = true;
    }
}

// Marks the operation of `initial` that an operand may be.
fn mark_initial(marks: &mut [bool], operand: Operand)
    ensures { Marks marks.old marks.new (λ n. is_initial n operand) }
{
    match operand {
        Operand::Initial(number) => mark(marks, number),
        Operand::Last { initial, .. } => mark(marks, initial),
        _ => {}
    }
}

// Marks the operation of `dynamic` that an operand may be at the step before.
fn mark_last(marks: &mut [bool], operand: Operand)
    ensures { Marks marks.old marks.new (λ n. is_last n operand) }
{
    match operand {
        Operand::Last { dynamic, .. } => mark(marks, dynamic),
        _ => {}
    }
}

// Marks the operation of `dynamic` that an operand may be, at the step or the one before.
fn mark_step(marks: &mut [bool], operand: Operand)
    ensures { Marks marks.old marks.new (λ n. is_now_or_last n operand) }
{
    match operand {
        Operand::Now(number) => mark(marks, number),
        Operand::Last { dynamic, .. } => mark(marks, dynamic),
        _ => {}
    }
}

// Marks what an operation of `dynamic` reads of `initial`, and of the step before.
fn mark_read(marks: &mut [bool], step_marks: &mut [bool], operation: &Operation)
    ensures marks { Marks marks.old marks.new (λ n. list_any (is_initial n) (operands_of operation.now)) }
    ensures step_marks { Marks step_marks.old step_marks.new (λ n. list_any (is_last n) (operands_of operation.now)) }
{
    mark_initial(marks, operation.a);
    mark_initial(marks, operation.b);
    mark_initial(marks, operation.c);
    mark_initial(marks, operation.d);
    mark_last(step_marks, operation.a);
    mark_last(step_marks, operation.b);
    mark_last(step_marks, operation.c);
    mark_last(step_marks, operation.d);
}

// Marks what the operations of `dynamic` read of `initial`, and of the step before.
fn mark_operations(marks: &mut [bool], step_marks: &mut [bool], operations: &[Operation])
    ensures marks { Marks marks.old marks.new (λ n. some_operand (is_initial n) operations.now) }
    ensures step_marks { Marks step_marks.old step_marks.new (λ n. some_operand (is_last n) operations.now) }
{
    for operation in operations {
        mark_read(marks, step_marks, operation);
    }
}

// Marks what the outputs write.
fn mark_outputs(marks: &mut [bool], step_marks: &mut [bool], outputs: &[OutputUse])
    ensures marks { Marks marks.old marks.new (λ n. some_output (is_initial n) outputs.now) }
    ensures step_marks { Marks step_marks.old step_marks.new (λ n. some_output (is_now_or_last n) outputs.now) }
{
    for output in outputs {
        mark_initial(marks, output.value);
        mark_step(step_marks, output.value);
    }
}

// Marks what masks drain maps.
fn mark_masks(marks: &mut [bool], drains: &[DrainUse])
    ensures { Marks marks.old marks.new (λ n. some_mask (is_initial n) drains.now) }
{
    for drain in drains {
        if let DrainFrom::Mask { by, .. } = drain.from {
            mark_initial(marks, by);
        }
    }
}

// Marks the operations of `initial` that stages begin with.
fn mark_begins(begins: &mut [bool], drains: &[DrainUse])
    ensures { Marks begins.old begins.new (λ n. begins_stage n drains.now) }
{
    for drain in drains {
        mark(begins, drain.after);
    }
}

// Marks the operation of an earlier stage that an operand may be, where the stage begins with this number.
fn mark_earlier(marks: &mut [bool], begin: usize, operand: Operand)
    ensures { Marks marks.old marks.new (λ n. is_earlier begin n operand) }
{
    let number = match operand {
        Operand::Initial(number) => number,
        Operand::Last { initial, .. } => initial,
        _ => return,
    };
    if (number as usize) < begin {
        mark(marks, number);
    }
}

// Marks what an operation of the stage that begins with this number reads of earlier stages.
fn mark_behind(marks: &mut [bool], begin: usize, operation: &Operation)
    ensures { Marks marks.old marks.new (λ n. list_any (is_earlier begin n) (operands_of operation.now)) }
{
    mark_earlier(marks, begin, operation.a);
    mark_earlier(marks, begin, operation.b);
    mark_earlier(marks, begin, operation.c);
    mark_earlier(marks, begin, operation.d);
}

// Marks what the operations of `initial` read of earlier stages. The begin of the stage is carried along.
fn mark_stages(marks: &mut [bool], begins: &[bool], operations: &[Operation], drains: &[DrainUse])
    requires count { length begins.now ≡ length operations.now }
    requires begins { AreBegins begins.now drains.now }
    ensures { Marks marks.old marks.new (λ n. is_read_behind drains.now n 0 operations.now) }
{
    let mut begin = 0;
    for at in 0..operations.len() {
        if begins[at] {
            begin = at;
        }
        mark_behind(marks, begin, &operations[at]);
    }
}

// The operations, kept where they are marked.
fn with_kept(
    alloc: Global,
    operations: &[Operation],
    marks: &[bool],
) -> Result<Items<Operation>, AllocError>
    requires { length marks.now ≡ length operations.now }
    ensures { IfOk result (λ new. new ≡ kept_where (is_marked marks.now) 0 operations.now) }
{
    let mut new = Items::new(alloc);
    for at in 0..operations.len() {
        new.push(Operation {
            kept: marks[at],
            ..operations[at]
        })?;
    }
    Ok(new)
}

// The marks of `initial`: what a step, a later stage or a mask reads, and what an output writes; and those of `dynamic`.
fn mark_all(
    alloc: Global,
    marks: &mut [bool],
    step_marks: &mut [bool],
    written: &Written,
) -> Result<(), AllocError>
    requires count { length marks.old ≡ length written.now.initial }
    ensures marks { OnOk result (Marks marks.old marks.new (λ n. is_kept_by written.now n)) }
    ensures step_marks { OnOk result (Marks step_marks.old step_marks.new (λ n. is_kept_in_steps_by written.now n)) }
{
    let mut begins = vec![in alloc; false; written.initial.len()]?;
    mark_begins(&mut begins, written.drains.as_slice());
    mark_operations(marks, step_marks, written.dynamic.as_slice());
    mark_outputs(marks, step_marks, written.outputs.as_slice());
    mark_masks(marks, written.drains.as_slice());
    mark_stages(
        marks,
        &begins,
        written.initial.as_slice(),
        written.drains.as_slice(),
    );
    Ok(())
}

/// Keeps each operation exactly where a step, a later stage of `initial` or a mask reads its map, or an output writes it. Takes
/// time in proportion to what was written.
pub fn keep(alloc: Global, written: &mut Written) -> Result<(), AllocError>
    ensures { OnOk result (KeepsOperations written.old written.new) }
{
    let mut marks = vec![in alloc; false; written.initial.len()]?;
    let mut step_marks = vec![in alloc; false; written.dynamic.len()]?;
    mark_all(alloc, &mut marks, &mut step_marks, written)?;
    let initial = with_kept(alloc, written.initial.as_slice(), &marks)?;
    let dynamic = with_kept(alloc, written.dynamic.as_slice(), &step_marks)?;
    written.initial = initial;
    written.dynamic = dynamic;
    Ok(())
}
