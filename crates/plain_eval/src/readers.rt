ghost use Rattle.std.specs.Prelude.{◌≡◌, ◌<◌, ◌≤◌, ℕ, length, All, IfOk, slice_index_or, if◌then◌else◌};
ghost use Rattle.map_meaning.specs.Limits.{most_operations};
ghost use Rattle.plain_eval.specs.inside.Readers.{AreLastReaders, NamesBelow, NotesReader, ReadsBelow};
ghost use Rattle.plain_eval.specs.inside.Sections.{is_own};

use crate::site::own_number;
use map_meaning::{Operand, Operation, Span};
use std::alloc::{AllocError, Global};

// Notes that the operation n reads the map that an operand names.
fn note(last: &mut [u32], n: u32, span: Span, operand: Operand)
    requires { NamesBelow span (length last.old) operand }
    ensures count { length last.new ≡ length last.old }
    ensures each { (k : ℕ) → k < length last.old → slice_index_or last.new k 0 ≡ (if is_own span k operand then n else slice_index_or last.old k 0) }
{
    if let Some(k) = own_number(span, operand) {
        last[k as usize] = n;
    }
}

// Notes that the operation n reads the maps that its operands name.
fn note_reader(last: &mut [u32], n: u32, span: Span, operation: Operation)
    requires { ReadsBelow span (length last.old) operation }
    ensures { NotesReader span n operation last.old last.new }
{
    note(last, n, span, operation.a);
    note(last, n, span, operation.b);
    note(last, n, span, operation.c);
    note(last, n, span, operation.d);
}

// The numbers of so many operations.
fn numbers(alloc: Global, count: usize) -> Result<Vec<u32>, AllocError>
    requires { count ≤ most_operations }
    ensures count { IfOk result (λ numbers. length numbers.items ≡ count) }
    ensures each { IfOk result (λ numbers. (k : ℕ) → k < count → slice_index_or numbers.items k 0 ≡ k) }
{
    let mut numbers = Vec::with_capacity(alloc, count)?;
    for n in 0..count {
        numbers.push(n as u32)?;
    }
    Ok(numbers)
}

/// For each operation of a span's section the number of the last one that reads its map; its own number where none does.
pub fn last_readers(
    alloc: Global,
    span: Span,
    operations: &[Operation],
) -> Result<Vec<u32>, AllocError>
    requires few { length operations.now ≤ most_operations }
    requires below { All (ReadsBelow span (length operations.now)) operations.now }
    ensures { IfOk result (λ last. AreLastReaders span operations.now last.items) }
{
    let mut last = numbers(alloc, operations.len())?;
    for (n, operation) in operations.iter().enumerate() {
        note_reader(&mut last, n as u32, span, *operation);
    }
    Ok(last)
}
