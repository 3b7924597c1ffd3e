ghost use Rattle.std.specs.Prelude.{◌≡◌, ◌+◌, ◌++◌, length, IfOk, OnOk};
ghost use Rattle.map_meaning.specs.StackNames.{in_digits, stack_file};

use cell_values::Word;
use std::alloc::{AllocError, Global};

// Appends a number in so many decimal digits, with zeros on the left.
fn put_digits(count: usize, number: u32, into: &mut Vec<u8>) -> Result<(), AllocError>
    ensures digits { OnOk result (into.new.items ≡ into.old.items ++ in_digits count number) }
    ensures count { OnOk result (length into.new.items ≡ length into.old.items + count) }
{
    if count == 0 {
        return Ok(());
    }
    put_digits(count - 1, number / 10, into)?;
    into.push(b'0' + (number % 10) as u8)?;
    Ok(())
}

/// The file of a stack at a step: eleven bytes and a point, as `rain0000.001`.
pub fn stack_file(alloc: Global, prefix: &[u8], step: u32) -> Result<Word, AllocError>
    ensures { IfOk result (λ file. file ≡ stack_file prefix.now step) }
{
    let mut name = Vec::with_capacity(alloc, 12)?;
    name.extend_from_slice(prefix)?;
    let digits = 11usize.saturating_sub(prefix.len());
    put_digits(digits, step, &mut name)?;
    name.insert(8, b'.')?;
    Word::new(alloc, &name)
}
