//! What holds of every work.

ghost use Rattle.cell_ops.specs.Work.{GiveTheMeaning};

/// The work of an operation gives what the operation means, at any place and of any operands.
pub fn works_give_what_operations_mean()
    ensures { GiveTheMeaning }
{}
