//! How the tasks of an operation read maps.

ghost use Rattle.std.specs.Prelude.{◌≡◌, ◌≤◌, ◌+◌, ◌*◌};
ghost use Rattle.text_base.specs.Limits.{most_cells};
ghost use Rattle.task_graph.specs.Classes.{before_value, op_class, classes_of, tasks_for};

use map_meaning::{Op, Operand, Operation};

/// How the tasks of an operation read maps.
#[derive(Clone, Copy, Debug, PartialEq, Eq)]
pub enum Class {
    /// Each task reads its own tile.
    Local,
    /// Each task reads the tiles that its windows meet.
    Window,
    /// Each task reads the tiles next to its own.
    Near,
    /// Shares of tiles are merged and spread.
    Area,
    /// Each task reads its own tile, and what flows into it.
    Flow,
}

/// How the tasks of an operation read maps.
pub fn op_class(op: Op) -> Class
    ensures { result ≡ op_class op }
{
    match op {
        Op::WindowTotal
        | Op::WindowAverage
        | Op::WindowMinimum
        | Op::WindowMaximum
        | Op::WindowDiversity
        | Op::WindowMajority => Class::Window,
        Op::AreaTotal
        | Op::AreaAverage
        | Op::AreaMinimum
        | Op::AreaMaximum
        | Op::AreaDiversity
        | Op::AreaMajority
        | Op::AreaArea
        | Op::MapTotal
        | Op::MapMinimum
        | Op::MapMaximum => Class::Area,
        Op::Near(_) => Class::Near,
        Op::Flow(_) => Class::Flow,
        _ => Class::Local,
    }
}

/// The operand that has the classes.
pub(crate) fn classes(operation: Operation) -> Operand
    ensures { result ≡ classes_of operation }
{
    match operation.op {
        Op::AreaTotal
        | Op::AreaAverage
        | Op::AreaMinimum
        | Op::AreaMaximum
        | Op::AreaDiversity
        | Op::AreaMajority => operation.b,
        Op::AreaArea => operation.a,
        _ => Operand::Unused,
    }
}

/// How many tasks an operation has.
pub(crate) fn size(tiles: u32, op: Op) -> u32
    requires { tiles ≤ most_cells }
    ensures value { result ≡ tasks_for tiles (op_class op) }
    ensures few { result ≤ 2 * tiles + 1 }
{
    match op_class(op) {
        Class::Area => tiles + (1 + tiles),
        Class::Local => tiles,
        Class::Window => tiles,
        Class::Near => tiles,
        Class::Flow => tiles,
    }
}

/// How many tasks of an operation come before those that give its value.
pub(crate) fn before(tiles: u32, op: Op) -> u32
    requires { tiles ≤ most_cells }
    ensures value { result ≡ before_value tiles (op_class op) }
    ensures few { result ≤ tiles + 1 }
{
    match op_class(op) {
        Class::Area => tiles + 1,
        Class::Local => 0,
        Class::Window => 0,
        Class::Near => 0,
        Class::Flow => 0,
    }
}
