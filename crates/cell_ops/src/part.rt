ghost use Rattle.std.specs.Prelude.{◌≡◌, ◌≤◌, IfOk, true};
ghost use Rattle.text_base.specs.Limits.{most_cells};
ghost use Rattle.tile_map.specs.Args.{SpansPlaces, arg_cell};
ghost use Rattle.tile_map.specs.Parts.{part_of};
ghost use Rattle.cell_ops.specs.Work.{IsWork, is_plain, work_outcome};
ghost use Rattle.cell_ops.specs.declared.work.CellWork.TheVariants.{Plain};

use crate::choice::{Copy, Cover, Defined, IfElse, IfThen};
use crate::comparison::{Compared, Equal, Greater, GreaterEqual, Less, LessEqual, NotEqual};
use crate::conversion::converted;
use crate::extreme::{Greatest, Least};
use crate::logic::{And, Not, Or, Xor};
use crate::lookup::{at_step, looked_up};
use crate::places::{one, three, two};
use crate::scalar::{
    Difference, Negative, OnScalar, Product, Quotient, Remainder, Size, Sum, WholeAbove,
    WholeBelow, WholeNearest, WholeQuotient,
};
use crate::work::CellWork;
use map_meaning::{Arg, Op, Part};
use std::alloc::{AllocError, Global};

// A plain operation at all places.
#[tactic(auto, unfolding(crate::specs::Work::work_outcome, map_meaning::specs::Rules::rule_of))]
fn plain(
    alloc: Global,
    op: Op,
    len: usize,
    a: Arg<'_>,
    b: Arg<'_>,
    c: Arg<'_>,
    _d: Arg<'_>,
) -> Result<Part, AllocError>
    requires plain { is_plain op ≡ true }
    requires few { len ≤ most_cells }
    requires a { SpansPlaces a len }
    requires b { SpansPlaces b len }
    requires c { SpansPlaces c len }
    ensures { IfOk result (λ part. part ≡ part_of (λ place. work_outcome (Plain op) (arg_cell a.entry place) (arg_cell b.entry place) (arg_cell c.entry place) (arg_cell _d.entry place)) len) }
{
    match op {
        Op::CopyOf => one(alloc, &Copy, len, a),
        Op::Add => two(alloc, &Sum, len, a, b),
        Op::Sub => two(alloc, &Difference, len, a, b),
        Op::Mul => two(alloc, &Product, len, a, b),
        Op::Div => two(alloc, &Quotient, len, a, b),
        Op::IntDiv => two(alloc, &WholeQuotient, len, a, b),
        Op::IntMod => two(alloc, &Remainder, len, a, b),
        Op::Neg => one(alloc, &OnScalar { function: Negative }, len, a),
        Op::Abs => one(alloc, &OnScalar { function: Size }, len, a),
        Op::RoundDown => one(
            alloc,
            &OnScalar {
                function: WholeBelow,
            },
            len,
            a,
        ),
        Op::RoundUp => one(
            alloc,
            &OnScalar {
                function: WholeAbove,
            },
            len,
            a,
        ),
        Op::RoundOff => one(
            alloc,
            &OnScalar {
                function: WholeNearest,
            },
            len,
            a,
        ),
        Op::Min => two(alloc, &Least, len, a, b),
        Op::Max => two(alloc, &Greatest, len, a, b),
        Op::Equal => two(alloc, &Compared { comparison: Equal }, len, a, b),
        Op::NotEqual => two(
            alloc,
            &Compared {
                comparison: NotEqual,
            },
            len,
            a,
            b,
        ),
        Op::Less => two(alloc, &Compared { comparison: Less }, len, a, b),
        Op::LessEqual => two(
            alloc,
            &Compared {
                comparison: LessEqual,
            },
            len,
            a,
            b,
        ),
        Op::Greater => two(
            alloc,
            &Compared {
                comparison: Greater,
            },
            len,
            a,
            b,
        ),
        Op::GreaterEqual => two(
            alloc,
            &Compared {
                comparison: GreaterEqual,
            },
            len,
            a,
            b,
        ),
        Op::And => two(alloc, &Compared { comparison: And }, len, a, b),
        Op::Or => two(alloc, &Compared { comparison: Or }, len, a, b),
        Op::Xor => two(alloc, &Compared { comparison: Xor }, len, a, b),
        Op::Not => one(alloc, &Not, len, a),
        Op::IfThen => two(alloc, &IfThen, len, a, b),
        Op::IfElse => three(alloc, &IfElse, len, a, b, c),
        Op::Cover => two(alloc, &Cover, len, a, b),
        Op::Defined => one(alloc, &Defined, len, a),
        Op::ToBoolean
        | Op::ToNominal
        | Op::ToOrdinal
        | Op::ToScalar
        | Op::ToDirectional
        | Op::LookupBoolean
        | Op::LookupNominal
        | Op::LookupOrdinal
        | Op::LookupScalar
        | Op::LookupDirectional
        | Op::TimeInputBoolean
        | Op::TimeInputNominal
        | Op::TimeInputOrdinal
        | Op::TimeInputScalar
        | Op::TimeInputDirectional
        | Op::WindowTotal
        | Op::WindowAverage
        | Op::WindowMinimum
        | Op::WindowMaximum
        | Op::WindowDiversity
        | Op::WindowMajority
        | Op::AreaTotal
        | Op::AreaAverage
        | Op::AreaMinimum
        | Op::AreaMaximum
        | Op::AreaDiversity
        | Op::AreaMajority
        | Op::AreaArea
        | Op::MapTotal
        | Op::MapMinimum
        | Op::MapMaximum
        | Op::Near(_)
        | Op::Flow(_) => unreachable!(),
    }
}

/// A cell operation at all of `len` places: the cell of each, a missing value where the result is out of range, and the first
/// such place. The operands are used from `a` on; an operand that is used and not there is missing at each place.
#[tactic(auto, unfolding(crate::specs::Work::work_outcome))]
pub fn cell_part(
    alloc: Global,
    work: CellWork<'_>,
    len: usize,
    a: Arg<'_>,
    b: Arg<'_>,
    c: Arg<'_>,
    d: Arg<'_>,
) -> Result<Part, AllocError>
    requires work { IsWork work }
    requires few { len ≤ most_cells }
    requires a { SpansPlaces a len }
    requires b { SpansPlaces b len }
    requires c { SpansPlaces c len }
    requires d { SpansPlaces d len }
    ensures { IfOk result (λ part. part ≡ part_of (λ place. work_outcome work.entry (arg_cell a.entry place) (arg_cell b.entry place) (arg_cell c.entry place) (arg_cell d.entry place)) len) }
{
    match work {
        CellWork::Plain(op) => plain(alloc, op, len, a, b, c, d),
        CellWork::Convert { from, to } => converted(alloc, from, to, len, a),
        CellWork::Lookup { table, keys } => looked_up(alloc, table, keys, len, a, b, c, d),
        CellWork::SeriesAt(series, step) => at_step(alloc, series, step, len, a),
    }
}
