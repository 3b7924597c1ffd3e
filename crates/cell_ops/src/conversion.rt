//! Conversions between kinds. One rule serves all pairs of kinds whose numbers are converted alike.

ghost use Rattle.std.specs.Prelude.{◌≡◌, ◌≤◌, IfOk};
ghost use Rattle.text_base.specs.Limits.{most_cells};
ghost use Rattle.cell_values.specs.declared.kind.Kind.TheVariants as kind;
ghost use Rattle.cell_values.specs.Conversion.{IsConversion, conversion_of};
ghost use Rattle.tile_map.specs.Args.{SpansPlaces, arg_cell};
ghost use Rattle.tile_map.specs.Parts.{part_of};

use crate::places::one;
use crate::rule::CellRule;
use cell_values::{Cell, Kind, Over, to_kind};
use map_meaning::{Arg, Part};
use std::alloc::{AllocError, Global};

/// A boolean as it is.
struct BooleanAsItIs;

/// A number as a boolean.
struct Truth;

/// A class, a boolean or a drain direction as a class.
struct ClassAsItIs;

/// A scalar as a class.
struct CutClass;

/// A whole number as a scalar.
struct Millionths;

/// A scalar or a direction as a scalar.
struct MillionthsAsTheyAre;

/// A scalar as a direction.
struct Turned;

/// A direction as it is.
struct DirectionAsItIs;

impl CellRule for BooleanAsItIs {
    ghost rule = { λ _ a _ _ _. conversion_of kind.Boolean kind.Boolean a };

    fn at(&self, a: Cell, _b: Cell, _c: Cell, _d: Cell) -> Result<Cell, Over> {
        to_kind(Kind::Boolean, Kind::Boolean, a)
    }
}

impl CellRule for Truth {
    ghost rule = { λ _ a _ _ _. conversion_of kind.Scalar kind.Boolean a };

    fn at(&self, a: Cell, _b: Cell, _c: Cell, _d: Cell) -> Result<Cell, Over> {
        to_kind(Kind::Scalar, Kind::Boolean, a)
    }
}

impl CellRule for ClassAsItIs {
    ghost rule = { λ _ a _ _ _. conversion_of kind.Nominal kind.Nominal a };

    fn at(&self, a: Cell, _b: Cell, _c: Cell, _d: Cell) -> Result<Cell, Over> {
        to_kind(Kind::Nominal, Kind::Nominal, a)
    }
}

impl CellRule for CutClass {
    ghost rule = { λ _ a _ _ _. conversion_of kind.Scalar kind.Nominal a };

    fn at(&self, a: Cell, _b: Cell, _c: Cell, _d: Cell) -> Result<Cell, Over> {
        to_kind(Kind::Scalar, Kind::Nominal, a)
    }
}

impl CellRule for Millionths {
    ghost rule = { λ _ a _ _ _. conversion_of kind.Nominal kind.Scalar a };

    fn at(&self, a: Cell, _b: Cell, _c: Cell, _d: Cell) -> Result<Cell, Over> {
        to_kind(Kind::Nominal, Kind::Scalar, a)
    }
}

impl CellRule for MillionthsAsTheyAre {
    ghost rule = { λ _ a _ _ _. conversion_of kind.Scalar kind.Scalar a };

    fn at(&self, a: Cell, _b: Cell, _c: Cell, _d: Cell) -> Result<Cell, Over> {
        to_kind(Kind::Scalar, Kind::Scalar, a)
    }
}

impl CellRule for Turned {
    ghost rule = { λ _ a _ _ _. conversion_of kind.Scalar kind.Directional a };

    fn at(&self, a: Cell, _b: Cell, _c: Cell, _d: Cell) -> Result<Cell, Over> {
        to_kind(Kind::Scalar, Kind::Directional, a)
    }
}

impl CellRule for DirectionAsItIs {
    ghost rule = { λ _ a _ _ _. conversion_of kind.Directional kind.Directional a };

    fn at(&self, a: Cell, _b: Cell, _c: Cell, _d: Cell) -> Result<Cell, Over> {
        to_kind(Kind::Directional, Kind::Directional, a)
    }
}

/// The conversion of a map between kinds.
pub fn converted(
    alloc: Global,
    from: Kind,
    to: Kind,
    len: usize,
    a: Arg<'_>,
) -> Result<Part, AllocError>
    requires conversion { IsConversion from to }
    requires few { len ≤ most_cells }
    requires a { SpansPlaces a len }
    ensures { IfOk result (λ part. part ≡ part_of (λ place. conversion_of from to (arg_cell a.entry place)) len) }
{
    match to {
        Kind::Boolean => match from {
            Kind::Boolean => one(alloc, &BooleanAsItIs, len, a),
            Kind::Nominal | Kind::Ordinal | Kind::Scalar => one(alloc, &Truth, len, a),
            Kind::Directional | Kind::Ldd => unreachable!(),
        },
        Kind::Nominal | Kind::Ordinal => match from {
            Kind::Boolean | Kind::Nominal | Kind::Ordinal | Kind::Ldd => {
                one(alloc, &ClassAsItIs, len, a)
            }
            Kind::Scalar => one(alloc, &CutClass, len, a),
            Kind::Directional => unreachable!(),
        },
        Kind::Scalar => match from {
            Kind::Boolean | Kind::Nominal | Kind::Ordinal | Kind::Ldd => {
                one(alloc, &Millionths, len, a)
            }
            Kind::Scalar | Kind::Directional => one(alloc, &MillionthsAsTheyAre, len, a),
        },
        Kind::Directional => match from {
            Kind::Scalar => one(alloc, &Turned, len, a),
            Kind::Directional => one(alloc, &DirectionAsItIs, len, a),
            Kind::Boolean | Kind::Nominal | Kind::Ordinal | Kind::Ldd => unreachable!(),
        },
        Kind::Ldd => unreachable!(),
    }
}
