ghost use Rattle.std.specs.Prelude.{◌≢◌, pos, ℤ};
ghost use Rattle.cell_values.specs.Conversion.{direction_of};
ghost use Rattle.cell_values.specs.Rounding.{cut_quotient};
ghost use Rattle.cell_values.specs.declared.kind.Kind.TheVariants.{Scalar};
ghost use Rattle.meaning_laws.specs.Negatives.{TransportsBelowZero};
ghost use Rattle.meaning_laws.specs.Numbers.{ConversionsByExample, IsCutTowardZero, IsReduced};
ghost use Rattle.meaning_laws.specs.Points.{AreLastPoints};

/// One conversion of each row of the table.
pub fn conversions_by_example()
    ensures { ConversionsByExample }
{}

/// A scalar and its direction lie whole turns apart, and the direction is within one turn.
pub fn directions_are_reduced()
    ensures { (z : ℤ) → IsReduced z (direction_of Scalar z) }
{}

/// A fraction that is cut toward zero leaves a rest below the divisor, on the side of the dividend.
pub fn quotients_are_cut()
    ensures { (n d : ℤ) → d ≢ pos 0 → IsCutTowardZero n d (cut_quotient n d) }
{}

/// `catchment` is the last point of a cell's path that is not 0, 0 without any, and missing where one of them is missing.
pub fn catchments_are_last_points()
    ensures { AreLastPoints }
{}

/// Transports of numbers below 0, worked out by hand.
pub fn transports_below_zero_come_out()
    ensures { TransportsBelowZero }
{}
