//! Tallies of numbers.

ghost use Rattle.std.specs.Prelude.{◌≡◌, ◌+◌, ◌≤◌, false};
ghost use Rattle.text_base.specs.Limits.{most_cells};
ghost use Rattle.area_ops.specs.inside.Counts.{counts_numbers};
ghost use Rattle.area_ops.specs.inside.Tallies.{IsTally, no_tally, tally_join, tally_of_one, tally_result, tally_sum, tally_value};

use cell_values::{Cell, Kind, Over, round_div, to_cell};
use region_meaning::AreaOp;

/// How many millionths make one.
pub const MILLION: i64 = 1_000_000;

/// What is kept of some numbers.
#[derive(Clone, Copy, Debug)]
pub struct Tally {
    /// How many there are.
    pub count: u32,
    /// Their sum.
    pub total: i128,
    /// The least, or 0 where there is none.
    pub least: i64,
    /// The greatest, or 0 where there is none.
    pub greatest: i64,
}

impl Tally {
    /// The tally of no number.
    pub fn none() -> Tally
        ensures value { result ≡ no_tally }
        ensures sound { IsTally result }
    {
        Tally {
            count: 0,
            total: 0,
            least: 0,
            greatest: 0,
        }
    }

    /// The tally of one number.
    pub fn one(number: i64) -> Tally
        ensures value { result ≡ tally_of_one number }
        ensures sound { IsTally result }
    {
        Tally {
            count: 1,
            total: number as i128,
            least: number,
            greatest: number,
        }
    }

    // The tally of the numbers of two that have some.
    fn sum(self, other: Tally) -> Tally
        requires some { 1 ≤ self.count }
        requires self_sound { IsTally self }
        requires other_sound { IsTally other }
        requires few { self.count + other.count ≤ most_cells }
        ensures value { result ≡ tally_sum self other }
        ensures sound { IsTally result }
    {
        Tally {
            count: self.count + other.count,
            total: self.total + other.total,
            least: self.least.min(other.least),
            greatest: self.greatest.max(other.greatest),
        }
    }

    /// The tally of the numbers of two.
    #[tactic(auto, using(crate::proofs::TallyLemmas::none_join, crate::proofs::TallyLemmas::join_none, crate::proofs::TallyLemmas::join_some))]
    pub fn join(self, other: Tally) -> Tally
        requires self_sound { IsTally self }
        requires other_sound { IsTally other }
        requires few { self.count + other.count ≤ most_cells }
        ensures value { result ≡ tally_join self other }
        ensures sound { IsTally result }
    {
        if other.count == 0 {
            return self;
        }
        if self.count == 0 {
            return other;
        }
        self.sum(other)
    }

    // What an operation gives of some numbers.
    fn value(self, op: AreaOp) -> Result<Cell, Over>
        requires op { counts_numbers op ≡ false }
        requires some { 1 ≤ self.count }
        requires few { self.count ≤ most_cells }
        requires sound { IsTally self }
        ensures { result ≡ tally_value op self }
    {
        match op {
            AreaOp::Total => to_cell(Kind::Scalar, self.total),
            AreaOp::Average => { to_cell(Kind::Scalar, round_div(self.total, self.count as i128)) }
            AreaOp::Minimum => Ok(Cell::Val(self.least)),
            AreaOp::Maximum => Ok(Cell::Val(self.greatest)),
            AreaOp::Diversity | AreaOp::Majority => unreachable!(),
            AreaOp::Area => Ok(Cell::Val(self.count as i64 * MILLION)),
        }
    }

    /// What an operation gives of the numbers: a missing value where there is none.
    #[tactic(auto, unfolding(crate::specs::inside::Tallies::tally_result))]
    pub fn result(self, op: AreaOp) -> Result<Cell, Over>
        requires op { counts_numbers op ≡ false }
        requires few { self.count ≤ most_cells }
        requires sound { IsTally self }
        ensures { result ≡ tally_result op self }
    {
        if self.count == 0 {
            return Ok(Cell::Mv);
        }
        self.value(op)
    }
}
