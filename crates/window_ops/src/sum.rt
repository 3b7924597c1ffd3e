//! Sums with the number of their values.

ghost use Rattle.std.specs.Prelude.{◌≡◌, ◌≤◌};
ghost use Rattle.window_ops.specs.inside.Sums.{IsSmall, most_summed, no_sum, outcome_of_sum, sum_join, sum_of_cell};

use cell_values::{Cell, Kind, Over, round_div, to_cell};

/// What is asked of the values' sum.
#[derive(Clone, Copy)]
pub enum Summed {
    /// The sum itself.
    All,
    /// The sum over the number of the values.
    Mean,
}

/// The sum of some values, and how many there are.
#[derive(Clone, Copy)]
pub struct Sum {
    pub total: i128,
    pub count: u32,
}

impl Sum {
    /// The sum of no values.
    pub fn none() -> Sum
        ensures { result ≡ no_sum }
    {
        Sum { total: 0, count: 0 }
    }

    /// A cell as a sum.
    pub fn of(cell: Cell) -> Sum
        ensures value { result ≡ sum_of_cell cell }
        ensures small { IsSmall 1 result }
    {
        match cell {
            Cell::Mv => Sum { total: 0, count: 0 },
            Cell::Val(value) => Sum {
                total: value as i128,
                count: 1,
            },
        }
    }

    /// Two sums as one.
    pub fn join(self, other: Sum) -> Sum
        requires small { IsSmall most_summed self }
        requires other_small { IsSmall most_summed other }
        ensures { result ≡ sum_join self other }
    {
        Sum {
            total: self.total + other.total,
            count: self.count + other.count,
        }
    }

    /// What a sum has beside a part of it.
    pub fn without(self, part: Sum) -> Sum
        requires small { IsSmall most_summed self }
        requires part_small { IsSmall most_summed part }
        requires part { part.count ≤ self.count }
        ensures { (rest : Sum) → self ≡ sum_join part rest → result ≡ rest }
    {
        Sum {
            total: self.total - part.total,
            count: self.count - part.count,
        }
    }

    /// What is asked of the sum: a missing value where there is no value.
    pub fn outcome(self, summed: Summed) -> Result<Cell, Over>
        requires { IsSmall 1000 self }
        ensures { result ≡ outcome_of_sum summed self }
    {
        if self.count == 0 {
            return Ok(Cell::Mv);
        }
        match summed {
            Summed::All => to_cell(Kind::Scalar, self.total),
            Summed::Mean => to_cell(Kind::Scalar, round_div(self.total, self.count as i128)),
        }
    }
}
