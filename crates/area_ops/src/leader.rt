//! The leaders of classes.

ghost use Rattle.std.specs.Prelude.{◌≡◌, ◌<◌, ◌^◌, true};
ghost use Rattle.area_ops.specs.inside.Counts.{counts_numbers};
ghost use Rattle.area_ops.specs.inside.Leaders.{different_of, leader_with, led_result, next_leader};

use crate::tally::MILLION;
use cell_values::{Cell, Kind, Over, to_cell};
use region_meaning::AreaOp;

/// The most frequent number of a class, and how many different ones there are.
#[derive(Clone, Copy, Debug)]
pub struct Leader {
    /// How many different numbers there are.
    pub different: u64,
    /// The most frequent one, the least of several.
    pub number: i64,
    /// How often it stands there.
    pub count: u32,
}

impl Leader {
    // The leader when one more number is known, that stands so many times.
    fn next(self, number: i64, count: u32) -> Leader
        requires { self.different < 2 ^ 63 }
        ensures { result ≡ next_leader self number count }
    {
        let different = self.different + 1;
        if self.count < count || self.count == count && number < self.number {
            Leader {
                different,
                number,
                count,
            }
        } else {
            Leader { different, ..self }
        }
    }

    /// The leader when one more number is known, that stands so many times, where there may be none yet.
    pub fn with(leader: Option<Leader>, number: i64, count: u32) -> Leader
        requires { different_of leader < 2 ^ 63 }
        ensures { result ≡ leader_with leader number count }
    {
        match leader {
            None => Leader {
                different: 1,
                number,
                count,
            },
            Some(leader) => leader.next(number, count),
        }
    }

    /// What an operation that counts gives of the class.
    pub fn result(self, op: AreaOp) -> Result<Cell, Over>
        requires { counts_numbers op ≡ true }
        ensures { result ≡ led_result op self }
    {
        match op {
            AreaOp::Diversity => {
                to_cell(
                    Kind::Scalar,
                    i128::from(self.different) * i128::from(MILLION),
                )
            }
            AreaOp::Majority => Ok(Cell::Val(self.number)),
            _ => unreachable!(),
        }
    }
}
