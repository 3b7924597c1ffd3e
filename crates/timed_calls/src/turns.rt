//! Turns of one seat, which nobody contends for.

ghost use Rattle.std.specs.Prelude.{◌≡◌, ℕ, List, [], ◌∷◌};
ghost use Rattle.turn_cell.specs.Seats.{authors_of, IsSeatOf};

use crate::best::Best;
use std::rt::Clock;
use std::sync::Wait;
use std::test::Fail;
use std::time::Instant;
use turn_cell::{Chronicle, Job, TurnCell, TurnSeat};

/// How many turns a round has.
const TURNS: u64 = 1_000_000;

/// How many rounds are timed.
const ROUNDS: u32 = 20;

/// A number, without a history.
#[derive(Drop)]
struct Tally {
    number: u64,
}

impl Chronicle for Tally {
    type Plan = u64;

    type Entry = u64;

    ghost plan = { λ _. 0 };

    ghost history = { λ _. [] };

    ghost author = { λ entry. entry };
}

/// Adds a number.
#[derive(Drop)]
struct Add(u64);

impl Job<Tally> for Add {
    type Answer = u64;

    ghost acts_as = { λ _. 0 };

    ghost can_act = { λ _ _. Unit {0} };

    ghost gives = { λ _ _ _ _. Unit {0} };

    fn act(self, value: &mut Tally) -> u64 {
        value.number = value.number.wrapping_add(self.0);
        value.number
    }
}

// A round of turns, each of which adds the number that the one before gave.
fn take_turns<R: Wait>(rt: &R, cell: &TurnCell<Tally>, seat: &mut TurnSeat<Tally>) -> u64
    requires cell { IsSeatOf cell.now seat.old }
    requires author { authors_of seat.old ≡ 0 ∷ [] }
    ensures cell { IsSeatOf cell.now seat.new }
    ensures author { authors_of seat.new ≡ 0 ∷ [] }
{
    let mut number = 1u64;
    for n in 0..TURNS {
        number = cell.with_turn(rt, seat, Add(number ^ n));
    }
    number
}

// Times rounds of turns, and prints the best one.
fn time_rounds<R: Clock + Print + Wait>(
    rt: &R,
    cell: &TurnCell<Tally>,
    seat: &mut TurnSeat<Tally>,
) -> Result<(), Fail>
    requires cell { IsSeatOf cell.now seat.old }
    requires author { authors_of seat.old ≡ 0 ∷ [] }
{
    let mut best = Best::none();
    let mut sum = 0u64;
    for _ in 0..ROUNDS {
        let start = Instant::now(rt)?;
        sum = sum.wrapping_add(take_turns(rt, cell, seat));
        best.note(rt, start)?;
    }
    best.print_with(rt, "turn", sum)
}

/// Times turns, and prints the best round in nanoseconds.
pub fn time_turns<R: Clock + Print + AllocGlobal + Wait>(rt: &R) -> Result<(), Fail> {
    let Ok((cell, mut seat)) = TurnCell::make(rt.alloc(), Tally { number: 0 }, 1) else {
        println!(rt; "no memory")?;
        return Ok(());
    };
    time_rounds(rt, &cell, &mut seat)
}
