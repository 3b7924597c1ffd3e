//! Turns of two seats, in one thread and in two.

ghost use Rattle.std.specs.Prelude.{◌≡◌, [], ◌∷◌, IfOk};
ghost use Rattle.std.specs.Thread.{IsSync};
ghost use Rattle.turn_cell.specs.Seats.{authors_of, history_seen, IsSeatOf, seats_of};

use crate::counter::{Add, Addition, Counter};
use std::alloc::Global;
use std::sync::Wait;
use std::test::Fail;
use std::thread::{Threads, join};
use turn_cell::{TurnCell, TurnSeat};

// One turn that adds.
fn add<R: Wait>(
    rt: &R,
    cell: &TurnCell<Counter>,
    seat: &mut TurnSeat<Counter>,
    by: u64,
    number: u64,
)
    requires cell { IsSeatOf cell.now seat.old }
    requires author { authors_of seat.old ≡ by ∷ [] }
    ensures cell { IsSeatOf cell.now seat.new }
    ensures author { authors_of seat.new ≡ by ∷ [] }
{
    let _ = cell.with_turn(rt, seat, Add(Addition { by, number }));
}

// The numbers below some number, each added in a turn of its own.
fn add_often<R: Wait>(
    rt: &R,
    cell: &TurnCell<Counter>,
    mut seat: TurnSeat<Counter>,
    by: u64,
    turns: u64,
) -> TurnSeat<Counter>
    requires cell { IsSeatOf cell.now seat }
    requires author { authors_of seat ≡ by ∷ [] }
    ensures cell { IsSeatOf cell.entry.now result }
    ensures author { authors_of result ≡ by ∷ [] }
{
    for number in 0..turns {
        add(rt, cell, &mut seat, by, number);
    }
    seat
}

// Two seats of one thread, in turn.
fn in_one_thread<R: Wait>(
    rt: &R,
    cell: &TurnCell<Counter>,
    mut root: TurnSeat<Counter>,
    mut other: TurnSeat<Counter>,
    turns: u64,
) -> (TurnSeat<Counter>, TurnSeat<Counter>)
    requires cell { IsSeatOf cell.now root × IsSeatOf cell.now other }
    requires authors { (authors_of root ≡ 0 ∷ []) × (authors_of other ≡ 1 ∷ []) }
    ensures cell { IsSeatOf cell.entry.now result.0 × IsSeatOf cell.entry.now result.1 }
    ensures authors { (authors_of result.0 ≡ 0 ∷ []) × (authors_of result.1 ≡ 1 ∷ []) }
{
    for number in 0..turns {
        add(rt, cell, &mut root, 0, number);
        add(rt, cell, &mut other, 1, number);
    }
    (root, other)
}

// Two threads with a seat each.
fn in_two_threads<R: Threads + Wait + Sync>(
    rt: &R,
    cell: &TurnCell<Counter>,
    root: TurnSeat<Counter>,
    other: TurnSeat<Counter>,
    turns: u64,
) -> (TurnSeat<Counter>, TurnSeat<Counter>)
    requires cell { IsSeatOf cell.now root × IsSeatOf cell.now other }
    requires authors { (authors_of root ≡ 0 ∷ []) × (authors_of other ≡ 1 ∷ []) }
    ensures cell { IsSeatOf cell.entry.now result.0 × IsSeatOf cell.entry.now result.1 }
    ensures authors { (authors_of result.0 ≡ 0 ∷ []) × (authors_of result.1 ≡ 1 ∷ []) }
{
    join(
        rt,
        move || -> TurnSeat<Counter>
            requires { IsSync R.row × IsSeatOf cell.now root × (authors_of root ≡ 0 ∷ []) }
            ensures { IsSeatOf cell.entry.now result × (authors_of result ≡ 0 ∷ []) }
        { add_often(rt, cell, root, 0, turns) },
        move || -> TurnSeat<Counter>
            requires { IsSync R.row × IsSeatOf cell.now other × (authors_of other ≡ 1 ∷ []) }
            ensures { IsSeatOf cell.entry.now result × (authors_of result ≡ 1 ∷ []) }
        { add_often(rt, cell, other, 1, turns) },
    )
}

// The counter after so many turns of two seats, or none where there was no memory.
fn counted<R: Threads + Wait + Sync>(
    rt: &R,
    alloc: Global,
    counter: Counter,
    turns: u64,
    threads: bool,
) -> Option<Counter>
    requires { counter.additions.items ≡ [] }
{
    let Ok((cell, mut root)) = TurnCell::make(alloc, counter, 2) else {
        return None;
    };
    let other = cell.split(&mut root);
    let (mut root, other) = if threads {
        in_two_threads(rt, &cell, root, other, turns)
    } else {
        in_one_thread(rt, &cell, root, other, turns)
    };
    cell.join(&mut root, other);
    Some(cell.close(root))
}

// How many numbers this author added, if it added them by 0, 1, 2 and so on.
fn added_in_order(additions: &[Addition], by: u64) -> Option<u64> {
    let mut next = 0u64;
    for addition in additions {
        if addition.by == by {
            if addition.number != next {
                return None;
            }
            next = next.wrapping_add(1);
        }
    }
    Some(next)
}

#[test]
fn two_seats_of_one_thread_add_three_times_each(rt: HostRuntime) -> Result<(), Fail> {
    let counter = Counter::new(rt.alloc(), 6)?;
    let counter = counted(&rt, rt.alloc(), counter, 3, false).ok_or("no memory")?;
    assert_eq!(rt; counter.additions.len(), 6);
    assert_eq!(rt; counter.sum, 6);
    assert_eq!(rt; added_in_order(counter.additions.as_slice(), 0), Some(3));
    assert_eq!(rt; added_in_order(counter.additions.as_slice(), 1), Some(3));
    Ok(())
}

#[test]
fn two_threads_add_ten_thousand_times_each(rt: HostRuntime) -> Result<(), Fail> {
    let counter = Counter::new(rt.alloc(), 20_000)?;
    let counter = counted(&rt, rt.alloc(), counter, 10_000, true).ok_or("no memory")?;
    assert_eq!(rt; counter.additions.len(), 20_000);
    assert_eq!(rt; counter.sum, 99_990_000);
    assert_eq!(rt;
        added_in_order(counter.additions.as_slice(), 0),
        Some(10_000)
    );
    assert_eq!(rt;
        added_in_order(counter.additions.as_slice(), 1),
        Some(10_000)
    );
    Ok(())
}
