//! The cell, its seats, and their calls.

ghost use Rattle.std.specs.Prelude.{◌≡◌, ℕ, ◌+◌, ◌<◌, ◌≤◌, true, false, [], ◌∷◌, ◌++◌, length, Some, Box, IfOk, IfErr};
ghost use Rattle.turn_cell.specs.Authors.{authors_below, least_author, greatest_author, without_author, AreDistinct};
ghost use Rattle.turn_cell.specs.Histories.{Appends, is_author, entries_by, longer};
ghost use Rattle.turn_cell.specs.inside.Views.{boxed, HasSettled, MayFind, SettlesView, told_view, holding_view};
ghost use Rattle.std.specs.declared.alloc.Global.{Global};
ghost use mathlib.Core.List.{IsPrefix};

use crate::chronicle::{Chronicle, Job};
use crate::rule::{About, Cut, Give, Glue, Look, Settle, Slot, Take, Turns};
use crate::view::View;
use atomic_table::{Refused, Seat, Table};
use std::alloc::{AllocFailed, Global};
use std::sync::Wait;
use std::thread;

/// One value behind one turn word.
#[derive(Drop)]
pub struct TurnCell<B: Chronicle> {
    table: Table<Slot<B>, View<B::Plan, B::Entry>, About<B>, Turns<B>, Global>,
    ghost one_word: { table.shared.table_id.words ≡ 1 },
    ghost one_slot: { table.shared.table_id.slots ≡ 1 },
}

/// What one thread knows of a cell. It has no bytes.
pub struct TurnSeat<B: Chronicle> {
    seat: Seat<Slot<B>, View<B::Plan, B::Entry>>,
    ghost idle: { seat.me.1 ≡ [] },
    ghost free: { seat.me.0.holds ≡ false },
    ghost settled: { HasSettled seat.me.0 },
    ghost some: { 0 < length seat.me.0.authors },
    ghost distinct: { AreDistinct seat.me.0.authors },
    ghost single: { 2 ≤ length seat.me.0.authors → is_author 0 seat.me.0.authors ≡ true },
}

impl<B: Chronicle> Drop for TurnSeat<B> {
    fn drop(self) {
        let TurnSeat { seat: _ } = self;
    }
}

impl<B: Chronicle> TurnSeat<B> {
    fn into_inner(self) -> Seat<Slot<B>, View<B::Plan, B::Entry>>
        ensures { result ≡ self.seat }
    {
        let TurnSeat { seat } = self;
        seat
    }
}

// A list of this value alone.
fn alone<T>(alloc: Global, value: T) -> Result<Vec<Option<T>>, T>
    ensures made { IfOk result (λ slots. slots.items ≡ Some value ∷ []) }
    ensures refused { IfErr result (λ back. back ≡ value) }
{
    let mut slots = Vec::new(alloc);
    match slots.push(Some(value)) {
        Ok(()) => Ok(slots),
        Err(AllocFailed { value }) => {
            slots.destroy_empty();
            Err(value.unwrap())
        }
    }
}

// The value in a block of its own.
fn in_block<T>(alloc: Global, value: T) -> Result<Box<T>, T>
    ensures made { IfOk result (λ block. block.value ≡ value) }
    ensures refused { IfErr result (λ back. back ≡ value) }
{
    match Box::new(alloc, value) {
        Ok(block) => Ok(block),
        Err(AllocFailed { value }) => Err(value),
    }
}

// The one slot of a cell, with the value in a block.
fn laid<T>(alloc: Global, value: T) -> Result<Vec<Option<Box<T>>>, T>
    ensures made { IfOk result (λ slots. (block : Box T Global) × (slots.items ≡ Some block ∷ []) × (block.value ≡ value)) }
    ensures refused { IfErr result (λ back. back ≡ value) }
{
    let block = in_block(alloc, value)?;
    match alone(alloc, block) {
        Ok(slots) => Ok(slots),
        Err(block) => Err(Box::into_inner(block)),
    }
}

// The one value of a list.
fn only<T>(mut slots: Vec<Option<T>>) -> T
    requires { (value : T) × (slots.items ≡ Some value ∷ []) }
    ensures { slots.items ≡ Some result ∷ [] }
{
    let slot = slots.pop().unwrap();
    slots.destroy_empty();
    slot.unwrap()
}

// Lets the job act on the value of a block.
fn act_in<B: Chronicle, J: Job<B>>(block: &mut Box<B>, job: J) -> J::Answer
    requires { J.can_act job block.old.value }
    ensures gives { J.gives job block.old.value result block.new.value }
    ensures plan { B.plan block.new.value ≡ B.plan block.old.value }
    ensures history { Appends B.author (J.acts_as job) (B.history block.old.value) (B.history block.new.value) }
{
    job.act(&mut *block)
}

impl<B: Chronicle> TurnCell<B> {
    ghost use Rattle.turn_cell.specs.Seats.{plan_known, history_seen, authors_of, share_of, own_entries, IsSeatOf, seats_of};
    ghost use Rattle.turn_cell.specs.Turns.{MayMeet, IsTurn};

    /// A cell with this value, and its first seat, which has all authors. Where memory is refused the value comes back.
    pub fn make(alloc: Global, value: B, seats: u32) -> Result<(TurnCell<B>, TurnSeat<B>), B>
        requires seats { 0 < seats }
        requires empty { B.history value ≡ [] }
        ensures cell { IfOk result (λ r. IsSeatOf r.0 r.1 × (seats_of r.0 ≡ seats)) }
        ensures seat { IfOk result (λ r. (plan_known r.1 ≡ Some (B.plan value)) × (authors_of r.1 ≡ authors_below seats) × (history_seen r.1 ≡ [])) }
        ensures refused { IfErr result (λ v. v ≡ value) }
    {
        let about = About::of(&value, seats);
        let slots = laid(alloc, value)?;
        match Table::new(alloc, &[0], slots, &about) {
            Ok((table, seat)) => Ok((TurnCell { table }, TurnSeat { seat })),
            Err(Refused { slots }) => Err(Box::into_inner(only(slots))),
        }
    }

    /// A new seat, which gets the greatest of the seat's authors, and has seen what the seat has seen.
    pub fn split(&self, seat: &mut TurnSeat<B>) -> TurnSeat<B>
        requires cell { IsSeatOf self.now seat.old }
        requires share { 2 ≤ share_of seat.old }
        requires fresh { entries_by B.author (greatest_author (authors_of seat.old) ∷ []) (history_seen seat.old) ≡ [] }
        ensures cell { IsSeatOf self.now seat.new × IsSeatOf self.now result }
        ensures plan { (plan_known seat.new ≡ plan_known seat.old) × (plan_known result ≡ plan_known seat.old) }
        ensures seen { (history_seen seat.new ≡ history_seen seat.old) × (history_seen result ≡ history_seen seat.old) }
        ensures left { authors_of seat.new ≡ without_author (greatest_author (authors_of seat.old)) (authors_of seat.old) }
        ensures given { authors_of result ≡ greatest_author (authors_of seat.old) ∷ [] }
        ensures share { (share_of seat.new + 1 ≡ share_of seat.old) × (share_of result ≡ 1) }
        ensures own { (own_entries seat.new ≡ own_entries seat.old) × (own_entries result ≡ []) }
    {
        let given = self.table.shared.split_seat::<Cut>(&mut seat.seat);
        TurnSeat { seat: given }
    }

    /// Takes in another seat. The two have then seen the longer of their histories, which begins with the other.
    pub fn join(&self, seat: &mut TurnSeat<B>, other: TurnSeat<B>)
        requires cell { IsSeatOf self.now seat.old × IsSeatOf self.now other }
        requires root { is_author 0 (authors_of seat.old) ≡ true }
        ensures cell { IsSeatOf self.now seat.new }
        ensures plan { plan_known seat.new ≡ plan_known seat.old }
        ensures authors { authors_of seat.new ≡ authors_of seat.old ++ authors_of other }
        ensures share { (share_of other ≡ 1) × (share_of seat.new ≡ share_of seat.old + 1) }
        ensures seen { history_seen seat.new ≡ longer (history_seen seat.old) (history_seen other) }
        ensures begins { IsPrefix (history_seen seat.old) (history_seen seat.new) × IsPrefix (history_seen other) (history_seen seat.new) }
        ensures own { (entries_by B.author (authors_of seat.old) (history_seen seat.new) ≡ own_entries seat.old) × (entries_by B.author (authors_of other) (history_seen seat.new) ≡ own_entries other) }
    {
        let inner = other.into_inner();
        self.take_in(&mut seat.seat, inner);
    }

    /// Waits for the turn, lets the job act on the value, and gives the turn back.
    pub fn with_turn<R: Wait, J: Job<B>>(&self, rt: &R, seat: &mut TurnSeat<B>, job: J) -> J::Answer
        requires cell { IsSeatOf self.now seat.old }
        requires acts { (b : B) → MayMeet seat.old b → J.can_act job b }
        requires author { J.acts_as job ≡ least_author (authors_of seat.old) }
        ensures cell { IsSeatOf self.now seat.new }
        ensures plan { plan_known seat.new ≡ plan_known seat.old }
        ensures authors { authors_of seat.new ≡ authors_of seat.old }
        ensures turn { (met : B) × (left : B) × IsTurn seat.old seat.new (λ b c. J.gives job b result c) (J.acts_as job) met left }
    {
        self.take_turn(rt, &mut seat.seat);
        let shared = &self.table.shared;
        let mut value = shared.exchange(&mut seat.seat, 0, None).unwrap();
        let answer = act_in(&mut value, job);
        let out = shared.exchange(&mut seat.seat, 0, Some(value));
        let None = out else { unreachable!() };
        shared.store::<Give<B>>(&mut seat.seat, 0, 0);
        answer
    }

    /// The value, once the seat has all authors again. Its history is what the seat has seen.
    pub fn close(self, seat: TurnSeat<B>) -> B
        requires cell { IsSeatOf self seat }
        requires all { share_of seat ≡ seats_of self }
        ensures met { MayMeet seat result }
        ensures history { B.history result ≡ history_seen seat }
    {
        let TurnCell { table } = self;
        let mut closed = table.close_with(seat.into_inner());
        let slot = closed.take(0);
        closed.free();
        Box::into_inner(slot.unwrap())
    }

    // Joins the two, and then loads the turn, which settles what the first was told: a join itself tells nothing.
    fn take_in(
        &self,
        seat: &mut Seat<Slot<B>, View<B::Plan, B::Entry>>,
        other: Seat<Slot<B>, View<B::Plan, B::Entry>>,
    )
        requires cell { (seat.old.table_id ≡ self.now.table.shared.table_id) × (other.table_id ≡ self.now.table.shared.table_id) }
        requires idle { (seat.old.me.1 ≡ []) × (other.me.1 ≡ []) × (other.me.0.holds ≡ false) }
        requires settled { HasSettled seat.old.me.0 × HasSettled other.me.0 }
        requires root { (is_author 0 seat.old.me.0.authors ≡ true) × (0 < length seat.old.me.0.authors) }
        ensures cell { seat.new.table_id ≡ seat.old.table_id }
        ensures idle { seat.new.me.1 ≡ [] }
        ensures settled { SettlesView B.author (told_view seat.old.me.0 other.me.0) seat.new.me.0 }
    {
        self.table.shared.join_seat::<Glue>(seat, other);
        self.table.shared.load::<Settle<B>>(seat, 0);
    }

    // Waits for the turn, and takes it.
    fn take_turn<R: Wait>(&self, rt: &R, seat: &mut Seat<Slot<B>, View<B::Plan, B::Entry>>)
        requires cell { seat.old.table_id ≡ self.now.table.shared.table_id }
        requires idle { (seat.old.me.1 ≡ []) × (0 < length seat.old.me.0.authors) }
        ensures cell { seat.new.table_id ≡ seat.old.table_id }
        ensures took { (b : Box B Global) × (seat.new.me ≡ (holding_view seat.old.me.0 (boxed B.history b), (0, Some b) ∷ [])) × MayFind (boxed B.plan) (boxed B.history) B.author seat.old.me.0 b }
    {
        for _ in rt.forever() {
            if self.table.shared.load::<Look>(seat, 0) == 0
                && self.table.shared.compare_exchange::<Take<B>>(seat, 0, 0, 1) == 0
            {
                return;
            }
            thread::yield_now();
        }
        unreachable!()
    }
}
