//! The edges that can be sent, of which the least is found at once.

ghost use Rattle.std.specs.Prelude.{◌≡◌, ◌==◌, ◌+◌, ◌<◌, ◌≤◌, ℕ, [], IfOk, IfSome, length, take};
ghost use Rattle.flow_task.specs.inside.Due.{LinksAreDue, AreMarked, CanAdd, CellsRise, IsLeast, place_times};
ghost use Rattle.flow_task.specs.inside.Kept.{link_at};
ghost use Rattle.flow_task.specs.inside.Underway.{one_if};

use crate::link::Link;
use std::alloc::{AllocError, Global};
use std::cmp::Reverse;
use std::collections::BinaryHeap;
use std::marker::Model;

/// The places of links whose edges can be sent.
#[derive(Drop)]
pub(crate) struct DueLinks {
    heap: BinaryHeap<Reverse<usize>>,
}

impl Model for DueLinks {
    ghost use Rattle.std.specs.Prelude.{map};
    ghost use Rattle.std.specs.BinaryHeap.{IsHeap, heap_capacity, heap_items};
    ghost use Rattle.std.specs.Ordering.{nat_cmp};
    ghost use Rattle.flow_task.specs.inside.Due.{Waiting};

    ghost Value = { Waiting };

    ghost view = { λ d. record { places = map (λ r. r.0) (heap_items d.heap); room = heap_capacity d.heap } };

    ghost invariant = { λ d. IsHeap (λ x y. nat_cmp y.0 x.0) (heap_items d.heap) };
}

impl DueLinks {
    /// None yet, with room for so many.
    pub fn with_room(alloc: Global, count: usize) -> Result<DueLinks, AllocError>
        ensures none { IfOk result (λ due. due.places ≡ []) }
        ensures room { IfOk result (λ due. count ≤ due.room) }
    {
        let heap = BinaryHeap::with_capacity(alloc, count)?;
        Ok(DueLinks { heap })
    }

    /// One more. Takes no memory.
    pub fn add(&mut self, place: usize)
        requires { length self.old.places < self.old.room }
        ensures times { (k : ℕ) → place_times self.new.places k ≡ one_if (place == k) + place_times self.old.places k }
        ensures room { self.old.room ≤ self.new.room }
    {
        let _ = self.heap.push(Reverse(place));
    }

    /// The least.
    pub fn least(&self) -> Option<usize>
        ensures { IsLeast self.now.places result }
    {
        match self.heap.peek() {
            Some(top) => Some(top.0),
            None => None,
        }
    }

    /// The least, which is taken out.
    pub fn take_least(&mut self) -> Option<usize>
        ensures least { IsLeast self.old.places result }
        ensures times { IfSome result (λ place. (k : ℕ) → one_if (place == k) + place_times self.new.places k ≡ place_times self.old.places k) }
        ensures room { self.new.room ≡ self.old.room }
    {
        match self.heap.pop() {
            Some(top) => Some(top.0),
            None => None,
        }
    }
}

// Where the links of a cell and those behind them begin.
fn first_link(links: &Vec<Link>, cell: u32) -> usize
    requires { CellsRise links.now.items }
    ensures within { result ≤ length links.now.items }
    ensures below { (k : ℕ) → k < result → (link_at links.now.items k).cell < cell }
    ensures above { (k : ℕ) → result ≤ k → k < length links.now.items → cell ≤ (link_at links.now.items k).cell }
{
    let mut low = 0;
    let mut high = links.len();
    while low < high {
        let middle = low + (high - low) / 2;
        if links[middle].cell < cell {
            low = middle + 1;
        } else {
            high = middle;
        }
    }
    low
}

// The edges out of one more settled cell can be sent.
fn add_cell(
    outbound: &Vec<Link>,
    unsent: &Vec<bool>,
    leaves: &Vec<bool>,
    queue: &Vec<u32>,
    at: usize,
    due: &mut DueLinks,
)
    requires at { at < length queue.now.items }
    requires can { CanAdd outbound.now.items unsent.now.items leaves.now.items queue.now.items at due.old }
    ensures due { LinksAreDue outbound.now.items unsent.now.items (take (at + 1) queue.now.items) due.new.places }
    ensures room { due.old.room ≤ due.new.room }
{
    let cell = queue[at];
    if !leaves[cell as usize] {
        return;
    }
    for k in first_link(outbound, cell)..first_link(outbound, cell + 1) {
        if unsent[k] {
            due.add(k);
        }
    }
}

/// The edges out of the cells from a place of the queue on can be sent. Takes no memory.
pub(crate) fn note_settled(
    outbound: &Vec<Link>,
    unsent: &Vec<bool>,
    leaves: &Vec<bool>,
    queue: &Vec<u32>,
    from: usize,
    due: &mut DueLinks,
)
    requires { CanAdd outbound.now.items unsent.now.items leaves.now.items queue.now.items from due.old }
    ensures due { LinksAreDue outbound.now.items unsent.now.items queue.now.items due.new.places }
    ensures room { due.old.room ≤ due.new.room }
{
    for at in from..queue.len() {
        add_cell(outbound, unsent, leaves, queue, at, due);
    }
}

/// So many cells, of which those of some links are marked.
pub(crate) fn marked_cells(
    alloc: Global,
    count: usize,
    links: &Vec<Link>,
) -> Result<Vec<bool>, AllocError>
    requires { (k : ℕ) → k < length links.now.items → (link_at links.now.items k).cell < count }
    ensures many { IfOk result (λ marks. length marks.items ≡ count) }
    ensures marked { IfOk result (λ marks. AreMarked links.now.items marks.items) }
{
    let mut marks = vec![in alloc; false; count]?;
    for k in 0..links.len() {
        marks[links[k].cell as usize] = true;
    }
    Ok(marks)
}
