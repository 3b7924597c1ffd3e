//! Where numbers stand in a list.

ghost use Rattle.std.specs.Prelude.{◌≡◌, ℕ, ◌<◌, ◌≤◌, ◌^◌, ◌++◌, [], EachIndex, IfOk, OnOk, get_or, length, slice_index, take};
ghost use Rattle.plan_graph.specs.inside.Places.{AreNotedUpTo, places_by_number, places_with};

use number_lists::Lists;
use sqlite_items::Items;
use std::alloc::{AllocError, Global};

// So many empty lists.
fn empty_places(alloc: Global, count: u32) -> Result<Vec<Items<u32>>, AllocError>
    ensures count { IfOk result (λ lists. length lists.items ≡ count) }
    ensures each { IfOk result (λ lists. (k : ℕ) → k < count → get_or lists.items k [] ≡ []) }
{
    let mut lists = Vec::with_capacity(alloc, count as usize)?;
    for _n in 0..count {
        lists.push(Items::new(alloc))?;
    }
    Ok(lists)
}

// For each number below the count the places where it stands.
fn noted(alloc: Global, numbers: &[u32], count: u32) -> Result<Vec<Items<u32>>, AllocError>
    requires below { EachIndex numbers.now (λ i. slice_index numbers.now i < count) }
    requires few { length numbers.now ≤ 2 ^ 32 }
    ensures { IfOk result (λ lists. AreNotedUpTo numbers.now count (length numbers.now) lists.items) }
{
    let mut lists = empty_places(alloc, count)?;
    for i in 0..numbers.len() {
        let places = &mut lists[numbers[i] as usize];
        places.push(i as u32)?;
    }
    Ok(lists)
}

/// For each number below the count the places where it stands, in ascending order.
pub(crate) fn places_by_number(
    alloc: Global,
    numbers: &[u32],
    count: u32,
) -> Result<Lists, AllocError>
    requires below { EachIndex numbers.now (λ i. slice_index numbers.now i < count) }
    requires few { length numbers.now ≤ 2 ^ 32 }
    ensures { IfOk result (λ lists. lists ≡ places_by_number numbers.now count) }
{
    let noted = noted(alloc, numbers, count)?;
    let mut lists = Lists::new(alloc);
    for places in &noted {
        lists.add(places.as_slice())?;
    }
    Ok(lists)
}
