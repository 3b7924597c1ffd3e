ghost use Rattle.std.specs.Prelude.{◌≡◌, ◌≤◌, ◌<◌, ◌++◌, ◌^◌, ℕ, [], get_or, length, replicate, slice_index, IfOk, OnOk};
ghost use Rattle.number_lists.specs.Turned.{HaveNumbersBelow, holders_from, times, turned_of};

use crate::lists::Lists;
use sqlite_items::Items;
use std::alloc::{AllocError, Global};

// So many empty lists.
fn empty_lists(alloc: Global, count: u32) -> Result<Vec<Items<u32>>, AllocError>
    ensures count { IfOk result (λ lists. length lists.items ≡ count) }
    ensures each { IfOk result (λ lists. (k : ℕ) → k < count → get_or lists.items k [] ≡ []) }
{
    let mut lists = Vec::with_capacity(alloc, count as usize)?;
    for _n in 0..count {
        lists.push(Items::new(alloc))?;
    }
    Ok(lists)
}

// Appends the number to the list of each item, as often as it is one.
fn note(into: &mut Vec<Items<u32>>, items: &[u32], number: u32) -> Result<(), AllocError>
    requires below { (j : ℕ) → j < length items.now → slice_index items.now j < length into.old.items }
    ensures count { length into.new.items ≡ length into.old.items }
    ensures each { OnOk result ((k : ℕ) → k < length into.old.items → get_or into.new.items k [] ≡ get_or into.old.items k [] ++ replicate (times k items.now) number) }
{
    for item in items {
        let holders = &mut into[*item as usize];
        holders.push(number)?;
    }
    Ok(())
}

// For each number below the count the lists that have it, by ascending numbers, each as often as it has it.
fn holders(alloc: Global, lists: &Lists, count: u32) -> Result<Vec<Items<u32>>, AllocError>
    requires below { HaveNumbersBelow count lists.now }
    requires few { length lists.now ≤ 2 ^ 32 }
    ensures count { IfOk result (λ got. length got.items ≡ count) }
    ensures each { IfOk result (λ got. (k : ℕ) → k < count → get_or got.items k [] ≡ holders_from k 0 lists.now) }
{
    let mut got = empty_lists(alloc, count)?;
    for i in 0..lists.count() {
        note(&mut got, lists.list(i), i as u32)?;
    }
    Ok(got)
}

impl Lists {
    /// For each number below `count` the numbers of the lists that have it, in ascending order, each as often as its list has it.
    /// Takes time and memory by the count and by how many numbers the lists have together.
    #[tactic(auto, using(crate::proofs::TurnedLemmas::turned_lists))]
    pub fn turned(&self, alloc: Global, count: u32) -> Result<Lists, AllocError>
        requires below { HaveNumbersBelow count self.now }
        requires few { length self.now ≤ 2 ^ 32 }
        ensures { IfOk result (λ turned. turned ≡ turned_of count self.now) }
    {
        let got = holders(alloc, self, count)?;
        let mut turned = Lists::new(alloc);
        for list in &got {
            turned.add(list.as_slice())?;
        }
        Ok(turned)
    }
}
