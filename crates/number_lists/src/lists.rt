ghost use Rattle.std.specs.Prelude.{List, ℕ, take, drop, ◌-◌, ◌≤◌, ◌≡◌, ◌<◌, ◌++◌, ◌∷◌, [], length, if◌then◌else◌, get_or};
ghost use Rattle.std.specs.Result.{is_ok};
ghost use Rattle.number_lists.specs.Lists.{numbers_in};
ghost use Rattle.number_lists.specs.inside.Joined.{lists_of, EndsAt};

use std::alloc::{AllocError, Global};
use std::marker::Model;

/// Lists of numbers, one after another in one piece of memory. Contracts see a list of lists.
#[derive(Drop)]
pub struct Lists {
    ends: Vec<usize>,
    items: Vec<u32>,
}

impl Model for Lists {
    ghost use Rattle.std.specs.Prelude.{List, ℕ, length};
    ghost use Rattle.number_lists.specs.inside.Joined.{lists_of, EndsAt};

    ghost Value = { List (List ℕ) };

    ghost view = { λ l. lists_of 0 l.ends.items l.items.items };

    ghost invariant = { λ l. EndsAt 0 l.ends.items (length l.items.items) };
}

impl Lists {
    /// No list.
    #[tactic(auto, unfolding(crate::specs::inside::Joined::lists_of, crate::specs::inside::Joined::EndsAt))]
    pub fn new(alloc: Global) -> Lists
        ensures { result ≡ [] }
    {
        Lists {
            ends: Vec::new(alloc),
            items: Vec::new(alloc),
        }
    }

    /// One more list.
    pub fn add(&mut self, list: &[u32]) -> Result<(), AllocError>
        ensures { self.new ≡ (if is_ok result then self.old ++ list.now ∷ [] else self.old) }
    {
        let before = self.items.len();
        self.items.extend_from_slice(list)?;
        match self.ends.push(self.items.len()) {
            Ok(()) => Ok(()),
            Err(_) => {
                self.items.truncate(before);
                Err(AllocError)
            }
        }
    }

    /// How many lists there are.
    #[tactic(auto, using(crate::proofs::ListLemmas::count_lists))]
    pub fn count(&self) -> usize
        ensures { result ≡ length self.now }
    {
        self.ends.len()
    }

    /// How many numbers the lists have together.
    #[tactic(auto, using(crate::proofs::ListLemmas::total_lists))]
    pub fn total(&self) -> usize
        ensures { result ≡ numbers_in self.now }
    {
        self.items.len()
    }

    /// The i-th list.
    pub fn list(&self, i: usize) -> &[u32]
        requires { i < length self.now }
        ensures { result.now ≡ get_or self.now i [] }
    {
        let (start, end) = bounds(self.ends.as_slice(), self.items.len(), i);
        &self.items[start..end]
    }
}

// Where the i-th of the lists that end at these places begins and ends.
fn bounds(ends: &[usize], last: usize, i: usize) -> (usize, usize)
    requires ends { EndsAt 0 ends.now last }
    requires i { i < length ends.now }
    ensures list { (items : List ℕ) → get_or (lists_of 0 ends.now items) i [] ≡ take (result.1 - result.0) (drop result.0 items) }
    ensures order { result.0 ≤ result.1 }
    ensures within { result.1 ≤ last }
{
    if i == 0 {
        return (0, ends[0]);
    }
    (ends[i - 1], ends[i])
}
