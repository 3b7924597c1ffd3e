//! For each cell of a tile the cells that it feeds there.

ghost use Rattle.std.specs.Prelude.{List, ℕ, take, drop, ◌-◌, ◌≤◌, ◌≡◌, ◌<◌, [], length, get_or};
ghost use Rattle.number_lists.specs.inside.Joined.{lists_of, EndsAt};

use std::marker::Model;

/// For each cell of a tile the cells that it feeds there, one list after another, in four bytes for each cell and each that is
/// fed. Contracts see a list of lists.
#[derive(Drop)]
pub(crate) struct FedCells {
    ends: Vec<u32>,
    cells: Vec<u32>,
}

impl Model for FedCells {
    ghost use Rattle.std.specs.Prelude.{List, ℕ, length};
    ghost use Rattle.number_lists.specs.inside.Joined.{lists_of, EndsAt};

    ghost Value = { List (List ℕ) };

    ghost view = { λ f. lists_of 0 f.ends.items f.cells.items };

    ghost invariant = { λ f. EndsAt 0 f.ends.items (length f.cells.items) };
}

impl FedCells {
    /// The lists that end at these places.
    pub fn of(ends: Vec<u32>, cells: Vec<u32>) -> FedCells
        requires { EndsAt 0 ends.items (length cells.items) }
        ensures { result ≡ lists_of 0 ends.items cells.items }
    {
        FedCells { ends, cells }
    }

    /// The i-th list.
    pub fn list(&self, i: usize) -> &[u32]
        requires { i < length self.now }
        ensures { result.now ≡ get_or self.now i [] }
    {
        let (start, end) = bounds(self.ends.as_slice(), self.cells.len(), i);
        &self.cells[start..end]
    }
}

// Where the i-th of the lists that end at these places begins and ends.
fn bounds(ends: &[u32], last: usize, i: usize) -> (usize, usize)
    requires ends { EndsAt 0 ends.now last }
    requires i { i < length ends.now }
    ensures list { (items : List ℕ) → get_or (lists_of 0 ends.now items) i [] ≡ take (result.1 - result.0) (drop result.0 items) }
    ensures order { result.0 ≤ result.1 }
    ensures within { result.1 ≤ last }
{
    if i == 0 {
        return (0, ends[0] as usize);
    }
    (ends[i - 1] as usize, ends[i] as usize)
}
