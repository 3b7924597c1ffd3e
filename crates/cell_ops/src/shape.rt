ghost use Rattle.std.specs.Prelude.{◌≡◌, ◌<◌, ℕ, length, ⊤};
ghost use Rattle.cell_values.specs.declared.cell.Cell.{Cell as TheCell};
ghost use Rattle.map_meaning.specs.Maps.{nowhere};
ghost use Rattle.tile_map.specs.Args.{SpansPlaces, arg_cell};
ghost use Rattle.tile_map.specs.Cuts.{cell_at};

use cell_values::Cell;
use map_meaning::Arg;

/// An operand by its places.
pub trait Shape {
    /// Its cell at a place.
    ghost cell: { Self → ℕ → TheCell };

    /// It has a cell for each of so many places.
    ghost covers: { Self → ℕ → Type 0 };

    /// Its cell at one of so many places.
    fn at(&self, place: usize, places: usize) -> Cell
        requires covers { covers self.now places }
        requires within { place < places }
        ensures { result ≡ cell self.now place };
}

/// No operand: a missing value at each place.
#[derive(Drop)]
pub struct Nowhere;

/// One cell for all places.
#[derive(Drop)]
pub struct Everywhere(pub Cell);

/// A cell for each place.
#[derive(Drop)]
pub struct Each<'a>(pub &'a [Cell]);

/// An operand of any shape, which is looked at for each place.
#[derive(Drop)]
pub struct Any<'a>(pub Arg<'a>);

impl Shape for Nowhere {
    ghost cell = { λ _. nowhere };

    ghost covers = { λ _ _. ⊤ };

    fn at(&self, _place: usize, _places: usize) -> Cell {
        Cell::Mv
    }
}

impl Shape for Everywhere {
    ghost cell = { λ s _. s.0 };

    ghost covers = { λ _ _. ⊤ };

    fn at(&self, _place: usize, _places: usize) -> Cell {
        self.0
    }
}

impl<'a> Shape for Each<'a> {
    ghost cell = { λ s. cell_at s.0.now };

    ghost covers = { λ s places. length s.0.now ≡ places };

    fn at(&self, place: usize, _places: usize) -> Cell {
        self.0[place]
    }
}

impl<'a> Shape for Any<'a> {
    ghost cell = { λ s. arg_cell s.0 };

    ghost covers = { λ s places. SpansPlaces s.0 places };

    #[tactic(auto, using(crate::proofs::Shapes::has_place))]
    fn at(&self, place: usize, _places: usize) -> Cell {
        self.0.at(place)
    }
}
