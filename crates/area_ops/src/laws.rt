//! What holds of all areas.

ghost use Rattle.area_ops.specs.Laws.{MapIsOneArea, OrderDoesNotMatter};

/// The order of places does not matter: the same places in another order give each class the same outcome, and a partial of
/// them is a partial of them in that order. So partials of the parts of a map, merged in any order, are that of the map.
pub fn the_order_of_places_does_not_matter()
    ensures { OrderDoesNotMatter }
{}

/// A map is one area: where the operand of the classes is one cell, the numbers of its class are those of all cells of the map.
pub fn a_map_is_one_area()
    ensures { MapIsOneArea }
{}
