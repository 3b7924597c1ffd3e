ghost use Rattle.tile_map.specs.Laws.{GatherTheCut, HoldWhatIsNear, ListTheirPlaces, ListTilesMet, MarkTheirOvers, PasteTheMap};

/// A rectangle of a map lists just the places that it holds, in ascending order, and the number of a place in it is where
/// that place stands in the list.
pub fn rectangles_list_their_places()
    ensures { ListTheirPlaces }
{}

/// A rectangle that was grown by some rows and columns holds just the cells of the map that are no further away from one
/// of its own.
pub fn grown_rectangles_hold_what_is_near()
    ensures { HoldWhatIsNear }
{}

/// Just the tiles that have a place in common with a rectangle are listed for it, in ascending order.
pub fn listed_tiles_are_those_met()
    ensures { ListTilesMet }
{}

/// What is gathered from the tiles' cuts of a map is the map's cut.
pub fn gathered_cuts_are_cuts()
    ensures { GatherTheCut }
{}

/// A map over which another map's cuts for all tiles were pasted, in whatever order, is that other map.
pub fn pasted_cuts_are_the_map()
    ensures { PasteTheMap }
{}

/// The part of some outcomes has the cell of each outcome, a missing value at each that is Over, and tells the first such
/// place; and it is the only one.
pub fn parts_mark_their_overs()
    ensures { MarkTheirOvers }
{}
