//! What holds of all drain maps, in the subject's words.

ghost use Rattle.drain_meaning.specs.Examples.{MapExamples, TransportExamples};
ghost use Rattle.drain_meaning.specs.Laws.{AreTheOnlyEnds, ChooseOnPaths, FindTheFirstUnsound, KeepMass, KeepOrLetPass, ListTheirCells, MeetTheirEquation, StayInTheMap, StaySound, StepsAreMissing, SumOverPaths, TransportsAreMissing};

/// Worked examples come out as they were worked out by hand.
pub fn worked_examples_come_out()
    ensures maps { MapExamples }
    ensures transports { TransportExamples }
{}

/// A cell drains into no place outside the map.
pub fn directions_stay_in_the_map()
    ensures { StayInTheMap }
{}

/// The path of a cell, as a list, has the cell and those that follow on it down to a pit.
pub fn paths_list_their_cells()
    ensures { ListTheirCells }
{}

/// The first unsound place that is found by following the directions from each place is the first place whose path fails, and
/// where none is found the map is sound.
pub fn the_first_unsound_place_is_found()
    ensures { FindTheFirstUnsound }
{}

/// On a sound map the ends of each transport meet its equation at each cell with a direction, and no other ends do.
pub fn transports_meet_their_equation()
    ensures meets { MeetTheirEquation }
    ensures only { AreTheOnlyEnds }
{}

/// `accuflux` is the sum of the material of all cells whose path holds a cell, missing where one of these is.
pub fn accumulations_sum_over_paths()
    ensures { SumOverPaths }
{}

/// What comes together at the pits is the material of all cells with a direction, missing where one of these is.
pub fn accumulations_keep_mass()
    ensures { KeepMass }
{}

/// What thresholds keep in the cells and what they let flow out of the pits are the material of all cells with a direction, where
/// no operand is missing there.
pub fn thresholds_keep_or_let_pass()
    ensures { KeepOrLetPass }
{}

/// `catchment` is the last point of a path that is not 0, missing where one of the path's points is.
pub fn catchments_choose_on_paths()
    ensures { ChooseOnPaths }
{}

/// The part of a sound drain map that a mask keeps is a sound drain map.
pub fn masked_maps_stay_sound()
    ensures { StaySound }
{}

/// A step up or down stream is missing exactly where there is no direction, or where a value that it looks at is missing; a
/// transport is missing where there is no direction.
pub fn missing_directions_give_missing_values()
    ensures steps { StepsAreMissing }
    ensures transports { TransportsAreMissing }
{}
