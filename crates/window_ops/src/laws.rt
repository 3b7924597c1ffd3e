//! What holds of all windows.

ghost use Rattle.window_ops.specs.Laws.{OneCellIsItself, WindowsHoldWhatIsNear};

/// A window holds just the places of the map whose row and column are at most so many away.
pub fn windows_hold_what_is_near()
    ensures { WindowsHoldWhatIsNear }
{}

/// Where a window is one cell, the total, the average, the least and the greatest value and the majority are this cell, and
/// the diversity is 1 where it is not missing.
pub fn a_window_of_one_cell_is_the_cell()
    ensures { OneCellIsItself }
{}
