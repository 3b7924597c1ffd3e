//! What holds of all lists of numbers, of all windows and of all areas.

ghost use Rattle.region_meaning.specs.Laws.{AreasAreMissing, MajorityIsMostFrequent, WindowsAreMissing};

/// The majority of numbers is what it is said to be: a number that none is more frequent than, and the least of those that are
/// as frequent; and there is no other such number.
pub fn a_majority_is_the_most_frequent()
    ensures { MajorityIsMostFrequent }
{}

/// A window gives a missing value exactly where no cell in it has a value; an area exactly where its class is missing, or no
/// cell of the class counts: none with a value, or, for the number of cells, none at all.
pub fn regions_without_values_are_missing()
    ensures windows { WindowsAreMissing }
    ensures areas { AreasAreMissing }
{}
