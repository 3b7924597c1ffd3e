ghost use Rattle.number_lists.specs.Turned.{TurnedAreTurned};

/// Lists turned round have each list's number as often as it has theirs, in ascending order, and no other number.
pub fn turned_lists_have_their_holders()
    ensures { TurnedAreTurned }
{}
