//! What a worker's ticket is worth at its next turn.

ghost use Rattle.task_board.specs.Tickets.{StaysGood};

/// A ticket that is good for a board stays good, with its work, whatever others do.
pub fn good_tickets_stay_good()
    ensures { StaysGood }
{}
