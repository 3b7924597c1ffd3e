//! A task that its holder lets go of.

ghost use Rattle.std.specs.Prelude.{◌≡◌, IfOk, OnErr, OnOk, false};
ghost use Rattle.std.specs.Arc.{arc_value};
ghost use Rattle.core_model.specs.declared.step.Step.TheVariants.{Publish as PublishStep, PutDown as PutDownStep};
ghost use Rattle.task_board.specs.Boards.{IsLegal, IsTileFor, state_of, board_with_step};
ghost use Rattle.task_board.specs.Tickets.{IsDone, IsGoodTicket, work_in};

use crate::board::Board;
use crate::ticket::Ticket;
use flow_task::FlowKit;
use std::alloc::AllocError;
use std::sync::Arc;
use task_tiles::Tile;

/// Publishes a held task with the tile that was made, or puts it down where memory was refused.
pub(crate) fn let_go<K: FlowKit>(
    board: &mut Board<K>,
    ticket: Ticket<K>,
    made: Result<Arc<Tile>, AllocError>,
) -> Result<(), AllocError>
    requires good { IsGoodTicket K.work_of board.old ticket }
    requires done { IsDone board.old ticket.task (work_in K.work_of ticket) }
    requires tile { IfOk made (λ tile. IsTileFor board.old ticket.task (arc_value tile)) }
    requires can { (state_of board.old).has_put_down ticket.worker ≡ false }
    ensures ok { OnOk result (board.new ≡ board_with_step board.old (PublishStep ticket.worker ticket.task)) }
    ensures err { OnErr result (board.new ≡ board_with_step board.old (PutDownStep ticket.worker ticket.task)) }
    ensures legal { IsLegal board.new }
{
    match made {
        Ok(tile) => {
            board.publish(ticket, tile);
            Ok(())
        }
        Err(refused) => {
            board.put_down(ticket);
            Err(refused)
        }
    }
}
