ghost use Rattle.std.specs.Prelude.{[]};
ghost use Rattle.lue_run.specs.inside.Pieces.{PutsLine, piece_bytes, with_pieces};

use itoa::Buffer;
use outside_io::{Sink, SinkFailed};

/// A piece of a line.
#[derive(Clone, Copy)]
pub enum Piece<'a> {
    Text(&'a [u8]),
    /// A number, by its decimal digits.
    Number(u64),
}

// Writes a piece.
fn put_piece<S: Sink>(piece: &Piece<'_>, out: &mut S) -> Result<(), SinkFailed>
    ensures { PutsLine (piece_bytes piece.now) (S.state out.old) (S.state out.new) result }
{
    match piece {
        Piece::Text(text) => out.write_all(text),
        Piece::Number(number) => out.write_all(Buffer::new().format(*number).as_bytes()),
    }
}

/// Writes pieces, in their order, up to the first that is not written whole. It takes no memory.
pub fn put_pieces<S: Sink>(pieces: &[Piece<'_>], out: &mut S) -> Result<(), SinkFailed>
    ensures { PutsLine (with_pieces [] pieces.now) (S.state out.old) (S.state out.new) result }
{
    for piece in pieces {
        put_piece(piece, out)?;
    }
    Ok(())
}
