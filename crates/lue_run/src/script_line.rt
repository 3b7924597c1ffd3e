ghost use Rattle.std.specs.Prelude.{◌≡◌, ◌++◌};
ghost use Rattle.lue_run.specs.Lines.{place_words, script_line};
ghost use Rattle.lue_run.specs.inside.Pieces.{PutsLine, piece_bytes};

use crate::kinds::{meaning_word, syntax_word};
use crate::pieces::Piece::{Number, Text};
use crate::pieces::{Piece, put_pieces};
use outside_io::{Sink, SinkFailed};
use run_session::ScriptFault;
use script_syntax::SyntaxFault;
use script_types::{MeaningFault, Place};

// Writes where a text has its fault, and what it is.
fn put_syntax<S: Sink>(fault: &SyntaxFault, out: &mut S) -> Result<(), SinkFailed>
    ensures { PutsLine (script_line (ScriptFault.Syntax fault.now)) (S.state out.old) (S.state out.new) result }
{
    put_pieces(
        &[
            Text(b"script "),
            Number(fault.line as u64),
            Text(b":"),
            Number(fault.column as u64),
            Text(b" "),
            Text(syntax_word(fault.kind)),
            Text(b"\n"),
        ],
        out,
    )
}

// The place of a fault of meaning, in two pieces.
fn place_pieces(at: Place) -> (Piece<'static>, Piece<'static>)
    ensures { piece_bytes result.0 ++ piece_bytes result.1 ≡ place_words at }
{
    match at {
        Place::Binding(number) => (Text(b"binding "), Number(number as u64)),
        Place::Area => (Text(b"areamap"), Text(b"")),
        Place::Statement(number) => (Text(b"statement "), Number(number as u64)),
    }
}

// Writes where a script has its fault of meaning, and what it is.
fn put_meaning<S: Sink>(fault: &MeaningFault, out: &mut S) -> Result<(), SinkFailed>
    ensures { PutsLine (script_line (ScriptFault.Meaning fault.now)) (S.state out.old) (S.state out.new) result }
{
    let (section, number) = place_pieces(fault.at);
    put_pieces(
        &[
            Text(b"script "),
            section,
            number,
            Text(b" "),
            Text(meaning_word(fault.kind)),
            Text(b"\n"),
        ],
        out,
    )
}

/// Writes the line of a script that has a fault.
pub fn put_script<S: Sink>(fault: &ScriptFault, out: &mut S) -> Result<(), SinkFailed>
    ensures { PutsLine (script_line fault.now) (S.state out.old) (S.state out.new) result }
{
    match fault {
        ScriptFault::Syntax(fault) => put_syntax(fault, out),
        ScriptFault::Meaning(fault) => put_meaning(fault, out),
    }
}
