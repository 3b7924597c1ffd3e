ghost use Rattle.std.specs.Prelude.{◌++◌, codes, decimal};
ghost use Rattle.lue_run.specs.Lines.{input_line, line_of, named_line, over_line};
ghost use Rattle.lue_run.specs.inside.Pieces.{PutsLine};

use crate::ended::Ended;
use crate::kinds::{grid_word, series_word, table_word};
use crate::pieces::Piece::{Number, Text};
use crate::pieces::put_pieces;
use crate::script_line::put_script;
use cell_values::Word;
use map_meaning::OverAt;
use outside_io::{Sink, SinkFailed};
use run_session::InputKind;

// Writes a text and a name as a line.
fn put_name<'a, S: Sink>(text: &'a [u8], name: &'a Word, out: &mut S) -> Result<(), SinkFailed>
    ensures { PutsLine (named_line text.now name.now) (S.state out.old) (S.state out.new) result }
{
    put_pieces(&[Text(text), Text(name.bytes()), Text(b"\n")], out)
}

// Writes the line of a run that came to its end.
fn put_done<S: Sink>(files: u64, steps: u32, out: &mut S) -> Result<(), SinkFailed>
    ensures { PutsLine (line_of (Ended.Done files steps)) (S.state out.old) (S.state out.new) result }
{
    put_pieces(
        &[
            Text(b"done files="),
            Number(files),
            Text(b" steps="),
            Number(steps as u64),
            Text(b"\n"),
        ],
        out,
    )
}

// Writes a text and a number as a line.
fn put_count<S: Sink>(text: &[u8], count: u64, out: &mut S) -> Result<(), SinkFailed>
    ensures { PutsLine (text.now ++ decimal count ++ codes "\n") (S.state out.old) (S.state out.new) result }
{
    put_pieces(&[Text(text), Number(count), Text(b"\n")], out)
}

// Writes the line of an input that has a fault: which, of what it is to be, where.
fn put_fault<'a, S: Sink>(
    name: &'a Word,
    form: &'a [u8],
    word: &'a [u8],
    place: &'a [u8],
    at: u64,
    out: &mut S,
) -> Result<(), SinkFailed>
    ensures { PutsLine (codes "input " ++ name.now ++ form.now ++ word.now ++ place.now ++ decimal at ++ codes "\n")
        (S.state out.old) (S.state out.new) result }
{
    put_pieces(
        &[
            Text(b"input "),
            Text(name.bytes()),
            Text(form),
            Text(word),
            Text(place),
            Number(at),
            Text(b"\n"),
        ],
        out,
    )
}

// Writes the line of an input with two numbers.
fn put_numbers<'a, S: Sink>(
    name: &'a Word,
    text: &'a [u8],
    first: u32,
    second: u32,
    out: &mut S,
) -> Result<(), SinkFailed>
    ensures { PutsLine (codes "input " ++ name.now ++ text.now ++ decimal first ++ codes " " ++ decimal second ++ codes "\n")
        (S.state out.old) (S.state out.new) result }
{
    put_pieces(
        &[
            Text(b"input "),
            Text(name.bytes()),
            Text(text),
            Number(first as u64),
            Text(b" "),
            Number(second as u64),
            Text(b"\n"),
        ],
        out,
    )
}

// Writes the line of an input that is not as it is to be.
fn put_input<S: Sink>(name: &Word, kind: InputKind, out: &mut S) -> Result<(), SinkFailed>
    ensures { PutsLine (input_line name.now kind) (S.state out.old) (S.state out.new) result }
{
    match kind {
        InputKind::Grid(fault) => {
            put_fault(name, b" grid ", grid_word(fault.kind), b" ", fault.at, out)
        }
        InputKind::Table(fault) => {
            let (word, line) = (table_word(fault.kind), fault.line as u64);
            put_fault(name, b" table ", word, b" line ", line, out)
        }
        InputKind::Series(fault) => {
            let (word, line) = (series_word(fault.kind), fault.line as u64);
            put_fault(name, b" series ", word, b" line ", line, out)
        }
        InputKind::Size { rows, cols } => put_numbers(name, b" size ", rows, cols, out),
        InputKind::Unsound { row, col } => put_numbers(name, b" unsound ", row, col, out),
    }
}

// Writes the line of an overflow.
fn put_overflow<S: Sink>(at: &OverAt, out: &mut S) -> Result<(), SinkFailed>
    ensures { PutsLine (over_line at.now) (S.state out.old) (S.state out.new) result }
{
    put_pieces(
        &[
            Text(b"overflow step "),
            Number(at.step as u64),
            Text(b" statement "),
            Number(at.statement as u64),
            Text(b" operation "),
            Number(at.operation as u64),
            Text(b" row "),
            Number(at.row as u64),
            Text(b" col "),
            Number(at.col as u64),
            Text(b"\n"),
        ],
        out,
    )
}

/// Writes the line of an answer, its line feed included; nothing where it has none. It takes no memory.
pub fn put_line<S: Sink>(end: &Ended, out: &mut S) -> Result<(), SinkFailed>
    ensures { PutsLine (line_of end.now) (S.state out.old) (S.state out.new) result }
{
    match end {
        Ended::Done { files, steps } => put_done(*files, *steps, out),
        Ended::Made { files } => put_count(b"made files=", *files, out),
        Ended::Usage => put_pieces(&[Text(b"usage\n")], out),
        Ended::Missing(name) => put_name(b"missing ", name, out),
        Ended::TooLong(name) => put_name(b"too long ", name, out),
        Ended::Script(fault) => put_script(fault, out),
        Ended::Input { name, kind } => put_input(name, *kind, out),
        Ended::TooManyTasks(count) => put_count(b"tasks ", *count, out),
        Ended::Overflow(at) => put_overflow(at, out),
        Ended::FolderReadFault(name) => put_name(b"read fault ", name, out),
        Ended::FolderWriteFault(name) => put_name(b"write fault ", name, out),
        Ended::OutFault { .. } | Ended::Memory => put_pieces(&[], out),
    }
}
