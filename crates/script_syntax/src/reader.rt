ghost use Rattle.std.specs.Prelude.{◌≡◌, ◌+◌, ◌≤◌, [], length, IfErr, IfOk, Ok, Err};
ghost use Rattle.script_syntax.specs.declared.fault.SyntaxFault.{SyntaxFault};
ghost use Rattle.script_syntax.specs.declared.tree.Script.{Script};
ghost use Rattle.script_syntax.specs.Answers.{Reads, TellsFault};
ghost use Rattle.script_syntax.specs.Faults.{IsFaulty, IsScript};
ghost use Rattle.script_syntax.specs.WellMade.{IsWellMade};
ghost use Rattle.script_syntax.specs.inside.Reading.{tree_by_tokens, read_scanned, step_at, syntax_fault_at, tree_of, tree_or_end};
ghost use Rattle.script_syntax.specs.Listed.{counts_behind};
ghost use Rattle.script_syntax.specs.inside.Scanner.{scan_of};
ghost use Rattle.script_syntax.specs.inside.Readings.{finish};

use crate::counts::Counts;
use crate::edition::asks_mean;
use crate::fault::{ReadScript, SyntaxFault, SyntaxKind};
use crate::formula::Refused;
use crate::place::Place;
use crate::reading::Reading;
use crate::scanner::{Next, Placed, Scanner};
use crate::tree::Script;
use std::alloc::Global;

// The fault of this kind at a place.
fn fault(place: Place, kind: SyntaxKind) -> ReadScript
    ensures { result ≡ ReadScript.Syntax (syntax_fault_at place kind) }
{
    ReadScript::Syntax(SyntaxFault {
        line: place.line,
        column: place.column,
        kind,
    })
}

// What the end of a text gives, behind its last token.
fn finish(reading: Reading, end: Place) -> Result<Script, ReadScript>
    ensures { Reads result (tree_or_end (finish reading) end) }
{
    match reading.finish() {
        Some(script) => Ok(script),
        None => Err(fault(end, SyntaxKind::End)),
    }
}

// The reading with one more token, where these were counted before it.
#[tactic(auto, unfolding(crate::specs::inside::Reading::step_at))]
fn take(
    alloc: Global,
    reading: Reading,
    counts: &Counts,
    placed: Placed,
) -> Result<Reading, ReadScript>
    ensures { Reads result (step_at reading counts.now placed) }
{
    let Placed {
        token,
        place,
        len: _,
    } = placed;
    if let Some(kind) = counts.fault(&token) {
        return Err(fault(place, kind));
    }
    match reading.step(alloc, token) {
        Ok(reading) => Ok(reading),
        Err(Refused::Token) => Err(fault(place, SyntaxKind::Token)),
        Err(Refused::Memory) => Err(ReadScript::Memory),
    }
}

// What the tokens give that are left.
fn read(alloc: Global, mut scanner: Scanner<'_>, mut reading: Reading) -> Result<Script, ReadScript>
    requires line { scanner.place.line + length scanner.rest.now ≤ 268435457 }
    requires column { scanner.place.column + length scanner.rest.now ≤ 268435457 }
    ensures { Reads result (read_scanned reading (counts_behind []) scanner.entry.place (scan_of scanner.entry)) }
{
    let mut counts = Counts::new();
    let mut end = scanner.place;
    'tokens: loop {
        match scanner.next(alloc)? {
            Next::Token(placed) => {
                let counted = counts.after(&placed.token);
                end = placed.end();
                reading = take(alloc, reading, &counts, placed)?;
                counts = counted;
            }
            Next::Byte(place) => return Err(fault(place, SyntaxKind::Byte)),
            Next::End => return finish(reading, end),
        }
    }
}

// What the tokens of a text give.
fn read_text(alloc: Global, text: &[u8]) -> Result<Script, ReadScript>
    requires { length text.now ≤ 268435456 }
    ensures { Reads result (tree_by_tokens text.now) }
{
    let reading = Reading::new(alloc)?;
    read(alloc, Scanner::new(text), reading)
}

// What a text gives.
#[tactic(auto, unfolding(crate::specs::inside::Reading::tree_of))]
fn read_whole(alloc: Global, text: &[u8]) -> Result<Script, ReadScript>
    requires { length text.now ≤ 268435456 }
    ensures { Reads result (tree_of text.now) }
{
    let mut script = read_text(alloc, text)?;
    script.mean = asks_mean(text);
    Ok(script)
}

/// The tree of a script text of at most 268,435,456 bytes, or its first fault, in one pass over its bytes.
///
/// `Syntax` comes exactly where the text is no script, with the line, the column and the kind of its first fault. Lines
/// are counted by line feeds and columns by bytes, both from 1. `Memory` comes where the tree finds no memory.
pub fn read_script(alloc: Global, text: &[u8]) -> Result<Script, ReadScript>
    requires { length text.now ≤ 268435456 }
    // What is read is the tree of the text by the grammar.
    ensures found { IfOk result (IsScript text.now) }
    // The tree of a script is read, unless memory runs out.
    ensures only { (tree : Script) → IsScript text.now tree → Reads result (Ok tree) }
    // What is told is the first fault of the text.
    ensures first { IfErr result (TellsFault text.now) }
    // The first fault of a text is told, unless memory runs out.
    ensures told { (fault : SyntaxFault) → IsFaulty text.now fault → Reads result (Err fault) }
    // The tree keeps the limits.
    ensures made { IfOk result IsWellMade }
    // Which answer comes.
    ensures exact { Reads result (tree_of text.now) }
{
    read_whole(alloc, text)
}
