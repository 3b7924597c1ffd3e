ghost use Rattle.std.specs.Prelude.{◌≡◌, ◌++◌, true, IfOk};
ghost use Rattle.script_syntax.specs.WellMade.{IsWellMade};
ghost use Rattle.map_meaning.specs.Programs.{IsWellFormed};
ghost use Rattle.script_types.specs.Answers.{IsProgramOf, Lowers};
ghost use Rattle.script_types.specs.Lowered.{inputs_of, lines_in};
ghost use Rattle.script_types.specs.Values.{HasValues};
ghost use Rattle.script_types.specs.declared.typed.Section.TheVariants.{Initial, Dynamic};
ghost use Rattle.script_types.specs.inside.Answers.{IsSettled, or_memory};
ghost use Rattle.script_types.specs.inside.Programs.{AllSuit, IsProgramWritten};

use crate::end::LowerEnd;
use crate::kept::keep;
use crate::program::{inputs_of, write_lines};
use crate::settle::{Settled, settle, unsettled};
use map_meaning::Program;
use script_syntax::Script;
use std::alloc::{AllocError, Global};

// The program of settled statements.
fn program_of(alloc: Global, script: &Script, settled: &Settled<'_>) -> Result<Program, AllocError>
    requires made { IsWellMade script.now }
    requires settled { IsSettled script.now settled.now }
    requires ordered { settled.now.lines ≡ lines_in Initial settled.now.lines ++ lines_in Dynamic settled.now.lines }
    requires suit { AllSuit (inputs_of script.now) }
    ensures { IfOk result (λ program. IsProgramWritten script.now settled.now.lines program) }
{
    let inputs = inputs_of(alloc, script, settled)?;
    let mut written = write_lines(
        alloc,
        &settled.scope,
        inputs.as_slice(),
        settled.lines.as_slice(),
    )?;
    keep(alloc, &mut written)?;
    let area = settled.scope.inputs.get(script.area.bytes()).unwrap_or(0);
    Ok(Program {
        inputs,
        initial: written.initial,
        dynamic: written.dynamic,
        drains: written.drains,
        outputs: written.outputs,
        area,
        steps: script.steps,
    })
}

// The program, or that there was no memory for it.
fn or_memory(found: Result<Program, AllocError>) -> Result<Program, LowerEnd>
    ensures { result ≡ or_memory found }
{
    match found {
        Ok(program) => Ok(program),
        Err(_) => Err(LowerEnd::Memory),
    }
}

/// The program of a script. `Meaning` comes exactly where the script has a fault, which is the first in the order of the
/// language's rules.
/// Takes time in proportion to the script, but for the search of names and of words in the table of operations.
pub fn lower(alloc: Global, script: &Script) -> Result<Program, LowerEnd>
    requires { IsWellMade script.now }
    ensures { Lowers result script.now }
{
    let mut settled = unsettled(alloc, script);
    match settle(alloc, script, &mut settled) {
        Ok(()) => or_memory(program_of(alloc, script, &settled)),
        Err(end) => Err(end),
    }
}
