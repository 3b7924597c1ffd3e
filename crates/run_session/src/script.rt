ghost use Rattle.std.specs.Prelude.{◌≤◌, length, IfErr, IfOk};
ghost use Rattle.text_base.specs.Limits.{most_script_bytes};
ghost use Rattle.script_syntax.specs.WellMade.{IsWellMade};
ghost use Rattle.script_syntax.specs.inside.Reading.{tree_of};
ghost use Rattle.script_types.specs.Answers.{IsLowered};
ghost use Rattle.run_session.specs.Course.{checked_run, checked_script, or_syntax, text_run};
ghost use Rattle.run_session.specs.inside.Parts.{GivesEnd, IsProgramFor, Makes, MakesFor, StopsAt};

use crate::ends::{ScriptFault, Stop};
use crate::files::fetch;
use map_meaning::Program;
use outside_io::Folder;
use script_syntax::{ReadScript, Script, read_script};
use script_types::{LowerEnd, lower};
use std::alloc::Global;
use std::sync::Arc;
use text_base::MOST_SCRIPT_BYTES;

// The script of a text.
fn parse_script(alloc: Global, text: &[u8]) -> Result<Script, Stop>
    requires { length text.now ≤ most_script_bytes }
    ensures settles { GivesEnd (or_syntax (tree_of text.now)) result }
    ensures made { IfOk result IsWellMade }
{
    match read_script(alloc, text) {
        Ok(script) => Ok(script),
        Err(ReadScript::Syntax(fault)) => Err(Stop::Script(ScriptFault::Syntax(fault))),
        Err(ReadScript::Memory) => Err(Stop::Memory),
    }
}

// Reads a script. Its text is let go.
fn script_at<F: Folder>(alloc: Global, folder: &mut F, name: &[u8]) -> Result<Script, Stop>
    ensures meets { Makes (text_run name.now) (F.state folder.old) (F.state folder.new) result }
    ensures made { IfOk result IsWellMade }
{
    let text = fetch(alloc, folder, name, MOST_SCRIPT_BYTES)?;
    parse_script(alloc, &text)
}

// The program of the script of this name.
#[tactic(auto, unfolding(crate::specs::Course::checked_script))]
fn program_of(alloc: Global, script: &Script) -> Result<Arc<Program>, Stop>
    requires { IsWellMade script.now }
    ensures lowered { IfOk result (λ program. IsLowered script.now program.value) }
    ensures stops { IfErr result (StopsAt (checked_script script.now)) }
{
    match lower(alloc, script) {
        Ok(program) => Ok(Arc::new(alloc, program)?),
        Err(LowerEnd::Meaning(fault)) => Err(Stop::Script(ScriptFault::Meaning(fault))),
        Err(LowerEnd::Memory) => Err(Stop::Memory),
    }
}

/// Reads a script, and gives its program. The script is let go.
pub fn read_program<F: Folder>(
    alloc: Global,
    folder: &mut F,
    name: &[u8],
) -> Result<Arc<Program>, Stop>
    ensures { MakesFor (λ s program. IsProgramFor s program.value) (checked_run name.now) (F.state folder.old) (F.state folder.new) result }
{
    let script = script_at(alloc, folder, name)?;
    program_of(alloc, &script)
}
