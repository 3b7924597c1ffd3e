//! Scripts and programs of texts.

ghost use Rattle.std.specs.Prelude.{IfOk};
ghost use Rattle.script_syntax.specs.WellMade.{IsWellMade};

use map_meaning::Program;
use script_syntax::{Script, read_script};
use script_types::lower;
use std::alloc::Global;
use std::test::Fail;

/// The script of a text.
pub(crate) fn script_of(alloc: Global, text: &str) -> Result<Script, Fail>
    ensures { IfOk result IsWellMade }
{
    if text.len() > 268_435_456 {
        return Err(Fail::from("too long"));
    }
    match read_script(alloc, text.as_bytes()) {
        Ok(script) => Ok(script),
        Err(_) => Err(Fail::from("no script")),
    }
}

/// The program of a script that a text gives.
pub(crate) fn program_of(alloc: Global, script: &Script) -> Result<Program, Fail>
    requires { IsWellMade script.now }
{
    match lower(alloc, script) {
        Ok(program) => Ok(program),
        Err(_) => Err(Fail::from("no program")),
    }
}
