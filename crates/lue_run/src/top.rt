ghost use Rattle.std.specs.Prelude.{◌≡◌, ◌≤◌, None, Some};
ghost use Rattle.std.specs.Option.{option_map};
ghost use Rattle.outside_io.specs.Causes.{outcome_as};
ghost use Rattle.lue_run.specs.Answers.{HasLine, IsComplete, IsUsage, IsShown, IsVerdict, IsVerdictKind, IfTooManyTold, LineIsWritten, KeepsCounts, NoFault, call_of};
ghost use Rattle.run_session.specs.Ends.{session_outcome};
ghost use Rattle.lue_run.specs.Ends.{OfScript, answer_for};
ghost use Rattle.lue_run.specs.Course.{IsCountBy};
ghost use Rattle.lue_run.specs.Words.{main_command, plain_command};
ghost use Rattle.lue_run.specs.inside.Asked.{command_asked, tiles_command};
ghost use Rattle.lue_run.specs.inside.Top.{ComesTo, IsEnd, Tells};

use crate::asked::{Asked, AskedTiles};
use crate::command::{main_asked, plain_asked};
use crate::ended::Ended;
use crate::exit_status::status;
use crate::line::put_line;
use crate::make::run_make;
use crate::plain::run_plain;
use crate::tiles::run_tiles;
use cell_values::Word;
use outside_io::{Folder, Gate, Sink};
use run_session::SessionEnd;
use std::alloc::Global;
use std::sync::Wait;
use std::thread::Threads;

// The answer for the end of a script.
fn ended(end: SessionEnd) -> Ended
    ensures answer { result ≡ answer_for (outcome_as OfScript (session_outcome end)) }
    ensures script { result ≡ Ended.Usage → ⊥ }
{
    match end {
        SessionEnd::Done { files, steps } => Ended::Done { files, steps },
        SessionEnd::Missing(name) => Ended::Missing(name),
        SessionEnd::TooLong(name) => Ended::TooLong(name),
        SessionEnd::Script(fault) => Ended::Script(fault),
        SessionEnd::Input { name, kind } => Ended::Input { name, kind },
        SessionEnd::TooManyTasks(count) => Ended::TooManyTasks(count),
        SessionEnd::Overflow(at) => Ended::Overflow(at),
        SessionEnd::FolderReadFault(name) => Ended::FolderReadFault(name),
        SessionEnd::FolderWriteFault(name) => Ended::FolderWriteFault(name),
        SessionEnd::Memory => Ended::Memory,
    }
}

// Does what is wanted over whole maps.
fn fulfil<F: Folder>(alloc: Global, wanted: Asked<'_>, folder: &mut F) -> Ended
    ensures { ComesTo (Some (command_asked wanted.entry)) (F.state folder.old) (F.state folder.new) result }
{
    match wanted {
        Asked::Plain(name) => ended(run_plain(alloc, name, folder)),
        Asked::Make(number) => run_make(alloc, number, folder),
    }
}

// Does what is asked for over whole maps, if anything is.
fn come_to<F: Folder>(alloc: Global, asked: Option<Asked<'_>>, folder: &mut F) -> Ended
    ensures { ComesTo (option_map command_asked asked.entry) (F.state folder.old) (F.state folder.new) result }
{
    match asked {
        Some(wanted) => fulfil(alloc, wanted, folder),
        None => Ended::Usage,
    }
}

// Runs the script by tiles.
fn fulfil_by_tiles<F: Folder, G: Gate + Sync, R: Threads + Wait + Sync>(
    rt: &R,
    alloc: Global,
    wanted: AskedTiles<'_>,
    folder: &mut F,
    gate: &G,
) -> Ended
    ensures { ComesTo (Some (tiles_command wanted.entry)) (F.state folder.old) (F.state folder.new) result }
{
    ended(run_tiles(rt, alloc, wanted.script, wanted.tiles, folder, gate))
}

// Runs a script by tiles, if one is asked for.
fn come_to_by_tiles<F: Folder, G: Gate + Sync, R: Threads + Wait + Sync>(
    rt: &R,
    alloc: Global,
    asked: Option<AskedTiles<'_>>,
    folder: &mut F,
    gate: &G,
) -> Ended
    ensures { ComesTo (option_map tiles_command asked.entry) (F.state folder.old) (F.state folder.new) result }
{
    match asked {
        Some(wanted) => fulfil_by_tiles(rt, alloc, wanted, folder, gate),
        None => Ended::Usage,
    }
}

// Writes the line of an end.
fn tell<S: Sink>(end: Ended, out: &mut S) -> Ended
    requires { HasLine end }
    ensures tells { Tells end (S.state out.old) (S.state out.new) result }
    ensures later { (S.state out.old).faults ≤ (S.state out.new).faults }
{
    match put_line(&end, out) {
        Ok(()) => end,
        Err(_) => {
            let instead = status(&end);
            Ended::OutFault { instead }
        }
    }
}

// Writes the line of an end, which has none for want of memory.
fn told<S: Sink>(end: Ended, out: &mut S) -> Ended
    requires { IsEnd end }
    ensures tells { Tells end (S.state out.old) (S.state out.new) result }
    ensures later { (S.state out.old).faults ≤ (S.state out.new).faults }
{
    match end {
        Ended::Memory => Ended::Memory,
        end => tell(end, out),
    }
}

/// Does what the words ask for, and writes one line to the sink: `plain SCRIPT` runs a script, and `make NUMBER` makes a
/// model.
///
/// The files that the script names are read from the folder, its outputs are put into it, in order, and then the line
/// of the end is written. After a put that failed nothing more is put.
pub fn lue_plain<F: Folder, S: Sink>(
    alloc: Global,
    words: &[Word],
    folder: &mut F,
    out: &mut S,
) -> Ended
    // An answer that is no fault of the outside and not want of memory is the verdict, with all outputs put.
    ensures verdict { IsVerdictKind result
        → IsVerdict (call_of (plain_command words.now) (F.state folder.old) (F.state folder.new) (S.state out.old) (S.state out.new)) result }
    // Why each answer comes, and what was put before a fault.
    ensures shown { IsShown (call_of (plain_command words.now) (F.state folder.old) (F.state folder.new) (S.state out.old) (S.state out.new)) result }
    // The line that is written.
    ensures line { LineIsWritten (call_of (plain_command words.now) (F.state folder.old) (F.state folder.new) (S.state out.old) (S.state out.new)) result }
    // Where no fault of the outside came, the answer is the verdict with its line written, or want of memory.
    ensures complete { NoFault (call_of (plain_command words.now) (F.state folder.old) (F.state folder.new) (S.state out.old) (S.state out.new))
        → IsComplete (call_of (plain_command words.now) (F.state folder.old) (F.state folder.new) (S.state out.old) (S.state out.new)) result }
    // Words that are no command.
    ensures refused { plain_command words.now ≡ None
        → IsUsage (call_of (plain_command words.now) (F.state folder.old) (F.state folder.new) (S.state out.old) (S.state out.new)) result }
    // Too many tasks are never told, not even as the end whose line could not be written.
    ensures few { IfTooManyTold result (λ count. ⊥) }
    // Counts never fall.
    ensures counts { KeepsCounts (call_of (plain_command words.now) (F.state folder.old) (F.state folder.new) (S.state out.old) (S.state out.new)) }
{
    let end = come_to(alloc, plain_asked(words), folder);
    told(end, out)
}

/// Does what the words ask for, and writes one line to the sink: `run SCRIPT TILEROWS TILECOLS WORKERS` runs a script by tiles of
/// so many rows and columns, in cells.
///
/// Files, their order and the end are those that `plain` has, for every size of the tiles and every number of workers, but for a
/// script with too many tasks: once its inputs are read, it ends with their number. The workers are threads that share the tasks of
/// a span; each passes the gate between its claim of a task and its work on it.
pub fn lue_main<F: Folder, S: Sink, G: Gate + Sync, R: Threads + Wait + Sync>(
    rt: &R,
    alloc: Global,
    words: &[Word],
    folder: &mut F,
    out: &mut S,
    gate: &G,
) -> Ended
    // An answer that is no fault of the outside and not want of memory is the verdict, with all outputs put.
    ensures verdict { IsVerdictKind result
        → IsVerdict (call_of (main_command words.now) (F.state folder.old) (F.state folder.new) (S.state out.old) (S.state out.new)) result }
    // Why each answer comes, and what was put before a fault.
    ensures shown { IsShown (call_of (main_command words.now) (F.state folder.old) (F.state folder.new) (S.state out.old) (S.state out.new)) result }
    // The line that is written.
    ensures line { LineIsWritten (call_of (main_command words.now) (F.state folder.old) (F.state folder.new) (S.state out.old) (S.state out.new)) result }
    // Where no fault of the outside came, the answer is the verdict with its line written, or want of memory.
    ensures complete { NoFault (call_of (main_command words.now) (F.state folder.old) (F.state folder.new) (S.state out.old) (S.state out.new))
        → IsComplete (call_of (main_command words.now) (F.state folder.old) (F.state folder.new) (S.state out.old) (S.state out.new)) result }
    // Words that are no command.
    ensures refused { main_command words.now ≡ None
        → IsUsage (call_of (main_command words.now) (F.state folder.old) (F.state folder.new) (S.state out.old) (S.state out.new)) result }
    // Too many tasks are told by a number that a script has by these tiles, also where the folder tells nothing.
    ensures many { IfTooManyTold result (IsCountBy (main_command words.now)) }
    // Counts never fall.
    ensures counts { KeepsCounts (call_of (main_command words.now) (F.state folder.old) (F.state folder.new) (S.state out.old) (S.state out.new)) }
{
    let end = come_to_by_tiles(rt, alloc, main_asked(words), folder, gate);
    told(end, out)
}
