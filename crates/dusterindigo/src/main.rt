//! The program: it hands the words of the command line, the current folder and standard output to the library, and
//! ends with the status of the answer.
#![tactic(auto)]

ghost use Rattle.std.specs.Prelude.{◌≡◌, ◌⊎◌, map, drop, IfErr, IfOk};
ghost use Rattle.std.specs.IoError.{error_kind};
ghost use Rattle.std.specs.Iterator.{Drains};
ghost use Rattle.std.specs.String.{string_bytes};
ghost use Rattle.std.specs.Vec.Iter.{into_iter_steps};
ghost use Rattle.lue_run.specs.Answers.{call_of};
ghost use Rattle.lue_run.specs.Lines.{status_of};
ghost use Rattle.lue_run.specs.declared.ended.Ended.TheVariants.{Memory};
ghost use Rattle.dusterindigo.specs.Commands.{begins_plain, program_command};
ghost use Rattle.dusterindigo.specs.Statuses.{AnswersWith, IsWithoutWords, Untouched};

use cell_values::Word;
use lue_run::{Ended, lue_main, lue_plain, status};
use outside_io::{FileFolder, Folder, Gate, OpenGate, Sink, StdSink};
use std::alloc::{AllocError, Global};
use std::env::{self, Args};
use std::io::{self, ErrorKind};
use std::process::ExitCode;
use std::sync::Wait;
use std::thread::Threads;

/// The status where the words cannot be had, and not for want of memory.
const NO_WORDS: u8 = 13;

// The words that follow the program's name, which is the first of the texts that are given.
fn words_of(alloc: Global, mut args: Args) -> Result<Vec<Word>, AllocError>
    ensures { IfOk result (λ words. (texts : _) × Drains into_iter_steps args texts × (words.items ≡ drop 1 (map string_bytes texts))) }
{
    let mut words = Vec::new(alloc);
    let Some(_program) = args.next() else {
        return Ok(words);
    };
    for arg in args {
        words.push(Word::new(alloc, arg.as_bytes())?)?;
    }
    Ok(words)
}

// The status where the words cannot be had.
fn without_words(kind: ErrorKind) -> u8
    ensures { IsWithoutWords kind result }
{
    match kind {
        ErrorKind::OutOfMemory => status(&Ended::Memory),
        _ => NO_WORDS,
    }
}

// Whether the first word is a command of `lue_plain`.
fn begins_plain(words: &[Word]) -> bool
    ensures { result ≡ begins_plain words.now }
{
    match words {
        [command, ..] => {
            let command = command.bytes();
            command == b"plain".as_slice() || command == b"make".as_slice()
        }
        [] => false,
    }
}

// Does what the words ask for, in the folder, and gives the status of the answer.
fn run_words<F: Folder, S: Sink, G: Gate + Sync, R: Threads + Wait + Sync>(
    rt: &R,
    alloc: Global,
    words: &[Word],
    folder: &mut F,
    out: &mut S,
    gate: &G,
) -> u8
    ensures { AnswersWith (call_of (program_command words.now) (F.state folder.old) (F.state folder.new) (S.state out.old) (S.state out.new)) result }
{
    if begins_plain(words) {
        status(&lue_plain(alloc, words, folder, out))
    } else {
        status(&lue_main(rt, alloc, words, folder, out, gate))
    }
}

// What the program does: of the words that the system gives or cannot give, in this folder, at this sink and through this
// gate; with the status of the answer.
fn run<F: Folder, S: Sink, G: Gate + Sync, R: Threads + Wait + Sync>(
    rt: &R,
    alloc: Global,
    args: io::Result<Args>,
    folder: &mut F,
    out: &mut S,
    gate: &G,
) -> u8
    ensures given { IfOk args (λ args. ((result ≡ status_of Memory) × Untouched (F.state folder.old) (F.state folder.new) (S.state out.old) (S.state out.new))
        ⊎ ((texts : _) × Drains into_iter_steps args texts
        × AnswersWith (call_of (program_command (drop 1 (map string_bytes texts))) (F.state folder.old) (F.state folder.new) (S.state out.old) (S.state out.new)) result)) }
    ensures without { IfErr args (λ error. IsWithoutWords (error_kind error) result
        × Untouched (F.state folder.old) (F.state folder.new) (S.state out.old) (S.state out.new)) }
{
    match args {
        Ok(args) => match words_of(alloc, args) {
            Ok(words) => run_words(rt, alloc, &words, folder, out, gate),
            Err(_) => status(&Ended::Memory),
        },
        Err(error) => without_words(error.kind()),
    }
}

fn main(rt: HostRuntime) -> ExitCode {
    ExitCode::from(run(
        &rt,
        rt.alloc(),
        env::args(&rt),
        &mut FileFolder::here(&rt),
        &mut StdSink::new(&rt),
        &OpenGate,
    ))
}
