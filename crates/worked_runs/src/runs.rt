//! What the tests share: words, a run, and the comparing. No helper has a clause, so that a test sees few facts.

use crate::files::{File, folder_with, text_of};
use cell_values::Word;
use lue_run::{Ended, lue_main, lue_plain, status};
use outside_io::{Folder, MemFolder, MemSink, OpenGate, Sink};
use std::alloc::Global;
use std::process::Abort;
use std::sync::Wait;
use std::test::Fail;
use std::thread::Threads;

/// A script, the files that are there, the status, the line, and what is put, in order.
pub type Case = (
    &'static str,
    &'static [File],
    u8,
    &'static str,
    &'static [File],
);

/// The words of a text, split at spaces.
pub(crate) fn words_of(alloc: Global, text: &str) -> Result<Vec<Word>, Fail> {
    let mut words = Vec::new(alloc);
    for word in text.split_whitespace() {
        words.push(Word::new(alloc, word.as_bytes())?)?;
    }
    Ok(words)
}

/// The end of the words of a text, by the top call that has such words.
pub(crate) fn end_of<F: Folder, S: Sink>(
    rt: &(impl Abort + Threads + Wait + Sync),
    alloc: Global,
    text: &str,
    folder: &mut F,
    out: &mut S,
) -> Result<Ended, Fail> {
    let words = words_of(alloc, text)?;
    if text.starts_with("run") {
        return Ok(lue_main(rt, alloc, &words, folder, out, &OpenGate));
    }
    Ok(lue_plain(alloc, &words, folder, out))
}

/// The words of a text end with that status and that line.
pub(crate) fn expect_end<F: Folder>(
    rt: &(impl Abort + Threads + Wait + Sync),
    alloc: Global,
    text: &str,
    folder: &mut F,
    answer: u8,
    line: &str,
) -> Result<(), Fail> {
    let mut out = MemSink::new();
    let end = end_of(rt, alloc, text, folder, &mut out)?;
    assert_eq!(rt; out.bytes(), line.as_bytes(), "no line {line}");
    assert_eq!(rt; status(&end), answer, "the status at {line}");
    Ok(())
}

// The put of this number is that of this file.
fn expect_put(
    rt: &(impl Abort + Threads + Wait + Sync),
    alloc: Global,
    folder: &MemFolder,
    number: u64,
    head: &str,
    put: &File,
) -> Result<(), Fail> {
    let (name, text) = *put;
    let text = text_of(alloc, head, text)?;
    assert!(rt; number < folder.put_count(), "no put {number}");
    assert_eq!(rt;
        folder.put_name(number),
        name.as_bytes(),
        "the name of put {number}"
    );
    assert_eq!(rt;
        folder.put_bytes(number),
        text.as_bytes(),
        "the bytes of {name}"
    );
    Ok(())
}

/// These files were put, in order, and no others; a row is written below this head.
pub(crate) fn expect_puts(
    rt: &(impl Abort + Threads + Wait + Sync),
    alloc: Global,
    folder: &MemFolder,
    head: &str,
    puts: &[File],
    row: &str,
) -> Result<(), Fail> {
    assert_eq!(rt; folder.put_count(), puts.len() as u64, "puts at {row}");
    for (i, put) in puts.iter().enumerate() {
        expect_put(rt, alloc, folder, i as u64, head, put)?;
    }
    Ok(())
}

/// A script ends so by these words, over its files.
pub(crate) fn expect_case_by(
    rt: &(impl Abort + Threads + Wait + Sync),
    alloc: Global,
    words: &str,
    head: &str,
    case: &Case,
) -> Result<(), Fail> {
    let (script, files, answer, line, puts) = *case;
    let mut folder = folder_with(alloc, script, files, 0)?;
    expect_end(rt, alloc, words, &mut folder, answer, line)?;
    expect_puts(rt, alloc, &folder, head, puts, script)
}

/// A script ends so over whole maps.
pub(crate) fn expect_case(
    rt: &(impl Abort + Threads + Wait + Sync),
    alloc: Global,
    head: &str,
    case: &Case,
) -> Result<(), Fail> {
    expect_case_by(rt, alloc, "plain m.mod", head, case)
}

/// Each script ends so, over its files.
pub(crate) fn expect_cases(
    rt: &(impl Abort + Threads + Wait + Sync),
    alloc: Global,
    head: &str,
    cases: &[Case],
) -> Result<(), Fail> {
    for case in cases {
        expect_case(rt, alloc, head, case)?;
    }
    Ok(())
}
