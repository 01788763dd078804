//! The calls of a case.

use crate::answer::{CaseAnswer, described, difference};
use crate::fault::CaseFault;
use crate::folder::Folder;
use ftt_io::{MemShelf, MemSink};
use fttcan_top::plain;
use std::alloc::{AllocError, Global};

/// The room of each sink, in bytes, where a case says nothing else.
const ROOM: u64 = 1_048_576;

/// Why the case of this folder fails, in words; nothing where it passes.
pub fn failure(rt: &HostRuntime, path: &str) -> Result<Option<String>, AllocError> {
    let folder = Folder { rt, path };
    match first_difference(&folder) {
        Ok(found) => Ok(found),
        Err(fault) => Ok(Some(format!(in rt.alloc(); "{fault}")?)),
    }
}

/// The first difference of a case's calls, in words.
fn first_difference(folder: &Folder<'_>) -> Result<Option<String>, CaseFault> {
    let wanted = folder.wanted()?;
    let calls = folder.calls()?;
    first_of(folder, &wanted, calls.as_slice())
}

/// The first difference of calls with these words from what is wanted, in words.
fn first_of(
    folder: &Folder<'_>,
    wanted: &CaseAnswer,
    calls: &[Vec<String>],
) -> Result<Option<String>, CaseFault> {
    if calls.is_empty() {
        return Err(CaseFault::NoCall);
    }
    for words in calls {
        let found = difference_of(folder, wanted, words.as_slice())?;
        if found.is_some() {
            return Ok(found);
        }
    }
    Ok(None)
}

/// How what a call with these words answers differs from what is wanted, in words.
fn difference_of(
    folder: &Folder<'_>,
    wanted: &CaseAnswer,
    words: &[String],
) -> Result<Option<String>, CaseFault> {
    let given = answer(folder, words)?;
    match difference(wanted, &given) {
        Some(part) => Ok(Some(described(folder.rt.alloc(), part, wanted, &given)?)),
        None => Ok(None),
    }
}

/// What a call with these words answers.
fn answer(folder: &Folder<'_>, words: &[String]) -> Result<CaseAnswer, CaseFault> {
    let alloc = folder.rt.alloc();
    let mut shelf = shelf(folder, words)?;
    let mut out = sink(folder, "failing-puts", folder.number("room", ROOM)?)?;
    let mut err = sink(folder, "failing-error-puts", ROOM)?;
    let status = status_of(alloc, words, &mut shelf, &mut out, &mut err);
    Ok(answered(alloc, status, &shelf, &out, &err)?)
}

/// The shelf of a call with these words.
fn shelf(folder: &Folder<'_>, words: &[String]) -> Result<MemShelf, CaseFault> {
    let inputs = folder.inputs(words)?;
    Ok(MemShelf::new(inputs, folder.numbers("failing-fetches")?))
}

/// A sink with room for so many bytes, whose puts fail that a file names.
fn sink(folder: &Folder<'_>, failing: &'static str, room: u64) -> Result<MemSink, CaseFault> {
    let failing = folder.numbers(failing)?;
    Ok(MemSink::new(folder.rt.alloc(), room as usize, failing)?)
}

/// The answer of a call that ended so, with what its sinks took.
fn answered(
    alloc: Global,
    status: u64,
    shelf: &MemShelf,
    out: &MemSink,
    err: &MemSink,
) -> Result<CaseAnswer, AllocError> {
    Ok(CaseAnswer {
        status,
        output: out.bytes().to_vec(alloc)?,
        errors: err.bytes().to_vec(alloc)?,
        faults: shelf.faults(),
    })
}

/// The exit status of a call. It has no clause, so that no proof here takes up those of `plain`.
pub fn status_of(
    alloc: Global,
    words: &[String],
    shelf: &mut MemShelf,
    out: &mut MemSink,
    err: &mut MemSink,
) -> u64 {
    u64::from(plain(alloc, words, shelf, out, err).code())
}
