//! A table, and what its cases answer.

ghost use Rattle.std.specs.Prelude.{ℕ, IfOk, IsSome};
ghost use Rattle.cases.specs.Remarks.{IsNoCase};

use crate::fields::Fault;
use crate::reading::{Case, CaseReader, Read};
use std::alloc::{AllocError, Global};
use std::rt::Files;
use std::{fs, io};

/// What answers the cases of a table, one after the other.
pub trait CaseTable {
    /// What holds between two cases.
    ghost IsReady: { Self → Type 0 };

    /// What is told of what a case gives.
    fn answer(&mut self, alloc: Global, given: &str) -> Result<String, Fault>
        requires ready { IsReady self.old }
        ensures ready { IsReady self.new };
}

/// Prints the line of the table in the file `NAME.txt`: `ok NAME:` and the number of its cases, or `FAILED NAME:` and the
/// first that fails. Tells whether all have passed.
pub fn show<R: Files + AllocGlobal + Print, T: CaseTable + Drop>(
    rt: &R,
    name: &str,
    mut table: T,
) -> io::Result<bool>
    requires ready { T.IsReady table }
{
    let text = text_of(rt, name)?;
    tell(rt, compared(rt.alloc(), name, text.as_str(), &mut table)?)
}

/// The text of the table in the file `NAME.txt`.
fn text_of<R: Files + AllocGlobal>(rt: &R, name: &str) -> io::Result<String> {
    let file = format!(in rt.alloc(); "{name}.txt")?;
    fs::read_to_string(rt, file.as_str())
}

/// Prints the line of a table, and tells whether it says that all cases have passed.
fn tell<R: Print>(rt: &R, line: String) -> io::Result<bool> {
    let passed = line.starts_with("ok ");
    rt.println(line)?;
    Ok(passed)
}

/// The line of a table of this text, as `show` prints it.
///
/// A case is a line of what is given, ` = ` and what is wanted. A case of several lines has a line `---`, what is given, a
/// line `=>` and what is wanted, up to the next line `---` or the end of the table; where one stands, no case of one line
/// follows. Outside of these an empty line and one that begins with `#` are remarks. What is none of this fails.
pub fn compared<T: CaseTable>(
    alloc: Global,
    name: &str,
    text: &str,
    table: &mut T,
) -> io::Result<String>
    requires ready { T.IsReady table.old }
    ensures ready { T.IsReady table.new }
{
    let mut reader = CaseReader::new();
    let mut cases = 0u64;
    match first_failure(alloc, text, &mut reader, &mut cases, table)? {
        Some(failure) => Ok(format!(in alloc; "FAILED {name}: {failure}")?),
        None => Ok(format!(in alloc; "ok {name}: {cases} cases")?),
    }
}

/// Why the first case fails that does, where one does. The cases before it are counted, and so is it.
fn first_failure<T: CaseTable>(
    alloc: Global,
    text: &str,
    reader: &mut CaseReader,
    cases: &mut u64,
    table: &mut T,
) -> io::Result<Option<String>>
    requires ready { T.IsReady table.old }
    ensures ready { T.IsReady table.new }
{
    for line in text.split_terminator('\n') {
        let failure = next_failure(alloc, line, reader, cases, table)?;
        if failure.is_some() {
            return Ok(failure);
        }
    }
    failure(alloc, &reader.end(), cases, table)
}

/// Why what the next line ends fails, where it does.
fn next_failure<T: CaseTable>(
    alloc: Global,
    line: &str,
    reader: &mut CaseReader,
    cases: &mut u64,
    table: &mut T,
) -> io::Result<Option<String>>
    requires ready { T.IsReady table.old }
    ensures ready { T.IsReady table.new }
{
    let read = reader.next(alloc, line)?;
    failure(alloc, &read, cases, table)
}

/// Why what was read fails, where it does: what is no case always does. A case that passes is counted.
fn failure<T: CaseTable>(
    alloc: Global,
    read: &Read,
    cases: &mut u64,
    table: &mut T,
) -> io::Result<Option<String>>
    requires ready { T.IsReady table.old }
    ensures ready { T.IsReady table.new }
    ensures fails { IfOk result (λ failure. (line : ℕ) → IsNoCase line read.now → IsSome failure) }
{
    match read {
        Read::Nothing => Ok(None),
        Read::NoCase { line } => Ok(Some(format!(in alloc; "line {line} is no case")?)),
        Read::Case { case } => {
            *cases = cases.saturating_add(1);
            let told = table.answer(alloc, case.given.as_str());
            differs(alloc, case, told)
        }
    }
}

/// How what was told differs from what is wanted, where it does.
fn differs(alloc: Global, case: &Case, told: Result<String, Fault>) -> io::Result<Option<String>> {
    match told {
        Ok(told) => Ok(difference(alloc, case, told.as_str())?),
        Err(Fault::Unread) => Ok(Some(unread(alloc, case.line)?)),
        Err(Fault::Memory) => Err(io::Error::from(AllocError)),
        Err(Fault::Stream(fault)) => Err(fault),
    }
}

/// How a text differs from what is wanted, where it does.
fn difference(alloc: Global, case: &Case, told: &str) -> Result<Option<String>, AllocError> {
    if told == case.wanted.as_str() {
        return Ok(None);
    }
    Ok(Some(format!(in alloc; "line {} tells {told}", case.line)?))
}

/// That a line is not read.
fn unread(alloc: Global, line: u64) -> Result<String, AllocError> {
    format!(in alloc; "line {line} is not read")
}
