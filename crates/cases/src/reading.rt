//! Reading the cases of a table, line by line.

ghost use Rattle.std.specs.Prelude.{◌≡◌, true, None, IfOk};
ghost use Rattle.cases.specs.Remarks.{IsRemark, IsNothing, IsPassedOver};

use std::alloc::{AllocError, Global};

/// The line before a case of several lines.
const FENCE: &str = "---";

/// The line between what is given and what is wanted, in a case of several lines.
const ARROW: &str = "=>";

/// What stands between both in a case of one line.
const EQUALS: &str = " = ";

/// A case: what is given and what is wanted. In a case of several lines each line of both ends with a line feed.
#[derive(Drop)]
pub struct Case {
    /// The number of its first line, from 1.
    pub line: u64,
    pub given: String,
    pub wanted: String,
}

/// What a line ends.
#[derive(Drop)]
pub enum Read {
    /// No case.
    Nothing,
    /// A case.
    Case { case: Case },
    /// What is no case, from the line with this number on.
    NoCase { line: u64 },
}

/// The lines so far of a case of several lines.
#[derive(Drop)]
struct CaseLines {
    line: u64,
    given: String,
    /// What is wanted, once the arrow was read.
    wanted: Option<String>,
}

/// What was read of a table.
#[derive(Drop)]
pub struct CaseReader {
    lines: u64,
    block: Option<CaseLines>,
}

impl CaseReader {
    /// No line was read.
    pub fn new() -> CaseReader {
        CaseReader {
            lines: 0,
            block: None,
        }
    }

    /// Reads the next line, and tells what it ends. Outside of a case of several lines nothing but a remark is passed over.
    pub fn next(&mut self, alloc: Global, line: &str) -> Result<Read, AllocError>
        ensures passed { IfOk result (λ read. IsNothing read → self.old.block ≡ None → IsPassedOver line.now) }
    {
        self.lines = self.lines.saturating_add(1);
        if line == FENCE {
            let read = self.end();
            self.block = Some(CaseLines {
                line: self.lines,
                given: String::new(alloc),
                wanted: None,
            });
            return Ok(read);
        }
        match &mut self.block {
            Some(block) => block.put(alloc, line),
            None => one_line(alloc, self.lines, line),
        }
    }

    /// What the end of the table ends. No case of several lines is passed over.
    pub fn end(&mut self) -> Read
        ensures passed { IsNothing result → self.old.block ≡ None }
    {
        let Some(
            CaseLines {
                line,
                given,
                wanted,
            },
        ) = self.block.take()
        else {
            return Read::Nothing;
        };
        match wanted {
            Some(wanted) => Read::Case {
                case: Case {
                    line,
                    given,
                    wanted,
                },
            },
            None => Read::NoCase { line },
        }
    }
}

impl CaseLines {
    /// Puts a line behind the others.
    fn put(&mut self, alloc: Global, line: &str) -> Result<Read, AllocError> {
        match &mut self.wanted {
            Some(wanted) => put_line(wanted, line)?,
            None if line == ARROW => self.wanted = Some(String::new(alloc)),
            None => put_line(&mut self.given, line)?,
        }
        Ok(Read::Nothing)
    }
}

/// Puts a line and a line feed behind a text.
fn put_line(text: &mut String, line: &str) -> Result<(), AllocError> {
    text.push_str(line)?;
    text.push('\n')?;
    Ok(())
}

/// Whether a line outside of a case of several lines is a remark: it is empty, or begins with `#`.
fn is_remark(line: &str) -> bool
    ensures remark { result ≡ true → IsRemark line.now }
{
    match line.as_bytes() {
        [] => true,
        [first, ..] => *first == b'#',
    }
}

/// What a line outside of a case of several lines is. Nothing but a remark is passed over.
fn one_line(alloc: Global, number: u64, line: &str) -> Result<Read, AllocError>
    ensures passed { IfOk result (λ read. IsNothing read → IsRemark line.now) }
{
    if is_remark(line) {
        return Ok(Read::Nothing);
    }
    let Some((given, wanted)) = line.split_once(EQUALS) else {
        return Ok(Read::NoCase { line: number });
    };
    Ok(Read::Case {
        case: Case {
            line: number,
            given: String::from_str(alloc, given)?,
            wanted: String::from_str(alloc, wanted)?,
        },
    })
}
