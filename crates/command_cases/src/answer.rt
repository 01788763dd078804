//! What a call answers, and in what two answers differ.

ghost use Rattle.std.specs.Prelude.{◌≡◌, IfNone};

use std::alloc::{AllocError, Global};

/// What a call answers, or is to answer.
#[derive(Drop)]
pub struct CaseAnswer {
    /// The exit status.
    pub status: u64,
    /// The bytes that the output sink took.
    pub output: Vec<u8>,
    /// The bytes that the error sink took.
    pub errors: Vec<u8>,
    /// The faults that the shelf counted.
    pub faults: u64,
}

/// A part of an answer.
#[derive(Clone, Copy)]
pub enum Part {
    Status,
    Output,
    Errors,
    Faults,
}

/// The first part in which the two answers differ.
pub fn difference(wanted: &CaseAnswer, given: &CaseAnswer) -> Option<Part>
    ensures status { IfNone result (wanted.now.status ≡ given.now.status) }
    ensures output { IfNone result (wanted.now.output.items ≡ given.now.output.items) }
    ensures errors { IfNone result (wanted.now.errors.items ≡ given.now.errors.items) }
    ensures faults { IfNone result (wanted.now.faults ≡ given.now.faults) }
{
    if wanted.status != given.status {
        return Some(Part::Status);
    }
    if wanted.output.as_slice() != given.output.as_slice() {
        return Some(Part::Output);
    }
    if wanted.errors.as_slice() != given.errors.as_slice() {
        return Some(Part::Errors);
    }
    if wanted.faults != given.faults {
        return Some(Part::Faults);
    }
    None
}

/// The difference of two answers in this part, in words.
pub fn described(
    alloc: Global,
    part: Part,
    wanted: &CaseAnswer,
    given: &CaseAnswer,
) -> Result<String, AllocError> {
    match part {
        Part::Status => status_text(alloc, wanted, given),
        Part::Output => line_text(alloc, "output", &wanted.output, &given.output),
        Part::Errors => line_text(alloc, "errors", &wanted.errors, &given.errors),
        Part::Faults => {
            format!(in alloc;
                "faults of the shelf: wanted {}, given {}",
                wanted.faults, given.faults
            )
        }
    }
}

/// Two statuses that differ, with what was said of the given one.
fn status_text(
    alloc: Global,
    wanted: &CaseAnswer,
    given: &CaseAnswer,
) -> Result<String, AllocError> {
    let said = text(&given.errors);
    format!(in alloc;
        "status: wanted {}, given {} {said:?}",
        wanted.status, given.status
    )
}

/// The first line in which two texts differ. A line that is not there is shown as an empty text.
fn line_text(alloc: Global, sink: &str, wanted: &[u8], given: &[u8]) -> Result<String, AllocError> {
    let (number, wanted, given) = first_lines(text(wanted), text(given));
    format!(in alloc; "{sink} line {number}: wanted {wanted:?}, given {given:?}")
}

/// The first lines of two texts that differ, and their number, from 1.
fn first_lines<'a>(wanted: &'a str, given: &'a str) -> (usize, &'a str, &'a str) {
    let mut wanted = wanted.split_inclusive('\n');
    let mut given = given.split_inclusive('\n');
    for number in 1..usize::MAX {
        let one = wanted.next().unwrap_or("");
        let other = given.next().unwrap_or("");
        if one != other || one.is_empty() {
            return (number, one, other);
        }
    }
    (0, "", "")
}

/// The bytes as a text.
fn text(bytes: &[u8]) -> &str {
    str::from_utf8(bytes).unwrap_or("bytes that are no text")
}
