//! Why a steps file is refused, and the line that says so.

ghost use Rattle.std.specs.Prelude.{◌≡◌, IfOk, string_bytes};
ghost use Rattle.steps_file.specs.StepText.{word_of, text_of};
ghost use Rattle.steps_file.specs.declared.step_fault.StepFault.TheVariants.{Row};

use std::alloc::{AllocError, AllocFailed, Global};
use std::error::Error;
use std::fmt;

/// Why a row of a steps file is none. They are tested in this order within a row.
#[derive(Clone, Copy, Debug, PartialEq, Eq)]
pub enum StepWhy {
    /// The first field is none of `cycle`, `look`, `add`, `remove`, `change`, `and`, or the second
    /// field of an `and` row is there and is none of `add`, `remove`, `change`.
    Word,
    /// The row has another number of fields than its words ask for.
    Fields,
    /// A field is no number in its range.
    Number,
    /// The operator is not 1 to 8.
    Operator,
    /// An `and` row stands directly below no row of a change.
    Loose,
    /// It is the 1,001st change.
    Changes,
    /// It is the 1,001st look.
    Looks,
    /// The counts of the `cycle` rows sum to more than 20,000.
    Cycles,
}

impl StepWhy {
    /// The word of the line that says why.
    pub fn word(self) -> &'static str
        ensures value { result.now ≡ word_of self }
    {
        match self {
            StepWhy::Word => "word",
            StepWhy::Fields => "fields",
            StepWhy::Number => "number",
            StepWhy::Operator => "operator",
            StepWhy::Loose => "loose",
            StepWhy::Changes => "changes",
            StepWhy::Looks => "looks",
            StepWhy::Cycles => "cycles",
        }
    }
}

/// Why no steps were read.
#[derive(Clone, Copy, Debug, PartialEq, Eq)]
pub enum StepFault {
    /// The first row that is none.
    Row {
        /// Its number, from 1. Empty lines are no rows.
        number: u64,
        /// Why it is none.
        why: StepWhy,
    },
    /// Memory ran out, which says nothing of the bytes.
    Memory,
}

impl StepFault {
    /// The line for the error sink: `steps: row NUMBER WORD`, or `out of memory`, and a line feed.
    ///
    /// # Errors
    ///
    /// Where memory ran out.
    pub fn message(&self, alloc: Global) -> Result<String, AllocError>
        ensures text { IfOk result (λ text. string_bytes text ≡ text_of self.now) }
    {
        match self {
            StepFault::Row { number, why } => row_text(alloc, *number, *why),
            StepFault::Memory => format!(in alloc; "out of memory\n"),
        }
    }
}

/// The line of a row that is none.
fn row_text(alloc: Global, number: u64, why: StepWhy) -> Result<String, AllocError>
    ensures text { IfOk result (λ text. string_bytes text ≡ text_of (Row number why)) }
{
    let mut text = String::new(alloc);
    write!(text, "steps: row {number} ")?;
    text.push_str(why.word())?;
    text.push('\n')?;
    Ok(text)
}

impl From<AllocError> for StepFault {
    ghost use Rattle.std.specs.Prelude.{◌≡◌};
    ghost use Rattle.steps_file.specs.declared.step_fault.StepFault.TheVariants.{Memory};

    ghost from_gives = { λ _ fault. fault ≡ Memory };

    fn from(_: AllocError) -> StepFault {
        StepFault::Memory
    }
}

impl<T: Drop> From<AllocFailed<T>> for StepFault {
    ghost use Rattle.std.specs.Prelude.{◌≡◌};
    ghost use Rattle.steps_file.specs.declared.step_fault.StepFault.TheVariants.{Memory};

    ghost from_gives = { λ _ fault. fault ≡ Memory };

    fn from(_: AllocFailed<T>) -> StepFault {
        StepFault::Memory
    }
}

impl fmt::Display for StepFault {
    fn fmt<W: fmt::Write>(&self, f: &mut fmt::Formatter<W>) -> fmt::Result {
        match self {
            StepFault::Row { number, why } => write!(f, "row {number} {}", why.word()),
            StepFault::Memory => f.write_str("out of memory"),
        }
    }
}

impl Error for StepFault {}
