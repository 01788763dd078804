//! Why a wishes file is refused, and the line that says so.

ghost use Rattle.std.specs.Prelude.{◌≡◌, IfOk, string_bytes};
ghost use Rattle.elastic.specs.WishText.{word_of, text_of};
ghost use Rattle.elastic.specs.declared.wish_fault.WishFault.TheVariants.{Row};

use std::alloc::{AllocError, AllocFailed, Global};
use std::error::Error;
use std::fmt;

/// Why a row of a wishes file is none. They are tested in this order within a row.
#[derive(Clone, Copy, Debug, PartialEq, Eq)]
pub enum WishWhy {
    /// The first field is none that may stand there: `start` in the first row, and `add` or `remove` in the others.
    /// A row that is lacking has this why too.
    Word,
    /// The number of fields is not that of the row.
    Fields,
    /// A field is not a number in its range.
    Number,
    /// It is the 17th operation.
    Many,
}

impl WishWhy {
    /// The word of the line that says why.
    pub fn word(self) -> &'static str
        ensures value { result.now ≡ word_of self }
    {
        match self {
            WishWhy::Word => "word",
            WishWhy::Fields => "fields",
            WishWhy::Number => "number",
            WishWhy::Many => "many",
        }
    }
}

/// Why no wish was read.
#[derive(Clone, Copy, Debug, PartialEq, Eq)]
pub enum WishFault {
    /// The first row that is none.
    Row {
        /// Its number, from 1. Empty lines are no rows.
        number: u64,
        /// Why it is none.
        why: WishWhy,
    },
    /// Memory ran out, which says nothing of the bytes.
    Memory,
}

impl WishFault {
    /// The line for the error sink: `wishes: row NUMBER WORD`, or `out of memory`, and a line feed.
    ///
    /// # Errors
    ///
    /// Where memory ran out.
    pub fn message(&self, alloc: Global) -> Result<String, AllocError>
        ensures text { IfOk result (λ text. string_bytes text ≡ text_of self.now) }
    {
        match self {
            WishFault::Row { number, why } => row_text(alloc, *number, *why),
            WishFault::Memory => format!(in alloc; "out of memory\n"),
        }
    }
}

/// The line of a row that is none.
fn row_text(alloc: Global, number: u64, why: WishWhy) -> Result<String, AllocError>
    ensures text { IfOk result (λ text. string_bytes text ≡ text_of (Row number why)) }
{
    let mut text = String::new(alloc);
    write!(text, "wishes: row {number} ")?;
    text.push_str(why.word())?;
    text.push('\n')?;
    Ok(text)
}

impl From<AllocError> for WishFault {
    ghost use Rattle.std.specs.Prelude.{◌≡◌};
    ghost use Rattle.elastic.specs.declared.wish_fault.WishFault.TheVariants.{Memory};

    ghost from_gives = { λ _ fault. fault ≡ Memory };

    fn from(_: AllocError) -> WishFault {
        WishFault::Memory
    }
}

impl<T: Drop> From<AllocFailed<T>> for WishFault {
    ghost use Rattle.std.specs.Prelude.{◌≡◌};
    ghost use Rattle.elastic.specs.declared.wish_fault.WishFault.TheVariants.{Memory};

    ghost from_gives = { λ _ fault. fault ≡ Memory };

    fn from(_: AllocFailed<T>) -> WishFault {
        WishFault::Memory
    }
}

impl fmt::Display for WishFault {
    fn fmt<W: fmt::Write>(&self, f: &mut fmt::Formatter<W>) -> fmt::Result {
        match self {
            WishFault::Row { number, why } => write!(f, "row {number} {}", why.word()),
            WishFault::Memory => f.write_str("out of memory"),
        }
    }
}

impl Error for WishFault {}
