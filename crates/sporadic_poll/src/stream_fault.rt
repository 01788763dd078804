//! Why a streams file is refused, and the line that says so.

ghost use Rattle.std.specs.Prelude.{◌≡◌, IfOk, string_bytes};
ghost use Rattle.sporadic_poll.specs.StreamText.{word_of, text_of};
ghost use Rattle.sporadic_poll.specs.declared.stream_fault.StreamFault.TheVariants.{Row};

use std::alloc::{AllocError, AllocFailed, Global};
use std::error::Error;
use std::fmt;

/// Why a row of a streams file is none. They are tested in this order within a row.
#[derive(Clone, Copy, Debug, PartialEq, Eq)]
pub enum StreamWhy {
    /// There are not three fields.
    Fields,
    /// AT is no number below 2^40, or SLOT is no number of 0 to 255.
    Number,
    /// SLOT is not below the number of slots.
    Slot,
    /// DATA is not an even number of 0 to 14 hexadecimal digits.
    Data,
    /// AT is less than in the row above.
    Order,
    /// It is row 10,001.
    Many,
}

impl StreamWhy {
    /// The word of the line that says why.
    pub fn word(self) -> &'static str
        ensures value { result.now ≡ word_of self }
    {
        match self {
            StreamWhy::Fields => "fields",
            StreamWhy::Number => "number",
            StreamWhy::Slot => "slot",
            StreamWhy::Data => "data",
            StreamWhy::Order => "order",
            StreamWhy::Many => "many",
        }
    }
}

/// Why no requests were read.
#[derive(Clone, Copy, Debug, PartialEq, Eq)]
pub enum StreamFault {
    /// The first row that is none.
    Row {
        /// Its number, from 1. Empty lines are no rows.
        number: u64,
        /// Why it is none.
        why: StreamWhy,
    },
    /// Memory ran out, which says nothing of the bytes.
    Memory,
}

impl StreamFault {
    /// The line for the error sink: `streams: row NUMBER WORD`, or `out of memory`, and a line feed.
    ///
    /// # Errors
    ///
    /// Where memory ran out.
    pub fn message(&self, alloc: Global) -> Result<String, AllocError>
        ensures text { IfOk result (λ text. string_bytes text ≡ text_of self.now) }
    {
        match self {
            StreamFault::Row { number, why } => row_text(alloc, *number, *why),
            StreamFault::Memory => format!(in alloc; "out of memory\n"),
        }
    }
}

/// The line of a row that is none.
fn row_text(alloc: Global, number: u64, why: StreamWhy) -> Result<String, AllocError>
    ensures text { IfOk result (λ text. string_bytes text ≡ text_of (Row number why)) }
{
    let mut text = String::new(alloc);
    write!(text, "streams: row {number} ")?;
    text.push_str(why.word())?;
    text.push('\n')?;
    Ok(text)
}

impl From<AllocError> for StreamFault {
    ghost use Rattle.std.specs.Prelude.{◌≡◌};
    ghost use Rattle.sporadic_poll.specs.declared.stream_fault.StreamFault.TheVariants.{Memory};

    ghost from_gives = { λ _ fault. fault ≡ Memory };

    fn from(_: AllocError) -> StreamFault {
        StreamFault::Memory
    }
}

impl<T: Drop> From<AllocFailed<T>> for StreamFault {
    ghost use Rattle.std.specs.Prelude.{◌≡◌};
    ghost use Rattle.sporadic_poll.specs.declared.stream_fault.StreamFault.TheVariants.{Memory};

    ghost from_gives = { λ _ fault. fault ≡ Memory };

    fn from(_: AllocFailed<T>) -> StreamFault {
        StreamFault::Memory
    }
}

impl fmt::Display for StreamFault {
    fn fmt<W: fmt::Write>(&self, f: &mut fmt::Formatter<W>) -> fmt::Result {
        match self {
            StreamFault::Row { number, why } => write!(f, "row {number} {}", why.word()),
            StreamFault::Memory => f.write_str("out of memory"),
        }
    }
}

impl Error for StreamFault {}
