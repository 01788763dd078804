//! Why a requests file is refused, and the line that says so.

ghost use Rattle.std.specs.Prelude.{◌≡◌, IfOk, string_bytes};
ghost use Rattle.requests_file.specs.RequestText.{word_of, text_of};
ghost use Rattle.requests_file.specs.declared.request_fault.RequestFault.TheVariants.{Row};

use std::alloc::{AllocError, AllocFailed, Global};
use std::error::Error;
use std::fmt;

/// Why a row of a requests file is none. They are tested in this order within a row.
#[derive(Clone, Copy, Debug, PartialEq, Eq)]
pub enum RequestWhy {
    /// There are not three fields.
    Fields,
    /// AT is no number below 2^40, or ID is neither a number of 0 to 65,535 nor `0x` and one to
    /// three hexadecimal digits.
    Number,
    /// Nobody owns the identifier.
    Identifier,
    /// DATA is not an even number of 0 to 16 hexadecimal digits.
    Data,
    /// AT is less than in the row above.
    Order,
    /// It is row 50,001.
    Many,
}

impl RequestWhy {
    /// The word of the line that says why.
    pub fn word(self) -> &'static str
        ensures value { result.now ≡ word_of self }
    {
        match self {
            RequestWhy::Fields => "fields",
            RequestWhy::Number => "number",
            RequestWhy::Identifier => "identifier",
            RequestWhy::Data => "data",
            RequestWhy::Order => "order",
            RequestWhy::Many => "many",
        }
    }
}

/// Why no requests were read.
#[derive(Clone, Copy, Debug, PartialEq, Eq)]
pub enum RequestFault {
    /// The first row that is none.
    Row {
        /// Its number, from 1. Empty lines are no rows.
        number: u64,
        /// Why it is none.
        why: RequestWhy,
    },
    /// Memory ran out, which says nothing of the bytes.
    Memory,
}

impl RequestFault {
    /// The line for the error sink: `requests: row NUMBER WORD`, or `out of memory`, and a line feed.
    ///
    /// # Errors
    ///
    /// Where memory ran out.
    pub fn message(&self, alloc: Global) -> Result<String, AllocError>
        ensures text { IfOk result (λ text. string_bytes text ≡ text_of self.now) }
    {
        match self {
            RequestFault::Row { number, why } => row_text(alloc, *number, *why),
            RequestFault::Memory => format!(in alloc; "out of memory\n"),
        }
    }
}

/// The line of a row that is none.
fn row_text(alloc: Global, number: u64, why: RequestWhy) -> Result<String, AllocError>
    ensures text { IfOk result (λ text. string_bytes text ≡ text_of (Row number why)) }
{
    let mut text = String::new(alloc);
    write!(text, "requests: row {number} ")?;
    text.push_str(why.word())?;
    text.push('\n')?;
    Ok(text)
}

impl From<AllocError> for RequestFault {
    ghost use Rattle.std.specs.Prelude.{◌≡◌};
    ghost use Rattle.requests_file.specs.declared.request_fault.RequestFault.TheVariants.{Memory};

    ghost from_gives = { λ _ fault. fault ≡ Memory };

    fn from(_: AllocError) -> RequestFault {
        RequestFault::Memory
    }
}

impl<T: Drop> From<AllocFailed<T>> for RequestFault {
    ghost use Rattle.std.specs.Prelude.{◌≡◌};
    ghost use Rattle.requests_file.specs.declared.request_fault.RequestFault.TheVariants.{Memory};

    ghost from_gives = { λ _ fault. fault ≡ Memory };

    fn from(_: AllocFailed<T>) -> RequestFault {
        RequestFault::Memory
    }
}

impl fmt::Display for RequestFault {
    fn fmt<W: fmt::Write>(&self, f: &mut fmt::Formatter<W>) -> fmt::Result {
        match self {
            RequestFault::Row { number, why } => write!(f, "row {number} {}", why.word()),
            RequestFault::Memory => f.write_str("out of memory"),
        }
    }
}

impl Error for RequestFault {}
