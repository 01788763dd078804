//! Why a call stops before it is done, and the line for a file that is refused.

ghost use Rattle.std.specs.Prelude.{◌≡◌, IfOk, string_bytes};
ghost use Rattle.asked_files.specs.Refusals.{length_line, refusal_line};

use command_words::{Source, WordsFault};
use elastic::WishFault;
use requests_file::RequestFault;
use sporadic_poll::StreamFault;
use std::alloc::{AllocError, Global};
use steps_file::StepFault;
use system_file::SystemFault;

/// Why a file is refused.
#[derive(Debug, Drop)]
pub enum Refusal {
    /// The file is longer than its limit.
    TooLong(Source),
    /// The text of the system file breaks a rule of its format.
    System(SystemFault),
    /// The text of the steps file does.
    Steps(StepFault),
    /// The text of the requests file does.
    Requests(RequestFault),
    /// The text of the plan is none from this line on, counted from 1.
    Plan(u64),
    /// The plan does not begin at cycle 0 with nothing pending.
    LaterPlan,
    /// The text of the wishes file breaks a rule of its format.
    Wishes(WishFault),
    /// The row of this number, counted from 1, is the first of the log that has none of the forms.
    Log(u64),
    /// The text of the streams file breaks a rule of its format.
    Streams(StreamFault),
}

/// Why a call stopped before it was done.
#[derive(Debug, Drop)]
pub enum Stop {
    /// The words are those of no command.
    Words,
    /// A file is refused.
    Input(Refusal),
    /// A file could not be read.
    Read,
    /// The output could not be written.
    Write,
    /// Memory ran out.
    Memory,
}

impl From<WordsFault> for Stop {
    ghost use Rattle.std.specs.Prelude.{◌≡◌};
    ghost use Rattle.asked_files.specs.Loads.{stop_of_words};

    ghost from_gives = { λ fault why. why ≡ stop_of_words fault };

    fn from(fault: WordsFault) -> Stop {
        match fault {
            WordsFault::NoCommand => Stop::Words,
            WordsFault::Memory => Stop::Memory,
        }
    }
}

/// The line for a file that is longer than its limit.
fn length_line(alloc: Global, source: Source) -> Result<String, AllocError>
    ensures line { IfOk result (λ text. string_bytes text ≡ length_line source) }
{
    let limit = source.limit();
    let mut text = String::from_str(alloc, source.word())?;
    writeln!(text, ": longer than {limit} bytes")?;
    Ok(text)
}

impl Refusal {
    /// The line for the error sink, with its line feed.
    pub fn line(&self, alloc: Global) -> Result<String, AllocError>
        ensures line { IfOk result (λ text. string_bytes text ≡ refusal_line self.now) }
    {
        match self {
            Refusal::TooLong(source) => length_line(alloc, *source),
            Refusal::Plan(line) => format!(in alloc; "plan: line {line}\n"),
            Refusal::LaterPlan => String::from_str(alloc, "plan: start\n"),
            Refusal::System(fault) => fault.message(alloc),
            Refusal::Steps(fault) => fault.message(alloc),
            Refusal::Requests(fault) => fault.message(alloc),
            Refusal::Wishes(fault) => fault.message(alloc),
            Refusal::Log(number) => format!(in alloc; "log: row {number}\n"),
            Refusal::Streams(fault) => fault.message(alloc),
        }
    }
}
