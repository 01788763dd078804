//! How a call ends.

ghost use Rattle.std.specs.Prelude.{◌≡◌};
ghost use Rattle.fttcan_top.specs.Output.{code_of};

/// How a call of the program ended.
#[derive(Clone, Copy, PartialEq, Eq, Debug)]
pub enum Status {
    /// What was asked was done: no change was refused, the checked plan keeps the table, the audited log is that of a
    /// whole run, or periods were chosen.
    Done,
    /// The run was done, and some change was refused, or no periods of the wish were chosen: none would be accepted, or
    /// they have too many combinations.
    Refused,
    /// The words are those of no command.
    Words,
    /// A file is too long, or its text breaks a rule of its format; or a plan to be checked begins later than in cycle 0,
    /// or with slots pending.
    Input,
    /// A file could not be read.
    Read,
    /// The output could not be written.
    Write,
    /// Memory ran out.
    Memory,
    /// A plan was checked, and it does not keep the table; or a log was audited, and it is not that of a whole run.
    No,
}

impl Status {
    /// The exit status of the process, from 0 to 7.
    pub fn code(self) -> u8
        ensures code { result ≡ code_of self }
    {
        match self {
            Status::Done => 0,
            Status::Refused => 1,
            Status::Words => 2,
            Status::Input => 3,
            Status::Read => 4,
            Status::Write => 5,
            Status::Memory => 6,
            Status::No => 7,
        }
    }
}
