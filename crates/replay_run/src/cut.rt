//! Why a run was cut short.

ghost use Rattle.std.specs.Prelude.{Some};
ghost use Rattle.replay_run.specs.CutText.{cut_text};

use ftt_io::Failed;
use std::alloc::AllocError;
use std::error::Error;
use std::fmt;

/// Why a run was cut short.
#[derive(Clone, Copy, Debug, PartialEq, Eq)]
pub enum Cut {
    /// There was no memory for the next event.
    Memory,
    /// The sink failed.
    Write,
}

impl fmt::Display for Cut {
    ghost output = { λ cut. Some (cut_text cut) };

    fn fmt<W: fmt::Write>(&self, f: &mut fmt::Formatter<W>) -> fmt::Result {
        match self {
            Cut::Memory => write!(f, "out of memory"),
            Cut::Write => write!(f, "the log can't be written"),
        }
    }
}

impl Error for Cut {}

impl From<AllocError> for Cut {
    ghost use Rattle.std.specs.Prelude.{◌≡◌};
    ghost use Rattle.replay_run.specs.declared.cut.Cut.TheVariants.{Memory};

    ghost from_gives = { λ _ cut. cut ≡ Memory };

    fn from(_error: AllocError) -> Cut {
        Cut::Memory
    }
}

impl From<Failed> for Cut {
    ghost use Rattle.std.specs.Prelude.{◌≡◌};
    ghost use Rattle.replay_run.specs.declared.cut.Cut.TheVariants.{Write};

    ghost from_gives = { λ _ cut. cut ≡ Write };

    fn from(_error: Failed) -> Cut {
        Cut::Write
    }
}
