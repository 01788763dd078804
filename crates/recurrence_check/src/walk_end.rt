//! What is told of the first repeat of a walk.

ghost use Rattle.std.specs.Prelude.{◌≡◌};

use std::alloc::{AllocError, AllocFailed};
use std::error::Error;
use std::fmt;

/// A repeat of a walk: the state after `first + length` steps is the same as the one after `first`
/// steps.
#[derive(Clone, Copy, PartialEq, Eq, Debug)]
pub struct Repeat {
    /// The steps to the earlier state, from 0.
    pub first: u64,
    /// The steps from there until it is there again, at least 1.
    pub length: u64,
}

/// Why no repeat of a walk was found.
#[derive(Clone, Copy, PartialEq, Eq, Debug)]
pub enum WalkEnd {
    /// The walk does not go on from the state after `at` steps, and no state up to it is the same
    /// as an earlier one.
    Broken {
        /// The steps to the last state.
        at: u64,
    },
    /// No two states up to the horizon are the same.
    NoRepeat {
        /// The steps that were taken, which is the horizon.
        walked: u64,
    },
    /// There was no memory for the states.
    Memory,
}

impl fmt::Display for WalkEnd {
    fn fmt<W: fmt::Write>(&self, f: &mut fmt::Formatter<W>) -> fmt::Result {
        match self {
            WalkEnd::Broken { at } => write!(f, "the walk breaks after {at} steps"),
            WalkEnd::NoRepeat { walked } => write!(f, "no repeat in {walked} steps"),
            WalkEnd::Memory => write!(f, "out of memory"),
        }
    }
}

impl Error for WalkEnd {}

impl<T: Drop> From<AllocFailed<T>> for WalkEnd {
    ghost use Rattle.recurrence_check.specs.declared.walk_end.WalkEnd.TheVariants.{Memory};

    ghost from_gives = { λ _ end. end ≡ Memory };

    fn from(_failed: AllocFailed<T>) -> WalkEnd {
        WalkEnd::Memory
    }
}

impl From<AllocError> for WalkEnd {
    ghost use Rattle.recurrence_check.specs.declared.walk_end.WalkEnd.TheVariants.{Memory};

    ghost from_gives = { λ _ end. end ≡ Memory };

    fn from(_failed: AllocError) -> WalkEnd {
        WalkEnd::Memory
    }
}
