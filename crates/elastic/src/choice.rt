//! What is chosen of a wish, and why nothing is.

ghost use Rattle.std.specs.Prelude.{◌≡◌};

use crate::wish::Periods;
use admission::Verdict;
use items::Items;
use std::alloc::{AllocError, AllocFailed};
use std::error::Error;
use std::fmt;

/// What is chosen of a wish.
#[derive(Drop, Debug)]
pub struct Choice {
    /// The number of the combination, from 0: the least that would be accepted.
    pub number: u32,
    /// Its periods, in the order of the operations that add entries.
    pub periods: Periods,
    /// The cycle from which on the plan repeats.
    pub first: u64,
    /// The number of cycles after which it does.
    pub length: u64,
}

/// A list of verdicts that a value holds. Contracts see the list.
pub type Verdicts = Items<Verdict>;

/// Why nothing is chosen of a wish. The first of these that is true is the answer, in this order.
#[derive(Drop, Debug)]
pub enum ElasticFault {
    /// An operation adds an entry without a period to choose. A wish of a file has none.
    NoPeriod {
        /// The first such operation, from 0.
        op: u8,
    },
    /// There are more than 4,096 combinations.
    TooMany {
        /// The number of combinations of the first operations, up to the first with which it passes 4,096.
        count: u64,
    },
    /// No combination would be accepted.
    NoneFits {
        /// The verdicts on all combinations, in their order.
        verdicts: Verdicts,
    },
    /// Memory ran out, which says nothing of the wish.
    Memory,
}

impl From<AllocError> for ElasticFault {
    ghost use Rattle.std.specs.Prelude.{◌≡◌};
    ghost use Rattle.elastic.specs.declared.choice.ElasticFault.TheVariants.{Memory};

    ghost from_gives = { λ _ fault. fault ≡ Memory };

    fn from(_: AllocError) -> ElasticFault {
        ElasticFault::Memory
    }
}

impl<T: Drop> From<AllocFailed<T>> for ElasticFault {
    ghost use Rattle.std.specs.Prelude.{◌≡◌};
    ghost use Rattle.elastic.specs.declared.choice.ElasticFault.TheVariants.{Memory};

    ghost from_gives = { λ _ fault. fault ≡ Memory };

    fn from(_: AllocFailed<T>) -> ElasticFault {
        ElasticFault::Memory
    }
}

impl fmt::Display for ElasticFault {
    fn fmt<W: fmt::Write>(&self, f: &mut fmt::Formatter<W>) -> fmt::Result {
        match self {
            ElasticFault::NoPeriod { op } => write!(f, "operation {op} has no period to choose"),
            ElasticFault::TooMany { count } => write!(f, "there are {count} combinations or more"),
            ElasticFault::NoneFits { .. } => f.write_str("no combination would be accepted"),
            ElasticFault::Memory => f.write_str("out of memory"),
        }
    }
}

impl Error for ElasticFault {}
