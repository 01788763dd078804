//! What is decided of a change: the verdict, and what goes with it.

ghost use Rattle.std.specs.Prelude.{◌≡◌, option_map};
ghost use Rattle.admission.specs.Judged.{decision_in};

use crate::verdict::Verdict;
use items::Items;
use release_wheel::Planner;
use requirement_table::{Mask, PlacedList};

/// The slots that a plan flags in some cycles, one set for each cycle. Contracts see the list of sets.
pub type Trail = Items<Mask>;

/// What is decided of a change.
#[derive(Drop, Debug)]
pub struct Decision {
    /// The answer.
    pub verdict: Verdict,
    /// The placed entries after the change, exactly where it is accepted.
    pub placed: Option<PlacedList>,
    /// Where an instance would miss its deadline, the plan of the cycles from the first one that was planned to
    /// the one of the miss; else nothing.
    pub trail: Trail,
}

/// The table that an accepted change makes, and the planning of it.
#[derive(Drop, Debug)]
pub struct RankedTable {
    /// The placed entries after the change.
    pub placed: PlacedList,
    /// The planning of those that are not over by the cycle from which the change was planned. It stands before that
    /// cycle.
    pub planner: Planner,
}

/// What is decided of a change, with what an accepted one is planned from.
#[derive(Drop, Debug)]
pub struct Judgement {
    /// The answer.
    pub verdict: Verdict,
    /// The table after the change, exactly where it is accepted.
    pub table: Option<RankedTable>,
    /// The trail of a decision.
    pub trail: Trail,
}

impl Judgement {
    /// What is decided, without what it is planned from. It takes no memory.
    pub fn decision(self) -> Decision
        ensures decision { result ≡ decision_in self }
    {
        let Judgement {
            verdict,
            table,
            trail,
        } = self;
        Decision {
            verdict,
            placed: placed_of(table),
            trail,
        }
    }
}

/// The placed entries of a table, where there is one.
fn placed_of(table: Option<RankedTable>) -> Option<PlacedList>
    ensures placed { result ≡ option_map (λ table. table.placed) table }
{
    match table {
        None => None,
        Some(table) => {
            let RankedTable { placed, planner: _ } = table;
            Some(placed)
        }
    }
}
