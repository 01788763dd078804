//! Lists and states from outside, and whether a master may go on from them.

ghost use Rattle.std.specs.Prelude.{◌≡◌, ◌↔◌, IfOk, IfSome, IsTrue, Some};
ghost use Rattle.admission.specs.Safe.{IsSafeWithin};
ghost use Rattle.admission.specs.Verdict.{IsRules};

use crate::deciding::decide_list;
use admission_rules::Rules;
use planner_policies::{PlanState, rank, valid};
use profile::{GREATEST_HORIZON, LONGEST_WINDOW, MOST_NODES, OPENINGS_END, SHORTEST_WINDOW};
use requirement_table::{MOST_SLOTS, Placed, PlacedList, well_placed};
use std::alloc::{AllocError, Global};

/// Whether the rules are in range: 1 to 30 nodes, at most 96 slots, a window of 55 to 16,383 bit times, and a horizon of
/// 1 to 100,000 cycles.
pub fn are_rules(rules: &Rules) -> bool
    ensures rules { IsTrue result ↔ IsRules rules.now }
{
    1 <= rules.nodes
        && rules.nodes <= MOST_NODES
        && rules.slots <= MOST_SLOTS
        && SHORTEST_WINDOW <= rules.window
        && rules.window <= LONGEST_WINDOW
        && 1 <= rules.horizon
        && rules.horizon <= GREATEST_HORIZON
}

/// The list, where a master may go on with it from the state: the next cycle to be opened, at most 2^41, and the slots
/// that are pending before it. The answer is `None` where it may not.
///
/// So rules, a list and a state that come from outside are tested. The list has to be well placed, the state has to be
/// one that can be planned from, and the walk over the planning, within the horizon, has to find a repeat and no miss.
/// It takes the time and the memory of an answer to a change.
///
/// # Errors
///
/// Only where memory runs out.
pub fn safe_list(
    alloc: Global,
    rules: &Rules,
    list: Vec<Placed>,
    state: &PlanState,
) -> Result<Option<PlacedList>, AllocError>
    ensures same { IfOk result (λ found. IfSome found (λ same. same ≡ list.items)) }
    ensures safe { IfOk result (λ found. IfSome found
        (λ _. IsSafeWithin rules.now list.items state.now.cycle state.now.pending)) }
    ensures complete { IsSafeWithin rules.now list.items state.now.cycle state.now.pending
        → IfOk result (λ found. found ≡ Some list.items) }
{
    if !are_rules(rules) || state.cycle > OPENINGS_END || !well_placed(list.as_slice()) {
        return Ok(None);
    }
    let ranked = rank(alloc, list.as_slice(), rules.policy, rules.fill)?;
    if !valid(&ranked, state) {
        return Ok(None);
    }
    let judgement = decide_list(alloc, rules, list, state)?;
    let decision = judgement.decision();
    Ok(decision.placed)
}
