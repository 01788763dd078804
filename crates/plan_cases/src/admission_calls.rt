//! Calls of the admission.

ghost use Rattle.std.specs.Prelude.{◌↔◌, IsTrue};
ghost use Rattle.admission.specs.Verdict.{IsRules};

use crate::numbers::{first, number};
use admission::{Rules, certify};
use planner_policies::{Fill, PlanState, Policy};
use profile::{GREATEST_HORIZON, LONGEST_WINDOW, MOST_NODES, SHORTEST_WINDOW};
use requirement_table::{MOST_SLOTS, Mask, Placed, well_placed};
use std::alloc::{AllocError, Global};

/// What the certificate of the table repeats: WINDOW HORIZON.
pub fn answer(alloc: Global, placed: &[Placed], numbers: &str) -> Result<String, AllocError> {
    let (window, horizon) = first(numbers);
    certified(alloc, &rules(window, number(horizon)), placed)
}

/// Rules with one node, 40 slots, `Rm` and `Prefix`.
pub fn rules(window: u64, horizon: u64) -> Rules {
    rules_of(40, Fill::Prefix, window, horizon)
}

/// Rules with one node and `Rm`. Of the number of slots and of the window as many low bits are taken as rules have.
pub fn rules_of(slots: u64, fill: Fill, window: u64, horizon: u64) -> Rules {
    Rules {
        nodes: 1,
        slots: (slots % 0x100) as u8,
        policy: Policy::Rm,
        fill,
        window: (window % 0x1_0000_0000) as u32,
        horizon,
    }
}

/// Whether the rules are in range.
pub fn known(rules: &Rules) -> bool
    ensures { IsTrue result ↔ IsRules rules.now }
{
    (1..=MOST_NODES).contains(&rules.nodes)
        && rules.slots <= MOST_SLOTS
        && (SHORTEST_WINDOW..=LONGEST_WINDOW).contains(&rules.window)
        && (1..=GREATEST_HORIZON).contains(&rules.horizon)
}

/// The first cycle and the length of what the certificate of the table repeats, or why it has none. No cycle was
/// opened.
fn certified(alloc: Global, rules: &Rules, placed: &[Placed]) -> Result<String, AllocError> {
    if !known(rules) || !well_placed(placed) {
        return Ok(String::new(alloc));
    }
    let state = PlanState {
        cycle: 0,
        pending: Mask::empty(),
    };
    match certify(alloc, rules, placed, &[], &state) {
        Ok(certificate) => { format!(in alloc; "{} {}", certificate.first(), certificate.length()) }
        Err(fault) => format!(in alloc; "{fault}"),
    }
}
