//! Changes that are planned apart from a master.

ghost use Rattle.std.specs.Prelude.{◌≡◌, IfOk};
ghost use Rattle.change_protocol.specs.Applied.{applied};
ghost use Rattle.admission.specs.Verdict.{IsInTime, IsTakenWhereDue, plan_from};
ghost use Rattle.master_core.specs.Apart.{IsPlanOf, IsPlannable};

use crate::answer::{Answer, answer_of};
use admission::{Rules, Verdict};
use change_protocol::Change;
use planner_policies::PlanState;
use requirement_table::PlacedList;
use std::alloc::{AllocError, Global};
use std::marker::Model;

/// What a change is planned from, apart from its master.
#[derive(Drop, Debug)]
pub struct Snapshot {
    /// The rules by which changes are judged.
    pub rules: Rules,
    /// The placed entries, in the order of their placing.
    pub placed: PlacedList,
    /// The next cycle, and the slots that are pending before it.
    pub state: PlanState,
    /// The number of changes that the master accepted so far.
    pub accepted: u64,
}

/// A change that was planned from a snapshot, with all memory that a master needs to answer it. Contracts see the
/// change, what was decided of it, and from which cycle, by which rules and after how many accepted changes.
#[derive(Drop, Debug)]
pub struct Planned {
    pub(crate) rules: Rules,
    pub(crate) accepted: u64,
    pub(crate) answer: Answer,
}

impl Model for Planned {
    ghost use Rattle.std.specs.Prelude.{All, IfSome};
    ghost use Rattle.requirement_table.specs.Table.{IsWellPlaced};
    ghost use Rattle.change_protocol.specs.Operations.{HasTypes};
    ghost use Rattle.master_core.specs.Answers.{AreTablesOf, decision_of};
    ghost use Rattle.master_core.specs.Apart.{PlannedView};

    ghost Value = { PlannedView };

    ghost view = { λ p. record {
      rules = p.rules;
      accepted = p.accepted;
      change = p.answer.change;
      from = p.answer.from;
      decision = decision_of p.answer;
    } };

    ghost invariant = { λ p. All HasTypes p.answer.change.ops × AreTablesOf p.rules p.answer.from p.answer.made
        × IfSome p.answer.made (λ made. IsWellPlaced made.learned) };
}

impl Planned {
    /// What was decided of the change when its snapshot was taken.
    pub fn verdict(&self) -> Verdict
        ensures verdict { result ≡ self.now.decision.verdict }
    {
        self.answer.verdict
    }
}

/// Plans a change from a snapshot, apart from its master, and takes all memory that the master needs to answer it.
///
/// The rules are in range, the placed entries are well placed, and the state is valid, with a cycle of at most 2^41: so
/// are those of every snapshot that a master gave. It takes time for about the cycles that are walked times the entries
/// that are not over, and memory for the states.
///
/// # Errors
///
/// Only where memory runs out, which says nothing of the change.
pub fn plan_apart(
    alloc: Global,
    snapshot: &Snapshot,
    change: &Change,
) -> Result<Planned, AllocError>
    requires plannable { IsPlannable snapshot.now }
    ensures planned { IfOk result (IsPlanOf snapshot.now change.now) }
    ensures complete { let state = snapshot.now.state in
        let plan = plan_from snapshot.now.rules (applied snapshot.now.placed change.now) state.cycle state.pending in
        IfOk result (λ planned. IsInTime snapshot.now.rules snapshot.now.placed state.cycle change.now
        → IsTakenWhereDue snapshot.now.rules plan planned.decision.verdict) }
{
    let answer = answer_of(
        alloc,
        &snapshot.rules,
        snapshot.placed.as_slice(),
        &snapshot.state,
        change,
    )?;
    Ok(Planned {
        rules: snapshot.rules,
        accepted: snapshot.accepted,
        answer,
    })
}
