//! Certificates of a table.

ghost use Rattle.std.specs.Prelude.{◌≡◌, ◌+◌, ◌<◌, ◌≤◌, ◌++◌, IfErr, IfOk};
ghost use Rattle.profile.specs.Limits.{greatest_horizon, openings_end};
ghost use Rattle.requirement_table.specs.Table.{IsWellPlaced};
ghost use Rattle.planner_policies.specs.Plan.{HasNoMiss, IsValid, pending_at, planning_of};
ghost use Rattle.plan_check.specs.PlanKept.{IsTaken};
ghost use Rattle.admission.specs.Certified.{IsCertificateFrom, IsCertificateOf, IsFaultOnPlan, IsMissBehind};
ghost use Rattle.admission.specs.Certified.{IsRepeated, end_of};
ghost use Rattle.admission.specs.Verdict.{IsRules, IsVerdictOnPlan, masks_of, plan_from};
ghost use Rattle.admission.specs.declared.verdict.Verdict.TheVariants.{Accepted};

use crate::certify_fault::CertifyFault;
use crate::deciding::{miss, plan_cycles, planner_of, walk_over};
use crate::walk::PlanWalk;
use admission_rules::Rules;
use plan_check::Certificate;
use planner_policies::laws::valid_states;
use planner_policies::{Miss, PlanState};
use recurrence_check::{Repeat, WalkEnd, lasso_keyed};
use requirement_table::{Mask, Placed};
use std::alloc::{AllocError, Global};

/// The certificate of a table: the plan from cycle 0 on with nothing pending, up to the end of its first repeat at or
/// behind the state.
///
/// `opened` are the masks of the cycles from 0 to below the state's cycle, at most 2^41: the plan of the placed
/// entries, in which nothing is missed. `state` is the state behind them. The rules have 1 to 30 nodes, 40 or 96 slots,
/// a window of 55 to 16,383 bit times and a horizon of 1 to 100,000 cycles. It takes time for about twice the cycles
/// that are walked and the instances that are pending in them, and memory for their states and for all masks.
///
/// # Errors
///
/// `Miss` exactly where an instance would miss its deadline in a cycle below the state's cycle + horizon. `NoRepeat`
/// exactly where none would and the plan has no repeat at or below that. `Memory` says nothing of the table.
pub fn certify(
    alloc: Global,
    rules: &Rules,
    placed: &[Placed],
    opened: &[Mask],
    state: &PlanState,
) -> Result<Certificate, CertifyFault>
    requires rules { IsRules rules.now }
    requires well_placed { IsWellPlaced placed.now }
    requires next { state.now.cycle ≤ openings_end }
    requires opened { opened.now ≡ masks_of (plan_from rules.now placed.now 0 0) state.now.cycle }
    requires in_time { HasNoMiss (plan_from rules.now placed.now 0 0) state.now.cycle }
    requires pending { state.now.pending ≡ pending_at (plan_from rules.now placed.now 0 0) state.now.cycle }
    ensures certificate { IfOk result (IsCertificateOf rules.now placed.now opened.now state.now) }
    ensures whole { IfOk result (λ certificate.
        certificate.masks ≡ masks_of (plan_from rules.now placed.now 0 0) (end_of certificate)) }
    ensures taken { IfOk result (IsTaken placed.now rules.now.window) }
    ensures fault { IfErr result
        (IsFaultOnPlan rules.now.horizon (plan_from rules.now placed.now state.now.cycle state.now.pending)) }
{
    valid_states();
    let (first, planned) = repeated(alloc, rules, placed, state)?;
    let masks = joined(alloc, opened, planned.as_slice())?;
    Ok(Certificate::new(0, Mask::empty(), first, masks))
}

/// Does what `certify` does, where the repeat is known of the plan that goes on from the state: it begins in the cycle
/// `first`, and has so many cycles. No repeat is looked for, so each cycle is planned once.
///
/// # Errors
///
/// Only where memory runs out.
pub fn certify_known(
    alloc: Global,
    rules: &Rules,
    placed: &[Placed],
    opened: &[Mask],
    state: &PlanState,
    first: u64,
    length: u64,
) -> Result<Certificate, AllocError>
    requires rules { IsRules rules.now }
    requires well_placed { IsWellPlaced placed.now }
    requires next { state.now.cycle ≤ openings_end }
    requires opened { opened.now ≡ masks_of (plan_from rules.now placed.now 0 0) state.now.cycle }
    requires in_time { HasNoMiss (plan_from rules.now placed.now 0 0) state.now.cycle }
    requires pending { state.now.pending ≡ pending_at (plan_from rules.now placed.now 0 0) state.now.cycle }
    requires repeats { IsVerdictOnPlan rules.now.horizon
        (plan_from rules.now placed.now state.now.cycle state.now.pending) (Accepted first length) }
    ensures certificate { IfOk result (IsCertificateOf rules.now placed.now opened.now state.now) }
    ensures whole { IfOk result (λ certificate.
        certificate.masks ≡ masks_of (plan_from rules.now placed.now 0 0) (end_of certificate)) }
    ensures taken { IfOk result (IsTaken placed.now rules.now.window) }
{
    valid_states();
    let planned = planned(alloc, rules, placed, state, first - state.cycle + length)?;
    let masks = joined(alloc, opened, planned.as_slice())?;
    Ok(Certificate::new(0, Mask::empty(), first, masks))
}

/// The certificate of a table from a state on: the plan from its cycle on with its pending slots, up to the end of the
/// first repeat. It asks for no masks of cycles that were opened before.
///
/// The state is one that can be planned from, and its cycle is at most 2^41. The rules have 1 to 30 nodes, 40 or 96
/// slots, a window of 55 to 16,383 bit times and a horizon of 1 to 100,000 cycles. It takes time for about twice the
/// cycles that are walked and the instances that are pending in them, and memory for their states and masks.
///
/// # Errors
///
/// `Miss` exactly where an instance would miss its deadline in a cycle below the state's cycle + horizon. `NoRepeat`
/// exactly where none would and the plan has no repeat at or below that. `Memory` says nothing of the table.
pub fn certify_from(
    alloc: Global,
    rules: &Rules,
    placed: &[Placed],
    state: &PlanState,
) -> Result<Certificate, CertifyFault>
    requires rules { IsRules rules.now }
    requires well_placed { IsWellPlaced placed.now }
    requires valid { IsValid placed.now state.now.cycle state.now.pending }
    requires next { state.now.cycle ≤ openings_end }
    ensures certificate { IfOk result (IsCertificateFrom rules.now placed.now state.now) }
    ensures taken { IfOk result (IsTaken placed.now rules.now.window) }
    ensures fault { IfErr result
        (IsFaultOnPlan rules.now.horizon (plan_from rules.now placed.now state.now.cycle state.now.pending)) }
{
    let (first, masks) = repeated(alloc, rules, placed, state)?;
    Ok(Certificate::new(state.cycle, state.pending, first, masks))
}

/// The plan from a state on, up to the end of its first repeat: the cycle in which the part begins that is repeated,
/// and the masks of all cycles.
fn repeated(
    alloc: Global,
    rules: &Rules,
    placed: &[Placed],
    state: &PlanState,
) -> Result<(u64, Vec<Mask>), CertifyFault>
    requires rules { IsRules rules.now }
    requires well_placed { IsWellPlaced placed.now }
    requires valid { IsValid placed.now state.now.cycle state.now.pending }
    requires next { state.now.cycle ≤ openings_end }
    ensures planned { IfOk result (λ r. IsRepeated rules.now placed.now state.now r.0 r.1.items) }
    ensures fault { IfErr result
        (IsFaultOnPlan rules.now.horizon (plan_from rules.now placed.now state.now.cycle state.now.pending)) }
{
    let start = planner_of(alloc, rules, placed, state)?;
    let walk = walk_over(rules, placed, state, &start);
    match lasso_keyed(alloc, &walk, rules.horizon) {
        Ok(Repeat { first, length }) => {
            let (planned, _) = plan_cycles(alloc, &walk, first + length)?;
            Ok((state.cycle + first, planned))
        }
        Err(WalkEnd::Broken { at }) => {
            let Miss {
                slot,
                release,
                cycle,
            } = first_miss(alloc, &walk, at)?;
            Err(CertifyFault::Miss {
                slot,
                release,
                cycle,
            })
        }
        Err(WalkEnd::NoRepeat { walked }) => Err(CertifyFault::NoRepeat { walked }),
        Err(WalkEnd::Memory) => Err(CertifyFault::Memory),
    }
}

/// The masks of so many cycles of the plan from a state on, in which nothing is missed.
fn planned(
    alloc: Global,
    rules: &Rules,
    placed: &[Placed],
    state: &PlanState,
    cycles: u64,
) -> Result<Vec<Mask>, AllocError>
    requires rules { IsRules rules.now }
    requires well_placed { IsWellPlaced placed.now }
    requires valid { IsValid placed.now state.now.cycle state.now.pending }
    requires next { state.now.cycle ≤ openings_end }
    requires near { cycles ≤ greatest_horizon }
    requires none_missed { HasNoMiss (plan_from rules.now placed.now state.now.cycle state.now.pending) cycles }
    ensures masks { IfOk result (λ masks. masks.items
        ≡ masks_of (plan_from rules.now placed.now state.now.cycle state.now.pending) cycles) }
{
    let planner = planner_of(alloc, rules, placed, state)?;
    let walk = walk_over(rules, placed, state, &planner);
    let (masks, _) = plan_cycles(alloc, &walk, cycles)?;
    Ok(masks)
}

/// The masks of both lists, in memory of their own.
fn joined(alloc: Global, opened: &[Mask], planned: &[Mask]) -> Result<Vec<Mask>, AllocError>
    ensures masks { IfOk result (λ masks. masks.items ≡ opened.now ++ planned.now) }
{
    let mut masks = opened.to_vec(alloc)?;
    masks.extend_from_slice(planned)?;
    Ok(masks)
}

/// The miss of a plan, where the first one is in the cycle behind `at` cycles. They are planned once more.
fn first_miss(alloc: Global, walk: &PlanWalk<'_>, at: u64) -> Result<Miss, AllocError>
    requires near { at < greatest_horizon }
    requires none_before { let first = walk.now.first in
        HasNoMiss (planning_of walk.now.start.now.ranking walk.now.window first.cycle first.pending) at }
    requires missed { let first = walk.now.first in
        ¬ HasNoMiss (planning_of walk.now.start.now.ranking walk.now.window first.cycle first.pending) (at + 1) }
    ensures miss { let first = walk.now.first in
        IfOk result (IsMissBehind (planning_of walk.now.start.now.ranking walk.now.window first.cycle first.pending) at) }
{
    let (_, mut planner) = plan_cycles(alloc, walk, at)?;
    Ok(miss(&mut planner, walk.window))
}
