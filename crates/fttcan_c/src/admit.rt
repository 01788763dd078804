//! The admission of a change, and the plan of a cycle, over a table and a state that the caller keeps.

ghost use Rattle.std.specs.Prelude.{◌≡◌, ◌≢◌, ◌<◌, ◌≤◌, ◌↔◌, ℕ, List, IfErr, IfOk, IfSome, IsTrue, OnOk, map};
ghost use Rattle.profile.specs.Limits.{cycles_end, openings_end};
ghost use Rattle.planner_policies.specs.Plan.{IsValid};
ghost use Rattle.requirement_table.specs.Table.{IsWellPlaced};
ghost use Rattle.admission.specs.Verdict.{IsRules, IsSafe, ranking_by};
ghost use Rattle.c_values.specs.declared.plain.FttPlaced.{FttPlaced as FttPlacedOf};
ghost use Rattle.c_values.specs.declared.plain.FttVerdict.{FttVerdict as FttVerdictOf};
ghost use Rattle.c_values.specs.declared.refusal.ExportRefusal.{ExportRefusal as RefusalOf};
ghost use Rattle.c_values.specs.declared.refusal.ExportRefusal.TheVariants.{State};
ghost use Rattle.fttcan_c.specs.Admit.{AreAsked, IsDecided, IsDecidedOn, IsPlanState, IsStateOpened, RefusesChange, RefusesOpening, RefusesStanding};
ghost use Rattle.c_values.specs.Plain.{AreRules, mask_of, rules_of, state_of, table_of};
ghost use Rattle.c_values.specs.Refused.{status_of};
ghost use Rattle.c_values.specs.Room.{IsRoomFilled, IsRoomShort};
ghost use Rattle.c_values.specs.Told.{table_told};

use admission::{Decision, Rules, decide};
use c_values::{
    ExportRefusal, FttOp, FttPlaced, FttPlan, FttRules, FttState, FttVerdict, OK, change_in,
    is_mask, mask_in, mask_out, put, rules_in, table_in, table_out, verdict_out,
};
use change_protocol::Change;
use planner_policies::{PlanState, PlannedCycle, Ranked, plan_with_width, rank, valid};
use profile::OPENINGS_END;
use requirement_table::Placed;
use std::alloc::{AllocError, Global};

/// A table whose plan goes on from a state, by these rules.
#[derive(Drop)]
struct StandingTable {
    rules: Rules,
    list: Vec<Placed>,
    ranked: Ranked,
    state: PlanState,
}

/// The table and the state that C hands in, tested.
fn standing_in(
    alloc: Global,
    rules: Rules,
    placed: &[FttPlaced],
    state: &FttState,
) -> Result<StandingTable, ExportRefusal>
    requires known { IsRules rules }
    ensures rules { IfOk result (λ standing. standing.rules ≡ rules) }
    ensures list { IfOk result (λ standing. standing.list.items ≡ table_of placed.now) }
    ensures ranked { IfOk result (λ standing. standing.ranked ≡ ranking_by standing.rules standing.list.items) }
    ensures state { IfOk result (λ standing. standing.state ≡ state_of state.now) }
    ensures known { IfOk result (λ standing. IsRules standing.rules) }
    ensures standing { IfOk result (λ standing. IsPlanState standing.list.items state.now) }
    ensures well_placed { IfOk result (λ standing. IsWellPlaced standing.list.items) }
    ensures near { IfOk result (λ standing. standing.state.cycle ≤ openings_end) }
    ensures held { IfOk result
        (λ standing. IsValid standing.list.items standing.state.cycle standing.state.pending) }
    ensures refused { IfErr result (RefusesStanding placed.now state.now) }
{
    let list = table_in(alloc, placed)?;
    let ranked = rank(alloc, list.as_slice(), rules.policy, rules.fill)?;
    let state = state_in(&ranked, state)?;
    Ok(StandingTable {
        rules,
        list,
        ranked,
        state,
    })
}

/// The state of a plan.
fn state_in(ranked: &Ranked, state: &FttState) -> Result<PlanState, ExportRefusal>
    ensures state { IfOk result (λ made. made ≡ state_of state.now) }
    ensures near { IfOk result (λ made. made.cycle ≤ openings_end) }
    ensures held { IfOk result (λ made. IsValid ranked.now.placed made.cycle made.pending) }
    ensures standing { IfOk result (λ _. IsPlanState ranked.now.placed state.now) }
    ensures refused { IfErr result (λ refusal. (refusal ≡ State) × (IsPlanState ranked.now.placed state.now → ⊥)) }
{
    if state.cycle > OPENINGS_END || !is_mask(state.pending) {
        return Err(ExportRefusal::State);
    }
    let made = PlanState {
        cycle: state.cycle,
        pending: mask_in(state.pending),
    };
    if !valid(ranked, &made) {
        return Err(ExportRefusal::State);
    }
    Ok(made)
}

/// What is decided of a change, and what C is told of it.
fn decided(
    alloc: Global,
    rules: &FttRules,
    placed: &[FttPlaced],
    state: &FttState,
    start: u64,
    ops: &[FttOp],
) -> Result<(FttVerdict, Vec<FttPlaced>), ExportRefusal>
    ensures decided { IfOk result (λ r. IsDecided rules.now placed.now state.now start ops.now r.0 r.1.items) }
    ensures known { IfOk result (λ _. AreAsked rules.now ops.now) }
    ensures refused { IfErr result (RefusesChange rules.now placed.now state.now ops.now) }
{
    let rules = rules_in(rules)?;
    let change = change_in(alloc, start, ops)?;
    let standing = standing_in(alloc, rules, placed, state)?;
    let answer = decided_on(
        alloc,
        &standing.rules,
        standing.list.as_slice(),
        &standing.state,
        &change,
    )?;
    Ok(answer)
}

/// What is decided of a change of a list, and what C is told of it.
fn decided_on(
    alloc: Global,
    rules: &Rules,
    list: &[Placed],
    state: &PlanState,
    change: &Change,
) -> Result<(FttVerdict, Vec<FttPlaced>), AllocError>
    requires rules { IsRules rules.now }
    requires well_placed { IsWellPlaced list.now }
    requires valid { IsValid list.now state.now.cycle state.now.pending }
    requires near { state.now.cycle ≤ openings_end }
    ensures decided { IfOk result (λ r. IsDecidedOn rules.now list.now state.now change.now r.0 r.1.items) }
{
    let decision = decide(alloc, rules, list, state, change)?;
    let made = made_of(alloc, &decision)?;
    Ok((verdict_out(&decision.verdict), made))
}

/// The changed table of a decision; nothing where there is none.
fn made_of(alloc: Global, decision: &Decision) -> Result<Vec<FttPlaced>, AllocError>
    ensures list { IfOk result (λ made. made.items ≡ table_told decision.now.placed) }
{
    match &decision.placed {
        Some(list) => table_out(alloc, list.as_slice()),
        None => Ok(Vec::new(alloc)),
    }
}

/// Decides of a change of a table. Its plan goes on from the state, whose cycle is the next one to be opened: at most
/// 2^41. Where the change is accepted, the room has the changed table, and `count` says how many entries it has; else
/// `count` is 0. It has at most as many as the table and the operations together.
///
/// Where the room is too small, `count` is written and nothing else.
#[unsafe(no_mangle)]
pub extern "C" fn fttcan_decide(
    alloc: Global,
    rules: &FttRules,
    placed: &[FttPlaced],
    state: &FttState,
    start: u64,
    ops: &[FttOp],
    verdict: &mut FttVerdict,
    room: &mut [FttPlaced],
    count: &mut usize,
) -> u32
    ensures decided { result ≡ 0 → (list : List FttPlacedOf)
        × IsDecided rules.now placed.now state.now start ops.now verdict.new list
        × IsRoomFilled list room.old room.new count.new }
    ensures short { result ≡ 5 → (told : FttVerdictOf) × (list : List FttPlacedOf)
        × IsDecided rules.now placed.now state.now start ops.now told list
        × IsRoomShort list room.old room.new count.new × (verdict.new ≡ verdict.old) }
    ensures known { result ≡ 0 → AreAsked rules.now ops.now }
    ensures known_too { result ≡ 5 → AreAsked rules.now ops.now }
    ensures refused { result ≢ 0 → result ≢ 5 → (verdict.new ≡ verdict.old) × (room.new ≡ room.old)
        × (count.new ≡ count.old)
        × ((refusal : RefusalOf) × (result ≡ status_of refusal)
        × RefusesChange rules.now placed.now state.now ops.now refusal) }
{
    match decided(alloc, rules, placed, state, start, ops) {
        Ok((told, made)) => match put(made.as_slice(), room, count) {
            Ok(()) => {
                *verdict = told;
                OK
            }
            Err(refusal) => refusal.status(),
        },
        Err(refusal) => refusal.status(),
    }
}

/// The plan of the cycle of a state, and the state behind it.
fn planned(
    alloc: Global,
    rules: &FttRules,
    placed: &[FttPlaced],
    state: &FttState,
) -> Result<(FttPlan, FttState), ExportRefusal>
    ensures opened { IfOk result (λ r. IsStateOpened rules.now placed.now state.now r.1 r.0) }
    ensures known { IfOk result (λ _. AreRules rules.now) }
    ensures refused { IfErr result (RefusesOpening rules.now placed.now state.now) }
{
    let rules = rules_in(rules)?;
    let standing = standing_in(alloc, rules, placed, state)?;
    if standing.state.cycle >= OPENINGS_END {
        return Err(ExportRefusal::State);
    }
    match plan_with_width(&standing.ranked, standing.rules.window, &standing.state) {
        Ok(planned) => Ok((plan_out(&planned), state_out(&planned.next))),
        Err(_) => Err(ExportRefusal::Miss),
    }
}

/// Plans the cycle of a state: what is sent in it, and the state behind it. The cycle is below 2^41.
///
/// It answers `Miss` where an instance would miss its deadline in this cycle. From a table that `fttcan_decide` gave, with
/// the state it was given, that never comes.
#[unsafe(no_mangle)]
pub extern "C" fn fttcan_open(
    alloc: Global,
    rules: &FttRules,
    placed: &[FttPlaced],
    state: &mut FttState,
    plan: &mut FttPlan,
) -> u32
    ensures opened { result ≡ 0 → IsStateOpened rules.now placed.now state.old state.new plan.new }
    ensures known { result ≡ 0 → AreRules rules.now }
    ensures safe { result ≡ 0
        → IsSafe (rules_of rules.now) (table_of placed.now) state.old.cycle (mask_of state.old.pending)
        → IsSafe (rules_of rules.now) (table_of placed.now) state.new.cycle (mask_of state.new.pending) }
    ensures in_time { IsSafe (rules_of rules.now) (table_of placed.now) state.old.cycle (mask_of state.old.pending)
        → result ≢ 6 }
    ensures refused { result ≢ 0 → (state.new ≡ state.old) × (plan.new ≡ plan.old)
        × ((refusal : RefusalOf) × (result ≡ status_of refusal)
        × RefusesOpening rules.now placed.now state.old refusal) }
{
    let from = *state;
    match planned(alloc, rules, placed, &from) {
        Ok((sent, next)) => {
            *plan = sent;
            *state = next;
            OK
        }
        Err(refusal) => refusal.status(),
    }
}

/// What a cycle sends.
fn plan_out(planned: &PlannedCycle) -> FttPlan
    ensures flags { mask_of result.flags ≡ planned.now.mask }
    ensures window { result.window ≡ planned.now.width }
{
    let flags = mask_out(planned.mask);
    FttPlan {
        flags,
        window: planned.width,
    }
}

/// A state.
fn state_out(state: &PlanState) -> FttState
    ensures cycle { result.cycle ≡ state.now.cycle }
    ensures pending { mask_of result.pending ≡ state.now.pending }
{
    let pending = mask_out(state.pending);
    FttState {
        cycle: state.cycle,
        pending,
    }
}
