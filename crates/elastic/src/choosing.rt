//! The choice of a combination.

ghost use Rattle.std.specs.Prelude.{◌≡◌, ◌<◌, ◌≤◌, IfOk, IfErr, IfSome, IfNone, All, length};
ghost use Rattle.profile.specs.Limits.{openings_end};
ghost use Rattle.requirement_table.specs.Table.{IsWellPlaced};
ghost use Rattle.change_protocol.specs.declared.operations.Op.{Op};
ghost use Rattle.planner_policies.specs.Plan.{IsValid};
ghost use Rattle.admission.specs.Verdict.{IsRules};
ghost use Rattle.elastic.specs.Combination.{AreChoosable, AreTooMany, HasChoice, HasFewChoices, IsFirstWithoutPeriod};
ghost use Rattle.elastic.specs.Combination.{combinations, operations_in, periods_of};
ghost use Rattle.elastic.specs.Choice.{EndsAs, IsChoice, IsElasticFault, IsUnchoosable, IsVerdictOn};

use crate::choice::{Choice, ElasticFault, Verdicts};
use crate::combining::wish_change;
use crate::wish::{Periods, Wish, WishOp};
use admission::{Rules, Verdict, decide};
use change_protocol::Op;
use planner_policies::PlanState;
use requirement_table::Placed;
use std::alloc::{AllocError, Global};

/// The most combinations of a wish.
const MOST_COMBINATIONS: u64 = 4_096;

/// The first operation that adds an entry without a period to choose, from 0.
fn first_without_period(ops: &[WishOp]) -> Option<u8>
    requires few { length ops.now ≤ 256 }
    ensures found { IfSome result (IsFirstWithoutPeriod ops.now) }
    ensures none { IfNone result (All HasChoice ops.now) }
{
    for (place, op) in ops.iter().enumerate() {
        if op.choices() == 0 {
            return Some(place as u8);
        }
    }
    None
}

/// The number of combinations, where it is at most 4,096; else that of the first operations, up to the first with which
/// it passes that.
fn counted(ops: &[WishOp]) -> Result<u32, u64>
    requires some { All HasChoice ops.now }
    requires few { All HasFewChoices ops.now }
    ensures ok { IfOk result (λ count. count ≡ combinations ops.now) }
    ensures few { IfOk result (λ count. count ≤ 4096) }
    ensures many { IfErr result (AreTooMany ops.now) }
{
    let mut count = 1u64;
    for op in ops {
        count *= op.choices() as u64;
        if count > MOST_COMBINATIONS {
            return Err(count);
        }
    }
    Ok(count as u32)
}

/// The number of combinations of a wish of which one may be chosen.
fn combinations(wish: &Wish) -> Result<u32, ElasticFault>
    requires few_ops { length wish.now.ops ≤ 256 }
    requires few_periods { All HasFewChoices wish.now.ops }
    ensures ok { IfOk result (λ count. count ≡ combinations wish.now.ops) }
    ensures choosable { IfOk result (λ count. AreChoosable wish.now.ops) }
    ensures fault { IfErr result (IsUnchoosable wish.now) }
{
    let ops = wish.ops.as_slice();
    if let Some(op) = first_without_period(ops) {
        return Err(ElasticFault::NoPeriod { op });
    }
    match counted(ops) {
        Ok(count) => Ok(count),
        Err(count) => Err(ElasticFault::TooMany { count }),
    }
}

/// The periods of the entries that operations place, in their order.
fn periods_of(alloc: Global, ops: &[Op]) -> Result<Periods, AllocError>
    ensures periods { IfOk result (λ periods. periods ≡ periods_of ops.now) }
{
    let mut periods = Vec::new(alloc);
    for op in ops {
        if let Some(entry) = op.entry() {
            periods.push(entry.period)?;
        }
    }
    Ok(Periods::of(periods))
}

/// The periods of the combination with this number.
fn chosen_periods(alloc: Global, wish: &Wish, number: u32) -> Result<Periods, AllocError>
    requires below { number < combinations wish.now.ops }
    requires few { combinations wish.now.ops ≤ 4096 }
    ensures periods { IfOk result (λ periods. periods ≡ periods_of (operations_in number wish.now.ops)) }
{
    let change = wish_change(alloc, wish, number)?;
    periods_of(alloc, change.ops.as_slice())
}

/// The verdict on the combination with this number.
fn verdict_on(
    alloc: Global,
    rules: &Rules,
    placed: &[Placed],
    state: &PlanState,
    wish: &Wish,
    number: u32,
) -> Result<Verdict, AllocError>
    requires rules { IsRules rules.now }
    requires well_placed { IsWellPlaced placed.now }
    requires valid { IsValid placed.now state.now.cycle state.now.pending }
    requires next { state.now.cycle ≤ openings_end }
    requires below { number < combinations wish.now.ops }
    requires few { combinations wish.now.ops ≤ 4096 }
    ensures verdict { IfOk result
        (IsVerdictOn rules.now placed.now state.now.pending state.now.cycle wish.now number) }
{
    let change = wish_change(alloc, wish, number)?;
    let decision = decide(alloc, rules, placed, state, &change)?;
    Ok(decision.verdict)
}

/// The first combination that is accepted and the numbers of its recurrence, or the verdicts on all.
fn first_accepted(
    alloc: Global,
    rules: &Rules,
    placed: &[Placed],
    state: &PlanState,
    wish: &Wish,
    count: u32,
) -> Result<Result<(u32, u64, u64), Verdicts>, AllocError>
    requires rules { IsRules rules.now }
    requires well_placed { IsWellPlaced placed.now }
    requires valid { IsValid placed.now state.now.cycle state.now.pending }
    requires next { state.now.cycle ≤ openings_end }
    requires all { count ≡ combinations wish.now.ops }
    requires few { count ≤ 4096 }
    ensures tried { IfOk result
        (EndsAs rules.now placed.now state.now.pending state.now.cycle wish.now) }
{
    let mut verdicts = Vec::new(alloc);
    for number in 0..count {
        let verdict = verdict_on(alloc, rules, placed, state, wish, number)?;
        if let Verdict::Accepted { first, length } = verdict {
            return Ok(Ok((number, first, length)));
        }
        verdicts.push(verdict)?;
    }
    Ok(Err(Verdicts::of(verdicts)))
}

/// Chooses the least combination of a wish that `decide` would accept, by these rules, for this list and from this
/// state on. Nothing is changed.
///
/// The rules, the list and the state are as `decide` takes them. The wish has at most 256 operations, and none of them
/// has more than 65,536 periods. Each combination is planned at most once, and none behind the one that is chosen.
///
/// # Errors
///
/// Where no combination is chosen, and where memory runs out.
pub fn choose(
    alloc: Global,
    rules: &Rules,
    placed: &[Placed],
    state: &PlanState,
    wish: &Wish,
) -> Result<Choice, ElasticFault>
    requires rules { IsRules rules.now }
    requires well_placed { IsWellPlaced placed.now }
    requires valid { IsValid placed.now state.now.cycle state.now.pending }
    requires next { state.now.cycle ≤ openings_end }
    requires few_ops { length wish.now.ops ≤ 256 }
    requires few_periods { All HasFewChoices wish.now.ops }
    ensures choice { IfOk result (IsChoice rules.now placed.now state.now.pending state.now.cycle wish.now) }
    ensures fault { IfErr result (IsElasticFault rules.now placed.now state.now.pending state.now.cycle wish.now) }
{
    let count = combinations(wish)?;
    match first_accepted(alloc, rules, placed, state, wish, count)? {
        Ok((number, first, length)) => {
            let periods = chosen_periods(alloc, wish, number)?;
            Ok(Choice {
                number,
                periods,
                first,
                length,
            })
        }
        Err(verdicts) => Err(ElasticFault::NoneFits { verdicts }),
    }
}
