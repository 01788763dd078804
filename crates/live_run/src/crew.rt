//! The operators of a run: hired before it, and retired behind it.

ghost use Rattle.std.specs.Prelude.{◌≡◌, ◌≤◌, ℕ, true, [], All, Contains, IfOk, OnOk, OnErr, vec_len};
ghost use mathlib.Core.List.{IsPrefix};
ghost use Rattle.turn_lock.specs.Passes.{IsOfLock};
ghost use Rattle.live_master.specs.Passes.{IsPassOf};
ghost use Rattle.live_run.specs.Crew.{AreHired, HasLent, IsDone};

use crate::operating::operate;
use crate::points::Gate;
use crate::script::Script;
use live_master::{DispatcherPass, LiveMaster, OperatorPass};
use std::alloc::{AllocError, Global};
use std::sync::Wait;

/// An operator of a run.
#[derive(Drop)]
pub struct Operator {
    /// Its pass.
    pub pass: OperatorPass,
    /// Whether all acts of its script were answered.
    pub answered: bool,
}

/// Makes `count` operators, up to 8: the first ones of a shared master.
pub fn hire(
    alloc: Global,
    shared: &LiveMaster,
    pass: &mut DispatcherPass,
    count: usize,
) -> Result<Vec<Operator>, AllocError>
    requires standing { IsPassOf shared.now pass.old }
    requires first { pass.old.view.made ≡ 0 }
    requires few { count ≤ 8 }
    ensures hired { IfOk result (λ operators. AreHired shared.now operators.items) }
    ensures count { IfOk result (λ operators. vec_len operators ≡ count) }
    ensures lent { OnOk result (HasLent pass.old.view pass.new.view count) }
    ensures same { OnErr result (pass.new.view.out ≡ pass.old.view.out) }
    ensures standing { IsPassOf shared.now pass.new }
{
    let mut operators = Vec::with_capacity(alloc, count)?;
    for _ in 0..count {
        operators.push(Operator {
            pass: shared.operator(pass),
            answered: false,
        })?;
    }
    Ok(operators)
}

/// Has the operator's script answered, as far as there is memory.
pub fn take_part<R: Wait, G: Gate>(
    rt: &R,
    alloc: Global,
    shared: &LiveMaster,
    operator: &mut Operator,
    script: &Script,
    gate: &G,
)
    requires standing { IsPassOf shared.now operator.old.pass }
    requires none { operator.old.pass.view.mine ≡ [] }
    ensures done { IsDone shared.now operator.old.pass.view.number script.now operator.new }
{
    match operate(
        rt,
        alloc,
        shared,
        &mut operator.pass,
        script.acts.as_slice(),
        gate,
    ) {
        Ok(()) => operator.answered = true,
        Err(_full) => operator.answered = false,
    }
}

/// Retires the operators, and answers whether all of them had their scripts answered.
pub fn retire_all(
    shared: &LiveMaster,
    pass: &mut DispatcherPass,
    mut operators: Vec<Operator>,
) -> bool
    requires standing { IsPassOf shared.now pass.old }
    requires operators { All (λ operator. IsOfLock shared.now operator.pass) operators.items }
    requires out { pass.old.view.out ≡ vec_len operators }
    ensures answered { result ≡ true → All (λ operator. operator.answered ≡ true) operators.items }
    ensures ended { All (λ operator. Contains pass.new.view.ended (operator.pass.view.number, operator.pass.view.mine))
        operators.items }
    ensures few { (most : ℕ) → All (λ entry. entry.0 ≤ most) pass.old.view.ended
        → All (λ operator. operator.pass.view.number ≤ most) operators.items
        → All (λ entry. entry.0 ≤ most) pass.new.view.ended }
    ensures begins { IsPrefix pass.old.view.seen pass.new.view.seen }
    ensures mine { pass.new.view.mine ≡ pass.old.view.mine }
    ensures number { pass.new.view.number ≡ pass.old.view.number }
    ensures made { pass.new.view.made ≡ pass.old.view.made }
    ensures out { pass.new.view.out ≡ 0 }
    ensures standing { IsPassOf shared.now pass.new }
{
    let mut all_answered = true;
    while let Some(operator) = operators.pop() {
        all_answered &= operator.answered;
        shared.retire(pass, operator.pass);
    }
    all_answered
}
