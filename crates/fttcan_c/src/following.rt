//! A standby in constant memory, behind a handle: it is told the changes that a master accepted, and takes over.

ghost use Rattle.std.specs.Prelude.{◌≡◌, ◌≢◌, [], Some, None, false, true, IfErr, IfOk, OnErr, OnOk};
ghost use Rattle.admission.specs.Verdict.{is_accepted};
ghost use Rattle.master_core.specs.Cores.{new_core};
ghost use Rattle.master_handle.specs.declared.held.HandleContent.{HandleContent as HeldOf};
ghost use Rattle.master_handle.specs.declared.held.HandleContent.TheVariants.{Standby};
ghost use Rattle.c_values.specs.declared.refusal.ExportRefusal.{ExportRefusal as RefusalOf};
ghost use Rattle.c_values.specs.declared.refusal.ExportRefusal.TheVariants.{Closed};
ghost use Rattle.fttcan_c.specs.Following.{HoldsStandby, IsChangeTold, IsDue, IsDueChange, IsExpected, IsInEffect, IsStandbyTakenOver, RefusesChangeTold, TakesEffect};
ghost use Rattle.fttcan_c.specs.Mastering.{Holds, IsCoreSubmitted, MayAsk, RefusesAsked, RefusesNew};
ghost use Rattle.c_values.specs.Plain.{AreRules, change_of, rules_of};
ghost use Rattle.c_values.specs.Refused.{status_of};

use crate::master::asked;
use admission::Trail;
use c_values::{ExportRefusal, FttOp, FttRules, FttVerdict, OK, rules_in, verdict_out};
use change_protocol::laws::lists_after_a_change;
use master_core::laws::accepted_anew;
use master_core::{Answered, Core};
use master_handle::{FttHandle, HandleContent};
use standby::laws::one_core;
use std::alloc::Global;
use std::mem;

/// A standby that was told nothing yet, in a box of its own.
fn made(alloc: Global, rules: &FttRules) -> Result<Box<HandleContent>, ExportRefusal>
    ensures standby { IfOk result (λ held. held.value ≡ Standby (new_core (rules_of rules.now) true)) }
    ensures known { IfOk result (λ _. AreRules rules.now) }
    ensures refused { IfErr result (RefusesNew rules.now) }
{
    let rules = rules_in(rules)?;
    let core = Core::new(alloc, rules, true)?;
    match Box::new(alloc, HandleContent::Standby { core }) {
        Ok(held) => Ok(held),
        Err(_) => Err(ExportRefusal::Memory),
    }
}

/// Makes a standby of a master with these rules, where the handle holds nothing. Its memory is bounded: it keeps at most
/// 4,096 entries, and no history.
#[unsafe(no_mangle)]
pub extern "C" fn fttcan_standby_new(s: &mut FttHandle, alloc: Global, rules: &FttRules) -> u32
    ensures made { result ≡ 0 → (s.old.value ≡ None) × AreRules rules.now
        × (s.new.value ≡ Some (Standby (new_core (rules_of rules.now) true))) }
    ensures same { result ≢ 0 → s.new.value ≡ s.old.value }
    ensures taken { result ≡ 8 → (held : HeldOf) × (s.old.value ≡ Some held) }
    ensures free { result ≢ 8 → s.old.value ≡ None }
    ensures refused { result ≢ 0 → result ≢ 8 → (refusal : RefusalOf) × (result ≡ status_of refusal)
        × RefusesNew rules.now refusal }
{
    if let Some(held) = mem::replace(s, FttHandle::none()).into_box(alloc) {
        *s = FttHandle::of(held);
        return ExportRefusal::Open.status();
    }
    match made(alloc, rules) {
        Ok(held) => {
            *s = FttHandle::of(held);
            OK
        }
        Err(refusal) => refusal.status(),
    }
}

/// Frees what the handle holds, where it holds something.
#[unsafe(no_mangle)]
pub extern "C" fn fttcan_standby_free(s: &mut FttHandle, alloc: Global)
    ensures none { s.new.value ≡ None }
{
    drop(mem::replace(s, FttHandle::none()).into_box(alloc));
}

/// What a standby answers to a change.
#[derive(Clone, Copy, PartialEq, Eq, Debug)]
pub struct Reply {
    /// Whether it follows.
    pub accepted: bool,
    pub verdict: FttVerdict,
}

/// Has the core of a standby answer a change that the master accepted. It is accepted where it is due.
fn answered_to(
    alloc: Global,
    core: &mut Core,
    caller: u8,
    start: u64,
    ops: &[FttOp],
) -> Result<Answered, ExportRefusal>
    ensures answered { IfOk result (IsCoreSubmitted caller (change_of start ops.now) core.old core.new) }
    ensures effect { IfOk result (λ answered. is_accepted answered.verdict ≡ true
        → IsInEffect (change_of start ops.now) core.old) }
    ensures due { IsDue (change_of start ops.now) core.old
        → IfOk result (λ answered. is_accepted answered.verdict ≡ true) }
    ensures known { OnOk result (MayAsk caller ops.now) }
    ensures same { OnErr result (core.new ≡ core.old) }
    ensures refused { IfErr result (RefusesAsked caller ops.now) }
{
    accepted_anew();
    one_core();
    lists_after_a_change();
    core.known();
    let answered = asked(alloc, core, caller, start, ops)?;
    Ok(answered)
}

/// Tells a standby a change that the master accepted. It is unchanged where it would not accept it.
fn changed(
    alloc: Global,
    held: &mut HandleContent,
    caller: u8,
    start: u64,
    ops: &[FttOp],
) -> Result<Reply, ExportRefusal>
    ensures answered { IfOk result (λ reply. IsChangeTold reply.accepted caller start ops.now reply.verdict held.old held.new) }
    ensures unfollowed { IfOk result (λ reply. reply.accepted ≡ false → held.new ≡ held.old) }
    ensures effect { IfOk result (λ reply. reply.accepted ≡ true → TakesEffect (change_of start ops.now) held.old) }
    ensures due { IsDueChange (change_of start ops.now) held.old → IfOk result (λ reply. reply.accepted ≡ true) }
    ensures known { OnOk result (MayAsk caller ops.now) }
    ensures same { OnErr result (held.new ≡ held.old) }
    ensures refused { IfErr result (RefusesChangeTold caller ops.now held.old) }
{
    match held {
        HandleContent::Standby { core } => {
            let Answered {
                from: _,
                verdict,
                trail: _,
            } = answered_to(alloc, core, caller, start, ops)?;
            Ok(Reply {
                accepted: verdict.is_accepted(),
                verdict: verdict_out(&verdict),
            })
        }
        _ => Err(ExportRefusal::Closed),
    }
}

/// Tells a standby a change that the master accepted, of operator `caller`, 1 to 8. It is planned from the standby's own
/// next cycle on, and takes effect in the cycle `start`. Where the standby would not accept it, the answer is `No` with the
/// verdict, and it is as before. That never comes where the standby followed all that the master did before.
#[unsafe(no_mangle)]
pub extern "C" fn fttcan_standby_change(
    s: &mut FttHandle,
    alloc: Global,
    caller: u8,
    start: u64,
    ops: &[FttOp],
    verdict: &mut FttVerdict,
) -> u32
    ensures followed { result ≡ 0 → Holds s.old.value (λ old. Holds s.new.value
        (IsChangeTold true caller start ops.now verdict.new old)) }
    ensures unfollowed { result ≡ 10 → Holds s.old.value (λ old. Holds s.new.value
        (IsChangeTold false caller start ops.now verdict.new old)) }
    ensures effect { result ≡ 0 → Holds s.old.value (TakesEffect (change_of start ops.now)) }
    ensures due { (held : HeldOf) → s.old.value ≡ Some held → IsDueChange (change_of start ops.now) held → result ≢ 10 }
    ensures same { result ≢ 0 → s.new.value ≡ s.old.value }
    ensures known { result ≡ 0 → MayAsk caller ops.now }
    ensures known_too { result ≡ 10 → MayAsk caller ops.now }
    ensures refused { result ≢ 0 → result ≢ 10 → verdict.new ≡ verdict.old }
    ensures why { result ≢ 0 → result ≢ 10 → (held : HeldOf) → s.old.value ≡ Some held
        → (refusal : RefusalOf) × (result ≡ status_of refusal) × RefusesChangeTold caller ops.now held refusal }
    ensures empty { s.old.value ≡ None → result ≡ 7 }
{
    let Some(mut held) = mem::replace(s, FttHandle::none()).into_box(alloc) else {
        return ExportRefusal::Closed.status();
    };
    let answer = changed(alloc, &mut held, caller, start, ops);
    *s = FttHandle::of(held);
    match answer {
        Ok(reply) => {
            *verdict = reply.verdict;
            if reply.accepted {
                OK
            } else {
                ExportRefusal::No.status()
            }
        }
        Err(refusal) => refusal.status(),
    }
}

/// The next cycle of a standby.
fn expected(held: &HandleContent) -> Result<u64, ExportRefusal>
    ensures next { IfOk result (λ cycle. IsExpected cycle held.now) }
    ensures refused { IfErr result (λ refusal. (refusal ≡ Closed) × (HoldsStandby held.now → ⊥)) }
{
    match held {
        HandleContent::Standby { core } => Ok(core.next()),
        _ => Err(ExportRefusal::Closed),
    }
}

/// The next cycle whose trigger a standby expects.
#[unsafe(no_mangle)]
pub extern "C" fn fttcan_standby_next(s: &mut FttHandle, alloc: Global, cycle: &mut u64) -> u32
    ensures same { s.new.value ≡ s.old.value }
    ensures next { result ≡ 0 → Holds s.old.value (IsExpected cycle.new) }
    ensures refused { result ≢ 0 → (cycle.new ≡ cycle.old) × (result ≡ 7) }
    ensures why { result ≢ 0 → (held : HeldOf) → s.old.value ≡ Some held → HoldsStandby held → ⊥ }
    ensures empty { s.old.value ≡ None → result ≡ 7 }
{
    let Some(held) = mem::replace(s, FttHandle::none()).into_box(alloc) else {
        return ExportRefusal::Closed.status();
    };
    let answer = expected(&held);
    *s = FttHandle::of(held);
    match answer {
        Ok(next) => {
            *cycle = next;
            OK
        }
        Err(refusal) => refusal.status(),
    }
}

/// Makes a master of a standby, in its box. It takes no memory.
fn taken_over(alloc: Global, held: &mut HandleContent) -> Result<(), ExportRefusal>
    ensures taken { OnOk result (IsStandbyTakenOver held.old held.new) }
    ensures same { OnErr result (held.new ≡ held.old) }
    ensures refused { IfErr result (λ refusal. (refusal ≡ Closed) × (HoldsStandby held.old → ⊥)) }
{
    match mem::replace(held, HandleContent::Moved) {
        HandleContent::Standby { core } => {
            let trail = Trail::of(Vec::new(alloc));
            *held = HandleContent::Master { core, trail };
            Ok(())
        }
        other => {
            *held = other;
            Err(ExportRefusal::Closed)
        }
    }
}

/// Makes a master of a standby, which goes on from its next cycle: `s` holds nothing then, and `m` the master. It takes
/// no memory.
#[unsafe(no_mangle)]
pub extern "C" fn fttcan_standby_take_over(
    s: &mut FttHandle,
    alloc: Global,
    m: &mut FttHandle,
) -> u32
    ensures taken { result ≡ 0 → (m.old.value ≡ None) × (s.new.value ≡ None)
        × Holds s.old.value (λ held. Holds m.new.value (IsStandbyTakenOver held)) }
    ensures refused { result ≢ 0 → (s.new.value ≡ s.old.value) × (m.new.value ≡ m.old.value) }
    ensures occupied { result ≡ 8 → (held : HeldOf) × (m.old.value ≡ Some held) }
    ensures free { result ≢ 8 → m.old.value ≡ None }
    ensures why { result ≢ 0 → result ≢ 8 → (result ≡ 7)
        × ((held : HeldOf) → s.old.value ≡ Some held → HoldsStandby held → ⊥) }
{
    if let Some(old) = mem::replace(m, FttHandle::none()).into_box(alloc) {
        *m = FttHandle::of(old);
        return ExportRefusal::Open.status();
    }
    let Some(mut held) = mem::replace(s, FttHandle::none()).into_box(alloc) else {
        return ExportRefusal::Closed.status();
    };
    match taken_over(alloc, &mut held) {
        Ok(()) => {
            *m = FttHandle::of(held);
            OK
        }
        Err(refusal) => {
            *s = FttHandle::of(held);
            refusal.status()
        }
    }
}
