//! A change that is planned in another thread, while cycles are opened.

ghost use Rattle.std.specs.Prelude.{◌≡◌, ◌≢◌, ◌≤◌, ◌↔◌, None, Some, All, IfErr, IfOk, IsTrue, OnErr, OnOk};
ghost use Rattle.master_handle.specs.declared.held.HandleContent.{HandleContent as HeldOf};
ghost use Rattle.c_values.specs.declared.refusal.ExportRefusal.{ExportRefusal as RefusalOf};
ghost use Rattle.c_values.specs.declared.refusal.ExportRefusal.TheVariants.{Closed};
ghost use Rattle.fttcan_c.specs.Apart.{HoldsPlanned, IsPlannedApart, IsPlannedTold, IsSnapshot, IsSnapshotOf, RefusesApart, RefusesPlanning};
ghost use Rattle.fttcan_c.specs.Mastering.{Holds};
ghost use Rattle.c_values.specs.Plain.{IsOp, change_of};
ghost use Rattle.fttcan_c.specs.Reading.{RefusesRead};
ghost use Rattle.c_values.specs.Refused.{status_of};

use c_values::{ExportRefusal, FttOp, FttVerdict, OK, change_in, verdict_out};
use change_protocol::Change;
use master_handle::{FttHandle, HandleContent};
use std::alloc::Global;
use std::mem;

/// A snapshot of a master, in a box of its own.
fn snapshot_of(alloc: Global, held: &HandleContent) -> Result<Box<HandleContent>, ExportRefusal>
    ensures snapshot { IfOk result (λ made. IsSnapshotOf held.now made.value) }
    ensures refused { IfErr result (RefusesRead held.now) }
{
    match held {
        HandleContent::Master { core, trail: _ } => {
            let snapshot = core.snapshot(alloc)?;
            match Box::new(alloc, HandleContent::Snapshot { snapshot }) {
                Ok(made) => Ok(made),
                Err(_) => Err(ExportRefusal::Memory),
            }
        }
        _ => Err(ExportRefusal::Closed),
    }
}

/// Takes a snapshot of a master, from which a change can be planned in another thread.
#[unsafe(no_mangle)]
pub extern "C" fn fttcan_master_snapshot(m: &mut FttHandle, alloc: Global, s: &mut FttHandle) -> u32
    ensures same { m.new.value ≡ m.old.value }
    ensures taken { result ≡ 0 → (s.old.value ≡ None)
        × Holds m.old.value (λ held. Holds s.new.value (IsSnapshotOf held)) }
    ensures refused { result ≢ 0 → s.new.value ≡ s.old.value }
    ensures occupied { result ≡ 8 → (held : HeldOf) × (s.old.value ≡ Some held) }
    ensures free { result ≢ 8 → s.old.value ≡ None }
    ensures empty { result ≢ 8 → m.old.value ≡ None → result ≡ 7 }
    ensures why { result ≢ 0 → result ≢ 8 → (held : HeldOf) → m.old.value ≡ Some held
        → (refusal : RefusalOf) × (result ≡ status_of refusal) × RefusesRead held refusal }
{
    if let Some(old) = mem::replace(s, FttHandle::none()).into_box(alloc) {
        *s = FttHandle::of(old);
        return ExportRefusal::Open.status();
    }
    let Some(held) = mem::replace(m, FttHandle::none()).into_box(alloc) else {
        return ExportRefusal::Closed.status();
    };
    let answer = snapshot_of(alloc, &held);
    *m = FttHandle::of(held);
    match answer {
        Ok(made) => {
            *s = FttHandle::of(made);
            OK
        }
        Err(refusal) => refusal.status(),
    }
}

/// Frees what the handle holds, where it holds something.
#[unsafe(no_mangle)]
pub extern "C" fn fttcan_snapshot_free(s: &mut FttHandle, alloc: Global)
    ensures none { s.new.value ≡ None }
{
    drop(mem::replace(s, FttHandle::none()).into_box(alloc));
}

/// Plans a change from a snapshot, in its box.
fn planned_apart(
    alloc: Global,
    held: &mut HandleContent,
    start: u64,
    ops: &[FttOp],
) -> Result<(), ExportRefusal>
    ensures planned { OnOk result (IsPlannedApart (change_of start ops.now) held.old held.new) }
    ensures known { OnOk result (All IsOp ops.now) }
    ensures same { OnErr result (held.new ≡ held.old) }
    ensures refused { IfErr result (RefusesApart ops.now held.old) }
{
    if !holds_snapshot(held) {
        return Err(ExportRefusal::Closed);
    }
    let change = change_in(alloc, start, ops)?;
    planned_in_place(alloc, held, &change)
}

/// Whether a snapshot is held.
fn holds_snapshot(held: &HandleContent) -> bool
    ensures snapshot { IsTrue result ↔ IsSnapshot held.now }
{
    match held {
        HandleContent::Snapshot { .. } => true,
        _ => false,
    }
}

/// Plans a change from a snapshot, and puts the plan in its place.
fn planned_in_place(
    alloc: Global,
    held: &mut HandleContent,
    change: &Change,
) -> Result<(), ExportRefusal>
    ensures planned { OnOk result (IsPlannedApart change.now held.old held.new) }
    ensures same { OnErr result (held.new ≡ held.old) }
    ensures refused { IfErr result (RefusesPlanning held.old) }
{
    match mem::replace(held, HandleContent::Moved) {
        HandleContent::Snapshot { snapshot } => match snapshot.plan(alloc, change) {
            Ok(planned) => {
                *held = HandleContent::Planned { planned };
                Ok(())
            }
            Err(snapshot) => {
                *held = HandleContent::Snapshot { snapshot };
                Err(ExportRefusal::Memory)
            }
        },
        other => {
            *held = other;
            Err(ExportRefusal::Closed)
        }
    }
}

/// Plans a change from a snapshot, which it takes: where it is planned, `s` holds nothing and `p` the plan.
#[unsafe(no_mangle)]
pub extern "C" fn fttcan_plan_apart(
    s: &mut FttHandle,
    alloc: Global,
    start: u64,
    ops: &[FttOp],
    p: &mut FttHandle,
) -> u32
    ensures planned { result ≡ 0 → (p.old.value ≡ None) × (s.new.value ≡ None)
        × Holds s.old.value (λ held. Holds p.new.value (IsPlannedApart (change_of start ops.now) held)) }
    ensures known { result ≡ 0 → All IsOp ops.now }
    ensures refused { result ≢ 0 → (s.new.value ≡ s.old.value) × (p.new.value ≡ p.old.value) }
    ensures occupied { result ≡ 8 → (held : HeldOf) × (p.old.value ≡ Some held) }
    ensures free { result ≢ 8 → p.old.value ≡ None }
    ensures empty { result ≢ 8 → s.old.value ≡ None → result ≡ 7 }
    ensures why { result ≢ 0 → result ≢ 8 → (held : HeldOf) → s.old.value ≡ Some held
        → (refusal : RefusalOf) × (result ≡ status_of refusal) × RefusesApart ops.now held refusal }
{
    if let Some(old) = mem::replace(p, FttHandle::none()).into_box(alloc) {
        *p = FttHandle::of(old);
        return ExportRefusal::Open.status();
    }
    let Some(mut held) = mem::replace(s, FttHandle::none()).into_box(alloc) else {
        return ExportRefusal::Closed.status();
    };
    match planned_apart(alloc, &mut held, start, ops) {
        Ok(()) => {
            *p = FttHandle::of(held);
            OK
        }
        Err(refusal) => {
            *s = FttHandle::of(held);
            refusal.status()
        }
    }
}

/// What was decided of a planned change when its snapshot was taken.
fn verdict_in(held: &HandleContent) -> Result<FttVerdict, ExportRefusal>
    ensures verdict { IfOk result (λ verdict. IsPlannedTold verdict held.now) }
    ensures refused { IfErr result (λ refusal. (refusal ≡ Closed) × (HoldsPlanned held.now → ⊥)) }
{
    match held {
        HandleContent::Planned { planned } => Ok(verdict_out(&planned.verdict())),
        _ => Err(ExportRefusal::Closed),
    }
}

/// What was decided of a planned change when its snapshot was taken.
#[unsafe(no_mangle)]
pub extern "C" fn fttcan_planned_verdict(
    p: &mut FttHandle,
    alloc: Global,
    verdict: &mut FttVerdict,
) -> u32
    ensures same { p.new.value ≡ p.old.value }
    ensures verdict { result ≡ 0 → Holds p.old.value (IsPlannedTold verdict.new) }
    ensures refused { result ≢ 0 → (verdict.new ≡ verdict.old) × (result ≡ 7) }
    ensures why { result ≢ 0 → (held : HeldOf) → p.old.value ≡ Some held → HoldsPlanned held → ⊥ }
    ensures empty { p.old.value ≡ None → result ≡ 7 }
{
    let Some(held) = mem::replace(p, FttHandle::none()).into_box(alloc) else {
        return ExportRefusal::Closed.status();
    };
    let answer = verdict_in(&held);
    *p = FttHandle::of(held);
    match answer {
        Ok(told) => {
            *verdict = told;
            OK
        }
        Err(refusal) => refusal.status(),
    }
}

/// Frees what the handle holds, where it holds something.
#[unsafe(no_mangle)]
pub extern "C" fn fttcan_planned_free(p: &mut FttHandle, alloc: Global)
    ensures none { p.new.value ≡ None }
{
    drop(mem::replace(p, FttHandle::none()).into_box(alloc));
}
