//! A change that was planned in another thread is settled.

ghost use Rattle.std.specs.Prelude.{◌≡◌, ◌≢◌, ◌≤◌, None, Some, IfErr, IfOk, OnErr, OnOk};
ghost use Rattle.master_handle.specs.declared.held.HandleContent.{HandleContent as HeldOf};
ghost use Rattle.c_values.specs.declared.refusal.ExportRefusal.{ExportRefusal as RefusalOf};
ghost use Rattle.c_values.specs.declared.refusal.ExportRefusal.TheVariants.{Memory};
ghost use Rattle.fttcan_c.specs.Apart.{IsCoreSettled, IsHeldSettled, RefusesSettle};
ghost use Rattle.fttcan_c.specs.Mastering.{Holds, IsCaller};
ghost use Rattle.c_values.specs.Refused.{status_of};

use c_values::{ExportRefusal, FttVerdict, OK, verdict_out};
use master_core::{Answered, Core, CorePlanned};
use master_handle::{FttHandle, HandleContent};
use std::alloc::{AllocError, Global};
use std::mem;

/// The greatest number of an operator; the least is 1.
const MOST_CALLERS: u8 = 8;

/// Has a core settle a planned change of operator `caller`.
fn settled_by(
    alloc: Global,
    core: &mut Core,
    _caller: u8,
    planned: CorePlanned,
) -> Result<Answered, AllocError>
    ensures settled { IfOk result (IsCoreSettled _caller planned core.old core.new) }
    ensures same { OnErr result (core.new ≡ core.old) }
{
    let answered = core.settle(alloc, planned)?;
    Ok(answered)
}

/// Has a master settle what another handle holds, which is moved out of it, and tells the verdict. Where memory runs out
/// it is moved out too.
fn settled(
    alloc: Global,
    held: &mut HandleContent,
    caller: u8,
    from: &mut HandleContent,
) -> Result<FttVerdict, ExportRefusal>
    ensures settled { IfOk result (λ verdict. IsHeldSettled caller verdict from.old held.old held.new) }
    ensures known { OnOk result (IsCaller caller) }
    ensures same { OnErr result (held.new ≡ held.old) }
    ensures kept { IfErr result (λ refusal. refusal ≢ Memory → from.new ≡ from.old) }
    ensures refused { IfErr result (RefusesSettle caller held.old from.old) }
{
    match held {
        HandleContent::Master { core, trail } => match mem::replace(from, HandleContent::Moved) {
            HandleContent::Planned { planned } => {
                if caller < 1 || caller > MOST_CALLERS {
                    *from = HandleContent::Planned { planned };
                    return Err(ExportRefusal::Argument);
                }
                let Answered {
                    from: _,
                    verdict,
                    trail: shown,
                } = settled_by(alloc, core, caller, planned)?;
                *trail = shown;
                Ok(verdict_out(&verdict))
            }
            other => {
                *from = other;
                Err(ExportRefusal::Closed)
            }
        },
        _ => Err(ExportRefusal::Closed),
    }
}

/// Answers a change that operator `caller`, 1 to 8, asks for and that was planned apart. Its plan decides exactly where it
/// leads to this master: rules, table and number of accepted changes are those of the snapshot, and the plan from there
/// comes to the next cycle with the same slots pending. Then only a start that has passed since is refused. Else the change
/// is planned anew, from the next cycle on.
///
/// `p` holds nothing then. Where memory runs out it holds nothing either, and the master is as before.
#[unsafe(no_mangle)]
pub extern "C" fn fttcan_master_settle(
    m: &mut FttHandle,
    alloc: Global,
    caller: u8,
    p: &mut FttHandle,
    verdict: &mut FttVerdict,
) -> u32
    ensures settled { result ≡ 0 → (p.new.value ≡ None) × Holds m.old.value (λ old. Holds m.new.value
        (λ new. Holds p.old.value (λ from. IsHeldSettled caller verdict.new from old new))) }
    ensures known { result ≡ 0 → IsCaller caller }
    ensures refused { result ≢ 0 → (m.new.value ≡ m.old.value) × (verdict.new ≡ verdict.old) }
    ensures memory { result ≡ 1 → p.new.value ≡ None }
    ensures kept { result ≢ 0 → result ≢ 1 → p.new.value ≡ p.old.value }
    ensures why { result ≢ 0 → (held from : HeldOf) → m.old.value ≡ Some held → p.old.value ≡ Some from
        → (refusal : RefusalOf) × (result ≡ status_of refusal) × RefusesSettle caller held from refusal }
    ensures empty { m.old.value ≡ None → result ≡ 7 }
    ensures unplanned { p.old.value ≡ None → result ≡ 7 }
{
    let Some(mut held) = mem::replace(m, FttHandle::none()).into_box(alloc) else {
        return ExportRefusal::Closed.status();
    };
    let Some(mut from) = mem::replace(p, FttHandle::none()).into_box(alloc) else {
        *m = FttHandle::of(held);
        return ExportRefusal::Closed.status();
    };
    let answer = settled(alloc, &mut held, caller, &mut from);
    *m = FttHandle::of(held);
    match answer {
        Ok(said) => {
            *verdict = said;
            OK
        }
        Err(ExportRefusal::Memory) => ExportRefusal::Memory.status(),
        Err(refusal) => {
            *p = FttHandle::of(from);
            refusal.status()
        }
    }
}
