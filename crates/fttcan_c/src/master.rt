//! A master in constant memory, behind a handle.

ghost use Rattle.std.specs.Prelude.{◌≡◌, ◌≢◌, ◌<◌, ◌≤◌, [], ℕ, Option, Some, None, All, IfErr, IfOk, OnErr, OnOk, is_some, true};
ghost use Rattle.std.specs.Int.{from_bool};
ghost use Rattle.profile.specs.Limits.{openings_end};
ghost use Rattle.master_core.specs.Cores.{new_core};
ghost use Rattle.requirement_table.specs.declared.entries.Order.{Order as OrderOf};
ghost use Rattle.master_handle.specs.declared.held.HandleContent.{HandleContent as HeldOf};
ghost use Rattle.master_handle.specs.declared.held.HandleContent.TheVariants.{Master};
ghost use Rattle.c_values.specs.declared.refusal.ExportRefusal.{ExportRefusal as RefusalOf};
ghost use Rattle.c_values.specs.declared.refusal.ExportRefusal.TheVariants.{State};
ghost use Rattle.fttcan_c.specs.Mastering.{Holds, IsCoreOpened, IsCoreSubmitted, IsMasterOpened, IsSubmitted, MayAsk, RefusesAsked, RefusesNew, RefusesOpen, RefusesSubmit};
ghost use Rattle.c_values.specs.Plain.{AreRules, change_of, mask_of, rules_of};
ghost use Rattle.c_values.specs.Refused.{status_of};

use admission::Trail;
use c_values::{
    ExportRefusal, FttOp, FttOrder, FttRules, FttVerdict, OK, change_in, mask_out, rules_in,
    verdict_out,
};
use change_protocol::Change;
use master_core::{Answered, Core};
use master_handle::{FttHandle, HandleContent};
use profile::OPENINGS_END;
use requirement_table::Order;
use std::alloc::{AllocError, Global};
use std::mem;

/// The greatest number of an operator; the least is 1.
const MOST_CALLERS: u8 = 8;

/// A master that was not called yet, in a box of its own.
fn made(alloc: Global, rules: &FttRules) -> Result<Box<HandleContent>, ExportRefusal>
    ensures master { IfOk result (λ held. held.value ≡ Master (new_core (rules_of rules.now) true) []) }
    ensures known { IfOk result (λ _. AreRules rules.now) }
    ensures refused { IfErr result (RefusesNew rules.now) }
{
    let rules = rules_in(rules)?;
    let core = Core::new(alloc, rules, true)?;
    let trail = Trail::of(Vec::new(alloc));
    match Box::new(alloc, HandleContent::Master { core, trail }) {
        Ok(held) => Ok(held),
        Err(_) => Err(ExportRefusal::Memory),
    }
}

/// Makes a master with these rules, where the handle holds nothing. Its memory is bounded: it keeps at most 4,096 entries,
/// and no history.
#[unsafe(no_mangle)]
pub extern "C" fn fttcan_master_new(m: &mut FttHandle, alloc: Global, rules: &FttRules) -> u32
    ensures made { result ≡ 0 → (m.old.value ≡ None) × AreRules rules.now
        × (m.new.value ≡ Some (Master (new_core (rules_of rules.now) true) [])) }
    ensures same { result ≢ 0 → m.new.value ≡ m.old.value }
    ensures taken { result ≡ 8 → (held : HeldOf) × (m.old.value ≡ Some held) }
    ensures free { result ≢ 8 → m.old.value ≡ None }
    ensures refused { result ≢ 0 → result ≢ 8 → (refusal : RefusalOf) × (result ≡ status_of refusal)
        × RefusesNew rules.now refusal }
{
    if let Some(held) = mem::replace(m, FttHandle::none()).into_box(alloc) {
        *m = FttHandle::of(held);
        return ExportRefusal::Open.status();
    }
    match made(alloc, rules) {
        Ok(held) => {
            *m = FttHandle::of(held);
            OK
        }
        Err(refusal) => refusal.status(),
    }
}

/// Frees what the handle holds, where it holds something.
#[unsafe(no_mangle)]
pub extern "C" fn fttcan_master_free(m: &mut FttHandle, alloc: Global)
    ensures none { m.new.value ≡ None }
{
    drop(mem::replace(m, FttHandle::none()).into_box(alloc));
}

/// Has a core answer a change, and answers what it answered.
pub(crate) fn asked(
    alloc: Global,
    core: &mut Core,
    caller: u8,
    start: u64,
    ops: &[FttOp],
) -> Result<Answered, ExportRefusal>
    ensures answered { IfOk result (IsCoreSubmitted caller (change_of start ops.now) core.old core.new) }
    ensures known { OnOk result (MayAsk caller ops.now) }
    ensures same { OnErr result (core.new ≡ core.old) }
    ensures refused { IfErr result (RefusesAsked caller ops.now) }
{
    if caller < 1 || caller > MOST_CALLERS {
        return Err(ExportRefusal::Argument);
    }
    let change = change_in(alloc, start, ops)?;
    let answered = answered_to(alloc, core, caller, &change)?;
    Ok(answered)
}

/// Has a core answer a change of operator `caller`.
fn answered_to(
    alloc: Global,
    core: &mut Core,
    _caller: u8,
    change: &Change,
) -> Result<Answered, AllocError>
    ensures answered { IfOk result (IsCoreSubmitted _caller change.now core.old core.new) }
    ensures same { OnErr result (core.new ≡ core.old) }
{
    core.submit(alloc, change)
}

/// Has a master answer a change, and tells the verdict.
fn submitted(
    alloc: Global,
    held: &mut HandleContent,
    caller: u8,
    start: u64,
    ops: &[FttOp],
) -> Result<FttVerdict, ExportRefusal>
    ensures answered { IfOk result (λ verdict. IsSubmitted caller start ops.now verdict held.old held.new) }
    ensures known { OnOk result (MayAsk caller ops.now) }
    ensures same { OnErr result (held.new ≡ held.old) }
    ensures refused { IfErr result (RefusesSubmit caller ops.now held.old) }
{
    match held {
        HandleContent::Master { core, trail } => {
            let Answered {
                from: _,
                verdict,
                trail: shown,
            } = asked(alloc, core, caller, start, ops)?;
            *trail = shown;
            Ok(verdict_out(&verdict))
        }
        _ => Err(ExportRefusal::Closed),
    }
}

/// Answers a change that operator `caller` asks for, 1 to 8. It is planned from the next cycle on.
#[unsafe(no_mangle)]
pub extern "C" fn fttcan_master_submit(
    m: &mut FttHandle,
    alloc: Global,
    caller: u8,
    start: u64,
    ops: &[FttOp],
    verdict: &mut FttVerdict,
) -> u32
    ensures answered { result ≡ 0 → Holds m.old.value (λ old. Holds m.new.value
        (IsSubmitted caller start ops.now verdict.new old)) }
    ensures known { result ≡ 0 → MayAsk caller ops.now }
    ensures refused { result ≢ 0 → (m.new.value ≡ m.old.value) × (verdict.new ≡ verdict.old) }
    ensures why { result ≢ 0 → (held : HeldOf) → m.old.value ≡ Some held
        → (refusal : RefusalOf) × (result ≡ status_of refusal) × RefusesSubmit caller ops.now held refusal }
    ensures empty { m.old.value ≡ None → result ≡ 7 }
{
    let Some(mut held) = mem::replace(m, FttHandle::none()).into_box(alloc) else {
        return ExportRefusal::Closed.status();
    };
    let answer = submitted(alloc, &mut held, caller, start, ops);
    *m = FttHandle::of(held);
    match answer {
        Ok(said) => {
            *verdict = said;
            OK
        }
        Err(refusal) => refusal.status(),
    }
}

/// Opens the next cycle of a core, and answers the order.
fn opened_next(core: &mut Core) -> Result<FttOrder, ExportRefusal>
    ensures opened { IfOk result (λ order. IsCoreOpened order core.old core.new) }
    ensures same { OnErr result (core.new ≡ core.old) }
    ensures refused { IfErr result (λ refusal. (refusal ≡ State) × (core.old.cycle < openings_end → ⊥)) }
{
    if core.next() >= OPENINGS_END {
        return Err(ExportRefusal::State);
    }
    core.known();
    let order = core.open();
    Ok(order_out(&order))
}

/// An order.
fn order_out(order: &Order) -> FttOrder
    ensures cycle { result.cycle ≡ order.now.cycle }
    ensures flags { mask_of result.flags ≡ order.now.mask }
    ensures window { result.window ≡ order.now.l }
    ensures learned { result.learned ≡ from_bool (is_some order.now.learned) }
{
    let flags = mask_out(order.mask);
    FttOrder {
        cycle: order.cycle,
        flags,
        window: order.l,
        learned: u8::from(order.learned.is_some()),
    }
}

/// Opens the next cycle of a master, and tells the order.
fn opened(held: &mut HandleContent) -> Result<FttOrder, ExportRefusal>
    ensures opened { IfOk result (λ order. IsMasterOpened order held.old held.new) }
    ensures same { OnErr result (held.new ≡ held.old) }
    ensures refused { IfErr result (RefusesOpen held.old) }
{
    match held {
        HandleContent::Master { core, trail: _ } => opened_next(core),
        _ => Err(ExportRefusal::Closed),
    }
}

/// Plans and opens the next cycle, below 2^41. It takes no memory.
#[unsafe(no_mangle)]
pub extern "C" fn fttcan_master_open(m: &mut FttHandle, alloc: Global, order: &mut FttOrder) -> u32
    ensures opened { result ≡ 0 → Holds m.old.value (λ old. Holds m.new.value (IsMasterOpened order.new old)) }
    ensures refused { result ≢ 0 → (m.new.value ≡ m.old.value) × (order.new ≡ order.old) }
    ensures why { result ≢ 0 → (held : HeldOf) → m.old.value ≡ Some held
        → (refusal : RefusalOf) × (result ≡ status_of refusal) × RefusesOpen held refusal }
    ensures empty { m.old.value ≡ None → result ≡ 7 }
{
    let Some(mut held) = mem::replace(m, FttHandle::none()).into_box(alloc) else {
        return ExportRefusal::Closed.status();
    };
    let answer = opened(&mut held);
    *m = FttHandle::of(held);
    match answer {
        Ok(made) => {
            *order = made;
            OK
        }
        Err(refusal) => refusal.status(),
    }
}
