//! What C may ask of a master, which stays as it is.

ghost use Rattle.std.specs.Prelude.{◌≡◌, ◌≢◌, ◌<◌, ◌≤◌, ℕ, List, Some, None, IfErr, IfOk, OnOk, map};
ghost use Rattle.profile.specs.Limits.{openings_end};
ghost use Rattle.master_handle.specs.declared.held.HandleContent.{HandleContent as HeldOf};
ghost use Rattle.c_values.specs.declared.plain.FttMask.{FttMask as FttMaskOf};
ghost use Rattle.c_values.specs.declared.plain.FttPlaced.{FttPlaced as FttPlacedOf};
ghost use Rattle.c_values.specs.declared.refusal.ExportRefusal.{ExportRefusal as RefusalOf};
ghost use Rattle.c_values.specs.declared.refusal.ExportRefusal.TheVariants.{Closed};
ghost use Rattle.fttcan_c.specs.Mastering.{Holds, HoldsMaster, IsCaller, RefusesOpen};
ghost use Rattle.c_values.specs.Plain.{mask_of};
ghost use Rattle.fttcan_c.specs.Reading.{HasPlanText, HasTable, HasTrail, IsLookedAt, IsNextOf, IsPlanTextOf, IsPlannedOf, IsRulesOf, RefusesLook, RefusesRead};
ghost use Rattle.c_values.specs.Refused.{status_of};
ghost use Rattle.c_values.specs.Room.{IsRoomFilled, IsRoomShort};
ghost use Rattle.c_values.specs.Told.{mask_told, put_of, rules_told};

use c_values::{
    ExportRefusal, FttMask, FttPlaced, FttRules, OK, mask_out, masks_out, put, rules_out, table_out,
};
use master_core::Core;
use master_handle::{FttHandle, HandleContent};
use plan_check::write_plan;
use profile::OPENINGS_END;
use std::alloc::{AllocError, Global};
use std::mem;

/// The greatest number of an operator; the least is 1.
const MOST_CALLERS: u8 = 8;

/// The next cycle of a master.
fn next_in(held: &HandleContent) -> Result<u64, ExportRefusal>
    ensures next { IfOk result (λ cycle. IsNextOf cycle held.now) }
    ensures refused { IfErr result (λ refusal. (refusal ≡ Closed) × (HoldsMaster held.now → ⊥)) }
{
    match held {
        HandleContent::Master { core, trail: _ } => Ok(core.next()),
        _ => Err(ExportRefusal::Closed),
    }
}

/// The next cycle that a master opens.
#[unsafe(no_mangle)]
pub extern "C" fn fttcan_master_next(m: &mut FttHandle, alloc: Global, cycle: &mut u64) -> u32
    ensures same { m.new.value ≡ m.old.value }
    ensures next { result ≡ 0 → Holds m.old.value (IsNextOf cycle.new) }
    ensures refused { result ≢ 0 → (cycle.new ≡ cycle.old) × (result ≡ 7) }
    ensures why { result ≢ 0 → (held : HeldOf) → m.old.value ≡ Some held → HoldsMaster held → ⊥ }
    ensures empty { m.old.value ≡ None → result ≡ 7 }
{
    let Some(held) = mem::replace(m, FttHandle::none()).into_box(alloc) else {
        return ExportRefusal::Closed.status();
    };
    let answer = next_in(&held);
    *m = FttHandle::of(held);
    match answer {
        Ok(next) => {
            *cycle = next;
            OK
        }
        Err(refusal) => refusal.status(),
    }
}

/// The next cycle of a master, for an operator.
fn looked_at(held: &HandleContent, caller: u8) -> Result<u64, ExportRefusal>
    ensures next { IfOk result (λ cycle. IsLookedAt caller cycle held.now) }
    ensures known { OnOk result (IsCaller caller) }
    ensures refused { IfErr result (RefusesLook caller held.now) }
{
    match held {
        HandleContent::Master { core, trail: _ } => {
            if caller < 1 || caller > MOST_CALLERS {
                return Err(ExportRefusal::Argument);
            }
            Ok(core.next())
        }
        _ => Err(ExportRefusal::Closed),
    }
}

/// Answers the next cycle to operator `caller`, 1 to 8.
#[unsafe(no_mangle)]
pub extern "C" fn fttcan_master_look(
    m: &mut FttHandle,
    alloc: Global,
    caller: u8,
    next: &mut u64,
) -> u32
    ensures same { m.new.value ≡ m.old.value }
    ensures next { result ≡ 0 → Holds m.old.value (IsLookedAt caller next.new) }
    ensures known { result ≡ 0 → IsCaller caller }
    ensures refused { result ≢ 0 → next.new ≡ next.old }
    ensures why { result ≢ 0 → (held : HeldOf) → m.old.value ≡ Some held
        → (refusal : RefusalOf) × (result ≡ status_of refusal) × RefusesLook caller held refusal }
    ensures empty { m.old.value ≡ None → result ≡ 7 }
{
    let Some(held) = mem::replace(m, FttHandle::none()).into_box(alloc) else {
        return ExportRefusal::Closed.status();
    };
    let answer = looked_at(&held, caller);
    *m = FttHandle::of(held);
    match answer {
        Ok(cycle) => {
            *next = cycle;
            OK
        }
        Err(refusal) => refusal.status(),
    }
}

/// The slots that a master would flag now.
fn planned_in(held: &HandleContent) -> Result<FttMask, ExportRefusal>
    ensures planned { IfOk result (λ flags. IsPlannedOf flags held.now) }
    ensures refused { IfErr result (RefusesOpen held.now) }
{
    match held {
        HandleContent::Master { core, trail: _ } => {
            if core.next() >= OPENINGS_END {
                return Err(ExportRefusal::State);
            }
            Ok(mask_out(core.planned()))
        }
        _ => Err(ExportRefusal::Closed),
    }
}

/// The slots that `fttcan_master_open` would flag now.
#[unsafe(no_mangle)]
pub extern "C" fn fttcan_master_planned(
    m: &mut FttHandle,
    alloc: Global,
    flags: &mut FttMask,
) -> u32
    ensures same { m.new.value ≡ m.old.value }
    ensures planned { result ≡ 0 → Holds m.old.value (IsPlannedOf flags.new) }
    ensures refused { result ≢ 0 → flags.new ≡ flags.old }
    ensures why { result ≢ 0 → (held : HeldOf) → m.old.value ≡ Some held
        → (refusal : RefusalOf) × (result ≡ status_of refusal) × RefusesOpen held refusal }
    ensures empty { m.old.value ≡ None → result ≡ 7 }
{
    let Some(held) = mem::replace(m, FttHandle::none()).into_box(alloc) else {
        return ExportRefusal::Closed.status();
    };
    let answer = planned_in(&held);
    *m = FttHandle::of(held);
    match answer {
        Ok(planned) => {
            *flags = planned;
            OK
        }
        Err(refusal) => refusal.status(),
    }
}

/// The rules of a master.
fn rules_of_held(held: &HandleContent) -> Result<FttRules, ExportRefusal>
    ensures rules { IfOk result (λ rules. IsRulesOf rules held.now) }
    ensures refused { IfErr result (λ refusal. (refusal ≡ Closed) × (HoldsMaster held.now → ⊥)) }
{
    match held {
        HandleContent::Master { core, trail: _ } => Ok(rules_out(&core.rules())),
        _ => Err(ExportRefusal::Closed),
    }
}

/// The rules of a master.
#[unsafe(no_mangle)]
pub extern "C" fn fttcan_master_rules(m: &mut FttHandle, alloc: Global, rules: &mut FttRules) -> u32
    ensures same { m.new.value ≡ m.old.value }
    ensures rules { result ≡ 0 → Holds m.old.value (IsRulesOf rules.new) }
    ensures refused { result ≢ 0 → (rules.new ≡ rules.old) × (result ≡ 7) }
    ensures why { result ≢ 0 → (held : HeldOf) → m.old.value ≡ Some held → HoldsMaster held → ⊥ }
    ensures empty { m.old.value ≡ None → result ≡ 7 }
{
    let Some(held) = mem::replace(m, FttHandle::none()).into_box(alloc) else {
        return ExportRefusal::Closed.status();
    };
    let answer = rules_of_held(&held);
    *m = FttHandle::of(held);
    match answer {
        Ok(told) => {
            *rules = told;
            OK
        }
        Err(refusal) => refusal.status(),
    }
}

/// The placed entries of a master.
fn table_in(alloc: Global, held: &HandleContent) -> Result<Vec<FttPlaced>, ExportRefusal>
    ensures table { IfOk result (λ list. HasTable list.items held.now) }
    ensures refused { IfErr result (RefusesRead held.now) }
{
    match held {
        HandleContent::Master { core, trail: _ } => {
            core.known();
            let list = table_out(alloc, core.placed())?;
            Ok(list)
        }
        _ => Err(ExportRefusal::Closed),
    }
}

/// The placed entries that a master keeps, at most 4,096. `count` is how many they are, also where the room is too small.
#[unsafe(no_mangle)]
pub extern "C" fn fttcan_master_table(
    m: &mut FttHandle,
    alloc: Global,
    room: &mut [FttPlaced],
    count: &mut usize,
) -> u32
    ensures same { m.new.value ≡ m.old.value }
    ensures table { result ≡ 0 → Holds m.old.value (λ held. (list : List FttPlacedOf) × HasTable list held
        × IsRoomFilled list room.old room.new count.new) }
    ensures short { result ≡ 5 → Holds m.old.value (λ held. (list : List FttPlacedOf) × HasTable list held
        × IsRoomShort list room.old room.new count.new) }
    ensures refused { result ≢ 0 → result ≢ 5 → (room.new ≡ room.old) × (count.new ≡ count.old) }
    ensures why { result ≢ 0 → result ≢ 5 → (held : HeldOf) → m.old.value ≡ Some held
        → (refusal : RefusalOf) × (result ≡ status_of refusal) × RefusesRead held refusal }
    ensures empty { m.old.value ≡ None → result ≡ 7 }
{
    let Some(held) = mem::replace(m, FttHandle::none()).into_box(alloc) else {
        return ExportRefusal::Closed.status();
    };
    let answer = table_in(alloc, &held);
    *m = FttHandle::of(held);
    match answer {
        Ok(list) => match put(list.as_slice(), room, count) {
            Ok(()) => OK,
            Err(refusal) => refusal.status(),
        },
        Err(refusal) => refusal.status(),
    }
}

/// The slots that were flagged up to the miss that a master's last answer told.
fn trail_in(alloc: Global, held: &HandleContent) -> Result<Vec<FttMask>, ExportRefusal>
    ensures trail { IfOk result (λ masks. HasTrail masks.items held.now) }
    ensures refused { IfErr result (RefusesRead held.now) }
{
    match held {
        HandleContent::Master { core: _, trail } => {
            let masks = masks_out(alloc, trail.as_slice())?;
            Ok(masks)
        }
        _ => Err(ExportRefusal::Closed),
    }
}

/// The slots that would be flagged in the cycles up to the miss that the last answer told, one mask a cycle; nothing
/// where it told no miss. `count` is how many they are, also where the room is too small.
#[unsafe(no_mangle)]
pub extern "C" fn fttcan_master_trail(
    m: &mut FttHandle,
    alloc: Global,
    room: &mut [FttMask],
    count: &mut usize,
) -> u32
    ensures same { m.new.value ≡ m.old.value }
    ensures trail { result ≡ 0 → Holds m.old.value (λ held. (masks : List FttMaskOf) × HasTrail masks held
        × IsRoomFilled masks room.old room.new count.new) }
    ensures short { result ≡ 5 → Holds m.old.value (λ held. (masks : List FttMaskOf) × HasTrail masks held
        × IsRoomShort masks room.old room.new count.new) }
    ensures refused { result ≢ 0 → result ≢ 5 → (room.new ≡ room.old) × (count.new ≡ count.old) }
    ensures why { result ≢ 0 → result ≢ 5 → (held : HeldOf) → m.old.value ≡ Some held
        → (refusal : RefusalOf) × (result ≡ status_of refusal) × RefusesRead held refusal }
    ensures empty { m.old.value ≡ None → result ≡ 7 }
{
    let Some(held) = mem::replace(m, FttHandle::none()).into_box(alloc) else {
        return ExportRefusal::Closed.status();
    };
    let answer = trail_in(alloc, &held);
    *m = FttHandle::of(held);
    match answer {
        Ok(masks) => match put(masks.as_slice(), room, count) {
            Ok(()) => OK,
            Err(refusal) => refusal.status(),
        },
        Err(refusal) => refusal.status(),
    }
}

/// The text of the certificate of a core: the plan of its entries from the next cycle on, up to the end of its first
/// repeat.
fn text_of(alloc: Global, core: &Core) -> Result<Vec<u8>, AllocError>
    ensures text { IfOk result (λ text. IsPlanTextOf text.items core.now) }
{
    let certificate = core.certificate(alloc)?;
    let text = write_plan(alloc, &certificate)?;
    Ok(text)
}

/// The text of the certificate of a master.
fn text_in(alloc: Global, held: &HandleContent) -> Result<Vec<u8>, ExportRefusal>
    ensures text { IfOk result (λ text. HasPlanText text.items held.now) }
    ensures refused { IfErr result (RefusesRead held.now) }
{
    match held {
        HandleContent::Master { core, trail: _ } => {
            let text = text_of(alloc, core)?;
            Ok(text)
        }
        _ => Err(ExportRefusal::Closed),
    }
}

/// The plan of a master as a text, from the next cycle on, up to the end of its first repeat. `fttcan_check` takes it with
/// the table and the window of the rules. `len` is how many bytes it has, also where the room is too small.
#[unsafe(no_mangle)]
pub extern "C" fn fttcan_master_certificate(
    m: &mut FttHandle,
    alloc: Global,
    room: &mut [u8],
    len: &mut usize,
) -> u32
    ensures same { m.new.value ≡ m.old.value }
    ensures text { result ≡ 0 → Holds m.old.value (λ held. (text : List ℕ) × HasPlanText text held
        × IsRoomFilled text room.old room.new len.new) }
    ensures short { result ≡ 5 → Holds m.old.value (λ held. (text : List ℕ) × HasPlanText text held
        × IsRoomShort text room.old room.new len.new) }
    ensures refused { result ≢ 0 → result ≢ 5 → (room.new ≡ room.old) × (len.new ≡ len.old) }
    ensures why { result ≢ 0 → result ≢ 5 → (held : HeldOf) → m.old.value ≡ Some held
        → (refusal : RefusalOf) × (result ≡ status_of refusal) × RefusesRead held refusal }
    ensures empty { m.old.value ≡ None → result ≡ 7 }
{
    let Some(held) = mem::replace(m, FttHandle::none()).into_box(alloc) else {
        return ExportRefusal::Closed.status();
    };
    let answer = text_in(alloc, &held);
    *m = FttHandle::of(held);
    match answer {
        Ok(text) => match put(text.as_slice(), room, len) {
            Ok(()) => OK,
            Err(refusal) => refusal.status(),
        },
        Err(refusal) => refusal.status(),
    }
}
