//! The trigger frames of a cycle, written and read.

ghost use Rattle.std.specs.Prelude.{◌≡◌, ◌≢◌, ◌<◌, ◌≤◌, ◌^◌, ◌↔◌, ◌∷◌, [], All, IfErr, IfOk, IsTrue, OnOk, map};
ghost use Rattle.profile.specs.Limits.{first_slots, most_slots};
ghost use Rattle.trigger_kind.specs.Kind.{IsSlots, slots_of};
ghost use Rattle.c_values.specs.declared.refusal.ExportRefusal.{ExportRefusal as RefusalOf};
ghost use Rattle.c_values.specs.declared.refusal.ExportRefusal.TheVariants.{Room};
ghost use Rattle.c_values.specs.Plain.{IsFrameIn, IsTriggerIn, frame_of, frames_of, mask_of};
ghost use Rattle.c_values.specs.Refused.{status_of};
ghost use Rattle.c_values.specs.Room.{IsRoomFilled, IsRoomShort};
ghost use Rattle.c_values.specs.Told.{frame_told};
ghost use Rattle.fttcan_c.specs.Triggers.{IsTriggerTold, RefusesOne, RefusesTrigger, RefusesTwo, frames_told, with_reserve};

use c_values::{
    ExportRefusal, FttFrame, FttMask, FttTrigger, OK, are_frames, frame_in, frame_out, is_mask,
    mask_in, mask_out, put,
};
use profile::{FIRST_SLOTS, LONGEST_WINDOW};
use trigger_codec::{decode, decode_second, encode, encode_later, flags_of_both};
use trigger_kind::{Triggers, are_slots};

/// Whether a set has slots alone that these trigger frames flag.
fn has_slots(mask: FttMask, triggers: Triggers) -> bool
    ensures within { IsTrue result ↔ (mask_of mask < 2 ^ slots_of triggers) }
{
    match triggers {
        Triggers::One => mask.high == 0 && mask.low < 1 << FIRST_SLOTS,
        Triggers::Two => is_mask(mask),
    }
}

/// Whether so many slots are flagged by trigger frames, which tell this trigger.
fn is_trigger(slots: u8, trigger: &FttTrigger) -> bool
    ensures trigger { IsTrue result ↔ IsTriggerIn slots trigger.now }
{
    are_slots(slots)
        && trigger.window <= LONGEST_WINDOW
        && has_slots(trigger.flags, Triggers::of(slots))
}

/// Puts the trigger frames of a cycle into the caller's room: one with 40 slots, two with 96.
fn put_trigger(
    slots: u8,
    trigger: &FttTrigger,
    room: &mut [FttFrame],
    count: &mut usize,
) -> Result<(), ExportRefusal>
    requires trigger { IsTriggerIn slots trigger.now }
    ensures filled { OnOk result
        (IsRoomFilled (map frame_told (frames_told slots trigger.now)) room.old room.new count.new) }
    ensures short { IfErr result (λ refusal. (refusal ≡ Room)
        × IsRoomShort (map frame_told (frames_told slots trigger.now)) room.old room.new count.new) }
{
    let flags = mask_in(trigger.flags);
    let first = frame_out(&encode(trigger.cycle, trigger.window, flags));
    match encode_later(Triggers::of(slots), trigger.cycle, flags) {
        None => put(&[first], room, count),
        Some(second) => put(&[first, frame_out(&second)], room, count),
    }
}

/// The trigger frames of a cycle: one with 40 slots, two with 96. The flagged slots are below that number, and the
/// window is at most 16,383 bit times. `count` is how many frames there are, also where the room is too small.
#[unsafe(no_mangle)]
pub extern "C" fn fttcan_trigger_encode(
    slots: u8,
    trigger: &FttTrigger,
    room: &mut [FttFrame],
    count: &mut usize,
) -> u32
    ensures frames { result ≡ 0 → IsTriggerIn slots trigger.now
        × IsRoomFilled (map frame_told (frames_told slots trigger.now)) room.old room.new count.new }
    ensures short { result ≡ 5 → IsTriggerIn slots trigger.now
        × IsRoomShort (map frame_told (frames_told slots trigger.now)) room.old room.new count.new }
    ensures refused { result ≢ 0 → result ≢ 5 → (room.new ≡ room.old) × (count.new ≡ count.old)
        × (result ≡ 2) × (IsTriggerIn slots trigger.now → ⊥) }
{
    if !is_trigger(slots, trigger) {
        return ExportRefusal::Argument.status();
    }
    match put_trigger(slots, trigger, room, count) {
        Ok(()) => OK,
        Err(refusal) => refusal.status(),
    }
}

/// The trigger frames of a cycle whose window is longer by a reserve of so many bit times. With the reserve it is at most
/// 16,383 bit times. All else is as in `fttcan_trigger_encode`.
#[unsafe(no_mangle)]
pub extern "C" fn fttcan_trigger_encode_reserved(
    slots: u8,
    trigger: &FttTrigger,
    reserve: u32,
    room: &mut [FttFrame],
    count: &mut usize,
) -> u32
    ensures frames { result ≡ 0 → IsTriggerIn slots (with_reserve reserve trigger.now)
        × IsRoomFilled (map frame_told (frames_told slots (with_reserve reserve trigger.now))) room.old room.new count.new }
    ensures short { result ≡ 5 → IsTriggerIn slots (with_reserve reserve trigger.now)
        × IsRoomShort (map frame_told (frames_told slots (with_reserve reserve trigger.now))) room.old room.new count.new }
    ensures refused { result ≢ 0 → result ≢ 5 → (room.new ≡ room.old) × (count.new ≡ count.old)
        × (result ≡ 2) × (IsTriggerIn slots (with_reserve reserve trigger.now) → ⊥) }
{
    if trigger.window > LONGEST_WINDOW || reserve > LONGEST_WINDOW {
        return ExportRefusal::Argument.status();
    }
    let reserved = FttTrigger {
        window: trigger.window + reserve,
        ..*trigger
    };
    fttcan_trigger_encode(slots, &reserved, room, count)
}

/// What one trigger frame says, where a cycle has one.
#[tactic(auto, using(crate::proofs::Silent::none_heard))]
fn one_decoded(only: &FttFrame) -> Result<FttTrigger, ExportRefusal>
    ensures trigger { IfOk result (IsTriggerTold first_slots (frame_of only.now ∷ [])) }
    ensures known { OnOk result (IsFrameIn only.now) }
    ensures refused { IfErr result (RefusesOne only.now) }
{
    let frame = frame_in(only)?;
    let Ok(said) = decode(&frame) else {
        return Err(ExportRefusal::Text);
    };
    Ok(FttTrigger {
        flags: mask_out(said.mask),
        cycle: u64::from(said.low),
        window: said.l,
    })
}

/// What two trigger frames say, where a cycle has two.
#[tactic(auto, using(crate::proofs::Silent::none_first, crate::proofs::Silent::none_second, crate::proofs::Silent::other_cycle))]
fn both_decoded(first: &FttFrame, second: &FttFrame) -> Result<FttTrigger, ExportRefusal>
    ensures trigger { IfOk result (IsTriggerTold most_slots (frame_of first.now ∷ frame_of second.now ∷ [])) }
    ensures known { OnOk result (IsFrameIn first.now × IsFrameIn second.now) }
    ensures refused { IfErr result (RefusesTwo first.now second.now) }
{
    let one = frame_in(first)?;
    let other = frame_in(second)?;
    let Ok(said) = decode(&one) else {
        return Err(ExportRefusal::Text);
    };
    let Ok(more) = decode_second(&other) else {
        return Err(ExportRefusal::Text);
    };
    if said.low != more.low {
        return Err(ExportRefusal::Text);
    }
    Ok(FttTrigger {
        flags: mask_out(flags_of_both(said.mask, more.mask)),
        cycle: u64::from(said.low),
        window: said.l,
    })
}

/// What the trigger frames of a cycle say, where there are so many.
fn decoded_by(triggers: Triggers, frames: &[FttFrame]) -> Result<FttTrigger, ExportRefusal>
    requires known { All IsFrameIn frames.now }
    ensures trigger { IfOk result (IsTriggerTold (slots_of triggers) (frames_of frames.now)) }
    ensures refused { IfErr result (RefusesTrigger (slots_of triggers) frames.now) }
{
    match triggers {
        Triggers::One => match frames {
            [only] => one_decoded(only),
            _ => Err(ExportRefusal::Text),
        },
        Triggers::Two => match frames {
            [first, second] => both_decoded(first, second),
            _ => Err(ExportRefusal::Text),
        },
    }
}

/// What the trigger frames of a cycle say, with so many slots.
fn decoded(slots: u8, frames: &[FttFrame]) -> Result<FttTrigger, ExportRefusal>
    ensures trigger { IfOk result (IsTriggerTold slots (frames_of frames.now)) }
    ensures known { OnOk result (IsSlots slots × All IsFrameIn frames.now) }
    ensures refused { IfErr result (RefusesTrigger slots frames.now) }
{
    if !are_slots(slots) || !are_frames(frames) {
        return Err(ExportRefusal::Argument);
    }
    decoded_by(Triggers::of(slots), frames)
}

/// What the trigger frames of a cycle say: one with 40 slots, two with 96. Of the cycle they tell the low 8 bits.
#[unsafe(no_mangle)]
pub extern "C" fn fttcan_trigger_decode(
    slots: u8,
    frames: &[FttFrame],
    trigger: &mut FttTrigger,
) -> u32
    ensures trigger { result ≡ 0 → IsSlots slots × (All IsFrameIn frames.now)
        × IsTriggerTold slots (frames_of frames.now) trigger.new }
    ensures refused { result ≢ 0 → (trigger.new ≡ trigger.old)
        × ((refusal : RefusalOf) × (result ≡ status_of refusal) × RefusesTrigger slots frames.now refusal) }
{
    match decoded(slots, frames) {
        Ok(said) => {
            *trigger = said;
            OK
        }
        Err(refusal) => refusal.status(),
    }
}
