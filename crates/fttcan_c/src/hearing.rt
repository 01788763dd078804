//! What a standby hears: the trigger frames of its next cycle.

ghost use Rattle.std.specs.Prelude.{◌≡◌, ◌≢◌, Some, None, All, IfErr, IfOk, OnErr, OnOk};
ghost use Rattle.master_core.specs.Cores.{CoreView, IsCoreUpcoming};
ghost use Rattle.trigger_codec.specs.Heard.{heard_of};
ghost use Rattle.master_handle.specs.declared.held.HandleContent.{HandleContent as HeldOf};
ghost use Rattle.c_values.specs.declared.refusal.ExportRefusal.{ExportRefusal as RefusalOf};
ghost use Rattle.c_values.specs.declared.refusal.ExportRefusal.TheVariants.{Argument};
ghost use Rattle.fttcan_c.specs.Following.{AreDueFrames, CanFollow, CanTell, IsFollowed, IsHeardBy, IsNotFollowed, IsTriggerHeard, RefusesFrames, RefusesHearing};
ghost use Rattle.fttcan_c.specs.Following.{due_frames, fault_told};
ghost use Rattle.fttcan_c.specs.Mastering.{Holds};
ghost use Rattle.c_values.specs.Plain.{IsFrameIn, frames_of};
ghost use Rattle.c_values.specs.Refused.{status_of};

use c_values::{ExportRefusal, FttFollow, FttFrame, OK, are_frames, frame_in, mask_out};
use master_core::Core;
use master_handle::{FttHandle, HandleContent};
use profile::OPENINGS_END;
use requirement_table::Mask;
use standby::{Heard, hear};
use std::alloc::Global;
use std::mem;
use trigger_codec::laws::triggers_are_heard;

/// Why a standby does not follow trigger frames.
#[derive(Clone, Copy, PartialEq, Eq, Debug)]
pub enum Astray {
    /// They are not the trigger of this cycle, which is the next one.
    Silent {
        cycle: u64,
    },
    /// They flag other slots in this cycle than those that are planned.
    Flags {
        cycle: u64,
        heard: Mask,
        planned: Mask,
    },
    /// They say a window of `l` bit times, and the flagged slots and the reserve need `wanted`.
    Window {
        l: u32,
        wanted: u64,
    },
}

/// What C is told of it.
fn fault_out(astray: &Astray) -> FttFollow
    ensures told { result ≡ fault_told astray.now }
{
    let none = mask_out(Mask::empty());
    match *astray {
        Astray::Silent { cycle } => FttFollow {
            heard: none,
            planned: none,
            first: cycle,
            second: 0,
            kind: 0,
        },
        Astray::Flags {
            cycle,
            heard,
            planned,
        } => FttFollow {
            heard: mask_out(heard),
            planned: mask_out(planned),
            first: cycle,
            second: 0,
            kind: 1,
        },
        Astray::Window { l, wanted } => FttFollow {
            heard: none,
            planned: none,
            first: u64::from(l),
            second: wanted,
            kind: 2,
        },
    }
}

/// What some frames say, where they are the trigger of a cycle.
fn heard_in(slots: u8, cycle: u64, frames: &[FttFrame]) -> Result<Option<Heard>, ExportRefusal>
    ensures heard { IfOk result (λ heard. heard ≡ heard_of slots cycle (frames_of frames.now)) }
    ensures refused { IfErr result (λ refusal. (refusal ≡ Argument) × (All IsFrameIn frames.now → ⊥)) }
{
    match frames {
        [only] => {
            let only = frame_in(only)?;
            Ok(hear(slots, cycle, &[only]))
        }
        [first, second] => {
            let first = frame_in(first)?;
            let second = frame_in(second)?;
            Ok(hear(slots, cycle, &[first, second]))
        }
        _ => Ok(None),
    }
}

/// Has a core hear the trigger frames of its next cycle, to whose window the master adds a reserve. It is planned once.
fn heard_by(
    core: &mut Core,
    reserve: u32,
    frames: &[FttFrame],
) -> Result<Option<Astray>, ExportRefusal>
    ensures heard { IfOk result (IsHeardBy reserve (frames_of frames.now) core.old core.new) }
    ensures due { CanTell reserve core.old → frames_of frames.now ≡ due_frames reserve core.old
        → IfOk result (λ astray. astray ≡ None) }
    ensures known { IfOk result (λ _. All IsFrameIn frames.now × CanFollow core.old) }
    ensures same { OnErr result (core.new ≡ core.old) }
    ensures refused { IfErr result (RefusesFrames frames.now core.old) }
{
    triggers_are_heard();
    core.known();
    if !are_frames(frames) {
        return Err(ExportRefusal::Argument);
    }
    let cycle = core.next();
    if cycle >= OPENINGS_END {
        return Err(ExportRefusal::State);
    }
    let rules = core.rules();
    let heard = heard_in(rules.slots, cycle, frames)?;
    let upcoming = core.upcoming();
    let Some(heard) = heard else {
        return Ok(Some(Astray::Silent { cycle }));
    };
    if heard.mask != upcoming.mask {
        return Ok(Some(Astray::Flags {
            cycle,
            heard: heard.mask,
            planned: upcoming.mask,
        }));
    }
    let wanted = u64::from(reserve) + u64::from(upcoming.l);
    if u64::from(heard.l) != wanted {
        return Ok(Some(Astray::Window { l: heard.l, wanted }));
    }
    core.open_upcoming(upcoming);
    Ok(None)
}

/// Has a standby hear the trigger frames of its next cycle, to whose window the master adds a reserve.
fn heard_trigger(
    held: &mut HandleContent,
    reserve: u32,
    frames: &[FttFrame],
) -> Result<Option<Astray>, ExportRefusal>
    ensures heard { IfOk result (λ astray. IsTriggerHeard reserve (frames_of frames.now) astray held.old held.new) }
    ensures astray { IfOk result (λ astray. astray ≢ None → held.new ≡ held.old) }
    ensures due { AreDueFrames reserve (frames_of frames.now) held.old → IfOk result (λ astray. astray ≡ None) }
    ensures known { IfOk result (λ _. All IsFrameIn frames.now) }
    ensures same { OnErr result (held.new ≡ held.old) }
    ensures refused { IfErr result (RefusesHearing frames.now held.old) }
{
    match held {
        HandleContent::Standby { core } => heard_by(core, reserve, frames),
        _ => Err(ExportRefusal::Closed),
    }
}

/// Tells a standby the trigger frames that were heard of a cycle: one with 40 slots, two with 96. Where they are those of
/// its own next cycle, it opens that cycle, below 2^41.
///
/// Else the answer is `No`, and the standby is as before. The fault is the first of these: they are not the trigger of
/// the next cycle, they flag other slots, they say another window. It takes no memory.
#[unsafe(no_mangle)]
pub extern "C" fn fttcan_standby_trigger(
    s: &mut FttHandle,
    alloc: Global,
    frames: &[FttFrame],
    fault: &mut FttFollow,
) -> u32
    ensures followed { result ≡ 0 → Holds s.old.value (λ old. Holds s.new.value
        (IsFollowed 0 (frames_of frames.now) old)) }
    ensures astray { result ≡ 10 → Holds s.old.value (IsNotFollowed 0 (frames_of frames.now) fault.new) }
    ensures known { result ≡ 0 → All IsFrameIn frames.now }
    ensures known_too { result ≡ 10 → All IsFrameIn frames.now }
    ensures due { (held : HeldOf) → s.old.value ≡ Some held → AreDueFrames 0 (frames_of frames.now) held → result ≢ 10 }
    ensures same { result ≢ 0 → s.new.value ≡ s.old.value }
    ensures untold { result ≢ 10 → fault.new ≡ fault.old }
    ensures why { result ≢ 0 → result ≢ 10 → (held : HeldOf) → s.old.value ≡ Some held
        → (refusal : RefusalOf) × (result ≡ status_of refusal) × RefusesHearing frames.now held refusal }
    ensures empty { s.old.value ≡ None → result ≡ 7 }
{
    let Some(mut held) = mem::replace(s, FttHandle::none()).into_box(alloc) else {
        return ExportRefusal::Closed.status();
    };
    let answer = heard_trigger(&mut held, 0, frames);
    *s = FttHandle::of(held);
    match answer {
        Ok(None) => OK,
        Ok(Some(astray)) => {
            *fault = fault_out(&astray);
            ExportRefusal::No.status()
        }
        Err(refusal) => refusal.status(),
    }
}

/// Tells a standby the trigger frames that were heard of a cycle, to whose window the master adds a reserve of so many
/// bit times. Where they are those of its own next cycle, it opens that cycle, below 2^41.
///
/// Else the answer is `No`, and the standby is as before. The fault is the first of these: they are not the trigger of
/// the next cycle, they flag other slots, they say another window. It takes no memory.
#[unsafe(no_mangle)]
pub extern "C" fn fttcan_standby_trigger_reserved(
    s: &mut FttHandle,
    alloc: Global,
    reserve: u32,
    frames: &[FttFrame],
    fault: &mut FttFollow,
) -> u32
    ensures followed { result ≡ 0 → Holds s.old.value (λ old. Holds s.new.value
        (IsFollowed reserve (frames_of frames.now) old)) }
    ensures astray { result ≡ 10 → Holds s.old.value (IsNotFollowed reserve (frames_of frames.now) fault.new) }
    ensures known { result ≡ 0 → All IsFrameIn frames.now }
    ensures known_too { result ≡ 10 → All IsFrameIn frames.now }
    ensures due { (held : HeldOf) → s.old.value ≡ Some held → AreDueFrames reserve (frames_of frames.now) held → result ≢ 10 }
    ensures same { result ≢ 0 → s.new.value ≡ s.old.value }
    ensures untold { result ≢ 10 → fault.new ≡ fault.old }
    ensures why { result ≢ 0 → result ≢ 10 → (held : HeldOf) → s.old.value ≡ Some held
        → (refusal : RefusalOf) × (result ≡ status_of refusal) × RefusesHearing frames.now held refusal }
    ensures empty { s.old.value ≡ None → result ≡ 7 }
{
    let Some(mut held) = mem::replace(s, FttHandle::none()).into_box(alloc) else {
        return ExportRefusal::Closed.status();
    };
    let answer = heard_trigger(&mut held, reserve, frames);
    *s = FttHandle::of(held);
    match answer {
        Ok(None) => OK,
        Ok(Some(astray)) => {
            *fault = fault_out(&astray);
            ExportRefusal::No.status()
        }
        Err(refusal) => refusal.status(),
    }
}
