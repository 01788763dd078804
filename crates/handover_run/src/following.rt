//! What a standby is told of a run.

ghost use Rattle.std.specs.Prelude.{◌≡◌, ℕ, ◌<◌, ◌≤◌, ◌∷◌, ◌++◌, [], false, List, IfErr, IfSome, OnOk, is_ok};
ghost use Rattle.profile.specs.Limits.{openings_end};
ghost use Rattle.admission_rules.specs.declared.Rules.{Rules};
ghost use Rattle.master_core.specs.declared.event.Event.{Event as EventOf};
ghost use Rattle.master_core.specs.declared.event.Event.TheVariants.{Open};
ghost use Rattle.master_core.specs.History.{IsRight, is_open, next_of};
ghost use Rattle.standby.specs.Core.{core_of};
ghost use Rattle.standby.specs.Following.{IsChanged, IsOpened, due_frames};
ghost use Rattle.standby.specs.declared.follow_fault.FollowFault.TheVariants.{Memory};
ghost use Rattle.handover_run.specs.Following.{HasOperator, HearsDue, IsAcceptedBehind, IsRightBehind, IsStillFollowing};

use can_frame::TimedFrame;
use change_protocol::Change;
use master_core::Event;
use standby::laws::follows_each;
use standby::{FollowFault, Standby};
use std::alloc::{AllocError, Global};
use trigger_kind::Triggers;

/// What a standby answers to what is due: it finds no fault, and there may be no memory.
fn only_memory(answer: Result<(), FollowFault>) -> Result<(), AllocError>
    requires memory { IfErr answer (λ fault. fault ≡ Memory) }
    ensures same { is_ok result ≡ is_ok answer }
{
    match answer {
        Ok(()) => Ok(()),
        Err(FollowFault::Memory) => Err(AllocError),
        Err(FollowFault::Refused { .. }) => unreachable!(),
        Err(FollowFault::Trigger { .. }) => unreachable!(),
        Err(FollowFault::Differs { .. }) => unreachable!(),
        Err(FollowFault::Window { .. }) => unreachable!(),
    }
}

/// Tells a standby the opening of its next cycle, below 2^41, by the trigger frames with which the frames of the cycle
/// begin: one or two, by the number of slots.
fn hear_opening(
    standby: &mut Standby,
    alloc: Global,
    slots: u8,
    frames: &[TimedFrame],
) -> Result<(), AllocError>
    requires slots { slots ≡ standby.old.rules.slots }
    requires due { HearsDue standby.old frames.now }
    requires next { next_of standby.old.history < openings_end }
    ensures rules { standby.new.rules ≡ standby.old.rules }
    ensures opened { OnOk result (IsOpened standby.old (due_frames standby.old) standby.new.history) }
{
    match Triggers::of(slots) {
        Triggers::One => only_memory(standby.trigger(alloc, &[frames[0].frame])),
        Triggers::Two => only_memory(standby.trigger(alloc, &[frames[0].frame, frames[1].frame])),
    }
}

/// Tells a standby a change of operator `caller`, 1 to 8, that was accepted.
fn tell_change(
    standby: &mut Standby,
    alloc: Global,
    caller: u8,
    change: &Change,
) -> Result<(), AllocError>
    requires caller { (1 ≤ caller) × (caller ≤ 8) }
    requires accepted { IsAcceptedBehind standby.old change.now }
    ensures rules { standby.new.rules ≡ standby.old.rules }
    ensures changed { OnOk result (IsChanged standby.old caller change.now standby.new.history) }
{
    only_memory(standby.change(alloc, caller, change))
}

/// Tells a standby what it is to be told of an event that opens no cycle: a change that was accepted, and else nothing.
fn tell_event(standby: &mut Standby, alloc: Global, event: &Event) -> Result<(), AllocError>
    requires operator { HasOperator event.now }
    requires closed { is_open event.now ≡ false }
    requires right { IsRightBehind standby.old event.now }
    ensures rules { standby.new.rules ≡ standby.old.rules }
    ensures core { (whole : List EventOf) → core_of whole ≡ core_of standby.old.history
        → OnOk result (core_of (whole ++ event.now ∷ []) ≡ core_of standby.new.history) }
{
    follows_each();
    match event {
        Event::Submit {
            caller,
            change,
            verdict,
            ..
        } => {
            if verdict.is_accepted() {
                tell_change(standby, alloc, *caller, change)
            } else {
                Ok(())
            }
        }
        Event::Look { .. } | Event::Open { .. } => Ok(()),
    }
}

/// Tells the standby, where it is there still, the opening of a cycle below 2^41 by the frames of the cycle.
///
/// # Errors
///
/// Only where memory runs out.
pub fn follow_opening(
    standby: &mut Option<Standby>,
    alloc: Global,
    slots: u8,
    frames: &[TimedFrame],
) -> Result<(), AllocError>
    requires slots { IfSome standby.old (λ one. slots ≡ one.rules.slots) }
    requires due { IfSome standby.old (λ one. HearsDue one frames.now) }
    requires next { IfSome standby.old (λ one. next_of one.history < openings_end) }
    ensures followed { (rules : Rules) (whole : List EventOf) (cycle mask : ℕ)
        → IsStillFollowing rules whole standby.old
        → IsRight rules whole (Open cycle mask)
        → OnOk result (IsStillFollowing rules (whole ++ Open cycle mask ∷ []) standby.new) }
{
    follows_each();
    match standby {
        Some(standby) => hear_opening(standby, alloc, slots, frames),
        None => Ok(()),
    }
}

/// Tells the standby, where it is there still, of an event that opens no cycle.
///
/// # Errors
///
/// Only where memory runs out.
pub fn follow_answer(
    standby: &mut Option<Standby>,
    alloc: Global,
    event: &Event,
) -> Result<(), AllocError>
    requires operator { HasOperator event.now }
    requires closed { is_open event.now ≡ false }
    requires right { IfSome standby.old (λ one. IsRightBehind one event.now) }
    ensures followed { (rules : Rules) (whole : List EventOf) → IsStillFollowing rules whole standby.old
        → OnOk result (IsStillFollowing rules (whole ++ event.now ∷ []) standby.new) }
{
    match standby {
        Some(standby) => tell_event(standby, alloc, event),
        None => Ok(()),
    }
}
