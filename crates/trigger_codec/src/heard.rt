//! What is heard of the trigger of a cycle.

ghost use Rattle.std.specs.Prelude.{◌≡◌, ℕ, ◌%◌, ◌≤◌, IfSome};
ghost use Rattle.std.specs.Result.{result_ok};
ghost use Rattle.profile.specs.Limits.{longest_window};
ghost use Rattle.trigger_codec.specs.Bytes.{second_of, trigger_of};
ghost use Rattle.trigger_codec.specs.Heard.{IsNoted, first_heard, heard_of, joined, last_heard, told, trigger_in};

use crate::message::{Second, Trigger, decode, decode_second, flags_of_both};
use can_frame::Frame;
use profile::LONGEST_WINDOW;
use requirement_table::Mask;
use trigger_kind::Triggers;

/// What was heard of a cycle's trigger frames, of which the last one did not come yet: what the first one said, where it
/// was heard.
pub type Noted = Option<Trigger>;

/// What the trigger of a cycle says.
#[derive(Clone, Copy, PartialEq, Eq, Debug)]
pub struct Heard {
    /// The length of the cycle's synchronous window in bit times, at most 16,383.
    pub l: u32,
    /// The flagged slots.
    pub mask: Mask,
}

/// What a first trigger frame says of a cycle, where a frame is read as one: its window is at most `window` bit times, and
/// it has the cycle modulo 256.
pub fn first_heard(window: u32, cycle: u64, read: &Option<Trigger>) -> Option<Trigger>
    ensures first { result ≡ first_heard window cycle read.now }
    ensures fits { IfSome result (λ trigger. trigger.l ≤ window) }
    ensures same { IfSome result (λ trigger. trigger.low ≡ cycle % 256) }
{
    let trigger = (*read)?;
    let fits = trigger.l <= window && u64::from(trigger.low) == cycle % 256;
    fits.then_some(trigger)
}

/// What two trigger frames say together, where the first one was noted and both are of one cycle.
fn joined(noted: &Noted, read: &Option<Second>) -> Option<Trigger>
    ensures joined { result ≡ joined noted.now read.now }
    ensures fits { (window : ℕ) → IfSome noted.now (λ trigger. trigger.l ≤ window)
        → IfSome result (λ trigger. trigger.l ≤ window) }
{
    let first = (*noted)?;
    let second = (*read)?;
    if second.low != first.low {
        return None;
    }
    Some(Trigger {
        mask: flags_of_both(first.mask, second.mask),
        ..first
    })
}

/// What the trigger frames of a cycle say, where `last` is the last of them, and `noted` was heard of those before it. The
/// window is at most `window` bit times.
pub fn last_heard(
    triggers: Triggers,
    window: u32,
    cycle: u64,
    noted: &Noted,
    last: &Frame,
) -> Option<Trigger>
    ensures last { result ≡ last_heard triggers window cycle noted.now last.now }
    ensures fits { IfSome noted.now (IsNoted triggers window cycle)
        → IfSome result (λ trigger. trigger.l ≤ window) }
{
    match triggers {
        Triggers::One => first_heard(window, cycle, &decode(last).ok()),
        Triggers::Two => joined(noted, &decode_second(last).ok()),
    }
}

/// What some frames say, where they are the trigger of the cycle: one frame with 40 slots and two with 96, each with the
/// cycle modulo 256.
pub fn hear(slots: u8, cycle: u64, frames: &[Frame]) -> Option<Heard>
    ensures heard { result ≡ heard_of slots cycle frames.now }
{
    let trigger = trigger_in(Triggers::of(slots), cycle, frames)?;
    Some(Heard {
        l: trigger.l,
        mask: trigger.mask,
    })
}

/// The same with the cycle modulo 256, where it is known how many trigger frames there are.
fn trigger_in(triggers: Triggers, cycle: u64, frames: &[Frame]) -> Option<Trigger>
    ensures trigger { result ≡ trigger_in triggers cycle frames.now }
{
    match triggers {
        Triggers::One => match frames {
            [only] => last_heard(triggers, LONGEST_WINDOW, cycle, &None, only),
            _ => None,
        },
        Triggers::Two => match frames {
            [first, second] => {
                last_heard(
                    triggers,
                    LONGEST_WINDOW,
                    cycle,
                    &first_of(cycle, first),
                    second,
                )
            }
            _ => None,
        },
    }
}

/// What a frame says as the first trigger frame of a cycle, where it is that.
fn first_of(cycle: u64, first: &Frame) -> Option<Trigger>
    ensures first { result ≡ first_heard longest_window cycle (trigger_of first.now) }
{
    first_heard(LONGEST_WINDOW, cycle, &decode(first).ok())
}
