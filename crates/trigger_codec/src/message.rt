//! What the trigger frames of a cycle say, and these frames.

ghost use Rattle.std.specs.Prelude.{◌≡◌, ℕ, ◌%◌, ◌^◌, ◌<◌, ◌≤◌, [], ◌∷◌, Ok, IfOk, IfErr, drop, length};
ghost use Rattle.std.specs.List.{cons_option};
ghost use Rattle.std.specs.Option.{option_map_or};
ghost use Rattle.std.specs.Result.{result_ok};
ghost use Rattle.profile.specs.Limits.{first_slots, longest_window};
ghost use Rattle.bit_sets.specs.Sets.{most_slots};
ghost use Rattle.trigger_codec.specs.Bytes.{flags_of_both, frames_left, later_frames, low_slots, high_slots};
ghost use Rattle.trigger_codec.specs.Bytes.{trigger_frame, trigger_of, flags_in};
ghost use Rattle.trigger_codec.specs.Bytes.{second_frame, second_of, second_flags_in};
ghost use Rattle.trigger_codec.specs.Refusal.{RefusesFirst, RefusesLater};

use crate::trigger_fault::TriggerFault;
use bit_sets::union;
use can_frame::Frame;
use profile::LONGEST_WINDOW;
use requirement_table::Mask;
use trigger_kind::Triggers;

/// The identifier of the first trigger frame of a cycle: the least there is, so it wins every
/// arbitration.
pub const TRIGGER_IDENTIFIER: u16 = 0;

/// The identifier of the second trigger frame of a cycle, which there is with 96 slots.
pub const SECOND_IDENTIFIER: u16 = 1;

/// What a first trigger frame says.
#[derive(Clone, Copy, Debug, PartialEq, Eq)]
pub struct Trigger {
    /// The cycle modulo 256.
    pub low: u8,
    /// The length of the cycle's synchronous window in bit times, at most 16,383.
    pub l: u32,
    /// The flagged slots below 40.
    pub mask: Mask,
}

/// What a second trigger frame says.
#[derive(Clone, Copy, Debug, PartialEq, Eq)]
pub struct Second {
    /// The cycle modulo 256.
    pub low: u8,
    /// The flagged slots from 40 on.
    pub mask: Mask,
}

/// The trigger frames of a cycle that are still to be sent, in their order: one, and the one behind it, where there are
/// two.
#[derive(Clone, Copy)]
pub struct TriggerFrames {
    /// The frame that is sent next.
    pub next: Frame,
    /// The frame behind that one.
    pub second: Option<Frame>,
}

/// The first trigger frame of a cycle: `l` is the length of its synchronous window in bit times, and
/// `mask` are its flagged slots, of which the frame carries those below 40.
pub fn encode(cycle: u64, l: u32, mask: Mask) -> Frame
    requires window { l ≤ longest_window }
    ensures frame { result ≡ trigger_frame cycle l mask }
{
    let [high, low] = (l as u16).to_be_bytes();
    let flags = mask.bits().to_le_bytes();
    let bytes = [
        low_byte(cycle),
        high,
        low,
        flags[0],
        flags[1],
        flags[2],
        flags[3],
        flags[4],
    ];
    match Frame::new(TRIGGER_IDENTIFIER, &bytes) {
        Ok(frame) => frame,
        Err(_) => unreachable!(),
    }
}

/// The second trigger frame of a cycle: `mask` are its flagged slots, of which the frame carries those
/// from 40 on.
pub fn encode_second(cycle: u64, mask: Mask) -> Frame
    ensures frame { result ≡ second_frame cycle mask }
{
    let flags = mask.bits().to_le_bytes();
    let bytes = [
        low_byte(cycle),
        flags[5],
        flags[6],
        flags[7],
        flags[8],
        flags[9],
        flags[10],
        flags[11],
    ];
    match Frame::new(SECOND_IDENTIFIER, &bytes) {
        Ok(frame) => frame,
        Err(_) => unreachable!(),
    }
}

/// The trigger frame of a cycle behind the first one, where there is one.
pub fn encode_later(triggers: Triggers, cycle: u64, mask: Mask) -> Option<Frame>
    ensures frames { cons_option result [] ≡ later_frames triggers cycle mask }
{
    match triggers {
        Triggers::One => None,
        Triggers::Two => Some(encode_second(cycle, mask)),
    }
}

/// The trigger frames of a cycle: `l` is the length of its synchronous window in bit times, and `mask` are its flagged
/// slots.
pub fn encode_all(triggers: Triggers, cycle: u64, l: u32, mask: Mask) -> TriggerFrames
    requires window { l ≤ longest_window }
    ensures frames { frames_left result ≡ trigger_frame cycle l mask ∷ later_frames triggers cycle mask }
{
    TriggerFrames {
        next: encode(cycle, l, mask),
        second: encode_later(triggers, cycle, mask),
    }
}

/// The trigger frames that are left once the first of these was sent.
pub fn frames_behind(frames: &TriggerFrames) -> Option<TriggerFrames>
    ensures left { option_map_or frames_left result [] ≡ drop 1 (frames_left frames.now) }
{
    match frames.second {
        Some(next) => Some(TriggerFrames { next, second: None }),
        None => None,
    }
}

/// What a frame says as a first trigger frame. It does not compare the window with the flags.
pub fn decode(frame: &Frame) -> Result<Trigger, TriggerFault>
    ensures trigger { IfOk result
        (λ t. (t.l ≤ longest_window) × (frame.now ≡ trigger_frame t.low t.l t.mask)) }
    ensures flags { IfOk result (λ t. t.mask < 2 ^ first_slots) }
    ensures every { (cycle l mask : ℕ) → l ≤ longest_window → mask < 2 ^ most_slots
        → frame.now ≡ trigger_frame cycle l mask
        → result ≡ Ok (record { low = cycle % 256; l = l; mask = low_slots mask }) }
    ensures fault { IfErr result (RefusesFirst frame.now) }
    ensures reading { result_ok result ≡ trigger_of frame.now }
{
    let id = frame.id();
    if id != TRIGGER_IDENTIFIER {
        return Err(TriggerFault::WrongId { id });
    }
    let dlc = frame.dlc();
    if dlc != 8 {
        return Err(TriggerFault::WrongLength { dlc });
    }
    let l = u32::from(u16::from_be_bytes([frame.byte(1), frame.byte(2)]));
    if l > LONGEST_WINDOW {
        return Err(TriggerFault::Window { l });
    }
    let mask = flags(frame);
    Ok(Trigger {
        low: frame.byte(0),
        l,
        mask,
    })
}

/// What a frame says as a second trigger frame. Of the faults, that of the window never comes.
pub fn decode_second(frame: &Frame) -> Result<Second, TriggerFault>
    ensures second { IfOk result (λ t. frame.now ≡ second_frame t.low t.mask) }
    ensures flags { IfOk result (λ t. t.mask ≡ high_slots t.mask) }
    ensures every { (cycle mask : ℕ) → mask < 2 ^ most_slots → frame.now ≡ second_frame cycle mask
        → result ≡ Ok (record { low = cycle % 256; mask = high_slots mask }) }
    ensures fault { IfErr result (RefusesLater 1 frame.now) }
    ensures reading { result_ok result ≡ second_of frame.now }
{
    let id = frame.id();
    if id != SECOND_IDENTIFIER {
        return Err(TriggerFault::WrongId { id });
    }
    let dlc = frame.dlc();
    if dlc != 8 {
        return Err(TriggerFault::WrongLength { dlc });
    }
    let mask = second_flags(frame);
    Ok(Second {
        low: frame.byte(0),
        mask,
    })
}

/// The slots that the two trigger frames of a cycle flag, where they flag these.
pub fn flags_of_both(first: Mask, second: Mask) -> Mask
    ensures flags { result ≡ flags_of_both first second }
{
    union(first, second)
}

/// Byte 0 of both trigger frames: the cycle modulo 256.
fn low_byte(cycle: u64) -> u8
    ensures value { result ≡ cycle % 256 }
{
    (cycle % 256) as u8
}

/// The slots that a first trigger frame flags.
fn flags(frame: &Frame) -> Mask
    requires { length frame.now.bytes ≡ 8 }
    ensures { result ≡ flags_in frame.now.bytes }
{
    let bits = u64::from_le_bytes([
        frame.byte(3),
        frame.byte(4),
        frame.byte(5),
        frame.byte(6),
        frame.byte(7),
        0,
        0,
        0,
    ]);
    Mask::from_bits(u128::from(bits))
}

/// The slots that a second trigger frame flags.
fn second_flags(frame: &Frame) -> Mask
    requires { length frame.now.bytes ≡ 8 }
    ensures { result ≡ second_flags_in frame.now.bytes }
{
    let bits = u64::from_le_bytes([
        frame.byte(1),
        frame.byte(2),
        frame.byte(3),
        frame.byte(4),
        frame.byte(5),
        frame.byte(6),
        frame.byte(7),
        0,
    ]);
    Mask::from_bits(u128::from(bits) << 40)
}
