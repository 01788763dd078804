//! Calls of `trigger_codec`.

use crate::values::{frame, mask, text_of_mask};
use can_frame::Frame;
use cases::{CaseTable, Fault, cut, length, text_of_frame, time};
use profile::LONGEST_WINDOW;
use std::alloc::Global;
use trigger_codec::{decode, decode_second, encode, encode_second, flags_of_both};

/// Trigger frames, in both directions.
#[derive(Drop)]
pub struct TriggerCases;

impl CaseTable for TriggerCases {
    ghost use Rattle.std.specs.Prelude.{⊤};

    ghost IsReady = { λ _. ⊤ };

    fn answer(&mut self, alloc: Global, given: &str) -> Result<String, Fault> {
        let (word, fields) = cut(given, ' ');
        match word {
            "encode" => text_of_frame(alloc, &trigger(fields)?),
            "encode-second" => text_of_frame(alloc, &second_trigger(fields)?),
            "decode" => decoded(alloc, &frame(alloc, fields)?),
            "decode-second" => decoded_second(alloc, &frame(alloc, fields)?),
            "both" => both(alloc, fields),
            _ => Err(Fault::Unread),
        }
    }
}

/// The first trigger frame of a cycle, with its window and its flagged slots.
pub fn trigger(fields: &str) -> Result<Frame, Fault> {
    let (cycle, rest) = cut(fields, ' ');
    let (l, slots) = cut(rest, ' ');
    let l = length(l)?;
    if l > LONGEST_WINDOW {
        return Err(Fault::Unread);
    }
    Ok(encode(time(cycle)?, l, mask(slots)?))
}

/// The second trigger frame of a cycle, with its flagged slots.
pub fn second_trigger(fields: &str) -> Result<Frame, Fault> {
    let (cycle, slots) = cut(fields, ' ');
    Ok(encode_second(time(cycle)?, mask(slots)?))
}

/// The slots that two trigger frames flag together.
fn both(alloc: Global, fields: &str) -> Result<String, Fault> {
    let (first, second) = cut(fields, ' ');
    text_of_mask(alloc, flags_of_both(mask(first)?, mask(second)?))
}

/// What a second trigger frame says, or the fault.
fn decoded_second(alloc: Global, heard: &Frame) -> Result<String, Fault> {
    match decode_second(heard) {
        Ok(second) => {
            let slots = text_of_mask(alloc, second.mask)?;
            Ok(format!(in alloc; "{} {slots}", second.low)?)
        }
        Err(fault) => Ok(format!(in alloc; "{fault}")?),
    }
}

/// What a first trigger frame says, or the fault.
fn decoded(alloc: Global, heard: &Frame) -> Result<String, Fault> {
    match decode(heard) {
        Ok(trigger) => {
            let slots = text_of_mask(alloc, trigger.mask)?;
            Ok(format!(in alloc; "{} {} {slots}", trigger.low, trigger.l)?)
        }
        Err(fault) => Ok(format!(in alloc; "{fault}")?),
    }
}
