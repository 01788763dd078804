//! Fields of a line; frames, sets of slots and what is offered, as text. Where there is none it is `-`.

use can_frame::Frame;
use cases::{Fault, bytes, hexadecimal, push_behind, small};
use requirement_table::{MOST_SLOTS, Mask};
use std::alloc::Global;

/// The frame that a field writes: its identifier, a hash sign and its bytes.
pub fn frame(alloc: Global, field: &str) -> Result<Frame, Fault> {
    let Some((id, data)) = field.split_once('#') else {
        return Err(Fault::Unread);
    };
    match Frame::new(hexadecimal(id)?, bytes(alloc, data)?.as_slice()) {
        Ok(frame) => Ok(frame),
        Err(_) => Err(Fault::Unread),
    }
}

/// The slots that a field writes, with a plus sign between two of them.
pub fn mask(field: &str) -> Result<Mask, Fault> {
    let mut mask = Mask::empty();
    if field == "-" {
        return Ok(mask);
    }
    for slot in field.split('+') {
        let slot = small(slot)?;
        if slot >= MOST_SLOTS {
            return Err(Fault::Unread);
        }
        mask = mask.with(slot);
    }
    Ok(mask)
}

/// The text of a set of slots.
pub fn text_of_mask(alloc: Global, mask: Mask) -> Result<String, Fault> {
    let mut text = String::new(alloc);
    for slot in 0..MOST_SLOTS {
        if mask.has(slot) {
            let one = format!(in alloc; "{slot}")?;
            push_behind(&mut text, '+', one.as_str())?;
        }
    }
    if text.is_empty() {
        text.push('-')?;
    }
    Ok(text)
}

/// The text of an identifier, where there is one.
pub fn text_of_identifier(alloc: Global, id: Option<u16>) -> Result<String, Fault> {
    match id {
        Some(id) => Ok(format!(in alloc; "{id:03x}")?),
        None => Ok(String::from_str(alloc, "-")?),
    }
}

/// The text of a time, where there is one.
pub fn text_of_time(alloc: Global, at: Option<u64>) -> Result<String, Fault> {
    match at {
        Some(at) => Ok(format!(in alloc; "{at}")?),
        None => Ok(String::from_str(alloc, "-")?),
    }
}

/// The text of what is offered, and of when something is next.
pub fn text_of_offer(alloc: Global, id: Option<u16>, next: Option<u64>) -> Result<String, Fault> {
    let id = text_of_identifier(alloc, id)?;
    let next = text_of_time(alloc, next)?;
    Ok(format!(in alloc; "{id} {next}")?)
}

/// The text of what is offered, of when something is next, and of how long it is offered.
pub fn text_of_stay(
    alloc: Global,
    id: Option<u16>,
    next: Option<u64>,
    until: Option<u64>,
) -> Result<String, Fault> {
    let mut text = text_of_offer(alloc, id, next)?;
    push_behind(&mut text, ' ', text_of_time(alloc, until)?.as_str())?;
    Ok(text)
}
