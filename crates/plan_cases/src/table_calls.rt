//! Calls of the requirement table about one entry, one frame or one set.

ghost use Rattle.std.specs.Prelude.{◌≤◌, IfSome};

use crate::numbers::{self, first, number, set};
use requirement_table::{
    MOST_SLOTS, Mask, Payload, Placed, cost, current, current_instance, due, releases,
};
use std::alloc::{AllocError, Global};

/// The data bytes of an instance: SIZE NUMBER.
pub fn payload(alloc: Global, numbers: &str) -> Result<String, AllocError> {
    let (size, rest) = first(numbers);
    if size > 8 {
        return Ok(String::new(alloc));
    }
    let payload = Payload::of(size as u8, number(rest));
    format!(in alloc; "{:?}", payload.as_slice())
}

/// The worst length of a frame of so many bytes.
pub fn worst_length(alloc: Global, numbers: &str) -> Result<String, AllocError> {
    let size = number(numbers);
    if size > 8 {
        return Ok(String::new(alloc));
    }
    format!(in alloc; "{}", cost(size as u8))
}

/// The number of the set of these slots.
pub fn bits(alloc: Global, numbers: &str) -> Result<String, AllocError> {
    format!(in alloc; "{}", set(numbers).bits())
}

/// The slots of the set with this number.
pub fn slots(alloc: Global, numbers: &str) -> Result<String, AllocError> {
    let bits = number(numbers);
    if bits >= 1 << 40 {
        return Ok(String::new(alloc));
    }
    slots_of(alloc, Mask::from_bits(u128::from(bits)))
}

/// The slots of a set without the first of these: SLOT SLOTS.
pub fn without(alloc: Global, numbers: &str) -> Result<String, AllocError> {
    let (slot, rest) = first(numbers);
    if slot >= u64::from(MOST_SLOTS) {
        return Ok(String::new(alloc));
    }
    slots_of(alloc, set(rest).without(slot as u8))
}

/// The slots of a set, as text.
fn slots_of(alloc: Global, set: Mask) -> Result<String, AllocError> {
    let slots = numbers::slots(alloc, set)?;
    format!(in alloc; "{slots:?}")
}

/// The last of the entries, where its deadline is at least 1 and at most its period.
fn last_of(placed: &[Placed]) -> Option<&Placed>
    ensures some_time { IfSome result (λ last. 1 ≤ last.now.entry.deadline) }
    ensures deadline { IfSome result (λ last. last.now.entry.deadline ≤ last.now.entry.period) }
{
    match placed.last() {
        Some(last) => {
            if last.entry.deadline < 1 || last.entry.deadline > last.entry.period {
                None
            } else {
                Some(last)
            }
        }
        None => None,
    }
}

/// The number of the instance that the last entry releases in a cycle, and number and release of the one that may be sent
/// in it.
pub fn instances(alloc: Global, placed: &[Placed], numbers: &str) -> Result<String, AllocError> {
    let cycle = number(numbers);
    let Some(placed) = last_of(placed) else {
        return Ok(String::new(alloc));
    };
    let released = releases(placed, cycle);
    let number = current(placed, cycle);
    match current_instance(placed, cycle) {
        Some(sendable) => {
            format!(in alloc;
                "{released:?} {number:?} {} {}",
                sendable.number, sendable.release
            )
        }
        None => format!(in alloc; "{released:?} {number:?}"),
    }
}

/// The release and the last cycle of an instance of the last entry.
pub fn due_cycles(alloc: Global, placed: &[Placed], numbers: &str) -> Result<String, AllocError> {
    let number = number(numbers);
    let Some(placed) = last_of(placed) else {
        return Ok(String::new(alloc));
    };
    let phase = u64::from(placed.entry.phase);
    let Some(later) = number.checked_mul(u64::from(placed.entry.period)) else {
        return Ok(String::new(alloc));
    };
    if later >= 1 << 40 || placed.origin >= 1 << 40 || phase >= 1 << 40 {
        return Ok(String::new(alloc));
    }
    let (release, last) = due(placed, number);
    format!(in alloc; "{release} {last}")
}
