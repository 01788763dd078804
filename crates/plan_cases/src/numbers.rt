//! Words as numbers, and numbers as values.

use cases::cut;
use requirement_table::{Entry, MOST_SLOTS, Mask, Placed};
use std::alloc::{AllocError, Global};

/// What stands for a word that is no number, as `-` for no end.
const NONE: u64 = u64::MAX;

/// The number that a text writes.
pub fn number(text: &str) -> u64 {
    text.parse::<u64>().unwrap_or(NONE)
}

/// The number before the first blank of a text, and what stands after that blank.
pub fn first(text: &str) -> (u64, &str) {
    let (word, rest) = cut(text, ' ');
    (number(word), rest)
}

/// How many numbers a text writes, where it writes one or more.
pub fn count(text: &str) -> usize {
    text.split(' ').count()
}

/// The entry in its place with these numbers: slot, node, length, phase, period, deadline, priority, origin and end.
/// All but the last two are taken as numbers of 8 or 16 bits.
pub fn placed(text: &str) -> Option<Placed> {
    let (slot, rest) = first(text);
    let (node, rest) = first(rest);
    let (size, rest) = first(rest);
    let (phase, rest) = first(rest);
    let (period, rest) = first(rest);
    let (deadline, rest) = first(rest);
    let (priority, rest) = first(rest);
    let (origin, rest) = first(rest);
    let end = number(rest);
    if end == NONE && rest != "-" {
        return None;
    }
    let entry = Entry {
        slot: (slot % 0x100) as u8,
        node: (node % 0x100) as u8,
        length: (size % 0x100) as u8,
        phase: (phase % 0x1_0000) as u16,
        period: (period % 0x1_0000) as u16,
        deadline: (deadline % 0x1_0000) as u16,
        priority: (priority % 0x100) as u8,
    };
    let end = if end == NONE { None } else { Some(end) };
    Some(Placed { entry, origin, end })
}

/// The set of the slots of a text, of which greater numbers are none.
pub fn set(text: &str) -> Mask {
    let mut set = Mask::empty();
    for word in text.split(' ') {
        let slot = number(word);
        if slot < u64::from(MOST_SLOTS) {
            set = set.with(slot as u8);
        }
    }
    set
}

/// The slots of a set.
pub fn slots(alloc: Global, set: Mask) -> Result<Vec<u8>, AllocError> {
    let mut slots = Vec::new(alloc);
    for slot in 0..MOST_SLOTS {
        if set.has(slot) {
            slots.push(slot)?;
        }
    }
    Ok(slots)
}

/// The numbers of sets.
pub fn bits(alloc: Global, sets: &[Mask]) -> Result<Vec<u128>, AllocError> {
    let mut bits = Vec::new(alloc);
    for set in sets {
        bits.push(set.bits())?;
    }
    Ok(bits)
}

/// The slot and the origin of each entry.
pub fn places(alloc: Global, list: &[Placed]) -> Result<Vec<u64>, AllocError> {
    let mut places = Vec::new(alloc);
    for placed in list {
        places.push(u64::from(placed.entry.slot))?;
        places.push(placed.origin)?;
    }
    Ok(places)
}
