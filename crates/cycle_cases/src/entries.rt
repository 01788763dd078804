//! Placed entries that are read from fields.

use cases::{Fault, cut, small};
use requirement_table::{Entry, Placed};
use std::alloc::Global;

/// The entries of fields that each write a slot, its node, the number of its bytes and its phase, with colons between
/// them. Each has an instance in each cycle from its phase on.
pub fn entries(alloc: Global, fields: &str) -> Result<Vec<Placed>, Fault> {
    let mut entries = Vec::new(alloc);
    if fields.is_empty() {
        return Ok(entries);
    }
    for field in fields.split(' ') {
        entries.push(placed(field)?)?;
    }
    Ok(entries)
}

/// The entry of a field, which has an instance in each cycle from its phase on.
fn placed(field: &str) -> Result<Placed, Fault> {
    let (slot, rest) = cut(field, ':');
    let (node, rest) = cut(rest, ':');
    let (bytes, phase) = cut(rest, ':');
    let entry = Entry {
        slot: small(slot)?,
        node: small(node)?,
        length: small(bytes)?,
        phase: u16::from(small(phase)?),
        period: 1,
        deadline: 1,
        priority: 0,
    };
    Ok(Placed {
        entry,
        origin: 0,
        end: None,
    })
}
