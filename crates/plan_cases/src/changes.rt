//! The changes that the master is asked for.

use change_protocol::{Change, Op, Ops};
use requirement_table::Entry;
use std::alloc::{AllocError, Global};

/// The number of the last change, from 0.
pub const LAST: u64 = 5;

/// The operation that adds an entry of node 0: its slot, its length in bytes, its period and its deadline in cycles.
fn add(slot: u8, length: u8, period: u16, deadline: u16) -> Op {
    Op::Add {
        entry: Entry {
            slot,
            node: 0,
            length,
            phase: 0,
            period,
            deadline,
            priority: 0,
        },
    }
}

/// The change with this number, from cycle `start` on. The first one adds two entries.
pub fn change(alloc: Global, number: u64, start: u64) -> Result<Change, AllocError> {
    let ops = if number == 0 {
        Vec::from_slice(alloc, &[add(0, 8, 1, 1), add(1, 4, 3, 2)])?
    } else {
        Vec::from_slice(alloc, &[operation(number)])?
    };
    Ok(Change {
        start,
        ops: Ops::of(ops),
    })
}

/// The operation of a later change: the second adds an entry, the third adds one that misses its deadline, the fourth
/// removes one that is not there, the fifth removes one, and all others add one.
fn operation(number: u64) -> Op {
    match number {
        1 => add(2, 0, 2, 2),
        2 => add(3, 8, 5, 1),
        3 => Op::Remove { slot: 9 },
        4 => Op::Remove { slot: 1 },
        _ => add(5, 2, 7, 4),
    }
}
