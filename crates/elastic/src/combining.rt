//! The change of a combination.

ghost use Rattle.std.specs.Prelude.{◌≡◌, ◌<◌, ◌≤◌, IfOk};
ghost use Rattle.elastic.specs.Combination.{HasChoice, change_of, combinations, operation_in, operations_in, with_period};

use crate::wish::{Wish, WishOp};
use change_protocol::{Change, Op, Ops};
use requirement_table::Entry;
use std::alloc::{AllocError, Global};

/// The entry with this period, and with its deadline or the period, whichever is less.
fn with_period(entry: &Entry, period: u16) -> Entry
    ensures value { result ≡ with_period entry.now period }
{
    Entry {
        period,
        deadline: entry.deadline.min(period),
        ..*entry
    }
}

/// What becomes of an operation in the combination with this number, where those behind it have so many combinations.
fn operation_in(op: &WishOp, number: usize, behind: usize) -> Op
    requires some { HasChoice op.now }
    requires behind { 1 ≤ behind }
    ensures value { result ≡ operation_in number behind op.now }
{
    match op {
        WishOp::Add { entry, periods } => {
            let periods = periods.as_slice();
            let period = periods[number / behind % periods.len()];
            Op::Add {
                entry: with_period(entry, period),
            }
        }
        WishOp::Remove { slot } => Op::Remove { slot: *slot },
    }
}

/// The number of combinations, which is 1 to 4,096.
fn combinations(ops: &[WishOp]) -> usize
    requires some { 1 ≤ combinations ops.now }
    requires few { combinations ops.now ≤ 4096 }
    ensures value { result ≡ combinations ops.now }
{
    let mut count = 1;
    for op in ops {
        count *= op.choices();
    }
    count
}

/// The operations of the combination with this number.
fn operations_in(alloc: Global, ops: &[WishOp], number: usize) -> Result<Vec<Op>, AllocError>
    requires some { 1 ≤ combinations ops.now }
    requires few { combinations ops.now ≤ 4096 }
    ensures value { IfOk result (λ taken. taken.items ≡ operations_in number ops.now) }
{
    let mut behind = combinations(ops);
    let mut taken = Vec::new(alloc);
    for op in ops {
        behind /= op.choices();
        taken.push(operation_in(op, number, behind))?;
    }
    Ok(taken)
}

/// The change of the combination with this number. There are 1 to 4,096 combinations, and the number, from 0, is below
/// that.
///
/// # Errors
///
/// Only where memory runs out.
pub fn wish_change(alloc: Global, wish: &Wish, number: u32) -> Result<Change, AllocError>
    requires below { number < combinations wish.now.ops }
    requires few { combinations wish.now.ops ≤ 4096 }
    ensures change { IfOk result (λ change. change ≡ change_of wish.now number) }
{
    let ops = operations_in(alloc, wish.ops.as_slice(), number as usize)?;
    Ok(Change {
        start: wish.start,
        ops: Ops::of(ops),
    })
}
