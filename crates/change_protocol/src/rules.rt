//! The rules that a well formed change keeps, in the order in which they are tested.

ghost use Rattle.std.specs.Prelude.{◌≡◌, ◌<◌, ◌≤◌, ◌++◌, List, [], IfErr, OnOk, map, length, nat_eq};
ghost use Rattle.std.specs.List.{list_any};
ghost use Rattle.bit_sets.specs.Sets.{most_slots};
ghost use Rattle.change_protocol.specs.Operations.{slot_of};
ghost use Rattle.change_protocol.specs.Malformed.{add_busy, bounds_of, broken, change_faults, deadline_range, end_busy};
ghost use Rattle.change_protocol.specs.Malformed.{length_range, no_ops, node_unknown, op_faults};
ghost use Rattle.change_protocol.specs.Malformed.{period_zero, slot_busy, slot_empty, slot_range};
ghost use Rattle.change_protocol.specs.Malformed.{slot_twice, start_range, too_many_ops, where_holds, whys};
ghost use Rattle.change_protocol.specs.First.{IsFirst, NamesFirst};
ghost use Rattle.change_protocol.specs.declared.malformed.Why.{Why};

use crate::malformed::{ApplyFault, Why};
use crate::operations::Op;
use crate::slots::SlotTable;
use profile::STARTS_END;

/// A change has at most this many operations.
const MOST_OPS: usize = 16;

/// The greatest number of data bytes of a frame.
const LONGEST: u8 = 8;

/// That the rule is not broken.
fn unless(broken: bool, why: Why) -> Result<(), Why>
    ensures ok { OnOk result (where_holds broken why ≡ []) }
    ensures fault { IfErr result (IsFirst (where_holds broken why)) }
{
    if broken { Err(why) } else { Ok(()) }
}

/// There is an operation.
fn no_ops(ops: &[Op]) -> Result<(), Why>
    ensures ok { OnOk result (no_ops ops.now ≡ []) }
    ensures fault { IfErr result (IsFirst (no_ops ops.now)) }
{
    unless(ops.is_empty(), Why::NoOps)
}

/// There are at most 16 operations.
fn too_many_ops(ops: &[Op]) -> Result<(), Why>
    ensures ok { OnOk result (too_many_ops ops.now ≡ []) }
    ensures fault { IfErr result (IsFirst (too_many_ops ops.now)) }
{
    unless(ops.len() > MOST_OPS, Why::TooManyOps)
}

/// The start is below 2^40.
fn start_range(start: u64) -> Result<(), Why>
    ensures ok { OnOk result (start_range start ≡ []) }
    ensures fault { IfErr result (IsFirst (start_range start)) }
{
    unless(start >= STARTS_END, Why::StartRange)
}

/// The same answer as the fault of a change at this operation.
fn at(place: u8, kept: Result<(), Why>) -> Result<(), ApplyFault>
    ensures ok { (whys : List Why) → OnOk kept (whys ≡ []) → OnOk result (map (broken place) whys ≡ []) }
    ensures fault { (whys : List Why) → IfErr kept (IsFirst whys)
        → IfErr result (NamesFirst (map (broken place) whys)) }
{
    match kept {
        Ok(()) => Ok(()),
        Err(why) => Err(ApplyFault::Malformed { op: place, why }),
    }
}

/// The rules of the whole change.
pub fn check_change(start: u64, ops: &[Op]) -> Result<(), ApplyFault>
    ensures ok { OnOk result (change_faults start ops.now ≡ []) }
    ensures few { OnOk result (length ops.now < 17) }
    ensures fault { IfErr result (NamesFirst (change_faults start ops.now)) }
{
    at(0, no_ops(ops))?;
    at(16, too_many_ops(ops))?;
    at(0, start_range(start))
}

/// The slot is below the number of slots.
fn slot_range(slots: u8, op: &Op) -> Result<(), Why>
    ensures ok { OnOk result (slot_range slots op.now ≡ []) }
    ensures fault { IfErr result (IsFirst (slot_range slots op.now)) }
    ensures below { OnOk result (slot_of op.now < slots) }
{
    unless(op.slot() >= slots, Why::SlotRange)
}

/// No earlier operation has the slot.
fn slot_twice(earlier: &[Op], op: &Op) -> Result<(), Why>
    ensures ok { OnOk result (slot_twice earlier.now op.now ≡ []) }
    ensures fault { IfErr result (IsFirst (slot_twice earlier.now op.now)) }
{
    unless(has_slot(earlier, op.slot()), Why::SlotTwice)
}

/// Whether one of the operations has the slot.
fn has_slot(ops: &[Op], slot: u8) -> bool
    ensures { result ≡ list_any (λ other. nat_eq (slot_of other) slot) ops.now }
{
    ops.iter().any(|other| other.slot() == slot)
}

/// The node is below the number of nodes.
fn node_unknown(nodes: u8, op: &Op) -> Result<(), Why>
    ensures ok { OnOk result (node_unknown nodes op.now ≡ []) }
    ensures fault { IfErr result (IsFirst (node_unknown nodes op.now)) }
{
    match op.entry() {
        Some(entry) => unless(entry.node >= nodes, Why::NodeUnknown),
        None => Ok(()),
    }
}

/// The length is at most 8.
fn length_range(op: &Op) -> Result<(), Why>
    ensures ok { OnOk result (length_range op.now ≡ []) }
    ensures fault { IfErr result (IsFirst (length_range op.now)) }
{
    match op.entry() {
        Some(entry) => unless(entry.length > LONGEST, Why::LengthRange),
        None => Ok(()),
    }
}

/// The period is not 0.
fn period_zero(op: &Op) -> Result<(), Why>
    ensures ok { OnOk result (period_zero op.now ≡ []) }
    ensures fault { IfErr result (IsFirst (period_zero op.now)) }
{
    match op.entry() {
        Some(entry) => unless(entry.period == 0, Why::PeriodZero),
        None => Ok(()),
    }
}

/// The deadline is 1 to the period.
fn deadline_range(op: &Op) -> Result<(), Why>
    ensures ok { OnOk result (deadline_range op.now ≡ []) }
    ensures fault { IfErr result (IsFirst (deadline_range op.now)) }
{
    match op.entry() {
        Some(entry) => unless(
            entry.deadline == 0 || entry.deadline > entry.period,
            Why::DeadlineRange,
        ),
        None => Ok(()),
    }
}

/// For an added entry: no entry of the slot is live, and all are free at the start.
fn add_busy(table: &SlotTable, start: u64, slot: u8) -> Result<(), Why>
    requires { slot < most_slots }
    ensures ok { OnOk result (add_busy table.now.placed.now start slot ≡ []) }
    ensures fault { IfErr result (IsFirst (add_busy table.now.placed.now start slot)) }
{
    let held = table.slot(slot);
    match held.live {
        Some(_) => Err(Why::SlotBusy { until: None }),
        None => unless(
            held.free > start,
            Why::SlotBusy {
                until: Some(held.free),
            },
        ),
    }
}

/// For a removal or a change: the slot's live entry begins at or before the start, where there is one.
fn end_busy(table: &SlotTable, start: u64, slot: u8) -> Result<(), Why>
    requires { slot < most_slots }
    ensures ok { OnOk result (end_busy table.now.placed.now start slot ≡ []) }
    ensures fault { IfErr result (IsFirst (end_busy table.now.placed.now start slot)) }
{
    match table.slot(slot).live {
        Some(live) => unless(
            live.origin > start,
            Why::SlotBusy {
                until: Some(live.origin),
            },
        ),
        None => Ok(()),
    }
}

/// The slot is not in use at the start.
fn slot_busy(table: &SlotTable, start: u64, op: &Op) -> Result<(), Why>
    requires { slot_of op.now < most_slots }
    ensures ok { OnOk result (slot_busy table.now.placed.now start op.now ≡ []) }
    ensures fault { IfErr result (IsFirst (slot_busy table.now.placed.now start op.now)) }
{
    match op {
        Op::Add { entry } => add_busy(table, start, entry.slot),
        Op::Remove { slot } => end_busy(table, start, *slot),
        Op::Change { entry } => end_busy(table, start, entry.slot),
    }
}

/// The slot has a live entry that can be ended.
fn slot_empty(table: &SlotTable, op: &Op) -> Result<(), Why>
    requires { slot_of op.now < most_slots }
    ensures ok { OnOk result (slot_empty table.now.placed.now op.now ≡ []) }
    ensures fault { IfErr result (IsFirst (slot_empty table.now.placed.now op.now)) }
{
    match op {
        Op::Add { .. } => Ok(()),
        Op::Remove { slot } => unless(table.slot(*slot).live.is_none(), Why::SlotEmpty),
        Op::Change { entry } => unless(table.slot(entry.slot).live.is_none(), Why::SlotEmpty),
    }
}

/// The rules of one operation; `earlier` are the operations of the change before it.
fn check_operation(
    table: &SlotTable,
    nodes: u8,
    slots: u8,
    start: u64,
    earlier: &[Op],
    op: &Op,
) -> Result<(), Why>
    requires slots { slots ≤ most_slots }
    ensures ok { OnOk result (whys table.now.placed.now (bounds_of nodes slots) start earlier.now op.now ≡ []) }
    ensures fault { IfErr result
        (IsFirst (whys table.now.placed.now (bounds_of nodes slots) start earlier.now op.now)) }
{
    slot_range(slots, op)?;
    slot_twice(earlier, op)?;
    node_unknown(nodes, op)?;
    length_range(op)?;
    period_zero(op)?;
    deadline_range(op)?;
    slot_busy(table, start, op)?;
    slot_empty(table, op)
}

/// The rules of all operations.
pub fn check_operations(
    table: &SlotTable,
    nodes: u8,
    slots: u8,
    start: u64,
    ops: &[Op],
) -> Result<(), ApplyFault>
    requires few { length ops.now < 17 }
    requires slots { slots ≤ most_slots }
    ensures ok { OnOk result (op_faults table.now.placed.now (bounds_of nodes slots) start [] ops.now ≡ []) }
    ensures fault { IfErr result
        (NamesFirst (op_faults table.now.placed.now (bounds_of nodes slots) start [] ops.now)) }
{
    for (place, op) in ops.iter().enumerate() {
        if let Err(why) = check_operation(table, nodes, slots, start, &ops[..place], op) {
            return Err(ApplyFault::Malformed {
                op: place as u8,
                why,
            });
        }
    }
    Ok(())
}
