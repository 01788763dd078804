//! Plain structs of C, as the values that they stand for.

ghost use Rattle.std.specs.Prelude.{◌≡◌, ◌<◌, ◌≤◌, ◌^◌, ◌↔◌, All, IsTrue, IfErr, IfOk, OnOk, map};
ghost use Rattle.can_frame.specs.DataFrame.{IsFrame};
ghost use Rattle.cycle_layout.specs.Layout.{IsLayout};
ghost use Rattle.requirement_table.specs.Table.{IsWellPlaced};
ghost use Rattle.c_values.specs.declared.refusal.ExportRefusal.TheVariants.{Argument};
ghost use Rattle.c_values.specs.Plain.{AreRules, IsFrameIn, IsMask, IsOp};
ghost use Rattle.c_values.specs.Plain.{change_of, entry_of, frame_of, layout_of, mask_of, op_of, ops_of, placed_of, rules_of, table_of};
ghost use Rattle.c_values.specs.Refused.{RefusesFrame, RefusesOps, RefusesRules, RefusesTable};

use crate::plain::{FttEntry, FttFrame, FttLayout, FttMask, FttOp, FttPlaced, FttRules};
use crate::refusal::ExportRefusal;
use admission::Rules;
use can_frame::{Frame, MAX_BYTES};
use change_protocol::{Change, Op, Ops};
use cycle_layout::Layout;
use planner_policies::{Fill, Policy};
use profile::{GREATEST_HORIZON, GREATEST_IDENTIFIER, LONGEST_WINDOW, MOST_NODES, SHORTEST_WINDOW};
use requirement_table::{Entry, Mask, Placed, well_placed};
use std::alloc::{AllocError, Global};
use trigger_kind::are_slots;

/// The high word of a set of slots is below this.
const HIGH_END: u64 = 1 << 32;

/// Whether a set has slots below 96 alone.
pub fn is_mask(mask: FttMask) -> bool
    ensures mask { IsTrue result ↔ IsMask mask }
{
    mask.high < HIGH_END
}

/// A set of slots.
pub fn mask_in(mask: FttMask) -> Mask
    requires { IsMask mask }
    ensures value { result ≡ mask_of mask }
{
    Mask::from_bits((u128::from(mask.high) << 64) + u128::from(mask.low))
}

/// Whether a frame has an identifier up to 0x7EF, and at most 8 bytes in use.
fn is_frame(frame: &FttFrame) -> bool
    ensures frame { IsTrue result ↔ IsFrameIn frame.now }
{
    frame.id <= GREATEST_IDENTIFIER && usize::from(frame.len) <= MAX_BYTES
}

/// Whether all frames are so.
pub fn are_frames(frames: &[FttFrame]) -> bool
    ensures frames { IsTrue result ↔ All IsFrameIn frames.now }
{
    frames.iter().all(is_frame)
}

/// A frame.
///
/// # Errors
///
/// `Argument` where the identifier is above 0x7EF, or more than 8 bytes are said to be in use.
pub fn frame_in(frame: &FttFrame) -> Result<Frame, ExportRefusal>
    ensures frame { IfOk result (λ made. made ≡ frame_of frame.now) }
    ensures legal { OnOk result (IsFrameIn frame.now) }
    ensures refused { IfErr result (RefusesFrame frame.now) }
{
    let bytes = frame.bytes;
    if usize::from(frame.len) > MAX_BYTES {
        return Err(ExportRefusal::Argument);
    }
    match Frame::new(frame.id, &bytes[..usize::from(frame.len)]) {
        Ok(made) => Ok(made),
        Err(_) => Err(ExportRefusal::Argument),
    }
}

/// The rules.
///
/// # Errors
///
/// `Argument` where they are out of range.
pub fn rules_in(rules: &FttRules) -> Result<Rules, ExportRefusal>
    ensures rules { IfOk result (λ made. made ≡ rules_of rules.now) }
    ensures known { OnOk result (AreRules rules.now) }
    ensures refused { IfErr result (RefusesRules rules.now) }
{
    if !are_rules(rules) {
        return Err(ExportRefusal::Argument);
    }
    Ok(Rules {
        nodes: rules.nodes,
        slots: rules.slots,
        policy: match rules.policy {
            0 => Policy::Rm,
            1 => Policy::Dm,
            _ => Policy::Edf,
        },
        fill: match rules.fill {
            0 => Fill::Prefix,
            _ => Fill::Skip,
        },
        window: rules.window,
        horizon: rules.horizon,
    })
}

/// Whether rules are in range.
fn are_rules(rules: &FttRules) -> bool
    ensures rules { IsTrue result ↔ AreRules rules.now }
{
    1 <= rules.nodes
        && rules.nodes <= MOST_NODES
        && are_slots(rules.slots)
        && rules.policy <= 2
        && rules.fill <= 1
        && SHORTEST_WINDOW <= rules.window
        && rules.window <= LONGEST_WINDOW
        && 1 <= rules.horizon
        && rules.horizon <= GREATEST_HORIZON
}

fn entry_in(entry: FttEntry) -> Entry
    ensures { result ≡ entry_of entry }
{
    Entry {
        slot: entry.slot,
        node: entry.node,
        length: entry.length,
        phase: entry.phase,
        period: entry.period,
        deadline: entry.deadline,
        priority: entry.priority,
    }
}

fn one_placed_in(p: &FttPlaced) -> Placed
    ensures { result ≡ placed_of p.now }
{
    Placed {
        entry: entry_in(p.entry),
        origin: p.origin,
        end: if p.ended == 0 { None } else { Some(p.end) },
    }
}

#[tactic(auto, unfolding(crate::specs::Plain::table_of))]
fn list_in(alloc: Global, placed: &[FttPlaced]) -> Result<Vec<Placed>, AllocError>
    ensures list { IfOk result (λ list. list.items ≡ table_of placed.now) }
{
    placed.iter().map(one_placed_in).collect(alloc)
}

/// A table.
///
/// # Errors
///
/// `Table` where it is not well placed; and `Memory`.
pub fn table_in(alloc: Global, placed: &[FttPlaced]) -> Result<Vec<Placed>, ExportRefusal>
    ensures list { IfOk result (λ list. list.items ≡ table_of placed.now) }
    ensures known { IfOk result (λ list. IsWellPlaced list.items) }
    ensures refused { IfErr result (RefusesTable placed.now) }
{
    let list = list_in(alloc, placed)?;
    if !well_placed(list.as_slice()) {
        return Err(ExportRefusal::Table);
    }
    Ok(list)
}

fn one_op_in(op: &FttOp) -> Op
    ensures { result ≡ op_of op.now }
{
    match op.kind {
        0 => Op::Add {
            entry: entry_in(op.entry),
        },
        1 => Op::Remove {
            slot: op.entry.slot,
        },
        _ => Op::Change {
            entry: entry_in(op.entry),
        },
    }
}

#[tactic(auto, unfolding(crate::specs::Plain::ops_of))]
fn ops_in(alloc: Global, ops: &[FttOp]) -> Result<Vec<Op>, AllocError>
    ensures list { IfOk result (λ list. list.items ≡ ops_of ops.now) }
{
    ops.iter().map(one_op_in).collect(alloc)
}

/// Whether each operation is of a kind that there is.
fn are_ops(ops: &[FttOp]) -> bool
    ensures ops { IsTrue result ↔ All IsOp ops.now }
{
    ops.iter().all(|op| op.kind <= 2)
}

/// A change that begins to be felt in the cycle `start`.
///
/// # Errors
///
/// `Argument` where an operation is of a kind that there is not; and `Memory`.
pub fn change_in(alloc: Global, start: u64, ops: &[FttOp]) -> Result<Change, ExportRefusal>
    ensures change { IfOk result (λ change. change ≡ change_of start ops.now) }
    ensures known { OnOk result (All IsOp ops.now) }
    ensures refused { IfErr result (RefusesOps ops.now) }
{
    if !are_ops(ops) {
        return Err(ExportRefusal::Argument);
    }
    let list = ops_in(alloc, ops)?;
    Ok(Change {
        start,
        ops: Ops::of(list),
    })
}

/// The layout of a cycle.
///
/// # Errors
///
/// `Argument` where a number is out of range, or together they don't fit a cycle.
pub fn layout_in(layout: &FttLayout) -> Result<Layout, ExportRefusal>
    ensures layout { IfOk result (λ made. made ≡ layout_of layout.now) }
    ensures known { IfOk result IsLayout }
    ensures refused { IfErr result (λ refusal. (refusal ≡ Argument) × (IsLayout (layout_of layout.now) → ⊥)) }
{
    if !are_slots(layout.slots) {
        return Err(ExportRefusal::Argument);
    }
    match Layout::new(layout.cycle, layout.turnaround, layout.window, layout.slots) {
        Ok(made) => Ok(made),
        Err(_) => Err(ExportRefusal::Argument),
    }
}
