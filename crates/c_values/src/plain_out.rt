//! Values, as the plain structs that C is told.

ghost use Rattle.std.specs.Prelude.{◌≡◌, IfOk, map};
ghost use Rattle.c_values.specs.Plain.{mask_of};
ghost use Rattle.c_values.specs.Told.{breach_told, frame_told, mask_told, put_of, rules_told, told};

use crate::plain::{FttBreach, FttEntry, FttFrame, FttMask, FttPlaced, FttRules, FttVerdict};
use admission::{Rules, Verdict};
use can_frame::Frame;
use change_protocol::Why;
use plan_check::Breach;
use planner_policies::{Fill, Policy};
use requirement_table::{Mask, Placed};
use std::alloc::{AllocError, Global};

/// A set of slots.
pub fn mask_out(mask: Mask) -> FttMask
    ensures told { result ≡ mask_told mask }
    ensures back { mask_of result ≡ mask }
{
    let bits = mask.bits();
    FttMask {
        low: (bits & 0xFFFF_FFFF_FFFF_FFFF) as u64,
        high: (bits >> 64) as u64,
    }
}

/// A frame.
pub fn frame_out(frame: &Frame) -> FttFrame
    ensures told { result ≡ frame_told frame.now }
{
    let used = frame.bytes();
    let mut bytes = [0; 8];
    bytes[..used.len()].copy_from_slice(used);
    FttFrame {
        id: frame.id(),
        len: frame.dlc(),
        bytes,
    }
}

/// A placed entry.
fn one_placed_out(p: &Placed) -> FttPlaced
    ensures { result ≡ put_of p.now }
{
    let entry = FttEntry {
        slot: p.entry.slot,
        node: p.entry.node,
        length: p.entry.length,
        phase: p.entry.phase,
        period: p.entry.period,
        deadline: p.entry.deadline,
        priority: p.entry.priority,
    };
    match p.end {
        Some(end) => FttPlaced {
            origin: p.origin,
            end,
            entry,
            ended: 1,
        },
        None => FttPlaced {
            origin: p.origin,
            end: 0,
            entry,
            ended: 0,
        },
    }
}

/// A table.
pub fn table_out(alloc: Global, placed: &[Placed]) -> Result<Vec<FttPlaced>, AllocError>
    ensures list { IfOk result (λ list. list.items ≡ map put_of placed.now) }
{
    placed.iter().map(one_placed_out).collect(alloc)
}

/// Sets of slots.
pub fn masks_out(alloc: Global, masks: &[Mask]) -> Result<Vec<FttMask>, AllocError>
    ensures list { IfOk result (λ list. list.items ≡ map mask_told masks.now) }
{
    masks.iter().map(|mask| mask_out(*mask)).collect(alloc)
}

/// Rules.
pub fn rules_out(rules: &Rules) -> FttRules
    ensures told { result ≡ rules_told rules.now }
{
    FttRules {
        horizon: rules.horizon,
        window: rules.window,
        nodes: rules.nodes,
        slots: rules.slots,
        policy: match rules.policy {
            Policy::Rm => 0,
            Policy::Dm => 1,
            Policy::Edf => 2,
        },
        fill: match rules.fill {
            Fill::Prefix => 0,
            Fill::Skip => 1,
        },
    }
}

/// A verdict.
pub fn verdict_out(verdict: &Verdict) -> FttVerdict
    ensures told { result ≡ told verdict.now }
{
    let mut out = FttVerdict {
        first: 0,
        second: 0,
        kind: 0,
        op: 0,
        why: 0,
        slot: 0,
        known: 0,
    };
    match *verdict {
        Verdict::Malformed { op, why } => {
            out.op = op;
            out.why = why.code();
            if let Why::SlotBusy { until: Some(until) } = why {
                out.known = 1;
                out.first = until;
            }
        }
        Verdict::Passed { start, next } => {
            out.kind = 1;
            out.first = start;
            out.second = next;
        }
        Verdict::Miss {
            slot,
            release,
            cycle,
        } => {
            out.kind = 2;
            out.slot = slot;
            out.first = release;
            out.second = cycle;
        }
        Verdict::Horizon { from, walked } => {
            out.kind = 3;
            out.first = from;
            out.second = walked;
        }
        Verdict::Accepted { first, length } => {
            out.kind = 4;
            out.first = first;
            out.second = length;
        }
    }
    out
}

/// A breach.
pub fn breach_out(breach: &Breach) -> FttBreach
    ensures told { result ≡ breach_told breach.now }
{
    let mut out = FttBreach {
        first: 0,
        second: 0,
        kind: 0,
        slot: 0,
    };
    match *breach {
        Breach::BadLoop { slot } => {
            out.slot = slot;
        }
        Breach::NotReleased { cycle, slot } => {
            out.kind = 1;
            out.first = cycle;
            out.slot = slot;
        }
        Breach::TooWide { cycle, sum } => {
            out.kind = 2;
            out.first = cycle;
            out.second = u64::from(sum);
        }
        Breach::Missed {
            slot,
            release,
            cycle,
        } => {
            out.kind = 3;
            out.slot = slot;
            out.first = release;
            out.second = cycle;
        }
        Breach::NotClosed { slot } => {
            out.kind = 4;
            out.slot = slot;
        }
    }
    out
}
