//! The bits of a bus that was recorded, one for each bit time, and the trace that they are read back as.

ghost use Rattle.std.specs.Prelude.{◌≡◌, ◌≢◌, ◌+◌, ◌-◌, ◌^◌, ◌<◌, ◌≤◌, All, List, ◌++◌, get_or, length, replicate, take, IfErr, IfOk, OnOk};
ghost use Rattle.profile.specs.Limits.{shortest_frame};
ghost use Rattle.can_frame.specs.declared.data_frame.TimedFrame.{TimedFrame};
ghost use Rattle.can_frame.specs.DataFrame.{IsFrame};
ghost use Rattle.can_frame.specs.Wire.{dominant, recessive, wire_of};
ghost use Rattle.bus_line.specs.declared.line_fault.LineFault.TheVariants.{Memory};
ghost use Rattle.bus_line.specs.Trace.{IsOrdered, end_of};
ghost use Rattle.bus_line.specs.Recording.{BreaksLine, FailsAt, IsRecording, StandsAt};

use crate::laws::one_recording;
use crate::line_fault::LineFault;
use can_frame::laws::wire_lengths;
use can_frame::{TimedFrame, read_front, wire};
use std::alloc::{AllocError, Global};

/// A recessive bit, as on a bus that nobody uses.
const RECESSIVE: bool = true;

/// The bits of a bus over which these frames are sent, one for each bit time from `from` to below
/// `until`: the wires of the frames in their places, and recessive bits elsewhere.
///
/// The trace is ordered, each frame starts at or after `from` and ends at or before `until`, and there
/// are fewer than 2^28 bits. It takes one byte for each bit, and the bits of one wire.
pub fn line_bits(
    alloc: Global,
    trace: &[TimedFrame],
    from: u64,
    until: u64,
) -> Result<Vec<bool>, AllocError>
    requires ordered { IsOrdered trace.now }
    requires within { All (λ sent. (from ≤ sent.start) × (end_of sent ≤ until)) trace.now }
    requires few { until - from < 2 ^ 28 }
    ensures recorded { IfOk result (λ bits. IsRecording trace.now from until bits.items) }
{
    let count = until.saturating_sub(from) as usize;
    let mut bits = Vec::with_capacity(alloc, count)?;
    for sent in trace {
        push_sent(alloc, &mut bits, from, sent)?;
    }
    push_idle(&mut bits, count)?;
    Ok(bits)
}

/// Puts recessive bits behind the bits, up to this number of all bits.
fn push_idle(bits: &mut Vec<bool>, count: usize) -> Result<(), AllocError>
    requires order { length bits.old.items ≤ count }
    ensures bits { OnOk result (bits.new.items
        ≡ bits.old.items ++ replicate (count - length bits.old.items) recessive) }
{
    bits.resize(count, RECESSIVE)
}

/// Puts a frame behind the bits from `from` on: recessive bits up to its start, and its wire.
fn push_sent(
    alloc: Global,
    bits: &mut Vec<bool>,
    from: u64,
    sent: &TimedFrame,
) -> Result<(), AllocError>
    requires order { from + length bits.old.items ≤ sent.now.start }
    requires few { sent.now.start - from < 2 ^ 28 }
    ensures legal { OnOk result (IsFrame sent.now.frame) }
    ensures bits { OnOk result (bits.new.items ≡ (bits.old.items
        ++ replicate (sent.now.start - (from + length bits.old.items)) recessive) ++ wire_of sent.now.frame) }
{
    push_idle(bits, (sent.start - from) as usize)?;
    let wire = wire(alloc, &sent.frame)?;
    bits.extend_from_slice(wire.as_slice())
}

/// The trace of which these bits are the line, from time 0 on: the frames whose wires stand in them,
/// one after the other, with recessive bits before, between and behind them.
///
/// `Frame` tells of the first dominant bit, outside the frames read before, at which no whole frame
/// begins. Then the bits are the line of no trace. There are fewer than 2^28 bits. It takes memory for
/// the frames alone, of which there is at most one for each 47 bits.
pub fn read_line(alloc: Global, bits: &[bool]) -> Result<Vec<TimedFrame>, LineFault>
    requires few { length bits.now < 2 ^ 28 }
    ensures recorded { IfOk result (λ trace. IsRecording trace.items 0 (length bits.now) bits.now) }
    ensures only { IfOk result (λ trace. (other : List TimedFrame)
        → IsRecording other 0 (length bits.now) bits.now → trace.items ≡ other) }
    ensures breaks { IfErr result (BreaksLine bits.now) }
    ensures none { IfErr result (λ fault. fault ≢ Memory → (trace : List TimedFrame)
        → IsRecording trace 0 (length bits.now) bits.now → ⊥) }
{
    one_recording();
    read(alloc, bits)
}

/// What is found in the bits, from the first on.
fn read(alloc: Global, bits: &[bool]) -> Result<Vec<TimedFrame>, LineFault>
    ensures recorded { IfOk result (λ trace. IsRecording trace.items 0 (length bits.now) bits.now) }
    ensures breaks { IfErr result (BreaksLine bits.now) }
{
    let mut trace = Vec::new(alloc);
    let mut place = next_dominant(bits, 0);
    while place < bits.len() {
        let sent = sent_at(bits, place)?;
        place = next_dominant(bits, place + sent.len as usize);
        trace.push(sent)?;
    }
    Ok(trace)
}

/// The first place, at or after `from`, of a dominant bit; the number of bits where there is none.
fn next_dominant(bits: &[bool], from: usize) -> usize
    requires within { from ≤ length bits.now }
    ensures order { from ≤ result }
    ensures within { result ≤ length bits.now }
    ensures idle { take result bits.now ≡ take from bits.now ++ replicate (result - from) recessive }
    ensures stands { result < length bits.now → get_or bits.now result recessive ≡ dominant }
{
    let mut place = from;
    while place < bits.len() && bits[place] == RECESSIVE {
        place += 1;
    }
    place
}

/// The frame that stands in the bits at a place, with this place as its start.
fn sent_at(bits: &[bool], start: usize) -> Result<TimedFrame, LineFault>
    requires within { start ≤ length bits.now }
    ensures stands { IfOk result (StandsAt bits.now start) }
    ensures long { IfOk result (λ sent. shortest_frame ≤ sent.len) }
    ensures fails { IfErr result (FailsAt bits.now start) }
{
    wire_lengths();
    match read_front(&bits[start..]) {
        Ok(front) => Ok(TimedFrame {
            start: start as u64,
            len: front.end as u32,
            frame: front.frame,
        }),
        Err(fault) => Err(LineFault::Frame { start, fault }),
    }
}
