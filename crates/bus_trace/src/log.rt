//! The log as one text.

ghost use Rattle.std.specs.Prelude.{if◌then◌else◌, ◌≡◌, ℕ, ◌+◌, ◌<◌, ◌≤◌, ◌++◌};
ghost use Rattle.std.specs.Prelude.{All, List, IfOk, OnOk, length, take, drop};
ghost use Rattle.can_frame.specs.declared.data_frame.TimedFrame.{TimedFrame};
ghost use Rattle.requirement_table.specs.declared.entries.Placed.{Placed};
ghost use Rattle.requirement_table.specs.Table.{IsWellPlaced};
ghost use Rattle.admission_rules.specs.declared.Rules.{Rules};
ghost use Rattle.admission.specs.Verdict.{IsRules};
ghost use Rattle.master_core.specs.History.{IsLegal, is_open, placed_after};
ghost use Rattle.bus_trace.specs.Log.{log_text};
ghost use Rattle.bus_trace.specs.LogRows.{log_rows};
ghost use Rattle.bus_trace.specs.Logged.{HasEntries, IsFormedIn, IsInTurn, IsLeft};
ghost use Rattle.bus_trace.specs.Logged.{IsEventNear, frames_of_event, rows_with, told_with, width_with};
ghost use Rattle.log_reader.specs.Row.{IsLogRow};

use crate::entries::Entries;
use crate::frames::{cycle_len, until_trigger};
use crate::gathering::Gathered;
use crate::streaming::{put_end_row, put_rows};
use admission::Verdict;
use can_frame::TimedFrame;
use master_core::Event;
use std::alloc::{AllocError, Global};

/// The number of frames whose rows follow that of an event.
fn frame_count(event: &Event, left: &[TimedFrame]) -> usize
    ensures within { result ≤ length left.now }
    ensures frames { (trace : List TimedFrame) (next : ℕ) → IsLeft trace next left.now → IsInTurn next event.now
        → take result left.now ≡ frames_of_event trace event.now }
    ensures left { (trace : List TimedFrame) (next : ℕ) → IsLeft trace next left.now
        → IsLeft trace (next + (if is_open event.now then 1 else 0)) (drop result left.now) }
{
    match event {
        Event::Submit { .. } => 0,
        Event::Look { .. } => 0,
        Event::Open { .. } => cycle_len(left),
    }
}

/// The length of the synchronous window of the cycle that an event opens, in bit times, or 0 where it opens none.
fn opened_width(entries: &Entries, event: &Event) -> u32
    requires kept { IsWellPlaced entries.now.kept.items }
    ensures width { result ≡ width_with entries.now.kept.items event.now }
{
    match event {
        Event::Submit { .. } => 0,
        Event::Look { .. } => 0,
        Event::Open { cycle, mask } => entries.width(*cycle, *mask),
    }
}

/// Appends the rows of an event, and the rows of the frames that follow it.
fn push_event(
    rows: &mut Gathered,
    entries: &Entries,
    event: &Event,
    frames: &[TimedFrame],
) -> Result<(), AllocError>
    requires near { IsEventNear event.now }
    requires kept { IsWellPlaced entries.now.kept.items }
    ensures ok { OnOk result
        (rows.new.text.items ≡ rows.old.text.items ++ rows_with entries.now.kept.items frames.now event.now) }
    ensures in_range { OnOk result (All IsLogRow (told_with entries.now.kept.items frames.now event.now)) }
{
    match put_rows(rows, event, opened_width(entries, event), frames) {
        Ok(()) => Ok(()),
        Err(_) => Err(AllocError),
    }
}

/// Applies the change that an event accepts, when `next` is the next cycle to be opened.
fn place_event(
    entries: &mut Entries,
    alloc: Global,
    event: &Event,
    next: u64,
) -> Result<(), AllocError>
    requires well_placed { IsWellPlaced entries.old.kept.items }
    requires formed { IsFormedIn entries.old.kept.items event.now }
    ensures entries { OnOk result ((list : List Placed) → HasEntries list next entries.old.kept.items
        → HasEntries (placed_after list event.now) next entries.new.kept.items) }
{
    if let Event::Submit {
        change,
        verdict: Verdict::Accepted { .. },
        ..
    } = event
    {
        entries.accept(alloc, change, next)?;
    }
    Ok(())
}

/// The log of a history and a trace: the rows of its events in their order, each opened cycle followed by the frames
/// that start in it, and the last row.
///
/// # Errors
///
/// Only where memory runs out.
pub fn log_text(
    alloc: Global,
    history: &[Event],
    trace: &[TimedFrame],
) -> Result<Vec<u8>, AllocError>
    requires legal { (rules : Rules) × IsRules rules × IsLegal rules history.now }
    ensures text { IfOk result (λ text. text.items ≡ log_text history.now trace.now) }
    ensures in_range { IfOk result (λ text. All IsLogRow (log_rows history.now trace.now)) }
{
    let mut rows = Gathered::behind(Vec::new(alloc));
    let mut entries = Entries::new(alloc);
    let mut next = 0u64;
    let mut left = &trace[until_trigger(trace)..];
    for event in history {
        let (frames, later) = left.split_at(frame_count(event, left));
        push_event(&mut rows, &entries, event, frames)?;
        place_event(&mut entries, alloc, event, next)?;
        next += u64::from(event.opens_cycle());
        left = later;
    }
    match put_end_row(&mut rows, next) {
        Ok(()) => Ok(rows.text),
        Err(_) => Err(AllocError),
    }
}
