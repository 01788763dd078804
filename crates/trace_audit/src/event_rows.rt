//! The rows of an event as values.

ghost use Rattle.std.specs.Prelude.{◌≡◌, ◌∷◌, ◌^◌, ◌<◌, IfOk, Some, false, map, slice_get, true};
ghost use Rattle.bus_trace.specs.EventRows.{told_at};
ghost use Rattle.bus_trace.specs.Logged.{IsEventNear};
ghost use Rattle.bus_trace.specs.LogRows.{plan_told, verdict_told};
ghost use Rattle.log_reader.specs.declared.row.LogRow.TheVariants as row;

use crate::same_rows::same_row;
use admission::Verdict;
use bus_trace::{open_told, until_of};
use can_frame::TimedFrame;
use log_reader::{LogRow, LogVerdict};
use master_core::Event;
use requirement_table::Mask;
use std::alloc::{AllocError, Global};

/// A verdict, as a row tells it.
pub fn verdict_told(verdict: &Verdict) -> LogVerdict
    ensures told { result ≡ verdict_told verdict.now }
{
    match verdict {
        Verdict::Malformed { op, why } => LogVerdict::Malformed {
            op: *op,
            why: why.code(),
            until: until_of(why),
        },
        Verdict::Passed { start, next } => LogVerdict::Passed {
            start: *start,
            next: *next,
        },
        Verdict::Miss {
            slot,
            release,
            cycle,
        } => LogVerdict::Miss {
            slot: *slot,
            release: *release,
            cycle: *cycle,
        },
        Verdict::Horizon { from, walked } => LogVerdict::Horizon {
            from: *from,
            walked: *walked,
        },
        Verdict::Accepted { first, length } => LogVerdict::Accepted {
            first: *first,
            length: *length,
        },
    }
}

/// A row, and behind it one for each cycle of a plan from `from` on, below 2^63.
fn rows_of_change(
    alloc: Global,
    first: LogRow,
    from: u64,
    masks: &[Mask],
) -> Result<Vec<LogRow>, AllocError>
    requires from { from < 2 ^ 63 }
    ensures rows { IfOk result (λ rows. rows.items ≡ first ∷ plan_told from masks.now) }
{
    let mut rows = Vec::new(alloc);
    rows.push(first)?;
    for (number, mask) in masks.iter().enumerate() {
        rows.push(LogRow::Plan {
            cycle: from + number as u64,
            mask: *mask,
        })?;
    }
    Ok(rows)
}

/// A row, and behind it one for each of these frames.
fn rows_of_cycle(
    alloc: Global,
    first: LogRow,
    frames: &[TimedFrame],
) -> Result<Vec<LogRow>, AllocError>
    ensures rows { IfOk result (λ rows. rows.items ≡ first ∷ map row.Frame frames.now) }
{
    let mut rows = Vec::new(alloc);
    rows.push(first)?;
    for timed in frames {
        rows.push(LogRow::Frame { timed: *timed })?;
    }
    Ok(rows)
}

/// The rows of an event and of the frames that follow it, where the synchronous window of the cycle that it opens has
/// this length, in bit times. A change of an event was planned from a cycle below 2^63.
///
/// # Errors
///
/// Only where memory runs out.
pub fn rows_of(
    alloc: Global,
    event: &Event,
    width: u32,
    frames: &[TimedFrame],
) -> Result<Vec<LogRow>, AllocError>
    requires near { IsEventNear event.now }
    ensures rows { IfOk result (λ rows. rows.items ≡ told_at width event.now frames.now) }
{
    match event {
        Event::Submit {
            caller,
            from,
            verdict,
            trail,
            ..
        } => {
            let first = LogRow::Submit {
                caller: *caller,
                from: *from,
                verdict: verdict_told(verdict),
            };
            rows_of_change(alloc, first, *from, trail.as_slice())
        }
        Event::Look { caller, next } => {
            let first = LogRow::Look {
                caller: *caller,
                next: *next,
            };
            rows_of_cycle(alloc, first, &[])
        }
        Event::Open { cycle, mask } => {
            let opened = open_told(*cycle, *mask, width);
            rows_of_cycle(alloc, opened.row(), frames)
        }
    }
}

/// Whether this row stands at a place of some rows.
pub fn is_at(rows: &[LogRow], place: usize, line: &LogRow) -> bool
    ensures is { result ≡ true → slice_get rows.now place ≡ Some line.now }
    ensures other { result ≡ false → slice_get rows.now place ≡ Some line.now → ⊥ }
{
    if place >= rows.len() {
        return false;
    }
    same_row(&rows[place], line)
}
