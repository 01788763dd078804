//! Whether two rows of a log are the same.

ghost use Rattle.std.specs.Prelude.{◌≡◌, false, true};
ghost use Rattle.log_reader.specs.declared.row.LogRow.TheVariants as row;

use can_frame::{Frame, TimedFrame};
use log_reader::{LogRow, LogVerdict};
use requirement_table::Mask;

/// Whether two verdicts are the same.
fn same_verdict(one: &LogVerdict, other: &LogVerdict) -> bool
    ensures same { result ≡ true → one.now ≡ other.now }
    ensures differ { result ≡ false → one.now ≡ other.now → ⊥ }
{
    match one {
        LogVerdict::Accepted { first, length } => match other {
            LogVerdict::Accepted {
                first: start,
                length: cycles,
            } => first == start && length == cycles,
            _ => false,
        },
        LogVerdict::Malformed { op, why, until } => match other {
            LogVerdict::Malformed {
                op: place,
                why: rule,
                until: cycle,
            } => op == place && why == rule && until == cycle,
            _ => false,
        },
        LogVerdict::Passed { start, next } => match other {
            LogVerdict::Passed {
                start: begin,
                next: opened,
            } => start == begin && next == opened,
            _ => false,
        },
        LogVerdict::Miss {
            slot,
            release,
            cycle,
        } => match other {
            LogVerdict::Miss {
                slot: number,
                release: released,
                cycle: last,
            } => slot == number && release == released && cycle == last,
            _ => false,
        },
        LogVerdict::Horizon { from, walked } => match other {
            LogVerdict::Horizon {
                from: first,
                walked: cycles,
            } => from == first && walked == cycles,
            _ => false,
        },
    }
}

/// Whether two frames are the same.
fn same_frame(one: &Frame, other: &Frame) -> bool
    ensures same { result ≡ true → one.now ≡ other.now }
    ensures differ { result ≡ false → one.now ≡ other.now → ⊥ }
{
    one.id() == other.id() && one.bytes() == other.bytes()
}

/// Whether two frames, with their places in time, are the same.
fn same_timed(one: &TimedFrame, other: &TimedFrame) -> bool
    ensures same { result ≡ true → one.now ≡ other.now }
    ensures differ { result ≡ false → one.now ≡ other.now → ⊥ }
{
    one.start == other.start && one.len == other.len && same_frame(&one.frame, &other.frame)
}

/// Whether a row is that of this change.
fn is_submit(line: &LogRow, caller: u8, from: u64, verdict: &LogVerdict) -> bool
    ensures same { result ≡ true → line.now ≡ row.Submit caller from verdict.now }
    ensures differ { result ≡ false → line.now ≡ row.Submit caller from verdict.now → ⊥ }
{
    match line {
        LogRow::Submit {
            caller: number,
            from: first,
            verdict: told,
        } => *number == caller && *first == from && same_verdict(told, verdict),
        _ => false,
    }
}

/// Whether a row is that of this planned cycle.
fn is_plan(line: &LogRow, cycle: u64, mask: Mask) -> bool
    ensures same { result ≡ true → line.now ≡ row.Plan cycle mask }
    ensures differ { result ≡ false → line.now ≡ row.Plan cycle mask → ⊥ }
{
    match line {
        LogRow::Plan {
            cycle: planned,
            mask: slots,
        } => *planned == cycle && *slots == mask,
        _ => false,
    }
}

/// Whether a row is that of this look.
fn is_look(line: &LogRow, caller: u8, next: u64) -> bool
    ensures same { result ≡ true → line.now ≡ row.Look caller next }
    ensures differ { result ≡ false → line.now ≡ row.Look caller next → ⊥ }
{
    match line {
        LogRow::Look {
            caller: number,
            next: cycle,
        } => *number == caller && *cycle == next,
        _ => false,
    }
}

/// Whether a row is that of this opening.
fn is_opening(line: &LogRow, cycle: u64, mask: Mask, l: u32) -> bool
    ensures same { result ≡ true → line.now ≡ row.Open cycle mask l }
    ensures differ { result ≡ false → line.now ≡ row.Open cycle mask l → ⊥ }
{
    match line {
        LogRow::Open {
            cycle: opened,
            mask: slots,
            l: width,
        } => *opened == cycle && *slots == mask && *width == l,
        _ => false,
    }
}

/// Whether a row is that of this frame.
fn is_frame(line: &LogRow, timed: &TimedFrame) -> bool
    ensures same { result ≡ true → line.now ≡ row.Frame timed.now }
    ensures differ { result ≡ false → line.now ≡ row.Frame timed.now → ⊥ }
{
    match line {
        LogRow::Frame { timed: sent } => same_timed(sent, timed),
        _ => false,
    }
}

/// Whether a row is the last one, with this number of cycles.
fn is_last(line: &LogRow, next: u64) -> bool
    ensures same { result ≡ true → line.now ≡ row.End next }
    ensures differ { result ≡ false → line.now ≡ row.End next → ⊥ }
{
    match line {
        LogRow::End { next: opened } => *opened == next,
        _ => false,
    }
}

/// Whether two rows are the same.
pub fn same_row(line: &LogRow, other: &LogRow) -> bool
    ensures same { result ≡ true → line.now ≡ other.now }
    ensures differ { result ≡ false → line.now ≡ other.now → ⊥ }
{
    match other {
        LogRow::Submit {
            caller,
            from,
            verdict,
        } => is_submit(line, *caller, *from, verdict),
        LogRow::Plan { cycle, mask } => is_plan(line, *cycle, *mask),
        LogRow::Look { caller, next } => is_look(line, *caller, *next),
        LogRow::Open { cycle, mask, l } => is_opening(line, *cycle, *mask, *l),
        LogRow::Frame { timed } => is_frame(line, timed),
        LogRow::End { next } => is_last(line, *next),
    }
}
