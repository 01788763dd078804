//! Reading logs, and writing the rows of events.

use crate::marks::plain;
use bus_trace::{Recent, event_rows};
use can_frame::TimedFrame;
use log_reader::{LogFault, LogRow, read_log};
use master_core::Event;
use requirement_table::Mask;
use std::alloc::{AllocError, Global};
use trigger_codec::encode;

/// Puts the line of a row that was read.
fn put_row(told: &mut String, row: &LogRow) -> Result<(), AllocError> {
    match row {
        LogRow::Submit {
            caller,
            from,
            verdict,
        } => writeln!(told, "submit by {caller} from {from}: {verdict:?}"),
        LogRow::Plan { cycle, mask } => {
            let bits = mask.bits();
            writeln!(told, "plan of {cycle}: {bits}")
        }
        LogRow::Look { caller, next } => writeln!(told, "look by {caller}: {next}"),
        LogRow::Open { cycle, mask, l } => {
            let bits = mask.bits();
            writeln!(told, "open {cycle}: {bits}, width {l}")
        }
        LogRow::Frame { timed } => put_frame(told, timed),
        LogRow::End { next } => writeln!(told, "end: {next}"),
    }
}

/// Puts the line of a frame that was read.
fn put_frame(told: &mut String, timed: &TimedFrame) -> Result<(), AllocError> {
    let (start, len) = (timed.start, timed.len);
    let id = timed.frame.id();
    let bytes = timed.frame.bytes();
    writeln!(
        told,
        "frame at {start}, length {len}, identifier {id:x}, bytes {bytes:?}"
    )
}

/// Puts the lines of rows that were read.
fn put_rows(told: &mut String, rows: &[LogRow]) -> Result<(), AllocError> {
    for row in rows {
        put_row(told, row)?;
    }
    Ok(())
}

/// Reads a log, and tells its rows.
pub fn log(alloc: Global, given: &str, told: &mut String) -> Result<(), AllocError> {
    match read_log(alloc, given.as_bytes()) {
        Ok(rows) => put_rows(told, rows.as_slice()),
        Err(LogFault::Row { number }) => writeln!(told, "row {number} has no form"),
        Err(LogFault::Memory) => Err(AllocError),
    }
}

/// The number of the first row that has no form, or 0 where each row has one.
fn faulty_row(alloc: Global, text: &str) -> Result<u64, AllocError> {
    match read_log(alloc, text.as_bytes()) {
        Ok(_) => Ok(0),
        Err(LogFault::Row { number }) => Ok(number),
        Err(LogFault::Memory) => Err(AllocError),
    }
}

/// The number of the first faulty row of a log that has this line as its second row, after one that has a form.
fn faulty_second(alloc: Global, line: &str) -> Result<u64, AllocError> {
    let row = plain(alloc, line)?;
    let text = format!(in alloc; "end,5\n{row}")?;
    faulty_row(alloc, text.as_str())
}

/// Reads each line after a row that has a form. It tells the lines whose log does not have its first faulty row there,
/// each after the number of that row, or 0.
pub fn second_rows(alloc: Global, given: &str, told: &mut String) -> Result<(), AllocError> {
    for line in given.lines() {
        let number = faulty_second(alloc, line)?;
        if number != 2 {
            writeln!(told, "{number} {line}")?;
        }
    }
    Ok(())
}

/// Pushes the lines of a text, each with its line feed.
fn push_lines(alloc: Global, recent: &mut Recent, rows: &str) -> Result<(), AllocError> {
    for row in rows.split_inclusive('\n') {
        recent.push(row.as_bytes().to_vec(alloc)?);
    }
    Ok(())
}

/// Keeps the last rows, as many as the first line says, of the lines after it.
pub fn last_rows(alloc: Global, given: &str, told: &mut String) -> Result<(), AllocError> {
    let (count, rows) = given.split_once('\n').unwrap_or(("", ""));
    let mut recent = Recent::new(alloc, count.parse().unwrap_or(0))?;
    push_lines(alloc, &mut recent, rows)?;
    let text = recent.text(alloc)?;
    told.push_str(str::from_utf8(text.as_slice()).unwrap_or("no text"))
}

/// The rows of a look, and after them those of an opened cycle with its trigger.
pub fn events(alloc: Global, told: &mut String) -> Result<(), AllocError> {
    let mut text = Vec::new(alloc);
    put_events(alloc, &mut text)?;
    told.push_str(str::from_utf8(text.as_slice()).unwrap_or("no text"))
}

/// Puts the rows of a look, and those of an opened cycle with its trigger.
fn put_events(alloc: Global, text: &mut Vec<u8>) -> Result<(), AllocError> {
    let mask = Mask::from_bits(1);
    let frame = encode(1, 55, mask);
    let trigger = TimedFrame {
        start: 1000,
        len: 126,
        frame,
    };
    event_rows(alloc, &Event::Look { caller: 2, next: 1 }, &[], text)?;
    event_rows(alloc, &Event::Open { cycle: 1, mask }, &[trigger], text)
}
