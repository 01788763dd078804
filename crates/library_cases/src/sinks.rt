//! Putting to a sink in memory, and the texts of faults.

use ftt_io::{Failed, FetchFault, MemSink, write_all};
use log_reader::LogFault;
use std::alloc::{AllocError, Global};

/// How a put ended.
pub fn outcome(put: Result<(), Failed>) -> &'static str {
    match put {
        Ok(()) => "ok",
        Err(_) => "failed",
    }
}

/// Puts a row, and tells how that ended, the bytes that were taken so far, and the count of faults.
fn put_row(
    alloc: Global,
    sink: &mut MemSink,
    row: &str,
    told: &mut String,
) -> Result<(), AllocError> {
    let row = format!(in alloc; "{row}\n")?;
    let ended = outcome(write_all(sink, row.as_bytes()));
    let taken = str::from_utf8(sink.bytes()).unwrap_or("no text");
    let faults = sink.faults();
    writeln!(told, "{ended}, {faults} faults: {taken:?}")
}

/// The sink that a line describes by its room in bytes, and the number of the put that fails.
fn sink_of(alloc: Global, line: &str) -> Result<MemSink, AllocError> {
    let (room, fails) = line.split_once(' ').unwrap_or(("", ""));
    let failing = vec![in alloc; fails.parse().unwrap_or(0)]?;
    MemSink::new(alloc, room.parse().unwrap_or(0), failing)
}

/// Puts rows to a sink in memory, which the first line describes.
pub fn put_to_memory(alloc: Global, given: &str, told: &mut String) -> Result<(), AllocError> {
    let (first, rows) = given.split_once('\n').unwrap_or(("", ""));
    let mut sink = sink_of(alloc, first)?;
    for row in rows.lines() {
        put_row(alloc, &mut sink, row, told)?;
    }
    Ok(())
}

/// The texts of the faults with these names.
pub fn printed(given: &str, told: &mut String) -> Result<(), AllocError> {
    for name in given.lines() {
        put_fault(told, name)?;
    }
    Ok(())
}

/// Puts the line of the fault with this name.
fn put_fault(told: &mut String, name: &str) -> Result<(), AllocError> {
    match name {
        "fetch failed" => writeln!(told, "{}", FetchFault::Failed),
        "fetch too long" => writeln!(told, "{}", FetchFault::TooLong),
        "fetch without memory" => writeln!(told, "{}", FetchFault::Memory),
        "log" => writeln!(told, "{}", LogFault::Row { number: 12 }),
        "log without memory" => writeln!(told, "{}", LogFault::Memory),
        _ => writeln!(told, "{Failed}"),
    }
}
