//! Putting to streams: pipes of the system, a full device, and writers of std.

use crate::sinks::outcome;
use ftt_io::{StdSink, write_all};
use std::alloc::Global;
use std::fs::File;
use std::io::{self, BufWriter, PipeReader, Read, Write};

/// The row that is put.
const ROW: &[u8] = b"end,1\n";

/// Reads a row from a pipe, tells it, and closes the pipe's reader.
fn read_row(mut reader: PipeReader, told: &mut String) -> io::Result<()> {
    let mut read = [0; ROW.len()];
    reader.read_exact(&mut read)?;
    let text = str::from_utf8(&read).unwrap_or("no text");
    Ok(writeln!(told, "{text:?}")?)
}

/// Puts to a pipe at once, and again once its reader is closed.
fn put_to_pipe(rt: &HostRuntime, told: &mut String) -> io::Result<()> {
    let (reader, writer) = io::pipe(rt)?;
    let mut sink = StdSink::over(writer);
    write!(told, "{}, ", outcome(write_all(&mut sink, ROW)))?;
    read_row(reader, told)?;
    Ok(writeln!(told, "closed: {}", outcome(write_all(&mut sink, ROW)))?)
}

/// Puts a row to three bytes of memory.
fn put_to_three_bytes(told: &mut String) -> io::Result<()> {
    let mut room = [0; 3];
    let mut sink = StdSink::over(&mut room[..]);
    let ended = outcome(write_all(&mut sink, ROW));
    drop(sink);
    let taken = str::from_utf8(&room).unwrap_or("no text");
    Ok(writeln!(told, "{ended}, {taken:?}")?)
}

/// Puts a row to a writer that gathers, and tells how that ended, and how the flush did.
fn gathered<W: Write + Drop>(alloc: Global, stream: W, told: &mut String) -> io::Result<()> {
    let mut sink = StdSink::over(BufWriter::new(alloc, stream)?);
    let put = outcome(write_all(&mut sink, ROW));
    let flush = outcome(sink.flush());
    Ok(write!(told, "{put}, {flush}")?)
}

/// Puts to a pipe by a writer that gathers, and again once the pipe's reader is closed.
fn gathered_to_pipe(rt: &HostRuntime, told: &mut String) -> io::Result<()> {
    let (reader, writer) = io::pipe(rt)?;
    gathered(rt.alloc(), &writer, told)?;
    write!(told, ", ")?;
    read_row(reader, told)?;
    write!(told, "closed: ")?;
    gathered(rt.alloc(), &writer, told)?;
    Ok(writeln!(told)?)
}

/// Puts to a full device by a writer that gathers.
fn gathered_to_full(rt: &HostRuntime, told: &mut String) -> io::Result<()> {
    let full = File::options().write(true).open(rt, "/dev/full")?;
    gathered(rt.alloc(), full, told)?;
    Ok(writeln!(told)?)
}

/// Puts to the stream that is named, and tells how that ended.
pub fn put(rt: &HostRuntime, given: &str, told: &mut String) -> io::Result<()> {
    match given.trim_end() {
        "pipe" => put_to_pipe(rt, told),
        "three bytes" => put_to_three_bytes(told),
        "gathered to a pipe" => gathered_to_pipe(rt, told),
        "gathered to a full device" => gathered_to_full(rt, told),
        _ => Ok(()),
    }
}
