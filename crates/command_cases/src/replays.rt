//! Replays over streams: memory, a pipe of the system, and a full device.

use crate::folder::words;
use ftt_io::{FileShelf, MemSink, StdSink};
use fttcan_top::{flushed, plain};
use std::fs::File;
use std::io::{self, BufWriter, Write};

/// Room for the messages of a call, in bytes.
const ROOM: usize = 64;

/// Replays one cycle over this stream as the program does: gathered, and flushed in the end. It tells the exit statuses
/// before and after that, and the messages.
fn replay<W: Write + Drop>(rt: &HostRuntime, stream: W, told: &mut String) -> io::Result<()> {
    let alloc = rt.alloc();
    let words = words(alloc, "replay tables/two_nodes.toml tables/one_cycle.csv")?;
    let mut shelf = FileShelf::new(rt);
    let mut out = StdSink::over(BufWriter::new(alloc, stream)?);
    let mut err = MemSink::new(alloc, ROOM, Vec::new(alloc))?;
    let status = plain(alloc, words.as_slice(), &mut shelf, &mut out, &mut err);
    let last = flushed(status, &mut out, &mut err);
    let message = str::from_utf8(err.bytes()).unwrap_or("no text");
    Ok(writeln!(told, "{status:?}, {last:?}, {message:?}")?)
}

/// Replays into memory, and tells the log too.
fn replay_to_memory(rt: &HostRuntime, told: &mut String) -> io::Result<()> {
    let mut log = Vec::new(rt.alloc());
    replay(rt, &mut log, told)?;
    Ok(told.push_str(str::from_utf8(log.as_slice()).unwrap_or("no text"))?)
}

/// Replays into a pipe whose reader is closed.
fn replay_to_closed(rt: &HostRuntime, told: &mut String) -> io::Result<()> {
    let (reader, closed) = io::pipe(rt)?;
    drop(reader);
    replay(rt, closed, told)
}

/// Replays into a full device.
fn replay_to_full(rt: &HostRuntime, told: &mut String) -> io::Result<()> {
    let full = File::options().write(true).open(rt, "/dev/full")?;
    replay(rt, full, told)
}

/// Tells of a replay over the stream that is named.
pub fn tell(rt: &HostRuntime, given: &str, told: &mut String) -> io::Result<()> {
    match given.trim_end() {
        "memory" => replay_to_memory(rt, told),
        "a closed pipe" => replay_to_closed(rt, told),
        "a full device" => replay_to_full(rt, told),
        _ => Ok(()),
    }
}
