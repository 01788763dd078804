//! Checking a plan text that is cut short.

use crate::calling::status_of;
use crate::folder::words;
use ftt_io::{MemShelf, MemSink};
use std::alloc::{AllocError, Global};

/// A system whose window takes two frames of eight bytes.
const SYSTEM: &[u8] = b"[bus]\ncycle = 1000\nwindow = 270\nnodes = 1\n";

/// One change of three entries of eight bytes, each due every second cycle.
const STEPS: &[u8] = b"add,1,0,0,0,8,0,2,2,0\nand,add,1,0,8,0,2,2,0\nand,add,2,0,8,0,2,2,0\n";

/// Room for the line of a call, in bytes.
const ROOM: usize = 64;

/// A file of this name with these bytes.
fn file(alloc: Global, name: &str, bytes: &[u8]) -> Result<(String, Vec<u8>), AllocError> {
    let bytes = bytes.to_vec(alloc)?;
    Ok((String::from_str(alloc, name)?, bytes))
}

/// The files of a call whose plan file has these bytes.
fn files(alloc: Global, plan: &[u8]) -> Result<Vec<(String, Vec<u8>)>, AllocError> {
    let mut files = Vec::new(alloc);
    for (name, bytes) in [("system", SYSTEM), ("steps", STEPS), ("plan", plan)] {
        files.push(file(alloc, name, bytes)?)?;
    }
    Ok(files)
}

/// What `check` writes where the plan file has these bytes: its answer, or the line of a fault.
fn checked(alloc: Global, plan: &[u8]) -> Result<String, AllocError> {
    let words = words(alloc, "check system steps plan")?;
    let mut shelf = MemShelf::new(files(alloc, plan)?, Vec::new(alloc));
    let mut out = MemSink::new(alloc, ROOM, Vec::new(alloc))?;
    let mut err = MemSink::new(alloc, ROOM, Vec::new(alloc))?;
    status_of(alloc, words.as_slice(), &mut shelf, &mut out, &mut err);
    let answer = str::from_utf8(out.bytes()).unwrap_or("no text");
    let fault = str::from_utf8(err.bytes()).unwrap_or("no text");
    format!(in alloc; "{answer}{fault}")
}

/// Checks the bytes of a plan text, and tells the answer after their number where it differs from the last one.
fn put_answer(
    alloc: Global,
    plan: &[u8],
    last: &mut String,
    told: &mut String,
) -> Result<(), AllocError> {
    let answer = checked(alloc, plan)?;
    if answer != *last {
        write!(told, "{}: {answer}", plan.len())?;
        *last = answer;
    }
    Ok(())
}

/// Checks the first bytes of a plan text, from none to all of them. It tells each answer that differs from that for one
/// byte less, after the number of bytes.
pub fn answers(alloc: Global, given: &str, told: &mut String) -> Result<(), AllocError> {
    let mut last = String::new(alloc);
    let bytes = given.as_bytes();
    for length in 0..=bytes.len() {
        let plan = bytes.get(..length).unwrap_or(bytes);
        put_answer(alloc, plan, &mut last, told)?;
    }
    Ok(())
}
