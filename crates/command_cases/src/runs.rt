//! Whole calls by threads.

use crate::folder;
use crate::gates::{CountingGate, HeldPoints, HoldingGate};
use ftt_io::{FileShelf, MemSink};
use fttcan_top::{Gate, OpenGate, Status, live};
use std::alloc::{AllocError, Global};
use std::sync::Wait;
use std::thread::Threads;

/// Room for each log and each message here, in bytes.
const ROOM: usize = 262_144;

/// What a call answered, and what it wrote.
#[derive(Drop)]
struct RunAnswer {
    status: Status,
    out: MemSink,
    err: MemSink,
}

/// Calls with these words, split at blanks, over the files of the system.
fn call<T: Threads + Wait + Sync, G: Gate>(
    rt: &HostRuntime,
    threads: &T,
    words: &str,
    gate: &G,
) -> Result<RunAnswer, AllocError> {
    let alloc = rt.alloc();
    let list = folder::words(alloc, words)?;
    let mut shelf = FileShelf::new(rt);
    let mut out = MemSink::new(alloc, ROOM, Vec::new(alloc))?;
    let mut err = MemSink::new(alloc, ROOM, Vec::new(alloc))?;
    let words = list.as_slice();
    let status = live(threads, alloc, words, &mut shelf, &mut out, &mut err, gate);
    Ok(RunAnswer { status, out, err })
}

/// What follows in a row of a change of operator 1 that was planned from cycle 0 or from cycle 1.
fn planned_early(line: &str) -> Option<&str> {
    match line.strip_prefix("submit,1,0,") {
        Some(rest) => Some(rest),
        None => line.strip_prefix("submit,1,1,"),
    }
}

/// Puts the lines of a text but those of looks, whose places follow from the schedule, and after them the number of
/// those. Of the cycles 0 and 1 it does not say from which a change was planned, which follows from the schedule too.
fn put_without_looks(told: &mut String, bytes: &[u8]) -> Result<(), AllocError> {
    let mut looks = 0u64;
    for line in str::from_utf8(bytes).unwrap_or("no text\n").lines() {
        if line.starts_with("look,") {
            looks = looks.saturating_add(1);
        } else if let Some(rest) = planned_early(line) {
            writeln!(told, "submit,1,0 or 1,{rest}")?;
        } else {
            writeln!(told, "{line}")?;
        }
    }
    writeln!(told, "{looks} looks")
}

/// How many lines begin with this word.
fn count_of(bytes: &[u8], word: &str) -> usize {
    str::from_utf8(bytes)
        .unwrap_or("")
        .lines()
        .filter(|line| line.starts_with(word))
        .count()
}

/// Tells of an answer: how the call ended, its messages, and its output.
fn put_answer(told: &mut String, answer: &RunAnswer) -> Result<(), AllocError> {
    writeln!(told, "{:?}", answer.status)?;
    told.push_str(str::from_utf8(answer.err.bytes()).unwrap_or("no text\n"))?;
    put_without_looks(told, answer.out.bytes())
}

/// A call with a gate that holds nobody.
fn open_call<T: Threads + Wait + Sync>(
    rt: &HostRuntime,
    threads: &T,
    words: &str,
    told: &mut String,
) -> Result<(), AllocError> {
    let answer = call(rt, threads, words, &OpenGate)?;
    put_answer(told, &answer)
}

/// A call in which a change is answered while cycle 3 is open and not run yet, or in which cycle 1 is opened while a
/// change is planned.
fn held_call<T: Threads + Wait + Sync>(
    rt: &HostRuntime,
    threads: &T,
    words: &str,
    held: HeldPoints,
    told: &mut String,
) -> Result<(), AllocError> {
    let gate = HoldingGate::new(held);
    let answer = call(rt, threads, words, &gate)?;
    if gate.is_given_up() {
        return writeln!(told, "given up");
    }
    put_answer(told, &answer)
}

/// A call of which the rows of each kind are counted.
fn counted_call<T: Threads + Wait + Sync>(
    rt: &HostRuntime,
    threads: &T,
    words: &str,
    told: &mut String,
) -> Result<(), AllocError> {
    let answer = call(rt, threads, words, &OpenGate)?;
    let (status, log) = (answer.status, answer.out.bytes());
    let (opened, frames) = (count_of(log, "open,"), count_of(log, "frame,"));
    let (changes, looks) = (count_of(log, "submit,"), count_of(log, "look,"));
    writeln!(
        told,
        "{status:?}, {opened} cycles, {frames} frames, {changes} changes, {looks} looks"
    )
}

/// A call of which the points are counted.
fn points_call<T: Threads + Wait + Sync>(
    rt: &HostRuntime,
    threads: &T,
    words: &str,
    told: &mut String,
) -> Result<(), AllocError> {
    let gate = CountingGate::new();
    let answer = call(rt, threads, words, &gate)?;
    writeln!(told, "{:?}", answer.status)?;
    gate.put_counts(told)
}

/// Tells of a call. What is given is how it is made, and its words.
pub fn tell<T: Threads + Wait + Sync>(
    rt: &HostRuntime,
    threads: &T,
    given: &str,
    told: &mut String,
) -> Result<(), AllocError> {
    let line = given.strip_suffix('\n').unwrap_or(given);
    let (made, words) = line.split_once(' ').unwrap_or((line, ""));
    match made {
        "held" => held_call(rt, threads, words, HeldPoints::Cycle, told),
        "planned" => held_call(rt, threads, words, HeldPoints::Plan, told),
        "counted" => counted_call(rt, threads, words, told),
        "points" => points_call(rt, threads, words, told),
        _ => open_call(rt, threads, words, told),
    }
}
