//! The tables, and what each of them asks.

use crate::{inputs, locks, logs, masters, shelves, sinks, streams};
use cases::{CaseTable, Fault, show};
use std::alloc::{AllocError, Global};
use std::io;
use std::sync::Wait;
use std::thread::Threads;

/// What is asked in the cases of a table.
#[derive(Clone, Copy)]
enum CallTopic {
    /// Files are fetched from memory.
    MemoryShelf,
    /// Files of the system are fetched.
    FileShelf,
    /// Rows are put to memory.
    MemorySink,
    /// Bytes are put to a stream of the system or of std.
    Streams,
    /// A fault is printed.
    Faults,
    /// A system file is read.
    System,
    /// A steps file is read.
    Steps,
    /// A requests file is read.
    Requests,
    /// An input is generated.
    Generated,
    /// A log is read.
    Logs,
    /// Rows are read of which each is the second one of its log.
    Rows,
    /// The last rows of a log are kept.
    LastRows,
    /// The rows of one event are written, and then those of another.
    Events,
    /// Passes try for the turn of a lock.
    Locks,
    /// The calls of a shared master by one thread.
    Masters,
}

/// The tables, each with the name of its file.
const TABLES: [(&str, CallTopic); 15] = [
    ("memory_shelf", CallTopic::MemoryShelf),
    ("file_shelf", CallTopic::FileShelf),
    ("memory_sink", CallTopic::MemorySink),
    ("streams", CallTopic::Streams),
    ("faults", CallTopic::Faults),
    ("system", CallTopic::System),
    ("steps", CallTopic::Steps),
    ("requests", CallTopic::Requests),
    ("generated", CallTopic::Generated),
    ("logs", CallTopic::Logs),
    ("rows", CallTopic::Rows),
    ("last_rows", CallTopic::LastRows),
    ("events", CallTopic::Events),
    ("locks", CallTopic::Locks),
    ("masters", CallTopic::Masters),
];

/// The names of all tables.
pub fn all_names(alloc: Global) -> Result<Vec<String>, AllocError> {
    let mut names = Vec::new(alloc);
    for (name, _) in TABLES {
        names.push(String::from_str(alloc, name)?)?;
    }
    Ok(names)
}

/// Tells of what a case gives.
fn tell<T: Threads + Wait + Sync>(
    rt: &HostRuntime,
    threads: &T,
    topic: CallTopic,
    given: &str,
    told: &mut String,
) -> io::Result<()> {
    match topic {
        CallTopic::FileShelf => Ok(shelves::fetched_from_files(rt, given, told)?),
        CallTopic::Streams => streams::put(rt, given, told),
        CallTopic::Locks => Ok(locks::told(rt, threads, given, told)?),
        _ => Ok(tell_of_values(rt.alloc(), topic, given, told)?),
    }
}

/// Tells of what a case gives that needs nothing of the system but memory.
fn tell_of_values(
    alloc: Global,
    topic: CallTopic,
    given: &str,
    told: &mut String,
) -> Result<(), AllocError> {
    match topic {
        CallTopic::MemoryShelf => shelves::fetched_from_memory(alloc, given, told),
        CallTopic::MemorySink => sinks::put_to_memory(alloc, given, told),
        CallTopic::Faults => sinks::printed(given, told),
        CallTopic::System => inputs::system(alloc, given, told),
        CallTopic::Steps => inputs::steps(alloc, given, told),
        CallTopic::Requests => inputs::requests(alloc, given, told),
        CallTopic::Generated => inputs::generated(alloc, given, told),
        CallTopic::Logs => logs::log(alloc, given, told),
        CallTopic::Rows => logs::second_rows(alloc, given, told),
        CallTopic::LastRows => logs::last_rows(alloc, given, told),
        CallTopic::Events => logs::events(alloc, told),
        CallTopic::Masters => masters::told(alloc, given, told),
        CallTopic::FileShelf | CallTopic::Streams | CallTopic::Locks => Ok(()),
    }
}

/// What answers the cases of a table.
#[derive(Drop)]
struct CallTable<'a, T> {
    rt: &'a HostRuntime,
    threads: &'a T,
    topic: CallTopic,
}

impl<T: Threads + Wait + Sync> CaseTable for CallTable<'_, T> {
    ghost use Rattle.std.specs.Thread.{IsSync};

    ghost IsReady = { λ _. IsSync T.row };

    fn answer(&mut self, alloc: Global, given: &str) -> Result<String, Fault> {
        let mut told = String::new(alloc);
        tell(self.rt, self.threads, self.topic, given, &mut told)?;
        Ok(told)
    }
}

/// What is asked in the table of this name, where there is one.
fn topic_named(wanted: &str) -> Option<CallTopic> {
    for (name, topic) in TABLES {
        if wanted == name {
            return Some(topic);
        }
    }
    None
}

/// Prints the line of the table of this name, and tells whether its cases have passed.
pub fn shown<T: Threads + Wait + Sync>(
    rt: &HostRuntime,
    threads: &T,
    name: &str,
) -> io::Result<bool> {
    let Some(topic) = topic_named(name) else {
        println!(rt; "FAILED {name}: no such table")?;
        return Ok(false);
    };
    show(rt, name, CallTable { rt, threads, topic })
}
