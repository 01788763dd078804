//! The tables of whole calls that no folder shows, and what each of them asks.

use crate::{audits, lone, prefixes, replays, runs};
use cases::{CaseTable, Fault};
use std::alloc::Global;
use std::io;
use std::sync::Wait;
use std::thread::Threads;

/// What is asked in the cases of a table.
#[derive(Clone, Copy)]
pub enum Topic {
    /// A replay is put to a stream of the system or of std.
    Replays,
    /// A plan text that is cut short is checked.
    Prefixes,
    /// Whole calls by threads.
    Runs,
    /// Runs of a shared master by threads, whose gate holds a cycle or a plan.
    Lone,
    /// The rows of a log are audited.
    Audits,
}

/// The tables, each with the name of its file.
pub const TABLES: [(&str, Topic); 5] = [
    ("replays", Topic::Replays),
    ("prefixes", Topic::Prefixes),
    ("runs", Topic::Runs),
    ("lone", Topic::Lone),
    ("audits", Topic::Audits),
];

/// Tells of what a case gives.
fn tell<T: Threads + Wait + Sync>(
    rt: &HostRuntime,
    threads: &T,
    topic: Topic,
    given: &str,
    told: &mut String,
) -> io::Result<()> {
    match topic {
        Topic::Replays => replays::tell(rt, given, told),
        Topic::Prefixes => Ok(prefixes::answers(rt.alloc(), given, told)?),
        Topic::Runs => Ok(runs::tell(rt, threads, given, told)?),
        Topic::Lone => Ok(lone::tell(rt.alloc(), threads, given, told)?),
        Topic::Audits => Ok(audits::tell(rt.alloc(), given, told)?),
    }
}

/// What answers the cases of a table.
#[derive(Drop)]
pub struct TopicTable<'a, T> {
    pub rt: &'a HostRuntime,
    pub threads: &'a T,
    pub topic: Topic,
}

impl<T: Threads + Wait + Sync> CaseTable for TopicTable<'_, T> {
    ghost use Rattle.std.specs.Thread.{IsSync};

    ghost IsReady = { λ _. IsSync T.row };

    fn answer(&mut self, alloc: Global, given: &str) -> Result<String, Fault> {
        let mut told = String::new(alloc);
        tell(self.rt, self.threads, self.topic, given, &mut told)?;
        Ok(told)
    }
}
