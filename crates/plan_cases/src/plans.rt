//! Calls about a table of entries.

use crate::{
    admission_calls, fault_calls, lean_calls, list_calls, master_calls, numbers, table_calls,
    walk_calls,
};
use cases::{CaseTable, Fault, cut};
use planner_policies::Fill;
use requirement_table::{Placed, well_placed};
use std::alloc::{AllocError, Global};

/// Entries, which the cases `empty` and `entry` make and the others ask about. A call that is not allowed answers nothing.
#[derive(Drop)]
pub struct Plans {
    placed: Vec<Placed>,
}

impl Plans {
    /// No entries.
    pub fn new(alloc: Global) -> Plans {
        Plans {
            placed: Vec::new(alloc),
        }
    }
}

impl CaseTable for Plans {
    ghost use Rattle.std.specs.Prelude.{⊤};

    ghost IsReady = { λ _. ⊤ };

    fn answer(&mut self, alloc: Global, given: &str) -> Result<String, Fault> {
        let (word, rest) = cut(given, ' ');
        match word {
            "empty" => self.placed.clear(),
            "entry" => match numbers::placed(rest) {
                Some(entry) => self.placed.push(entry)?,
                None => return Err(Fault::Unread),
            },
            _ => return Ok(asked(alloc, self.placed.as_slice(), word, rest)?),
        }
        Ok(format!(in alloc; "{}", well_placed(self.placed.as_slice()))?)
    }
}

/// The answer to a question with these numbers.
fn asked(
    alloc: Global,
    placed: &[Placed],
    word: &str,
    numbers: &str,
) -> Result<String, AllocError> {
    if !is_whole(word, numbers::count(numbers)) {
        return Ok(String::new(alloc));
    }
    match word {
        "lasso" => walk_calls::answer(alloc, numbers),
        "fault" => fault_calls::answer(alloc, numbers),
        "certify" => admission_calls::answer(alloc, placed, numbers),
        "master" => master_calls::shown(alloc, placed, numbers),
        "lean" => lean_calls::answer(alloc, placed, numbers),
        "settle" => master_calls::settled(alloc, placed, numbers),
        "prefix" => master_calls::added(alloc, Fill::Prefix, placed, numbers),
        "skip" => master_calls::added(alloc, Fill::Skip, placed, numbers),
        "payload" => table_calls::payload(alloc, numbers),
        "cost" => table_calls::worst_length(alloc, numbers),
        "bits" => table_calls::bits(alloc, numbers),
        "slots" => table_calls::slots(alloc, numbers),
        "without" => table_calls::without(alloc, numbers),
        _ => asked_of_entries(alloc, placed, word, numbers),
    }
}

/// Whether a question with this word has so many numbers. After those that it names, some take any number of slots.
fn is_whole(word: &str, count: usize) -> bool {
    match word {
        "bits" | "valid" | "planned" | "without" => true,
        "lasso" | "settle" => count == 4,
        "prefix" | "skip" => count == 3,
        "certify" | "changed" | "master" | "lean" | "payload" => count == 2,
        _ => count == 1,
    }
}

/// The answer to a question about the entries, or about the last one of them.
fn asked_of_entries(
    alloc: Global,
    placed: &[Placed],
    word: &str,
    numbers: &str,
) -> Result<String, AllocError> {
    match word {
        "instances" => table_calls::instances(alloc, placed, numbers),
        "due" => table_calls::due_cycles(alloc, placed, numbers),
        "over" => list_calls::over(alloc, placed, numbers),
        "released_in" => list_calls::released(alloc, placed, numbers),
        "changed" => list_calls::changed(alloc, placed, numbers),
        "ranked" => list_calls::ranked(alloc, placed, numbers),
        "valid" => list_calls::validity(alloc, placed, numbers),
        "planned" => list_calls::planned(alloc, placed, numbers),
        _ => Ok(String::new(alloc)),
    }
}
