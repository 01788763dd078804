//! What is asked for, from the words of a call and the bytes of the files that they name.

ghost use Rattle.std.specs.Prelude.{◌≡◌, ◌⊎◌, IfOk, IfErr, IsErrOf, None, map, string_bytes, length};
ghost use Rattle.ftt_io.specs.Counts.{Rose};
ghost use Rattle.command_words.specs.Words.{command_by};
ghost use Rattle.asked_files.specs.Asked.{IsAskedFor, IsNotAsked, IsTask, is_live};
ghost use Rattle.asked_files.specs.Loads.{Fetches, sources_of};

use crate::fetching::fetch_all;
use crate::stopping::Stop;
use crate::tasks::{Task, task_of};
use command_words::command_in;
use ftt_io::Shelf;
use std::alloc::Global;

/// The task that the words of a call ask for, of what is carried out by threads or of the rest.
pub fn load<S: Shelf>(
    alloc: Global,
    threads: bool,
    words: &[String],
    shelf: &mut S,
) -> Result<Task, Stop>
    ensures fetched { Fetches S.told_files S.fetches S.faults shelf.old shelf.new
        (length (sources_of (command_by threads (map string_bytes words.now)))) }
    ensures task { IfOk result IsTask }
    ensures threads { IfOk result (λ task. is_live task ≡ threads) }
    ensures asked { IfOk result (IsAskedFor (command_by threads (map string_bytes words.now))
        (S.told_files shelf.old) (S.fetches shelf.old) (S.fetches shelf.new)) }
    ensures stop { IfErr result (IsNotAsked (command_by threads (map string_bytes words.now))
        (Rose (S.faults shelf.old) (S.faults shelf.new)) (S.told_files shelf.old)
        (S.fetches shelf.old) (S.fetches shelf.new)) }
    ensures command { command_by threads (map string_bytes words.now) ≡ None
        → IsErrOf result Stop.Words ⊎ IsErrOf result Stop.Memory }
{
    let command = command_in(alloc, threads, words)?;
    let inputs = fetch_all(alloc, shelf, command.files.as_slice())?;
    match task_of(alloc, &command, inputs) {
        Some(task) => Ok(task),
        None => unreachable!(),
    }
}
