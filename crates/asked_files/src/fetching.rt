//! The files of a command, fetched and read one after the other.

ghost use Rattle.std.specs.Prelude.{◌≡◌, IfOk, IfErr, Ok, map, length};
ghost use Rattle.std.specs.Option.{ForSome};
ghost use Rattle.ftt_io.specs.Counts.{Rose, next_count};
ghost use Rattle.asked_files.specs.Inputs.{AreFilesRead, IsFileHeld, MayHold, nothing_read};
ghost use Rattle.asked_files.specs.Loads.{AreAllRead, Fetches, IsBarred, IsHeldUp, StopsAtFile};
ghost use Rattle.command_words.specs.Words.{file_of};
ghost use Rattle.command_words.specs.WordsRead.{named};

use crate::inputs::{Content, Inputs};
use crate::reading::read_content;
use crate::stopping::{Refusal, Stop};
use command_words::{NamedFile, Source};
use ftt_io::{FetchFault, Shelf};
use std::alloc::Global;

/// Fetches and reads a file, after what was read before it.
fn fetch_content<S: Shelf>(
    alloc: Global,
    shelf: &mut S,
    source: Source,
    name: &str,
    before: &Inputs,
) -> Result<Content, Stop>
    ensures fetched { Fetches S.told_files S.fetches S.faults shelf.old shelf.new 1 }
    ensures once { S.fetches shelf.new ≡ next_count (S.fetches shelf.old) }
    ensures at { IfErr result (StopsAtFile (S.told_files shelf.old) (Rose (S.faults shelf.old) (S.faults shelf.new))
        (file_of source name.now)) }
    ensures may { IfOk result (MayHold source before.now) }
    ensures ok { IfOk result (λ content. ForSome (S.told_files shelf.old)
        (λ files. IsFileHeld files (file_of source name.now) before.now (Ok content))) }
    ensures stop { IfErr result (IsBarred ⊥ (Rose (S.faults shelf.old) (S.faults shelf.new))
        (S.told_files shelf.old) (λ files. IsFileHeld files (file_of source name.now) before.now)) }
{
    match shelf.fetch(alloc, name, source.limit()) {
        Ok(bytes) => read_content(alloc, source, before, bytes),
        Err(FetchFault::Failed) => Err(Stop::Read),
        Err(FetchFault::TooLong) => Err(Stop::Input(Refusal::TooLong(source))),
        Err(FetchFault::Memory) => Err(Stop::Memory),
    }
}

/// Fetches and reads these files, one after the other.
///
/// # Errors
///
/// `Input` where a file is refused, `Read` where it could not be read, and `Memory`. No file after it is fetched then.
pub fn fetch_all<S: Shelf>(
    alloc: Global,
    shelf: &mut S,
    files: &[NamedFile<'_>],
) -> Result<Inputs, Stop>
    ensures fetched { Fetches S.told_files S.fetches S.faults shelf.old shelf.new (length (map named files.now)) }
    ensures read { IfOk result (AreAllRead (S.told_files shelf.old) (map named files.now)
        (S.fetches shelf.old) (S.fetches shelf.new)) }
    ensures stop { IfErr result (IsHeldUp ⊥ (Rose (S.faults shelf.old) (S.faults shelf.new))
        (S.told_files shelf.old) (λ told. AreFilesRead told (map named files.now) nothing_read)
        (map named files.now) (S.fetches shelf.old) (S.fetches shelf.new)) }
{
    let mut inputs = Inputs::new();
    for file in files {
        let content = fetch_content(alloc, shelf, file.source, file.name, &inputs)?;
        inputs.put(content);
    }
    Ok(inputs)
}
