//! The shelf of the system's files. It tells no content, and no clause says what a file holds.
ghost use Rattle.std.specs.Prelude.{◌≡◌};

use crate::fetch::{FetchFault, Shelf};
use std::alloc::Global;
use std::fs::OpenFile;
use std::io::{ErrorKind, Read};
use std::marker::Model;
use std::rt::Files;
use std::{fs, io};

/// So many bytes are read at a time.
const PIECE: usize = 2_048;

/// So many reads are made for each byte at most, since a signal may end one before it has read any.
const TRIES: u64 = 16;

/// The system's files, by their paths. It is seen as its counts.
#[derive(Drop)]
pub struct FileShelf<'a, R> {
    rt: &'a R,
    fetches: u64,
    faults: u64,
    last_fetch_len: u64,
}

impl<'a, R> Model for FileShelf<'a, R> {
    ghost use Rattle.ftt_io.specs.FileShelf.{FileShelfState};

    ghost Value = { FileShelfState };

    ghost view = { λ shelf. record {
      fetches = shelf.fetches;
      faults = shelf.faults;
      last_fetch_len = shelf.last_fetch_len;
    } };
}

impl<'a, R: Files> FileShelf<'a, R> {
    /// A shelf of the runtime's files. Each error of the system counts as a fault, that of a name
    /// which isn't there included.
    pub fn new(rt: &'a R) -> FileShelf<'a, R>
        ensures fetches { result.fetches ≡ 0 }
        ensures faults { result.faults ≡ 0 }
        ensures last_fetch_len { result.last_fetch_len ≡ 0 }
    {
        FileShelf {
            rt,
            fetches: 0,
            faults: 0,
            last_fetch_len: 0,
        }
    }
}

/// The length that the system tells of an open file, in bytes, and 0 where it tells none.
fn told_len<F: OpenFile>(file: &F) -> u64 {
    match file.metadata() {
        Ok(told) => told.len(),
        Err(_) => 0,
    }
}

/// Reads the file, at most one byte past the limit, piece by piece. Memory for the length that the system tells is taken
/// at once, where there is any: a hint, without which the list of bytes grows as it needs.
fn read_past<R: Files>(rt: &R, alloc: Global, name: &str, limit: usize) -> io::Result<Vec<u8>> {
    let most = (limit as u64).saturating_add(1);
    let opened = fs::open(rt, name)?;
    let mut bytes = Vec::new(alloc);
    let _ = bytes.reserve_exact(told_len(&opened).min(most) as usize);
    let mut file = opened.take(most);
    let mut piece = [0; PIECE];
    for _ in 0..most.saturating_mul(TRIES) {
        match file.read(&mut piece) {
            Ok(0) => return Ok(bytes),
            Ok(count) => bytes.extend_from_slice(&piece[..count])?,
            Err(error) => {
                if error.kind() != ErrorKind::Interrupted {
                    return Err(error);
                }
            }
        }
    }
    Err(io::Error::from(ErrorKind::Interrupted))
}

/// Whether the allocator refused memory. Where the system lacks memory, its error has a number.
fn is_refused_memory(error: &io::Error) -> bool {
    error.kind() == ErrorKind::OutOfMemory && error.raw_os_error().is_none()
}

impl<'a, R: Files> Shelf for FileShelf<'a, R> {
    ghost use Rattle.std.specs.Prelude.{None};

    ghost told_files = { λ _. None };

    ghost faults = { λ shelf. shelf.faults };

    ghost fetches = { λ shelf. shelf.fetches };

    ghost last_fetch_len = { λ shelf. shelf.last_fetch_len };

    fn fetch(&mut self, alloc: Global, name: &str, limit: usize) -> Result<Vec<u8>, FetchFault> {
        self.fetches = self.fetches.saturating_add(1);
        self.last_fetch_len = 0;
        match read_past(self.rt, alloc, name, limit) {
            Ok(bytes) => {
                self.last_fetch_len = bytes.len() as u64;
                if bytes.len() > limit {
                    return Err(FetchFault::TooLong);
                }
                Ok(bytes)
            }
            Err(error) => {
                if is_refused_memory(&error) {
                    return Err(FetchFault::Memory);
                }
                self.faults = self.faults.saturating_add(1);
                Err(FetchFault::Failed)
            }
        }
    }
}
