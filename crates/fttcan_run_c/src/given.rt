//! The files of a call.

ghost use Rattle.std.specs.Prelude.{◌≡◌, IfNone, IfSome, None, Some};
ghost use Rattle.fttcan_run_c.specs.Called.{files_of};

use ftt_io::{FetchFault, Shelf};
use std::alloc::Global;

/// Four files in memory, under the names 0 to 3. No fetch of them is a fault of the shelf.
#[derive(Drop)]
pub struct Given<'a> {
    file0: &'a [u8],
    file1: &'a [u8],
    file2: &'a [u8],
    file3: &'a [u8],
    /// How many fetches were made.
    fetches: u64,
    /// How many bytes the last one took.
    last_fetch_len: u64,
}

impl<'a> Given<'a> {
    /// Before any fetch.
    pub fn new(file0: &'a [u8], file1: &'a [u8], file2: &'a [u8], file3: &'a [u8]) -> Given<'a>
        ensures file0 { result.file0.now ≡ file0.now }
        ensures file1 { result.file1.now ≡ file1.now }
        ensures file2 { result.file2.now ≡ file2.now }
        ensures file3 { result.file3.now ≡ file3.now }
    {
        Given {
            file0,
            file1,
            file2,
            file3,
            fetches: 0,
            last_fetch_len: 0,
        }
    }

    /// The bytes of the file with this name.
    fn named(&self, name: &str) -> Option<&'a [u8]>
        ensures missing { IfNone result
            (files_of self.now.file0.now self.now.file1.now self.now.file2.now self.now.file3.now name.now ≡ None) }
        ensures found { IfSome result (λ bytes.
            files_of self.now.file0.now self.now.file1.now self.now.file2.now self.now.file3.now name.now ≡ Some bytes.now) }
    {
        if name == "0" {
            Some(self.file0)
        } else if name == "1" {
            Some(self.file1)
        } else if name == "2" {
            Some(self.file2)
        } else if name == "3" {
            Some(self.file3)
        } else {
            None
        }
    }
}

impl<'a> Shelf for Given<'a> {
    ghost use Rattle.std.specs.Prelude.{Some};
    ghost use Rattle.fttcan_run_c.specs.Called.{files_of};

    ghost told_files = { λ given. Some (files_of given.file0.now given.file1.now given.file2.now given.file3.now) };

    ghost faults = { λ given. 0 };

    ghost fetches = { λ given. given.fetches };

    ghost last_fetch_len = { λ given. given.last_fetch_len };

    fn fetch(&mut self, alloc: Global, name: &str, limit: usize) -> Result<Vec<u8>, FetchFault> {
        self.fetches = self.fetches.saturating_add(1);
        self.last_fetch_len = 0;
        let Some(bytes) = self.named(name) else {
            return Err(FetchFault::Failed);
        };
        if bytes.len() > limit {
            self.last_fetch_len = bytes.len() as u64;
            return Err(FetchFault::TooLong);
        }
        let Ok(copy) = Vec::from_slice(alloc, bytes) else {
            return Err(FetchFault::Memory);
        };
        self.last_fetch_len = copy.len() as u64;
        Ok(copy)
    }
}
