//! A shelf in memory, for tests.
ghost use Rattle.std.specs.Prelude.{◌≡◌, ℕ, ◌<◌, ◌≤◌, ◌⊎◌, List, Some, None, length, if◌then◌else◌};
ghost use Rattle.std.specs.Prelude.{string_bytes, IfSome, IfNone, IfOk, IsErrOf, IsTrue};
ghost use Rattle.std.specs.List.{find};
ghost use Rattle.std.specs.Option.{option_copied};
ghost use Rattle.std.specs.Str.{bytes_eq};
ghost use Rattle.ftt_io.specs.Calls.{is_failing};
ghost use Rattle.ftt_io.specs.Counts.{next_count};
ghost use Rattle.ftt_io.specs.MemShelf.{files_in, named_bytes};

use crate::calls::Calls;
use crate::fetch::{FetchFault, Shelf};
use std::alloc::Global;
use std::marker::Model;

/// Files in memory. It tells the bytes under each name.
#[derive(Drop)]
pub struct MemShelf {
    files: Vec<(String, Vec<u8>)>,
    fetches: Calls,
    last_fetch_len: u64,
}

impl Model for MemShelf {
    ghost use Rattle.ftt_io.specs.MemShelf.{MemShelfState, named_bytes};

    ghost Value = { MemShelfState };

    ghost view = { λ shelf. record {
      files = named_bytes shelf.files.items;
      failing = shelf.fetches.failing.items;
      fetches = shelf.fetches.made;
      faults = shelf.fetches.faults;
      last_fetch_len = shelf.last_fetch_len;
    } };
}

impl MemShelf {
    /// A shelf of these names with their bytes, of which the first of a name counts. The fetches
    /// whose number, from 0, stands in `failing` count a fault and fail.
    pub fn new(files: Vec<(String, Vec<u8>)>, failing: Vec<u64>) -> MemShelf
        ensures files { result.files ≡ named_bytes files.items }
        ensures failing { result.failing ≡ failing.items }
        ensures fetches { result.fetches ≡ 0 }
        ensures faults { result.faults ≡ 0 }
        ensures last_fetch_len { result.last_fetch_len ≡ 0 }
    {
        MemShelf {
            files,
            fetches: Calls::new(failing),
            last_fetch_len: 0,
        }
    }

    /// The count of faults.
    pub fn faults(&self) -> u64
        ensures value { result ≡ self.now.faults }
    {
        self.fetches.faults
    }
}

/// The first file with the name.
fn find_file<'a>(files: &'a [(String, Vec<u8>)], name: &str) -> Option<&'a (String, Vec<u8>)>
    ensures value { option_copied result
        ≡ find (λ file. bytes_eq (string_bytes file.0) name.now) files.now }
{
    files.iter().find(|file| file.0.as_str() == name)
}

/// The bytes of the first file with the name.
#[tactic(auto, using(crate::proofs::Lookup::lookups))]
fn find_bytes<'a>(files: &'a [(String, Vec<u8>)], name: &str) -> Option<&'a [u8]>
    ensures missing { IfNone result (files_in (named_bytes files.now) name.now ≡ None) }
    ensures found { IfSome result
        (λ bytes. files_in (named_bytes files.now) name.now ≡ Some bytes.now) }
{
    let (_, bytes) = find_file(files, name)?;
    Some(bytes)
}

impl Shelf for MemShelf {
    ghost use Rattle.std.specs.Prelude.{Some};
    ghost use Rattle.ftt_io.specs.MemShelf.{files_in};

    ghost told_files = { λ shelf. Some (files_in shelf.files) };

    ghost faults = { λ shelf. shelf.faults };

    ghost fetches = { λ shelf. shelf.fetches };

    ghost last_fetch_len = { λ shelf. shelf.last_fetch_len };

    fn fetch(&mut self, alloc: Global, name: &str, limit: usize) -> Result<Vec<u8>, FetchFault>
        // What stays, and the counts.
        ensures files_stay { self.new.files ≡ self.old.files }
        ensures failing_stays { self.new.failing ≡ self.old.failing }
        ensures counted { self.new.fetches ≡ next_count self.old.fetches }
        ensures fetches_never_fall { self.old.fetches ≤ self.new.fetches }
        ensures faults_never_fall { self.old.faults ≤ self.new.faults }
        ensures raised { self.new.faults ≡ (if is_failing self.old.failing self.old.fetches
            then next_count self.old.faults else self.old.faults) }

        // At `Ok`.
        ensures told { IfOk result (λ bytes. files_in self.old.files name.now ≡ Some bytes.items) }
        ensures within { IfOk result (λ bytes. length bytes.items ≤ limit) }
        ensures taken { IfOk result (λ bytes. self.new.last_fetch_len ≡ length bytes.items) }

        // At each fault.
        ensures fails { IsTrue (is_failing self.old.failing self.old.fetches)
            → IsErrOf result FetchFault.Failed }
        ensures absent { files_in self.old.files name.now ≡ None
            → IsErrOf result FetchFault.Failed }
        ensures none_taken { IsErrOf result FetchFault.Failed ⊎ IsErrOf result FetchFault.Memory
            → self.new.last_fetch_len ≡ 0 }
        ensures failed { IsErrOf result FetchFault.Failed
            → IsTrue (is_failing self.old.failing self.old.fetches)
            ⊎ (files_in self.old.files name.now ≡ None) }
        ensures too_long { IsErrOf result FetchFault.TooLong → limit < self.new.last_fetch_len }
        ensures too_long_told { IsErrOf result FetchFault.TooLong → (bytes : List ℕ)
            × (files_in self.old.files name.now ≡ Some bytes) × (limit < length bytes) }
    {
        self.last_fetch_len = 0;
        if self.fetches.next_fails() {
            self.fetches.fault();
            return Err(FetchFault::Failed);
        }
        let Some(bytes) = find_bytes(&self.files, name) else {
            return Err(FetchFault::Failed);
        };
        if bytes.len() > limit {
            self.last_fetch_len = bytes.len() as u64;
            return Err(FetchFault::TooLong);
        }
        let Ok(copy) = Vec::from_slice(alloc, bytes) else {
            return Err(FetchFault::Memory);
        };
        self.last_fetch_len = copy.len() as u64;
        Ok(copy)
    }
}
