//! Fetching the bytes of a named file.
ghost use Rattle.std.specs.Prelude.{◌≡◌, ℕ, ◌<◌, ◌≤◌, ◌⊎◌, length, IfOk, IsErrOf, Option};
ghost use Rattle.ftt_io.specs.Counts.{next_count, Rose};
ghost use Rattle.ftt_io.specs.Files.{NamedFiles, HasBytes, HasMoreThan, IsAbsent};

use std::alloc::Global;
use thiserror::Error;

/// Why a fetch gave no bytes.
#[derive(Clone, Copy, Debug, PartialEq, Eq, Error)]
pub enum FetchFault {
    /// The shelf counted a fault, or no file has the name.
    #[error("the file can't be read")]
    Failed,
    /// The file has more bytes than the limit.
    #[error("the file is longer than its limit")]
    TooLong,
    /// There was no memory for the bytes.
    #[error("out of memory")]
    Memory,
}

/// Files that are fetched by name.
pub trait Shelf {
    /// The bytes under each name, where the shelf tells them.
    ghost told_files: { Self → Option NamedFiles };

    /// The count of faults.
    ghost faults: { Self → ℕ };

    /// The number of fetches.
    ghost fetches: { Self → ℕ };

    /// The number of bytes that the last fetch took: none where it failed or found no memory.
    ghost last_fetch_len: { Self → ℕ };

    /// Fetches the bytes of the file with this name, at most `limit` of them.
    ///
    /// Where the files are told and no fault is counted, the answer is `Ok` exactly for a file of
    /// at most `limit` bytes, `TooLong` for a longer one and `Failed` for one that isn't there; in
    /// place of each it may be `Memory`.
    fn fetch(&mut self, alloc: Global, name: &str, limit: usize) -> Result<Vec<u8>, FetchFault>
        // What stays, and the counts.
        ensures files_stay { told_files self.new ≡ told_files self.old }
        ensures counted { fetches self.new ≡ next_count (fetches self.old) }
        ensures fetches_never_fall { fetches self.old ≤ fetches self.new }
        ensures faults_never_fall { faults self.old ≤ faults self.new }

        // At `Ok`.
        ensures told { IfOk result (λ bytes. HasBytes (told_files self.old) name.now bytes.items) }
        ensures within { IfOk result (λ bytes. length bytes.items ≤ limit) }
        ensures taken { IfOk result (λ bytes. last_fetch_len self.new ≡ length bytes.items) }

        // At each fault.
        ensures none_taken { IsErrOf result FetchFault.Failed ⊎ IsErrOf result FetchFault.Memory
            → last_fetch_len self.new ≡ 0 }
        ensures failed { IsErrOf result FetchFault.Failed
            → Rose (faults self.old) (faults self.new) ⊎ IsAbsent (told_files self.old) name.now }
        ensures too_long { IsErrOf result FetchFault.TooLong → limit < last_fetch_len self.new }
        ensures too_long_told { IsErrOf result FetchFault.TooLong
            → HasMoreThan (told_files self.old) name.now limit };
}
