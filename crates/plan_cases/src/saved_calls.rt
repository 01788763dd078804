//! Calls about the bytes of a saved state.

use cases::{CaseTable, Fault, bytes, cut};
use master_core::Saved;
use saved_state::{ReadFault, checksum, read, write};
use std::alloc::{AllocError, Global};

/// Bytes, whose checksum is asked for, or the state that they stand for.
#[derive(Drop)]
pub struct Saves;

impl CaseTable for Saves {
    ghost use Rattle.std.specs.Prelude.{⊤};

    ghost IsReady = { λ _. ⊤ };

    fn answer(&mut self, alloc: Global, given: &str) -> Result<String, Fault> {
        let (word, field) = cut(given, ' ');
        let bytes = bytes(alloc, field)?;
        match word {
            "checksum" => Ok(format!(in alloc; "{:08x}", checksum(bytes.as_slice()))?),
            "read" => state_of(alloc, bytes.as_slice()),
            _ => Err(Fault::Unread),
        }
    }
}

/// The state that bytes stand for, behind whether it is written as these bytes again; or why there is none.
fn state_of(alloc: Global, bytes: &[u8]) -> Result<String, Fault> {
    match read(alloc, bytes) {
        Ok(saved) => Ok(told(alloc, &saved, bytes)?),
        Err(ReadFault::NoState) => Ok(String::from_str(alloc, "NoState")?),
        Err(ReadFault::Memory) => Err(Fault::Memory),
    }
}

/// A state, behind whether it is written as these bytes.
fn told(alloc: Global, saved: &Saved, bytes: &[u8]) -> Result<String, AllocError> {
    let again = write(alloc, saved)?;
    format!(in alloc; "{} {saved:?}", again.as_slice() == bytes)
}
