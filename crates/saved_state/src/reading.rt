//! States that are read from bytes.

ghost use Rattle.std.specs.Prelude.{◌≡◌, ◌/◌, IfErr, IfOk, length};
ghost use Rattle.std.specs.Int.{from_le_bytes, w64};
ghost use Rattle.master_core.specs.declared.saved.Saved.{Saved as SavedOf};
ghost use Rattle.saved_state.specs.Bytes.{AreBytesOf};
ghost use Rattle.saved_state.specs.Numbers.{numbers_in};
ghost use Rattle.saved_state.specs.declared.reading.ReadFault.TheVariants.{NoState as NoStateOf};

use crate::numbers::state_in;
use crate::writing::write;
use master_core::Saved;
use std::alloc::{AllocError, Global};

/// Why no state is read from bytes.
#[derive(Drop, Debug)]
pub enum ReadFault {
    /// No state has these bytes.
    NoState,
    /// Memory ran out, which says nothing of the bytes.
    Memory,
}

impl From<AllocError> for ReadFault {
    ghost from_gives = { λ _ e. e ≡ Rattle.saved_state.specs.declared.reading.ReadFault.TheVariants.Memory };

    fn from(_error: AllocError) -> ReadFault {
        ReadFault::Memory
    }
}

/// How many bytes a number has.
const NUMBER_BYTES: usize = 8;

/// The number of eight bytes.
fn number_in(bytes: &[u8]) -> u64
    requires eight { length bytes.now ≡ 8 }
    ensures number { result ≡ from_le_bytes w64 bytes.now }
{
    let mut number = [0; NUMBER_BYTES];
    number.copy_from_slice(bytes);
    u64::from_le_bytes(number)
}

/// The numbers of bytes, eight bytes each.
fn numbers_in(alloc: Global, bytes: &[u8]) -> Result<Vec<u64>, AllocError>
    ensures numbers { IfOk result (λ numbers. numbers.items ≡ numbers_in (length bytes.now / 8) bytes.now) }
{
    let mut numbers = Vec::new(alloc);
    let mut rest = bytes;
    for _ in 0..bytes.len() / NUMBER_BYTES {
        let (front, behind) = rest.split_at(NUMBER_BYTES);
        numbers.push(number_in(front))?;
        rest = behind;
    }
    Ok(numbers)
}

/// The state that has these bytes.
///
/// # Errors
///
/// `NoState` exactly where no state has them; and `Memory`.
pub fn read(alloc: Global, bytes: &[u8]) -> Result<Saved, ReadFault>
    ensures state { IfOk result (λ saved. AreBytesOf saved bytes.now) }
    ensures only { IfOk result (λ saved. (other : SavedOf) → AreBytesOf other bytes.now → other ≡ saved) }
    ensures none { IfErr result (λ fault. fault ≡ NoStateOf → (saved : SavedOf) → AreBytesOf saved bytes.now → ⊥) }
{
    let numbers = numbers_in(alloc, bytes)?;
    let [_, behind @ ..] = numbers.as_slice() else {
        return Err(ReadFault::NoState);
    };
    let Some(saved) = state_in(alloc, behind)? else {
        return Err(ReadFault::NoState);
    };
    let again = write(alloc, &saved)?;
    if again.as_slice() == bytes {
        Ok(saved)
    } else {
        Err(ReadFault::NoState)
    }
}
