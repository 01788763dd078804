//! States as bytes.

ghost use Rattle.std.specs.Prelude.{◌≡◌, ◌+◌, ◌*◌, ◌++◌, IfOk, length};
ghost use Rattle.saved_state.specs.Bytes.{AreBytesOf, bytes_of_numbers};

use crate::crc::checksum;
use crate::numbers::numbers_of;
use master_core::Saved;
use std::alloc::{AllocError, Global};

/// Puts numbers behind bytes, eight bytes each.
fn put_numbers(bytes: &mut Vec<u8>, numbers: &[u64]) -> Result<(), AllocError>
    ensures bytes { IfOk result (λ _. bytes.new.items ≡ bytes.old.items ++ bytes_of_numbers numbers.now) }
{
    for number in numbers {
        bytes.extend_from_slice(&number.to_le_bytes())?;
    }
    Ok(())
}

/// The bytes of a state: its numbers, eight bytes each, the least significant one first, and before them their CRC-32 as
/// such a number. There are 112 bytes, and 80 more for each placed entry.
///
/// The numbers are: 1, the version of this form; nodes, slots, policy (0 to 2 for rm, dm, edf), fill (0 and 1 for prefix,
/// skip), window in bit times and horizon in cycles; the next cycle, the slots that are pending before it as two numbers
/// (slots 0 to 63, and those from 64 on), the number of accepted changes, and as 0 or 1 whether the master forgets and
/// whether the nodes are to learn the list. Then stand for each placed entry its slot, node, length, phase, period,
/// deadline, priority and origin, as 0 or 1 whether it has an end, and the end or 0.
///
/// # Errors
///
/// Only where memory runs out.
#[tactic(auto, unfolding(crate::specs::Bytes::bytes_of))]
pub fn write(alloc: Global, saved: &Saved) -> Result<Vec<u8>, AllocError>
    ensures bytes { IfOk result (λ bytes. AreBytesOf saved.now bytes.items) }
    ensures count { IfOk result (λ bytes. length bytes.items ≡ 112 + 80 * length saved.now.placed) }
{
    let numbers = numbers_of(alloc, saved)?;
    let mut behind = Vec::new(alloc);
    put_numbers(&mut behind, numbers.as_slice())?;
    let sum = u64::from(checksum(behind.as_slice()));
    let mut bytes = Vec::new(alloc);
    bytes.extend_from_slice(&sum.to_le_bytes())?;
    bytes.extend_from_slice(behind.as_slice())?;
    Ok(bytes)
}
