//! Stuffing a list of bits, taking the stuff bits out again, and how long stuffed bits and frames are.

ghost use Rattle.std.specs.Prelude.{◌≡◌, ℕ, ◌+◌, ◌*◌, ◌<◌, ◌≤◌, ◌^◌, ◌≢◌, ◌↔◌};
ghost use Rattle.std.specs.Prelude.{Bool, List, length, take, IfOk, IsOkUnless};
ghost use Rattle.stuff_bound.specs.Stuffing.{Stuffs, stuffed, worst};
ghost use Rattle.stuff_bound.specs.Fields.{bits_of};
ghost use Rattle.stuff_bound.specs.declared.stuffing.StuffFault.TheVariants.{Memory};
ghost use Rattle.stuff_bound.specs.StuffFault.{HasFirstSixth, EndsInFive};

use crate::run::BitRun;
use crate::sender::after_bits;
use std::alloc::{AllocError, AllocFailed, Global};
use std::error::Error;
use std::fmt;

/// Why bits are not what stuffing gives (CAN 2.0 Part A, error detection: a stuff error is the sixth
/// consecutive equal bit).
#[derive(Clone, Copy, Debug, PartialEq, Eq)]
pub enum StuffFault {
    /// Six equal neighbours stand in the bits; `place` is the index of the first sixth.
    SixEqual { place: usize },
    /// There are no six, and the bits end with five equal ones without the opposite bit behind them;
    /// `len` is the number of bits.
    Ends { len: usize },
    /// There was no memory for the answer.
    Memory,
}

impl fmt::Display for StuffFault {
    fn fmt<W: fmt::Write>(&self, f: &mut fmt::Formatter<W>) -> fmt::Result {
        match self {
            StuffFault::SixEqual { place } => write!(
                f,
                "the sixth of six equal bits at place {place}"
            ),
            StuffFault::Ends { len } => write!(f, "five equal bits end the list of {len} bits"),
            StuffFault::Memory => write!(f, "out of memory"),
        }
    }
}

impl Error for StuffFault {}

impl<T: Drop> From<AllocFailed<T>> for StuffFault {
    ghost from_gives = { λ _ fault. fault ≡ Memory };

    fn from(_failed: AllocFailed<T>) -> StuffFault {
        StuffFault::Memory
    }
}

/// The stuffed bits: five equal bits on the wire, which may begin with a stuff bit, are followed by one
/// of the opposite level, also where they end the list (CAN 2.0 Part A, bit stream coding).
pub fn stuff(alloc: Global, bits: &[bool]) -> Result<Vec<bool>, AllocError>
    ensures stuffs { IfOk result (λ wire. Stuffs wire.items bits.now) }
    ensures value { IfOk result (λ wire. wire.items ≡ stuffed bits.now) }
{
    let mut wire = Vec::new(alloc);
    let mut run = BitRun::new();
    for bit in bits {
        wire.push(*bit)?;
        run = run.then(*bit);
        if run.is_full() {
            let opposite = run.opposite();
            wire.push(opposite)?;
            run = run.then(opposite);
        }
    }
    Ok(wire)
}

/// The bits that `stuff` turns into `bits`. The first sixth equal bit, else five equal bits at the end,
/// is the fault.
pub fn unstuff(alloc: Global, bits: &[bool]) -> Result<Vec<bool>, StuffFault>
    ensures ok { IfOk result (λ plain. Stuffs bits.now plain.items) }
    ensures completes { (plain : List Bool) → Stuffs bits.now plain → IsOkUnless result StuffFault.Memory }

    // Want of memory may come in place of any answer.
    ensures six_equal { (place : ℕ) → result ≢ Err StuffFault.Memory
        → (result ≡ Err (StuffFault.SixEqual place)) ↔ HasFirstSixth bits.now place }
    ensures ends { (len : ℕ) → result ≢ Err StuffFault.Memory
        → (result ≡ Err (StuffFault.Ends len)) ↔ (EndsInFive bits.now × (len ≡ length bits.now)) }
{
    let mut plain = Vec::new(alloc);
    let mut run = BitRun::new();
    for (place, bit) in bits.iter().enumerate() {
        if run.is_sixth(*bit) {
            return Err(StuffFault::SixEqual { place });
        }
        if !run.is_full() {
            plain.push(*bit)?;
        }
        run = run.then(*bit);
    }
    if run.is_full() {
        return Err(StuffFault::Ends { len: bits.len() });
    }
    Ok(plain)
}

/// The number of bits that `stuff` gives, in bit times. It takes no memory.
pub fn stuffed_len(bits: &[bool]) -> usize
    requires { length bits.now < 2 ^ 30 }
    ensures len { result ≡ length (stuffed bits.now) }
    ensures at_least { length bits.now ≤ result }
    ensures at_most { 0 < length bits.now → 4 * result + 1 ≤ 5 * length bits.now }

    // The bits from the start of frame to the CRC sequence of a frame of that many bytes, with the
    // thirteen bits behind them.
    ensures frame { (bytes : ℕ) → length bits.now ≡ 34 + 8 * bytes → result + 13 ≤ worst bytes }
{
    let mut len = 0;
    let mut run = BitRun::new();
    for bit in bits {
        len += 1;
        run = run.then(*bit);
        if run.is_full() {
            len += 1;
            run = run.then(run.opposite());
        }
    }
    len
}

/// The number of bits that `stuff` gives for the first `bits` bits of these bytes, the most significant bit of each
/// byte first, in bit times. It goes from byte to byte, and takes no memory.
pub fn stuffed_len_bytes(bytes: &[u8], bits: u32) -> u32
    requires within { bits ≤ 8 * length bytes.now }
    requires few { bits < 2 ^ 30 }
    ensures len { result ≡ length (stuffed (take bits (bits_of bytes.now))) }
    ensures at_least { bits ≤ result }
    ensures at_most { 0 < bits → 4 * result + 1 ≤ 5 * bits }
{
    bits + after_bits(bytes, bits).stuff_bits()
}

/// The worst length of a data frame with `dlc` data bytes, 0 to 8, in bit times: no frame of that many
/// bytes is longer, its stuff bits and the three bits of intermission included.
pub fn bound(dlc: u8) -> u32
    requires { dlc ≤ 8 }
    ensures { result ≡ worst dlc }
{
    55 + 10 * u32::from(dlc)
}
