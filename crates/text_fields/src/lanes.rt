//! 16 bytes that are looked at together.

ghost use Rattle.std.specs.Prelude.{◌≡◌, ℕ, ◌<◌, ◌≤◌, get_or, length, true};
ghost use Rattle.text_fields.specs.Lanes.{first_set};
ghost use Rattle.text_fields.specs.PlainRows.{is_plain};

use std::simd::prelude::*;

/// So many bytes are looked at together.
pub const LANES: usize = 16;

/// The byte above a comma.
const ABOVE: u8 = 45;

/// So many bytes are above a comma.
const BYTES_ABOVE: u8 = 211;

/// The place of the lowest bit that is set; the number of bytes where none is.
#[inline(always)]
pub fn first_set(mask: u64) -> usize
    ensures place { result ≡ first_set mask }
{
    if mask == 0 {
        LANES
    } else {
        mask.trailing_zeros() as usize
    }
}

/// How many of the first 16 bytes are above a comma, up to the first that is not. These stand for themselves in a row.
#[inline(always)]
pub fn plain_lanes(bytes: &[u8]) -> usize
    requires enough { 16 ≤ length bytes.now }
    ensures few { result ≤ 16 }
    ensures plain { (i : ℕ) → i < result → is_plain (get_or bytes.now i 0) ≡ true }
{
    let lanes = u8x16::from_slice(bytes);
    let others = (lanes - u8x16::splat(ABOVE)).simd_ge(u8x16::splat(BYTES_ABOVE));
    first_set(others.to_bitmask())
}
