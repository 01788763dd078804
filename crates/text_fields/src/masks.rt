//! The text of a set of slots: the hexadecimal digits of the number whose bit s is slot s.
//!
//! A set has ten digits where all its slots are below 40, and 24 otherwise. So a set has one text.

ghost use Rattle.std.specs.Prelude.{◌≡◌, ℕ, ◌+◌, ◌%◌, ◌^◌, ◌<◌, ◌≤◌, ◌++◌};
ghost use Rattle.std.specs.Prelude.{IfSome, IfNone, Some, List, drop};
ghost use Rattle.text_fields.specs.MaskText.{mask_digits, mask_of, mask_width};

use crate::hexadecimal::{read_hex, read_short_hex};
use crate::row_parts::put_hex;

/// The number of digits of a set with slots below 40 alone.
const FEW_DIGITS: u8 = 10;

/// The number of digits of any other set.
const ALL_DIGITS: u8 = 24;

/// The number above those of all sets with slots below 40 alone.
const ABOVE_FEW: u128 = 1 << 40;

/// The number of digits of a set.
fn mask_width(mask: u128) -> u8
    ensures value { result ≡ mask_width mask }
    ensures even { result % 2 ≡ 0 }
    ensures few { result ≤ 24 }
{
    if mask < ABOVE_FEW {
        FEW_DIGITS
    } else {
        ALL_DIGITS
    }
}

/// Puts the digits of a set before what stands in a row.
#[inline(always)]
pub fn put_mask<const N: usize>(row: &mut [u8; N], end: usize, mask: u128) -> usize
    requires room { 24 ≤ end }
    requires within { end ≤ N }
    ensures start { result ≤ end }
    ensures few { end ≤ result + 24 }
    ensures row { drop result row.new ≡ mask_digits mask ++ drop end row.old }
{
    put_hex(row, end, mask, mask_width(mask))
}

/// The set that a field writes, in the one form that a writer gives.
pub fn read_mask(field: &[u8]) -> Option<u128>
    ensures value { result ≡ mask_of field.now }
    ensures small { IfSome result (λ mask. mask < 2 ^ 96) }
    ensures found { IfSome result (λ mask. field.now ≡ mask_digits mask) }
    ensures none { IfNone result ((mask : ℕ) → mask < 2 ^ 96 → field.now ≡ mask_digits mask → ⊥) }
{
    if field.len() == usize::from(FEW_DIGITS) {
        return read_short_hex(field, usize::from(FEW_DIGITS));
    }
    let mask = read_hex(field, usize::from(ALL_DIGITS))?;
    if ABOVE_FEW <= mask { Some(mask) } else { None }
}

/// Law: what is written of a set is read as that set, and a set has no other text.
pub fn masks_are_read()
    ensures written { (mask : ℕ) → mask < 2 ^ 96 → mask_of (mask_digits mask) ≡ Some mask }
    ensures one_text { (field : List ℕ) (mask : ℕ) → mask_of field ≡ Some mask → field ≡ mask_digits mask }
{}
