//! 16 bytes that are looked at together: how many of them are digits, up to the first that is none, and whether they are
//! the same.

ghost use Rattle.std.specs.Prelude.{◌≡◌, ℕ, ◌+◌, ◌++◌, ◌<◌, ◌≤◌, codes, drop, get_or, length, true};
ghost use Rattle.std.specs.Char.{is_ascii_digit};
ghost use Rattle.text_fields.specs.Hexadecimal.{is_hex_digit};
ghost use Rattle.log_reader.specs.RowBytes.{is_among};

use std::simd::prelude::*;
use text_fields::{LANES, first_set};

/// So many bytes stand behind the start in the row of a frame with a length of three digits and eight data bytes.
pub const FULL: usize = 25;

/// A bit for each of them.
const ALL_LANES: u64 = 0xFFFF;

/// How many of the first 16 bytes are decimal digits, up to the first that is none.
#[inline(always)]
fn decimal_lanes(bytes: &[u8]) -> usize
    requires enough { 16 ≤ length bytes.now }
    ensures few { result ≤ 16 }
    ensures digits { (i : ℕ) → i < result → is_ascii_digit (get_or bytes.now i 0) ≡ true }
{
    let lanes = u8x16::from_slice(bytes);
    let others = (lanes - u8x16::splat(b'0')).simd_ge(u8x16::splat(10));
    first_set(others.to_bitmask())
}

/// How many of the first 16 bytes are hexadecimal digits in lower case, up to the first that is none.
#[inline(always)]
fn hex_lanes(bytes: &[u8]) -> usize
    requires enough { 16 ≤ length bytes.now }
    ensures few { result ≤ 16 }
    ensures digits { (i : ℕ) → i < result → is_hex_digit (get_or bytes.now i 0) ≡ true }
{
    let lanes = u8x16::from_slice(bytes);
    let no_decimal = (lanes - u8x16::splat(b'0')).simd_ge(u8x16::splat(10));
    let no_letter = (lanes - u8x16::splat(b'a')).simd_ge(u8x16::splat(6));
    let others = no_decimal & no_letter;
    first_set(others.to_bitmask())
}

/// So many of the first 16 bytes are decimal digits, from the first on; 0 where there are fewer bytes.
#[inline(always)]
pub fn decimal_run(bytes: &[u8]) -> usize
    ensures few { result ≤ 16 }
    ensures within { result ≤ length bytes.now }
    ensures digits { (i : ℕ) → i < result → is_ascii_digit (get_or bytes.now i 0) ≡ true }
{
    if bytes.len() < LANES {
        return 0;
    }
    decimal_lanes(bytes)
}

/// So many of the first 16 bytes are hexadecimal digits in lower case, from the first on; 0 where there are fewer bytes.
#[inline(always)]
pub fn hex_run(bytes: &[u8]) -> usize
    ensures few { result ≤ 16 }
    ensures within { result ≤ length bytes.now }
    ensures digits { (i : ℕ) → i < result → is_hex_digit (get_or bytes.now i 0) ≡ true }
{
    if bytes.len() < LANES {
        return 0;
    }
    hex_lanes(bytes)
}

/// How many of the first 16 bytes are among those that may stand at their place, up to the first that is not. At a place
/// may stand one of so many bytes from the first one on, counted round, or one of so many letters from `a` on.
#[inline(always)]
fn among_lanes(bytes: &[u8], first: [u8; 16], count: [u8; 16], letters: [u8; 16]) -> usize
    requires enough { 16 ≤ length bytes.now }
    requires firsts { length first ≡ 16 }
    requires counts { length count ≡ 16 }
    requires others { length letters ≡ 16 }
    ensures few { result ≤ 16 }
    ensures among { (i : ℕ) → i < result
        → is_among (get_or first i 0) (get_or count i 0) (get_or letters i 0) (get_or bytes.now i 0) ≡ true }
{
    let lanes = u8x16::from_slice(bytes);
    let not_counted = (lanes - u8x16::from_array(first)).simd_ge(u8x16::from_array(count));
    let no_letter = (lanes - u8x16::splat(b'a')).simd_ge(u8x16::from_array(letters));
    let others = not_counted & no_letter;
    first_set(others.to_bitmask())
}

/// How many of the first 16 bytes are `frame,` and decimal digits behind it, up to the first that is not; 0 where there are
/// fewer bytes.
#[inline(always)]
pub fn frame_run(bytes: &[u8]) -> usize
    ensures few { result ≤ 16 }
    ensures within { result ≤ length bytes.now }
    ensures word { 6 ≤ result → bytes.now ≡ codes "frame," ++ drop 6 bytes.now }
    ensures digits { (i : ℕ) → 6 ≤ i → i < result → is_ascii_digit (get_or bytes.now i 0) ≡ true }
{
    if bytes.len() < LANES {
        return 0;
    }
    let first = *b"frame,0000000000";
    let count = [1, 1, 1, 1, 1, 1, 10, 10, 10, 10, 10, 10, 10, 10, 10, 10];
    among_lanes(bytes, first, count, [0; 16])
}

/// Whether the first 16 bytes are a length of three digits, an identifier below 700 hexadecimal and eight digits of data,
/// with a comma behind each of the two numbers.
#[inline(always)]
fn begins_full(bytes: &[u8]) -> bool
    requires enough { 16 ≤ length bytes.now }
    ensures first { result ≡ true → 49 ≤ get_or bytes.now 0 0 }
    ensures digits { result ≡ true → (i : ℕ) → i < 3 → is_ascii_digit (get_or bytes.now i 0) ≡ true }
    ensures comma { result ≡ true → get_or bytes.now 3 0 ≡ 44 }
    ensures least { result ≡ true → 48 ≤ get_or bytes.now 4 0 }
    ensures most { result ≡ true → get_or bytes.now 4 0 ≤ 54 }
    ensures later { result ≡ true → (i : ℕ) → 5 ≤ i → i < 7 → is_hex_digit (get_or bytes.now i 0) ≡ true }
    ensures second { result ≡ true → get_or bytes.now 7 0 ≡ 44 }
    ensures content { result ≡ true → (i : ℕ) → 8 ≤ i → i < 16 → is_hex_digit (get_or bytes.now i 0) ≡ true }
{
    let first = *b"100,000,00000000";
    let count = [9, 10, 10, 1, 7, 10, 10, 1, 10, 10, 10, 10, 10, 10, 10, 10];
    let letters = [0, 0, 0, 0, 0, 6, 6, 0, 6, 6, 6, 6, 6, 6, 6, 6];
    among_lanes(bytes, first, count, letters) == LANES
}

/// Whether the first 16 bytes are 15 hexadecimal digits in lower case and a line feed.
#[inline(always)]
fn ends_full(bytes: &[u8]) -> bool
    requires enough { 16 ≤ length bytes.now }
    ensures content { result ≡ true → (i : ℕ) → i < 15 → is_hex_digit (get_or bytes.now i 0) ≡ true }
    ensures feed { result ≡ true → get_or bytes.now 15 0 ≡ 10 }
{
    let first = *b"000000000000000\n";
    let count = [
        10, 10, 10, 10, 10, 10, 10, 10, 10, 10, 10, 10, 10, 10, 10, 1,
    ];
    let letters = [6, 6, 6, 6, 6, 6, 6, 6, 6, 6, 6, 6, 6, 6, 6, 0];
    among_lanes(bytes, first, count, letters) == LANES
}

/// The bytes behind a place.
#[inline(always)]
pub fn bytes_from(bytes: &[u8], place: usize) -> &[u8]
    requires within { place ≤ length bytes.now }
    ensures rest { result.now ≡ drop place bytes.now }
    ensures size { length result.now + place ≡ length bytes.now }
{
    &bytes[place..]
}

/// Whether the bytes begin with a length of three digits, an identifier below 700 hexadecimal and eight data bytes, with a
/// comma behind each of the two numbers, and a line feed. Most rows of frames end so.
#[inline(always)]
pub fn are_full(bytes: &[u8]) -> bool
    ensures enough { result ≡ true → 25 ≤ length bytes.now }
    ensures first { result ≡ true → 49 ≤ get_or bytes.now 0 0 }
    ensures digits { result ≡ true → (i : ℕ) → i < 3 → is_ascii_digit (get_or bytes.now i 0) ≡ true }
    ensures comma { result ≡ true → get_or bytes.now 3 0 ≡ 44 }
    ensures least { result ≡ true → 48 ≤ get_or bytes.now 4 0 }
    ensures most { result ≡ true → get_or bytes.now 4 0 ≤ 54 }
    ensures later { result ≡ true → (i : ℕ) → 5 ≤ i → i < 7 → is_hex_digit (get_or bytes.now i 0) ≡ true }
    ensures second { result ≡ true → get_or bytes.now 7 0 ≡ 44 }
    ensures content { result ≡ true → (i : ℕ) → 8 ≤ i → i < 24 → is_hex_digit (get_or bytes.now i 0) ≡ true }
    ensures feed { result ≡ true → get_or bytes.now 24 0 ≡ 10 }
{
    if bytes.len() < FULL {
        return false;
    }
    if !begins_full(bytes) {
        return false;
    }
    ends_full(bytes_from(bytes, 9))
}

/// Whether the 16 bytes from a place on are the same.
#[inline(always)]
fn are_same_lanes(one: &[u8], other: &[u8], place: usize) -> bool
    requires first { place + 16 ≤ length one.now }
    requires second { place + 16 ≤ length other.now }
    ensures same { result ≡ true → (i : ℕ) → place ≤ i → i < place + 16
        → get_or one.now i 0 ≡ get_or other.now i 0 }
{
    let lanes = u8x16::from_slice(&one[place..]);
    let others = u8x16::from_slice(&other[place..]);
    lanes.simd_eq(others).to_bitmask() == ALL_LANES
}

/// Whether as many bytes are the same. From 16 on they are compared 16 by 16; the last 16 may overlap those before.
pub fn are_same(one: &[u8], other: &[u8]) -> bool
    requires size { length one.now ≡ length other.now }
    ensures same { result ≡ true → one.now ≡ other.now }
{
    if one.len() < LANES {
        return one == other;
    }
    let last = one.len() - LANES;
    let mut place = 0;
    while place < last {
        if !are_same_lanes(one, other, place) {
            return false;
        }
        place += LANES;
    }
    are_same_lanes(one, other, last)
}
