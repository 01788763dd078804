//! The rows of frames and of opened and planned cycles, told by their bytes alone: no row is made of them.
//!
//! These are nearly all rows of a log. Only their common forms are told: numbers of up to 16 digits, lengths of up to nine,
//! and rows with 16 bytes at least behind each number.

ghost use Rattle.std.specs.Prelude.{◌≡◌, ◌^◌, ◌<◌, ◌≤◌, ◌++◌, ◌∷◌, All, IfSome, List, codes, drop, get_or, length, true, ℕ};
ghost use Rattle.std.specs.Fmt.{decimal};
ghost use Rattle.std.specs.List.{flat_map};
ghost use Rattle.profile.specs.Limits.{greatest_identifier};
ghost use Rattle.text_fields.specs.Hexadecimal.{hex_digits, is_hex_digit};
ghost use Rattle.text_fields.specs.MaskText.{mask_digits};
ghost use Rattle.log_reader.specs.RowBytes.{BeginsWithBody, BeginsWithRow};

use crate::lanes::{FULL, are_full, bytes_from, decimal_run, frame_run, hex_run};
use text_fields::read_mask;

/// The most digits of a time or of a cycle's number.
const NUMBER_DIGITS: usize = 16;

/// The most digits of the length of a frame or of a window.
const LENGTH_DIGITS: usize = 9;

/// The number of bytes of the word of a frame's row and its comma.
const WORD_BYTES: usize = 6;

/// The number of digits of an identifier.
const ID_DIGITS: usize = 3;

/// The number of digits of a set of slots below 40.
const MASK_DIGITS: usize = 10;

/// The number of digits of any other set of slots.
const WIDE_MASK_DIGITS: usize = 24;

/// Whether a byte is a hexadecimal digit in lower case.
#[inline(always)]
fn is_hex(byte: u8) -> bool
    ensures digit { result ≡ is_hex_digit byte }
{
    (48 <= byte && byte <= 57) || (97 <= byte && byte <= 102)
}

/// What stands behind so many bytes and this one, where this one stands there.
#[inline(always)]
pub fn behind_at(bytes: &[u8], count: usize, byte: u8) -> Option<&[u8]>
    requires within { count ≤ length bytes.now }
    ensures rest { IfSome result (λ rest. drop count bytes.now ≡ byte ∷ rest.now) }
{
    match &bytes[count..] {
        [first, rest @ ..] => { if *first == byte { Some(rest) } else { None } }
        _ => None,
    }
}

/// Whether so many digits, with which the bytes begin, are those of a number of up to so many digits: there are some, and
/// no zero stands before others.
#[inline(always)]
fn are_number(bytes: &[u8], count: usize, most: usize) -> bool
    requires some { 1 ≤ most }
    requires within { count ≤ length bytes.now }
    ensures some { result ≡ true → 0 < count }
    ensures few { result ≡ true → count ≤ most }
    ensures no_zero { result ≡ true → get_or bytes.now 0 0 ≡ 48 → count ≡ 1 }
{
    0 < count && count <= most && (bytes[0] != b'0' || count == 1)
}

/// What stands behind a number of up to so many digits and a byte, where the bytes begin with them.
#[inline(always)]
fn behind_number(bytes: &[u8], most: usize, byte: u8) -> Option<&[u8]>
    requires some { 1 ≤ most }
    requires few { most ≤ 16 }
    ensures number { IfSome result
        (λ rest. (n : ℕ) × (n < 10 ^ most) × (bytes.now ≡ decimal n ++ byte ∷ rest.now)) }
{
    let count = decimal_run(bytes);
    if are_number(bytes, count, most) {
        return behind_at(bytes, count, byte);
    }
    None
}

/// Whether these are the three digits of an identifier that a frame can have.
#[inline(always)]
fn is_identifier(high: u8, middle: u8, low: u8) -> bool
    ensures least { result ≡ true → 48 ≤ high }
    ensures most { result ≡ true → high ≤ 55 }
    ensures second { result ≡ true → is_hex_digit middle ≡ true }
    ensures third { result ≡ true → is_hex_digit low ≡ true }
    ensures within { result ≡ true → high ≡ 55 → middle < 102 }
{
    48 <= high && high <= 55 && is_hex(middle) && is_hex(low) && (high < 55 || middle < 102)
}

/// What stands behind an identifier and a comma.
#[inline(always)]
fn behind_identifier(bytes: &[u8]) -> Option<&[u8]>
    ensures id { IfSome result (λ rest. (id : ℕ) × (id ≤ greatest_identifier)
        × (bytes.now ≡ hex_digits 3 id ++ 44 ∷ rest.now)) }
{
    if bytes.len() < ID_DIGITS {
        return None;
    }
    if is_identifier(bytes[0], bytes[1], bytes[2]) {
        return behind_at(bytes, ID_DIGITS, b',');
    }
    None
}

/// What stands behind data bytes and a line feed.
#[inline(always)]
fn behind_data(bytes: &[u8]) -> Option<&[u8]>
    ensures bytes { IfSome result (λ rest. (content : List ℕ) × (length content ≤ 8) × All (λ byte. byte < 256) content
        × (bytes.now ≡ flat_map (hex_digits 2) content ++ 10 ∷ rest.now)) }
{
    let count = hex_run(bytes);
    if count % 2 == 0 {
        return behind_at(bytes, count, b'\n');
    }
    None
}

/// What stands behind a set of slots that are not all below 40, and a byte.
#[inline(never)]
fn behind_wide_mask(bytes: &[u8], byte: u8) -> Option<&[u8]>
    ensures mask { IfSome result (λ rest. (mask : ℕ) × (mask < 2 ^ 96)
        × (bytes.now ≡ mask_digits mask ++ byte ∷ rest.now)) }
{
    if bytes.len() < WIDE_MASK_DIGITS {
        return None;
    }
    let (digits, later) = bytes.split_at(WIDE_MASK_DIGITS);
    match read_mask(digits) {
        Some(_mask) => behind_at(later, 0, byte),
        None => None,
    }
}

/// What stands behind a set of slots and a byte.
#[inline(always)]
fn behind_mask(bytes: &[u8], byte: u8) -> Option<&[u8]>
    ensures mask { IfSome result (λ rest. (mask : ℕ) × (mask < 2 ^ 96)
        × (bytes.now ≡ mask_digits mask ++ byte ∷ rest.now)) }
{
    let count = hex_run(bytes);
    if count == MASK_DIGITS {
        return behind_at(bytes, count, byte);
    }
    behind_wide_mask(bytes, byte)
}

/// What stands behind the length, the identifier and the data bytes of a frame, field by field.
#[inline(always)]
fn behind_parts(bytes: &[u8]) -> Option<&[u8]>
    ensures body { IfSome result (λ rest. BeginsWithBody bytes.now rest.now) }
{
    match behind_number(bytes, LENGTH_DIGITS, b',') {
        Some(id) => match behind_identifier(id) {
            Some(data) => behind_data(data),
            None => None,
        },
        None => None,
    }
}

/// What stands behind the length, the identifier and the data bytes of a frame.
#[inline(always)]
fn behind_body(bytes: &[u8]) -> Option<&[u8]>
    ensures body { IfSome result (λ rest. BeginsWithBody bytes.now rest.now) }
{
    if are_full(bytes) {
        return Some(bytes_from(bytes, FULL));
    }
    behind_parts(bytes)
}

/// What stands behind the fields of a frame.
#[inline(always)]
fn behind_frame(bytes: &[u8]) -> Option<&[u8]>
    ensures row { IfSome result (λ rest. BeginsWithRow (codes "frame," ++ bytes.now) rest.now) }
{
    match behind_number(bytes, NUMBER_DIGITS, b',') {
        Some(len) => behind_body(len),
        None => None,
    }
}

/// What stands behind the fields of an opened cycle.
#[inline(always)]
fn behind_open(bytes: &[u8]) -> Option<&[u8]>
    ensures row { IfSome result (λ rest. BeginsWithRow (codes "open," ++ bytes.now) rest.now) }
{
    match behind_number(bytes, NUMBER_DIGITS, b',') {
        Some(mask) => match behind_mask(mask, b',') {
            Some(width) => behind_number(width, LENGTH_DIGITS, b'\n'),
            None => None,
        },
        None => None,
    }
}

/// What stands behind the fields of a planned cycle.
#[inline(always)]
fn behind_plan(bytes: &[u8]) -> Option<&[u8]>
    ensures row { IfSome result (λ rest. BeginsWithRow (codes "plan," ++ bytes.now) rest.now) }
{
    match behind_number(bytes, NUMBER_DIGITS, b',') {
        Some(mask) => behind_mask(mask, b'\n'),
        None => None,
    }
}

/// What stands behind the word and the start in the row of a frame, where the start has up to ten digits.
#[inline(always)]
fn behind_start(bytes: &[u8]) -> Option<&[u8]>
    ensures start { IfSome result (λ rest. (start : ℕ) × (start < 10 ^ 16)
        × (bytes.now ≡ codes "frame," ++ (decimal start ++ 44 ∷ rest.now))) }
{
    let run = frame_run(bytes);
    if run <= WORD_BYTES {
        return None;
    }
    let digits = bytes_from(bytes, WORD_BYTES);
    if are_number(digits, run - WORD_BYTES, NUMBER_DIGITS) {
        return behind_at(digits, run - WORD_BYTES, b',');
    }
    None
}

/// What stands behind the row of a frame, or of an opened or a planned cycle, where the bytes begin with one.
#[inline(always)]
fn behind_by_word(bytes: &[u8]) -> Option<&[u8]>
    ensures row { IfSome result (λ rest. BeginsWithRow bytes.now rest.now) }
{
    match bytes {
        [b'f', b'r', b'a', b'm', b'e', b',', rest @ ..] => behind_frame(rest),
        [b'o', b'p', b'e', b'n', b',', rest @ ..] => behind_open(rest),
        [b'p', b'l', b'a', b'n', b',', rest @ ..] => behind_plan(rest),
        _ => None,
    }
}

/// What stands behind the row of a frame, or of an opened or a planned cycle, where the bytes begin with one in its common
/// form. Most rows are those of frames.
#[inline(always)]
pub fn behind_common(bytes: &[u8]) -> Option<&[u8]>
    ensures row { IfSome result (λ rest. BeginsWithRow bytes.now rest.now) }
{
    match behind_start(bytes) {
        Some(body) => behind_body(body),
        None => behind_by_word(bytes),
    }
}
