//! Data bytes as text: two hexadecimal digits each.

ghost use Rattle.std.specs.Prelude.{◌≡◌, ◌%◌, ◌≤◌, if◌then◌else◌, IfSome, None, Some, length};
ghost use Rattle.std.specs.Char.{is_ascii_hexdigit};
ghost use Rattle.std.specs.List.{list_all};
ghost use Rattle.text_fields.specs.ByteText.{bytes_of, bytes_written, data_of};

use crate::digits::byte_of;
use crate::hexadecimal::all_hex_digits;
use std::marker::Model;

/// The greatest number of data bytes of a field.
const MAX_BYTES: usize = 8;

/// The most digits of a field of data bytes.
const MAX_DIGITS: usize = 2 * MAX_BYTES;

/// Up to 8 data bytes.
#[derive(Drop)]
pub struct DataBytes {
    bytes: [u8; MAX_BYTES],
    count: usize,
}

impl Model for DataBytes {
    ghost use Rattle.std.specs.Prelude.{ℕ, List, ◌≤◌, take};

    ghost Value = { List ℕ };

    ghost view = { λ d. take d.count d.bytes };

    ghost invariant = { λ d. d.count ≤ 8 };
}

impl DataBytes {
    /// The bytes.
    pub fn as_slice(&self) -> &[u8]
        ensures bytes { result.now ≡ self.now }
    {
        &self.bytes[..self.count]
    }
}

/// The bytes that two hexadecimal digits of either case write each, where all are such digits.
fn bytes_written(field: &[u8]) -> Option<DataBytes>
    requires few { length field.now ≤ 16 }
    requires even { length field.now % 2 ≡ 0 }
    ensures value { result
        ≡ (if list_all is_ascii_hexdigit field.now then Some (bytes_written field.now) else None) }
{
    let mut bytes = [0; MAX_BYTES];
    let mut count = 0;
    let mut left = field;
    while let [high, low, rest @ ..] = left {
        bytes[count] = byte_of(*high, *low)?;
        count += 1;
        left = rest;
    }
    Some(DataBytes { bytes, count })
}

/// The bytes that a field writes: two hexadecimal digits of either case for each of 0 to 8 bytes.
pub fn read_bytes(field: &[u8]) -> Option<DataBytes>
    ensures value { result ≡ bytes_of field.now }
    ensures few { IfSome result (λ bytes. length bytes ≤ 8) }
{
    if field.len() > MAX_DIGITS || field.len() % 2 != 0 {
        return None;
    }
    bytes_written(field)
}

/// The bytes that a field writes in the one form that a writer gives: with digits in lower case.
pub fn read_data(field: &[u8]) -> Option<DataBytes>
    ensures value { result ≡ data_of field.now }
    ensures few { IfSome result (λ bytes. length bytes ≤ 8) }
{
    if !all_hex_digits(field) {
        return None;
    }
    read_bytes(field)
}
