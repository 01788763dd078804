//! Eight data bytes that several frames have, as instances with the same number do.

ghost use Rattle.std.specs.Prelude.{◌≡◌, ◌+◌, ◌≤◌, ◌++◌, drop};
ghost use Rattle.std.specs.Int.{bytes_high_first};
ghost use Rattle.std.specs.List.{flat_map};
ghost use Rattle.text_fields.specs.Hexadecimal.{hex_digits};

use crate::row_parts::{put_byte, put_data_bytes};
use std::marker::Model;

/// The digits of eight data bytes, kept for the frames that have them: these digits are not made again.
///
/// They are seen as the number whose bytes these are, the most significant of them first.
#[derive(Drop)]
pub struct DataDigits {
    number: u64,
    digits: [u8; 16],
}

impl Model for DataDigits {
    ghost use Rattle.std.specs.Prelude.{◌≡◌, ℕ};
    ghost use Rattle.std.specs.Int.{bytes_high_first};
    ghost use Rattle.std.specs.List.{flat_map};
    ghost use Rattle.text_fields.specs.Hexadecimal.{hex_digits};

    ghost Value = { ℕ };

    ghost view = { λ d. d.number };

    ghost invariant = { λ d. d.digits ≡ flat_map (hex_digits 2) (bytes_high_first 8 d.number) };
}

impl DataDigits {
    /// Those of the bytes of a number.
    pub fn of(number: u64) -> DataDigits
        ensures number { result ≡ number }
    {
        DataDigits {
            number,
            digits: digits_of(number.to_be_bytes()),
        }
    }

    /// Those of zeros, which cost nothing to make.
    #[inline(always)]
    pub fn zeros() -> DataDigits {
        DataDigits {
            number: 0,
            digits: *b"0000000000000000",
        }
    }

    /// The number.
    #[inline(always)]
    pub fn number(&self) -> u64
        ensures number { result ≡ self.now }
    {
        self.number
    }

    /// Puts the bytes of the number, each as two hexadecimal digits.
    #[inline(always)]
    pub fn put<const N: usize>(&self, row: &mut [u8; N], end: usize) -> usize
        requires room { 16 ≤ end }
        requires within { end ≤ N }
        ensures start { result + 16 ≡ end }
        ensures row { drop result row.new ≡ flat_map (hex_digits 2) (bytes_high_first 8 self.now) ++ drop end row.old }
    {
        put_sixteen(row, end, &self.digits)
    }
}

/// The digits of eight bytes. It is not inlined, so that they stand together in memory.
#[inline(never)]
fn digits_of(bytes: [u8; 8]) -> [u8; 16]
    ensures digits { result ≡ flat_map (hex_digits 2) bytes }
{
    let mut digits = [0; 16];
    put_data_bytes(&mut digits, 16, &bytes);
    digits
}

/// Puts sixteen bytes.
#[inline(always)]
fn put_sixteen<const N: usize>(row: &mut [u8; N], end: usize, bytes: &[u8; 16]) -> usize
    requires room { 16 ≤ end }
    requires within { end ≤ N }
    ensures start { result + 16 ≡ end }
    ensures row { drop result row.new ≡ bytes.now ++ drop end row.old }
{
    let [a, b, c, d, e, f, g, h, i, j, k, l, m, n, o, p] = *bytes;
    let start = put_byte(row, end, p);
    let start = put_byte(row, start, o);
    let start = put_byte(row, start, n);
    let start = put_byte(row, start, m);
    let start = put_byte(row, start, l);
    let start = put_byte(row, start, k);
    let start = put_byte(row, start, j);
    let start = put_byte(row, start, i);
    let start = put_byte(row, start, h);
    let start = put_byte(row, start, g);
    let start = put_byte(row, start, f);
    let start = put_byte(row, start, e);
    let start = put_byte(row, start, d);
    let start = put_byte(row, start, c);
    let start = put_byte(row, start, b);
    put_byte(row, start, a)
}
