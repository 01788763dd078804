//! Numbers one behind the other, as the starts of frames are: most have the same digits above the last four.

ghost use Rattle.std.specs.Prelude.{◌≡◌, ◌+◌, ◌*◌, ◌≤◌, ◌<◌, ◌++◌, drop};
ghost use Rattle.std.specs.Fmt.{decimal};

use crate::row_parts::{put_byte, put_decimal, put_decimal_pair};
use itoa::write_digits;
use std::marker::Model;

/// The room for the digits that are kept.
const KEPT: usize = 8;

/// The number above those whose digits above the last four have this room.
const ABOVE_KEPT: u64 = 1_000_000_000_000;

/// The digits above the last four of a number, kept for the next one: where it has the same, they are not made again.
///
/// It is seen as the number that these digits and four zeros write.
#[derive(Drop)]
pub struct HighDigits {
    /// The digits, at the end of their room.
    digits: [u8; KEPT],
    /// The place of the first digit.
    first: usize,
    /// The number that these digits and four zeros write.
    base: u64,
}

impl Model for HighDigits {
    ghost use Rattle.std.specs.Prelude.{ℕ};
    ghost use Rattle.text_fields.specs.KeptDigits.{AreHigh};

    ghost Value = { ℕ };

    ghost view = { λ h. h.base };

    ghost invariant = { λ h. AreHigh h.digits h.first h.base };
}

impl HighDigits {
    /// Those of the number 10,000.
    pub fn new() -> HighDigits {
        HighDigits {
            digits: *b"00000001",
            first: 7,
            base: 10_000,
        }
    }

    /// Puts a number: its decimal digits, without leading zeros. Its digits above the last four are kept where there are
    /// one to eight of them. That is for speed alone, and no clause says so.
    #[inline(always)]
    pub fn put<const N: usize>(&mut self, row: &mut [u8; N], end: usize, number: u64) -> usize
        requires room { 20 ≤ end }
        requires within { end ≤ N }
        ensures start { result ≤ end }
        ensures few { end ≤ result + 20 }
        ensures row { drop result row.new ≡ decimal number ++ drop end row.old }
    {
        if self.base <= number && number - self.base < 10_000 {
            return self.put_low(row, end, number - self.base);
        }
        self.put_anew(row, end, number)
    }

    /// Puts the number of the kept digits and these last four.
    #[inline(always)]
    fn put_low<const N: usize>(&self, row: &mut [u8; N], end: usize, low: u64) -> usize
        requires low { low < 10000 }
        requires room { 20 ≤ end }
        requires within { end ≤ N }
        ensures start { result ≤ end }
        ensures few { end ≤ result + 20 }
        ensures row { drop result row.new ≡ decimal (self.now + low) ++ drop end row.old }
    {
        let start = put_decimal_pair(row, end, low % 100);
        let start = put_decimal_pair(row, start, low / 100);
        put_eight(row, start, &self.digits) + self.first
    }

    /// Puts a number, whose digits above the last four may be others.
    #[cold]
    #[inline(always)]
    fn put_anew<const N: usize>(&mut self, row: &mut [u8; N], end: usize, number: u64) -> usize
        requires room { 20 ≤ end }
        requires within { end ≤ N }
        ensures start { result ≤ end }
        ensures few { end ≤ result + 20 }
        ensures row { drop result row.new ≡ decimal number ++ drop end row.old }
    {
        if number < 10_000 || ABOVE_KEPT <= number {
            return put_decimal(row, end, number);
        }
        let high = number / 10_000;
        self.first = write_digits(high, &mut self.digits, KEPT);
        self.base = 10_000 * high;
        self.put_low(row, end, number - self.base)
    }
}

/// Puts eight bytes.
#[inline(always)]
fn put_eight<const N: usize>(row: &mut [u8; N], end: usize, bytes: &[u8; 8]) -> usize
    requires room { 8 ≤ end }
    requires within { end ≤ N }
    ensures start { result + 8 ≡ end }
    ensures row { drop result row.new ≡ bytes.now ++ drop end row.old }
{
    let [a, b, c, d, e, f, g, h] = *bytes;
    let start = put_byte(row, end, h);
    let start = put_byte(row, start, g);
    let start = put_byte(row, start, f);
    let start = put_byte(row, start, e);
    let start = put_byte(row, start, d);
    let start = put_byte(row, start, c);
    let start = put_byte(row, start, b);
    put_byte(row, start, a)
}
