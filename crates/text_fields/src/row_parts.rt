//! Parts of a row of text.
//!
//! A row is made from its end to its start, in an array that is lent from row to row. Each part is put before what
//! stands from a place on, and answers the place where the row begins then.

ghost use Rattle.std.specs.Prelude.{◌≡◌, ◌+◌, ◌/◌, ◌%◌, ◌<◌, ◌≤◌, ◌++◌, ◌∷◌, [], codes, drop, length, true};
ghost use Rattle.std.specs.Fmt.{decimal};
ghost use Rattle.std.specs.List.{flat_map};
ghost use Rattle.profile.specs.Limits.{greatest_identifier};
ghost use Rattle.text_fields.specs.Hexadecimal.{hex_digits};

use crate::decimal_pairs::decimal_pair;
use crate::hex_pairs::hex_pair;
use itoa::write_digits;

/// The room for a row in bytes. The longest row is that of an answered change, of at most 83. The rows of a cycle and of
/// its one frame, which are made together, have at most 121.
pub const ROOM: usize = 128;

/// The row that begins at a place.
#[inline(always)]
pub fn row_from<const N: usize>(row: &[u8; N], start: usize) -> &[u8]
    requires within { start ≤ N }
    ensures bytes { result.now ≡ drop start row.now }
{
    let whole = &row[..];
    &whole[start..]
}

/// Puts a byte.
#[inline(always)]
pub fn put_byte<const N: usize>(row: &mut [u8; N], end: usize, byte: u8) -> usize
    requires room { 1 ≤ end }
    requires within { end ≤ N }
    ensures start { result + 1 ≡ end }
    ensures row { drop result row.new ≡ byte ∷ drop end row.old }
{
    let start = end - 1;
    row[start] = byte;
    start
}

/// Puts a word.
#[inline(always)]
pub fn put_word<const N: usize>(row: &mut [u8; N], end: usize, word: &[u8]) -> usize
    requires room { length word.now ≤ end }
    requires within { end ≤ N }
    ensures start { result + length word.now ≡ end }
    ensures row { drop result row.new ≡ word.now ++ drop end row.old }
{
    let mut start = end;
    for place in (0..word.len()).rev() {
        start = put_byte(row, start, word[place]);
    }
    start
}

/// Puts a number: its decimal digits, without leading zeros.
#[inline(always)]
pub fn put_decimal<const N: usize>(row: &mut [u8; N], end: usize, number: u64) -> usize
    requires room { 20 ≤ end }
    requires within { end ≤ N }
    ensures start { result ≤ end }
    ensures few { end ≤ result + 20 }
    ensures row { drop result row.new ≡ decimal number ++ drop end row.old }
{
    write_digits(number, row, end)
}

/// Puts a number as [`put_decimal`] does. From 100 to 199, as the length of most frames is, it divides nothing.
#[inline(always)]
pub fn put_length<const N: usize>(row: &mut [u8; N], end: usize, number: u32) -> usize
    requires room { 10 ≤ end }
    requires within { end ≤ N }
    ensures start { result ≤ end }
    ensures few { end ≤ result + 10 }
    ensures row { drop result row.new ≡ decimal number ++ drop end row.old }
{
    if 100 <= number && number < 200 {
        let start = put_decimal_pair(row, end, u64::from(number - 100));
        return put_byte(row, start, b'1');
    }
    write_digits(u64::from(number), row, end)
}

/// Puts the line feed that ends a row.
#[inline(always)]
pub fn put_line_feed<const N: usize>(row: &mut [u8; N]) -> usize
    requires room { 1 ≤ N }
    ensures start { result + 1 ≡ N }
    ensures row { drop result row.new ≡ codes "\n" }
{
    put_byte(row, N, b'\n')
}

/// Puts a number with a comma before it.
#[inline(always)]
pub fn put_field<const N: usize>(row: &mut [u8; N], end: usize, number: u64) -> usize
    requires room { 21 ≤ end }
    requires within { end ≤ N }
    ensures start { result ≤ end }
    ensures few { end ≤ result + 21 }
    ensures row { drop result row.new ≡ codes "," ++ (decimal number ++ drop end row.old) }
{
    let start = put_decimal(row, end, number);
    put_byte(row, start, b',')
}

/// Puts a word and the number behind it.
#[inline(always)]
pub fn put_first<const N: usize>(row: &mut [u8; N], end: usize, word: &[u8], number: u64) -> usize
    requires room { 20 + length word.now ≤ end }
    requires within { end ≤ N }
    ensures start { result ≤ end }
    ensures few { end ≤ result + 20 + length word.now }
    ensures row { drop result row.new ≡ word.now ++ (decimal number ++ drop end row.old) }
{
    let start = put_decimal(row, end, number);
    put_word(row, start, word)
}

/// Puts two decimal digits, the first of which may be 0.
#[inline(always)]
pub fn put_decimal_pair<const N: usize>(row: &mut [u8; N], end: usize, number: u64) -> usize
    requires small { number < 100 }
    requires room { 2 ≤ end }
    requires within { end ≤ N }
    ensures start { result + 2 ≡ end }
    ensures row { drop result row.new ≡ (48 + number / 10) ∷ (48 + number % 10) ∷ drop end row.old }
{
    let (tens, ones) = decimal_pair(number);
    let start = put_byte(row, end, ones);
    put_byte(row, start, tens)
}

/// Puts the two hexadecimal digits of a byte.
#[inline(always)]
fn put_hex_pair<const N: usize>(row: &mut [u8; N], end: usize, byte: u8) -> usize
    requires room { 2 ≤ end }
    requires within { end ≤ N }
    ensures start { result + 2 ≡ end }
    ensures row { drop result row.new ≡ hex_digits 2 byte ++ drop end row.old }
{
    let (high, low) = hex_pair(byte);
    let start = put_byte(row, end, low);
    put_byte(row, start, high)
}

/// Puts an even number of hexadecimal digits of a number: its lowest ones, in lower case.
pub fn put_hex<const N: usize>(row: &mut [u8; N], end: usize, number: u128, digits: u8) -> usize
    requires even { digits % 2 ≡ 0 }
    requires room { digits ≤ end }
    requires within { end ≤ N }
    ensures start { result + digits ≡ end }
    ensures row { drop result row.new ≡ hex_digits digits number ++ drop end row.old }
{
    let mut start = end;
    let mut left = number;
    for _ in 0..digits / 2 {
        start = put_hex_pair(row, start, (left % 0x100) as u8);
        left /= 0x100;
    }
    start
}

/// Puts the three hexadecimal digits of an identifier.
#[inline(always)]
pub fn put_identifier<const N: usize>(row: &mut [u8; N], end: usize, id: u16) -> usize
    requires range { id ≤ greatest_identifier }
    requires room { 3 ≤ end }
    requires within { end ≤ N }
    ensures start { result + 3 ≡ end }
    ensures row { drop result row.new ≡ hex_digits 3 id ++ drop end row.old }
{
    let start = put_hex_pair(row, end, (id % 0x100) as u8);
    put_byte(row, start, b'0' + (id / 0x100) as u8)
}

/// Puts a few data bytes, each as two hexadecimal digits.
fn put_few_bytes<const N: usize>(row: &mut [u8; N], end: usize, bytes: &[u8]) -> usize
    requires few { length bytes.now ≤ 8 }
    requires room { 16 ≤ end }
    requires within { end ≤ N }
    ensures start { result ≤ end }
    ensures few { end ≤ result + 16 }
    ensures row { drop result row.new ≡ flat_map (hex_digits 2) bytes.now ++ drop end row.old }
{
    let mut start = end;
    for place in (0..bytes.len()).rev() {
        start = put_hex_pair(row, start, bytes[place]);
    }
    start
}

/// Whether four bytes are all 0. One comparison tells it.
#[inline(always)]
fn are_zeros(bytes: [u8; 4]) -> bool
    ensures zeros { result ≡ true → bytes ≡ 0 ∷ 0 ∷ 0 ∷ 0 ∷ [] }
{
    u32::from_be_bytes(bytes) == 0
}

/// Puts data bytes, each as two hexadecimal digits. For eight, as most frames have, no place is compared, and where the
/// first four are 0, as in most instance numbers, their digits are put at once.
#[inline(always)]
pub fn put_data_bytes<const N: usize>(row: &mut [u8; N], end: usize, bytes: &[u8]) -> usize
    requires few { length bytes.now ≤ 8 }
    requires room { 16 ≤ end }
    requires within { end ≤ N }
    ensures start { result ≤ end }
    ensures few { end ≤ result + 16 }
    ensures row { drop result row.new ≡ flat_map (hex_digits 2) bytes.now ++ drop end row.old }
{
    if let [a, b, c, d, e, f, g, h] = bytes {
        let start = put_hex_pair(row, end, *h);
        let start = put_hex_pair(row, start, *g);
        let start = put_hex_pair(row, start, *f);
        let start = put_hex_pair(row, start, *e);
        if are_zeros([*a, *b, *c, *d]) {
            return put_word(row, start, b"00000000");
        }
        let start = put_hex_pair(row, start, *d);
        let start = put_hex_pair(row, start, *c);
        let start = put_hex_pair(row, start, *b);
        return put_hex_pair(row, start, *a);
    }
    put_few_bytes(row, end, bytes)
}
