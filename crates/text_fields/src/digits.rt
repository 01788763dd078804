//! The values of hexadecimal digits, by one table.

ghost use Rattle.std.specs.Prelude.{◌≡◌, ◌+◌, ◌*◌, ◌<◌, ◌≤◌, ◌&&◌, if◌then◌else◌, IfSome, None, Some};
ghost use Rattle.std.specs.Char.{digit_value, is_ascii_hexdigit};
ghost use Rattle.text_fields.specs.DigitTable.{entry_of};
ghost use Rattle.text_fields.specs.Hexadecimal.{is_hex_digit};

/// What the table adds to the value of a capital letter.
const CAPITAL: u8 = 16;

/// What the table says of a byte that is no digit.
const NO_DIGIT: u8 = 64;

/// The value of each byte that is a hexadecimal digit, with 16 more for a capital letter, and 64 of any other byte. So
/// the sum of two entries is below 64 where both are of digits.
static DIGIT_VALUES: [u8; 256] = *b"\
    \x40\x40\x40\x40\x40\x40\x40\x40\x40\x40\x40\x40\x40\x40\x40\x40\
    \x40\x40\x40\x40\x40\x40\x40\x40\x40\x40\x40\x40\x40\x40\x40\x40\
    \x40\x40\x40\x40\x40\x40\x40\x40\x40\x40\x40\x40\x40\x40\x40\x40\
    \x00\x01\x02\x03\x04\x05\x06\x07\x08\x09\x40\x40\x40\x40\x40\x40\
    \x40\x1a\x1b\x1c\x1d\x1e\x1f\x40\x40\x40\x40\x40\x40\x40\x40\x40\
    \x40\x40\x40\x40\x40\x40\x40\x40\x40\x40\x40\x40\x40\x40\x40\x40\
    \x40\x0a\x0b\x0c\x0d\x0e\x0f\x40\x40\x40\x40\x40\x40\x40\x40\x40\
    \x40\x40\x40\x40\x40\x40\x40\x40\x40\x40\x40\x40\x40\x40\x40\x40\
    \x40\x40\x40\x40\x40\x40\x40\x40\x40\x40\x40\x40\x40\x40\x40\x40\
    \x40\x40\x40\x40\x40\x40\x40\x40\x40\x40\x40\x40\x40\x40\x40\x40\
    \x40\x40\x40\x40\x40\x40\x40\x40\x40\x40\x40\x40\x40\x40\x40\x40\
    \x40\x40\x40\x40\x40\x40\x40\x40\x40\x40\x40\x40\x40\x40\x40\x40\
    \x40\x40\x40\x40\x40\x40\x40\x40\x40\x40\x40\x40\x40\x40\x40\x40\
    \x40\x40\x40\x40\x40\x40\x40\x40\x40\x40\x40\x40\x40\x40\x40\x40\
    \x40\x40\x40\x40\x40\x40\x40\x40\x40\x40\x40\x40\x40\x40\x40\x40\
    \x40\x40\x40\x40\x40\x40\x40\x40\x40\x40\x40\x40\x40\x40\x40\x40\
";

/// What the table says of a byte.
#[inline(always)]
fn entry_of(byte: u8) -> u8
    ensures entry { result ≡ entry_of byte }
    ensures most { result ≤ 64 }
{
    DIGIT_VALUES[usize::from(byte)]
}

/// The value of a hexadecimal digit in lower case.
#[inline(always)]
pub fn lower_digit(byte: u8) -> Option<u8>
    ensures value { result ≡ (if is_hex_digit byte then Some (digit_value byte) else None) }
    ensures small { IfSome result (λ value. value < 16) }
{
    let value = entry_of(byte);
    if value < CAPITAL { Some(value) } else { None }
}

/// The byte that two hexadecimal digits of either case write.
#[inline(always)]
pub fn byte_of(high: u8, low: u8) -> Option<u8>
    ensures value { result ≡ (if is_ascii_hexdigit high && is_ascii_hexdigit low
        then Some (16 * digit_value high + digit_value low) else None) }
{
    let first = entry_of(high);
    let second = entry_of(low);
    if first + second < NO_DIGIT {
        Some(16 * (first % CAPITAL) + second % CAPITAL)
    } else {
        None
    }
}
