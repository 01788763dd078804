//! Hexadecimal numbers as text.

ghost use Rattle.std.specs.Prelude.{◌≡◌, ℕ, ◌+◌, ◌^◌, ◌<◌, ◌≤◌, if◌then◌else◌};
ghost use Rattle.std.specs.Prelude.{IfSome, IfNone, Some, None, length, true};
ghost use Rattle.std.specs.Char.{digit_value, is_ascii_hexdigit};
ghost use Rattle.std.specs.List.{list_all};
ghost use Rattle.std.specs.Str.Parse.{digits_value};
ghost use Rattle.text_fields.specs.Hexadecimal.{hex_digits, hex_of, is_hex_digit};

use crate::digits::lower_digit;

/// Whether every byte is a hexadecimal digit of either case.
pub fn all_hexadecimal(field: &[u8]) -> bool
    ensures value { result ≡ list_all is_ascii_hexdigit field.now }
{
    field.iter().all(|byte| byte.is_ascii_hexdigit())
}

/// Whether a byte is a hexadecimal digit in lower case.
fn is_hex_digit(byte: u8) -> bool
    ensures value { result ≡ is_hex_digit byte }
{
    (48 <= byte && byte <= 57) || (97 <= byte && byte <= 102)
}

/// Whether every byte is a hexadecimal digit in lower case.
pub fn all_hex_digits(field: &[u8]) -> bool
    ensures value { result ≡ list_all is_hex_digit field.now }
{
    field.iter().all(|byte| is_hex_digit(*byte))
}

/// The value of a hexadecimal digit of either case.
pub fn digit(byte: u8) -> u8
    requires hexadecimal { is_ascii_hexdigit byte ≡ true }
    ensures value { result ≡ digit_value byte }
    ensures small { result < 16 }
{
    if byte <= b'9' {
        byte - b'0'
    } else if byte <= b'F' {
        byte - b'A' + 10
    } else {
        byte - b'a' + 10
    }
}

/// The number that up to 32 hexadecimal digits of either case write.
fn value_of(digits: &[u8]) -> u128
    requires few { length digits.now ≤ 32 }
    requires hexadecimal { list_all is_ascii_hexdigit digits.now ≡ true }
    ensures value { result ≡ digits_value 16 digits.now }
    ensures small { result < 16 ^ length digits.now }
{
    let mut number = 0;
    for byte in digits {
        number = number * 16 + u128::from(digit(*byte));
    }
    number
}

/// The number that up to 32 hexadecimal digits of either case write, where all are such digits.
pub fn read_hexadecimal(digits: &[u8]) -> Option<u128>
    requires few { length digits.now ≤ 32 }
    ensures value { result
        ≡ (if list_all is_ascii_hexdigit digits.now then Some (digits_value 16 digits.now) else None) }
    ensures small { IfSome result (λ number. number < 16 ^ length digits.now) }
{
    if all_hexadecimal(digits) {
        Some(value_of(digits))
    } else {
        None
    }
}

/// The number that up to 16 hexadecimal digits in lower case write, where all are such digits. One word has room for it.
fn read_word(digits: &[u8]) -> Option<u64>
    requires few { length digits.now ≤ 16 }
    ensures value { result
        ≡ (if list_all is_hex_digit digits.now then Some (digits_value 16 digits.now) else None) }
    ensures small { IfSome result (λ number. number < 16 ^ length digits.now) }
{
    let mut number = 0;
    for byte in digits {
        number = number * 16 + u64::from(lower_digit(*byte)?);
    }
    Some(number)
}

/// The number that a field of so many hexadecimal digits in lower case writes: the one form that a writer gives.
pub fn read_hex(field: &[u8], count: usize) -> Option<u128>
    requires few { count ≤ 32 }
    ensures value { result ≡ hex_of count field.now }
    ensures small { IfSome result (λ number. number < 16 ^ count) }
    ensures found { IfSome result (λ number. field.now ≡ hex_digits count number) }
    ensures none { IfNone result ((n : ℕ) → n < 16 ^ count → field.now ≡ hex_digits count n → ⊥) }
{
    if field.len() != count || !all_hex_digits(field) {
        return None;
    }
    Some(value_of(field))
}

/// The same for a number of one word, which costs less.
pub fn read_short_hex(field: &[u8], count: usize) -> Option<u128>
    requires few { count ≤ 16 }
    ensures value { result ≡ hex_of count field.now }
    ensures small { IfSome result (λ number. number < 16 ^ count) }
    ensures found { IfSome result (λ number. field.now ≡ hex_digits count number) }
    ensures none { IfNone result ((n : ℕ) → n < 16 ^ count → field.now ≡ hex_digits count n → ⊥) }
{
    if field.len() != count {
        return None;
    }
    let number = read_word(field)?;
    Some(u128::from(number))
}
