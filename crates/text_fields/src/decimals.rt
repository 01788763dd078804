//! Decimal numbers as text.

ghost use Rattle.std.specs.Prelude.{◌≡◌, ℕ, ◌+◌, ◌*◌, ◌-◌, ◌^◌, ◌<◌, ◌≤◌, if◌then◌else◌, length};
ghost use Rattle.std.specs.Prelude.{IfSome, IfNone, None, option_and_then};
ghost use Rattle.std.specs.Char.{digit_value, is_ascii_digit};
ghost use Rattle.std.specs.Fmt.{decimal};
ghost use Rattle.text_fields.specs.Decimal.{decimal_of, has_leading_zero, number_of, within};

/// The number with one more decimal digit behind it, where the byte is one and the number fits its
/// type.
fn with_digit(number: u64, byte: u8) -> Option<u64>
    ensures value { result
        ≡ (if is_ascii_digit byte then within 0 (2 ^ 64 - 1) (number * 10 + digit_value byte) else None) }
{
    if !byte.is_ascii_digit() {
        return None;
    }
    let tens = number.checked_mul(10)?;
    tens.checked_add(u64::from(byte - b'0'))
}

/// The number of digits up to which each number fits its type.
const FEW: usize = 19;

/// The number that a field of at most 19 bytes writes.
fn read_few(field: &[u8]) -> Option<u64>
    requires few { length field.now ≤ 19 }
    ensures value { result ≡ option_and_then (within 0 (2 ^ 64 - 1)) (number_of field.now) }
{
    if field.is_empty() {
        return None;
    }
    let mut number = 0u64;
    for byte in field {
        if !byte.is_ascii_digit() {
            return None;
        }
        number = number * 10 + u64::from(*byte - b'0');
    }
    Some(number)
}

/// The number that a field writes, where it fits its type.
#[inline(never)]
fn read_many(field: &[u8]) -> Option<u64>
    requires some { 0 < length field.now }
    ensures value { result ≡ option_and_then (within 0 (2 ^ 64 - 1)) (number_of field.now) }
{
    let mut number = 0u64;
    let mut left = field;
    while let [byte, rest @ ..] = left {
        number = with_digit(number, *byte)?;
        left = rest;
    }
    Some(number)
}

/// The number that the field writes, where it fits its type. Leading zeros are allowed.
pub fn read_number(field: &[u8]) -> Option<u64>
    ensures value { result ≡ option_and_then (within 0 (2 ^ 64 - 1)) (number_of field.now) }
{
    if field.len() <= FEW {
        read_few(field)
    } else {
        read_many(field)
    }
}

/// Whether the first of several digits is a zero.
fn has_leading_zero(digits: &[u8]) -> bool
    ensures value { result ≡ has_leading_zero digits.now }
{
    digits.len() > 1 && digits[0] == b'0'
}

/// The number that the field writes in the one form that a writer gives, without leading zeros, where it is below 2^64.
pub fn read_decimal(field: &[u8]) -> Option<u64>
    ensures value { result ≡ option_and_then (within 0 (2 ^ 64 - 1)) (decimal_of field.now) }
    ensures found { IfSome result (λ n. field.now ≡ decimal n) }
    ensures none { IfNone result ((n : ℕ) → n < 2 ^ 64 → field.now ≡ decimal n → ⊥) }
{
    if has_leading_zero(field) {
        return None;
    }
    read_number(field)
}
