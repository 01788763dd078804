//! The pairs of decimal digits of the numbers below 100.

ghost use Rattle.std.specs.Prelude.{◌≡◌, ◌+◌, ◌/◌, ◌%◌, ◌<◌};
ghost use Rattle.text_fields.specs.DecimalPairs.{decimal_digit_at};

/// The two digits of each number from 0 to 99, one pair behind the other.
static DECIMAL_PAIRS: [u8; 200] = *b"\
    00010203040506070809\
    10111213141516171819\
    20212223242526272829\
    30313233343536373839\
    40414243444546474849\
    50515253545556575859\
    60616263646566676869\
    70717273747576777879\
    80818283848586878889\
    90919293949596979899\
";

/// The digit at a place of the table.
#[inline(always)]
fn decimal_digit_at(place: usize) -> u8
    requires within { place < 200 }
    ensures digit { result ≡ decimal_digit_at place }
{
    DECIMAL_PAIRS[place]
}

/// The two decimal digits of a number, the first of which may be 0.
#[inline(always)]
pub fn decimal_pair(number: u64) -> (u8, u8)
    requires small { number < 100 }
    ensures tens { result.0 ≡ 48 + number / 10 }
    ensures ones { result.1 ≡ 48 + number % 10 }
{
    let first = 2 * number as usize;
    (decimal_digit_at(first), decimal_digit_at(first + 1))
}
