//! A set as two words of the processor.

ghost use Rattle.std.specs.Prelude.{◌≡◌, ◌+◌, ◌*◌, ◌/◌, ◌%◌, ◌^◌, ◌<◌};

/// The bits of a word.
const WORD_BITS: usize = 64;

/// The first number that needs two words.
const TWO_WORDS: u128 = 1 << WORD_BITS;

/// The set of one number.
#[inline(always)]
pub fn one_bit(bit: usize) -> u128
    requires known { bit < 128 }
    ensures number { result ≡ 1 * 2 ^ bit % 2 ^ 128 }
{
    if bit < WORD_BITS {
        u128::from(1u64 << bit)
    } else {
        u128::from(1u64 << (bit - WORD_BITS)) << WORD_BITS
    }
}

/// The lower word of a set: the numbers below 64.
#[inline(always)]
pub fn low_word(set: u128) -> u64
    ensures word { result ≡ set % 2 ^ 64 }
{
    (set % TWO_WORDS) as u64
}

/// The higher word of a set: bit i is the number i + 64.
#[inline(always)]
pub fn high_word(set: u128) -> u64
    ensures word { result ≡ set / 2 ^ 64 }
{
    (set / TWO_WORDS) as u64
}

/// The set of two words.
#[inline(always)]
pub fn of_words(low: u64, high: u64) -> u128
    ensures set { result ≡ high * 2 ^ 64 + low }
{
    (u128::from(high) << WORD_BITS) + u128::from(low)
}
