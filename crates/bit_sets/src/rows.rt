//! Sets of rows, as numbers: row i is bit i. A set is looked through word by word, since a loop over one word of the
//! processor costs half of one over two.

ghost use Rattle.std.specs.Prelude.{◌≡◌, ℕ, ◌+◌, ◌<◌, ◌||◌, ◌&&◌, nat_eq, not, true, false};
ghost use Rattle.bit_sets.specs.Rows.{rows_left};
ghost use Rattle.bit_sets.specs.Sets.{has_bit};

use crate::words::{high_word, low_word, one_bit};

/// The greatest number of rows of a set.
pub const MOST_ROWS: usize = 128;

/// The set with the row in it.
#[inline(always)]
pub fn with(set: u128, row: usize) -> u128
    requires known { row < 128 }
    ensures rows { (i : ℕ) → has_bit result i ≡ (nat_eq row i || has_bit set i) }
{
    set | one_bit(row)
}

/// The set with the row not in it.
#[inline(always)]
pub fn without(set: u128, row: usize) -> u128
    requires known { row < 128 }
    ensures rows { (i : ℕ) → has_bit result i ≡ (not (nat_eq row i) && has_bit set i) }
    ensures less { has_bit set row ≡ true → result < set }
{
    set & !one_bit(row)
}

/// The first row of a set that is not empty.
pub fn first(set: u128) -> usize
    requires some { 0 < set }
    ensures known { result < 128 }
    ensures stands { has_bit set result ≡ true }
    ensures none_before { (i : ℕ) → i < result → has_bit set i ≡ false }
{
    set.trailing_zeros() as usize
}

/// The rows of either set.
pub fn both(one: u128, other: u128) -> u128
    ensures rows { (i : ℕ) → has_bit result i ≡ (has_bit one i || has_bit other i) }
{
    one | other
}

/// The rows of both sets.
pub fn common(one: u128, other: u128) -> u128
    ensures rows { (i : ℕ) → has_bit result i ≡ (has_bit one i && has_bit other i) }
{
    one & other
}

/// Rows of a set that are still to be looked at, word by word: those of the present word, where bit i is row `base + i`,
/// and those of the word behind it.
#[derive(Clone, Copy)]
pub struct Rest {
    /// The row of the lowest bit of the present word.
    pub base: u8,
    /// The present word.
    pub word: u64,
    /// The word behind it.
    pub behind: u64,
}

/// All rows of a set: those below 64 are in the present word.
#[inline(always)]
pub fn rest_of(set: u128) -> Rest
    ensures low { result.base ≡ 0 }
    ensures rows { rows_left result ≡ set }
{
    Rest {
        base: 0,
        word: low_word(set),
        behind: high_word(set),
    }
}

/// The same rows, those from 64 on in the present word, where the word of the others is empty.
#[inline(always)]
pub fn next_word(rest: Rest) -> Rest
    requires low { rest.base ≡ 0 }
    requires done { rest.word ≡ 0 }
    ensures high { result.base ≡ 64 }
    ensures last { result.behind ≡ 0 }
    ensures rows { rows_left result ≡ rows_left rest }
{
    Rest {
        base: 64,
        word: rest.behind,
        behind: 0,
    }
}

/// The first row of a present word that is not empty.
#[inline(always)]
pub fn first_left(rest: Rest) -> usize
    requires some { 0 < rest.word }
    ensures stands { has_bit (rows_left rest) result ≡ true }
    ensures none_before { (i : ℕ) → i < result → has_bit (rows_left rest) i ≡ false }
{
    usize::from(rest.base) + rest.word.trailing_zeros() as usize
}

/// The rows without the first one of a present word that is not empty.
#[inline(always)]
pub fn without_first(rest: Rest) -> Rest
    requires some { 0 < rest.word }
    ensures less { result.word < rest.word }
    ensures base { result.base ≡ rest.base }
    ensures behind { result.behind ≡ rest.behind }
    ensures rows { (row : ℕ) → has_bit (rows_left rest) row ≡ true
        → ((i : ℕ) → i < row → has_bit (rows_left rest) i ≡ false)
        → (i : ℕ) → has_bit (rows_left result) i ≡ (not (nat_eq row i) && has_bit (rows_left rest) i) }
{
    Rest {
        base: rest.base,
        word: rest.word & (rest.word - 1),
        behind: rest.behind,
    }
}
