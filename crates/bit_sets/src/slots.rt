//! Sets of slots. A set is two words of the processor, and no call goes from slot to slot.

ghost use Rattle.std.specs.Prelude.{◌≡◌, ℕ, ◌*◌, ◌%◌, ◌^◌, ◌<◌, ◌||◌, ◌&&◌, ◌==◌, not, nat_eq, false, None, Some};
ghost use Rattle.bit_sets.specs.Least.{least_where};
ghost use Rattle.bit_sets.specs.Sets.{has_bit, set_of, most_slots};

use crate::words::{high_word, low_word, of_words};
use std::marker::Model;

/// The first slot of the higher word.
const FIRST_HIGH: u8 = 64;

/// A set of slots, as the number whose bit s is slot s. It is two words of the processor, so that a value that holds it
/// is aligned to one word. Contracts see the number.
#[derive(Clone, Copy, Debug)]
pub struct Mask {
    /// The slots below 64.
    low: u64,
    /// The others: bit s is slot s + 64.
    high: u64,
}

/// The number of the set of one slot. The loop of a wheel takes fewer instructions than with the number that rows have
/// (`words::one_bit`).
fn one_slot(slot: u8) -> u128
    requires known { slot < most_slots }
    ensures number { result ≡ 1 * 2 ^ slot % 2 ^ 128 }
{
    if slot < FIRST_HIGH {
        u128::from(1u64 << slot)
    } else {
        u128::from(1u64 << (slot - FIRST_HIGH)) << FIRST_HIGH
    }
}

impl Model for Mask {
    ghost use Rattle.std.specs.Prelude.{ℕ, ◌+◌, ◌-◌, ◌*◌, ◌/◌, ◌%◌, ◌^◌, ◌<◌};
    ghost use Rattle.bit_sets.specs.Sets.{most_slots};

    ghost Value = { ℕ };

    ghost view = { λ m. m.high * 2 ^ 64 + m.low };

    ghost invariant = { λ m. (m.low < 2 ^ 64) × (m.high < 2 ^ (most_slots - 64)) };

    ghost inverse = { λ n. record { low = n % 2 ^ 64; high = n / 2 ^ 64 } };
}

impl PartialEq for Mask {
    ghost use Rattle.std.specs.Prelude.{nat_eq};
    ghost use Rattle.std.specs.Cmp.Rules.{comparing};
    ghost use Rattle.std.proofs.Common.{rules};

    ghost eq = { nat_eq };

    ghost laws = { Prim.search (comparing, rules) };

    fn eq(&self, other: &Mask) -> bool {
        self.bits() == other.bits()
    }
}

impl Eq for Mask {
    ghost use Rattle.std.specs.Cmp.Rules.{comparing};
    ghost use Rattle.std.proofs.Common.{rules};

    ghost laws = { Prim.search (comparing, rules) };
}

impl Mask {
    /// The set of no slot.
    #[inline(always)]
    pub fn empty() -> Mask
        ensures number { result ≡ 0 }
        ensures slots { (s : ℕ) → has_bit result s ≡ false }
    {
        Mask { low: 0, high: 0 }
    }

    /// The set whose number is `bits`: bit s is slot s.
    #[inline(always)]
    pub fn from_bits(bits: u128) -> Mask
        requires { bits < 2 ^ most_slots }
        ensures number { result ≡ bits }
    {
        Mask {
            low: low_word(bits),
            high: high_word(bits),
        }
    }

    /// The number of the set: bit s is slot s.
    #[inline(always)]
    pub fn bits(self) -> u128
        ensures number { result ≡ self }
        ensures below { result < 2 ^ most_slots }
    {
        of_words(self.low, self.high)
    }

    /// Whether the slot stands in the set.
    #[inline(always)]
    pub fn has(&self, slot: u8) -> bool
        requires { slot < most_slots }
        ensures slot { result ≡ has_bit self.now slot }
    {
        if slot < FIRST_HIGH {
            (self.low >> slot) & 1 == 1
        } else {
            (self.high >> (slot - FIRST_HIGH)) & 1 == 1
        }
    }

    /// The set with the slot in it.
    #[inline(always)]
    pub fn with(self, slot: u8) -> Mask
        requires { slot < most_slots }
        ensures slots { (s : ℕ) → has_bit result s ≡ ((s == slot) || has_bit self s) }
    {
        Mask::from_bits(self.bits() | one_slot(slot))
    }

    /// The set with the slot not in it.
    #[inline(always)]
    pub fn without(self, slot: u8) -> Mask
        requires { slot < most_slots }
        ensures slots { (s : ℕ) → has_bit result s ≡ (not (s == slot) && has_bit self s) }
    {
        Mask::from_bits(self.bits() & !one_slot(slot))
    }

    /// Law: a mask holds no slot but the known ones, and is the set of the slots that it contains.
    pub fn known(self)
        ensures below { self < 2 ^ most_slots }
        ensures slots { self ≡ set_of most_slots (has_bit self) }
    {
        let _bits = self.bits();
    }
}

/// The slots that stand in both of two sets.
#[inline(always)]
pub fn common(one: Mask, other: Mask) -> Mask
    ensures slots { (slot : ℕ) → has_bit result slot ≡ (has_bit one slot && has_bit other slot) }
{
    Mask::from_bits(one.bits() & other.bits())
}

/// The slots of two sets.
#[inline(always)]
pub fn union(one: Mask, other: Mask) -> Mask
    ensures set { result ≡ set_of most_slots (λ slot. has_bit one slot || has_bit other slot) }
    ensures slots { (slot : ℕ) → has_bit result slot ≡ (has_bit one slot || has_bit other slot) }
{
    Mask::from_bits(one.bits() | other.bits())
}

/// The slots of one set that do not stand in the other.
#[inline(always)]
pub fn difference(one: Mask, other: Mask) -> Mask
    ensures slots { (slot : ℕ) → has_bit result slot ≡ (has_bit one slot && not (has_bit other slot)) }
{
    Mask::from_bits(one.bits() & !other.bits())
}

/// The least slot of a set. It is mostly one of the lower word, which is looked at first.
#[inline(always)]
pub fn least_slot(among: Mask) -> Option<u8>
    ensures least { result ≡ least_where most_slots (has_bit among) }
{
    let bits = among.bits();
    let low = low_word(bits);
    if low != 0 {
        return Some(low.trailing_zeros() as u8);
    }
    (bits != 0).then_some(bits.trailing_zeros() as u8)
}

/// A set of slots without the least one of them. The empty set stays as it is. Where that slot is one of the lower word,
/// the higher one stays as it is.
#[inline(always)]
pub fn without_least(among: Mask) -> Mask
    ensures slots { (least : ℕ) → least_where most_slots (has_bit among) ≡ Some least
        → (slot : ℕ) → has_bit result slot ≡ (not (nat_eq slot least) && has_bit among slot) }
    ensures none { least_where most_slots (has_bit among) ≡ None → result ≡ among }
{
    let bits = among.bits();
    let low = low_word(bits);
    if low != 0 {
        return Mask::from_bits(of_words(low & (low - 1), high_word(bits)));
    }
    Mask::from_bits(bits & bits.wrapping_sub(1))
}
