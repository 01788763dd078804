//! Laws about the definitions of this crate. Each function has an empty body, and its contract is the law.

ghost use Rattle.std.specs.Prelude.{◌≡◌, ℕ, ◌^◌, ◌<◌, ◌&&◌, Bool, nat_lt};
ghost use Rattle.bit_sets.specs.Sets.{has_bit, set_of};

/// A set of slots made of a test contains the slots below `n` that pass it, and no other.
pub fn sets_of_slots()
    ensures below { (n : ℕ) (p : ℕ → Bool) → set_of n p < 2 ^ n }
    ensures slots { (n slot : ℕ) (p : ℕ → Bool) → has_bit (set_of n p) slot ≡ (nat_lt slot n && p slot) }
    ensures same { (n : ℕ) (p q : ℕ → Bool)
        → ((slot : ℕ) → slot < n → p slot ≡ q slot) → set_of n p ≡ set_of n q }
{}
