//! Laws about the definitions of this crate. Each function has an empty body, and its contract is the
//! law.

ghost use Rattle.std.specs.Prelude.{◌≡◌, ℕ, ◌+◌, ◌<◌, ◌≤◌, ◌↔◌};
ghost use Rattle.std.specs.Prelude.{Bool, true, IsTrue, Some, IfSome, IsSomeAnd, List, Any, Contains, slice_get};
ghost use Rattle.requirement_table.specs.declared.entries.Placed.{Placed};
ghost use Rattle.requirement_table.specs.Instance.{Exists, IsLastCycle, IsReleasedIn, MaySend};
ghost use Rattle.requirement_table.specs.Instance.{instance_of, release_of, released_by};
ghost use Rattle.requirement_table.specs.Flags.{HasWaiting, HasWaitingBefore, IsFlaggedOnce, IsGoodCycle, waits};
ghost use Rattle.bit_sets.specs.Sets.{has_bit};
ghost use Rattle.requirement_table.specs.Table.{IsWellPlaced, held_before, instance_in, near_of, not_over};
ghost use Rattle.requirement_table.specs.Table.{released_in, releases_in};

/// The functions of an entry and a cycle find the instance that the relations describe, where the
/// deadline is 1 to the period.
pub fn instances_of_an_entry()
    ensures released { (p : Placed) (k c : ℕ) → 1 ≤ p.entry.deadline → p.entry.deadline ≤ p.entry.period
        → (released_by p c ≡ Some k) ↔ IsReleasedIn p k c }
    ensures sendable { (p : Placed) (k c : ℕ) → 1 ≤ p.entry.deadline → p.entry.deadline ≤ p.entry.period
        → (instance_of p c ≡ Some k) ↔ MaySend p k c }
{}

/// In a well placed list at most one instance of a slot may be sent in a cycle, and `instance_in` is
/// that instance. A slot is in `released_in` exactly where one of its entries has an instance that is
/// released in the cycle.
pub fn instances_of_a_slot()
    ensures one { (placed : List Placed) (i j k m c : ℕ) (p q : Placed) → IsWellPlaced placed
        → slice_get placed i ≡ Some p → slice_get placed j ≡ Some q
        → p.entry.slot ≡ q.entry.slot → MaySend p k c → MaySend q m c → (i ≡ j) × (k ≡ m) }
    ensures found { (placed : List Placed) (i k c : ℕ) (p : Placed) → IsWellPlaced placed
        → slice_get placed i ≡ Some p → MaySend p k c
        → instance_in placed p.entry.slot c ≡ Some (record { placed = p; number = k }) }
    ensures sound { (placed : List Placed) (slot c : ℕ) → IfSome (instance_in placed slot c)
        (λ i. Contains placed i.placed × (i.placed.entry.slot ≡ slot) × MaySend i.placed i.number c) }
    ensures released { (placed : List Placed) (slot c : ℕ) → IsWellPlaced placed
        → IsTrue (has_bit (released_in placed c) slot)
        ↔ Any (λ p. (p.entry.slot ≡ slot) × ((k : ℕ) × IsReleasedIn p k c)) placed }
{}

/// Where the cycles from `from` to below `from + n` are good, each instance that is released in them and
/// whose last cycle is among them is flagged in exactly one cycle, from its release to its last cycle.
pub fn flagged_once()
    ensures once { (placed : List Placed) (flags : ℕ → ℕ → Bool) (from n : ℕ) (held : ℕ → Bool) → IsWellPlaced placed
        → ((m : ℕ) → m < n → IsGoodCycle placed flags from held m)
        → (p : Placed) (k last : ℕ) → Contains placed p → Exists p (release_of p k) → from ≤ release_of p k
        → IsLastCycle p k last → last < from + n → IsFlaggedOnce flags p.entry.slot (release_of p k) last }
{}

/// Where the cycles from `from` to below `from + n` are good, and each slot that holds an instance before `from` has one
/// that was released before it and may be sent in it: a slot waits in the cycle `from + n` exactly where one of its
/// instances does, which was released, is not over and was not sent before. It holds an instance before that cycle
/// exactly where such an instance was released before it.
pub fn waiting_slots()
    ensures before { (placed : List Placed) (flags : ℕ → ℕ → Bool) (from n : ℕ) (held : ℕ → Bool) → IsWellPlaced placed
        → ((slot : ℕ) → held slot ≡ true
        → IsSomeAnd (instance_in placed slot from) (λ i. release_of i.placed i.number < from))
        → ((m : ℕ) → m < n → IsGoodCycle placed flags from held m)
        → (slot : ℕ) → (held_before placed flags from held n slot ≡ true)
        ↔ HasWaitingBefore placed flags from held (from + n) slot }
    ensures within { (placed : List Placed) (flags : ℕ → ℕ → Bool) (from n : ℕ) (held : ℕ → Bool) → IsWellPlaced placed
        → ((slot : ℕ) → held slot ≡ true
        → IsSomeAnd (instance_in placed slot from) (λ i. release_of i.placed i.number < from))
        → ((m : ℕ) → m < n → IsGoodCycle placed flags from held m)
        → (slot : ℕ) → (waits placed flags from held n slot ≡ true)
        ↔ HasWaiting placed flags from held (from + n) slot }
{}

/// The entries that are not over by a cycle are well placed where the whole list is, and from that cycle on
/// they have the same instances to release and to send.
pub fn entries_that_are_over()
    ensures well_placed { (since : ℕ) (placed : List Placed)
        → IsWellPlaced placed → IsWellPlaced (not_over since placed) }
    ensures instances { (since : ℕ) (placed : List Placed) (slot c : ℕ) → since ≤ c
        → instance_in (not_over since placed) slot c ≡ instance_in placed slot c }
    ensures releases { (since : ℕ) (placed : List Placed) (slot c : ℕ) → IsWellPlaced placed → since ≤ c
        → releases_in (not_over since placed) c slot ≡ releases_in placed c slot }
{}

/// The entries that are not over by a cycle and begin before a later one are well placed where the whole list is, and
/// between these cycles they have the same instances to release and to send.
pub fn entries_that_are_near()
    ensures well_placed { (since until : ℕ) (placed : List Placed)
        → IsWellPlaced placed → IsWellPlaced (near_of since until placed) }
    ensures instances { (since until : ℕ) (placed : List Placed) (slot c : ℕ) → since ≤ c → c < until
        → instance_in (near_of since until placed) slot c ≡ instance_in placed slot c }
    ensures releases { (since until : ℕ) (placed : List Placed) (slot c : ℕ) → IsWellPlaced placed → since ≤ c → c < until
        → releases_in (near_of since until placed) c slot ≡ releases_in placed c slot }
{}
