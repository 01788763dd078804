//! What follows from the definitions, each as the contract of a function that does nothing.

ghost use Rattle.std.specs.Prelude.{◌≡◌, ℕ, ◌+◌, ◌*◌, ◌<◌, ◌≤◌, ◌↔◌, ◌⊎◌, Bool, List, length, IsTrue};
ghost use Rattle.stuff_bound.specs.Stuffing.{Stuffs, stuffed};
ghost use Rattle.stuff_bound.specs.StuffFault.{HasFirstSixth, EndsInFive};
ghost use Rattle.stuff_bound.specs.ByPlace.{bit_at, are_equal, StuffsByPlace, HasFirstSixthByPlace, EndsInFiveByPlace};

/// Each list is stuffed by exactly one list, and what a list stuffs is one list.
pub fn one_wire()
    ensures one_wire { (wire plain : List Bool) → Stuffs wire plain ↔ (wire ≡ stuffed plain) }
    ensures one_plain { (wire first second : List Bool) → Stuffs wire first → Stuffs wire second → first ≡ second }
{}

/// Stuffing takes no bit away, and adds fewer than one for each four that it finds.
pub fn lengths()
    ensures at_least { (plain : List Bool) → length plain ≤ length (stuffed plain) }
    ensures at_most { (plain : List Bool) → 0 < length plain
        → 4 * length (stuffed plain) + 1 ≤ 5 * length plain }
{}

/// Each list of bits stuffs some list, or has a first sixth equal bit, or ends with five equal bits,
/// and no two of these hold.
pub fn one_answer()
    ensures some { (wire : List Bool) → ((plain : List Bool) × Stuffs wire plain)
        ⊎ (((place : ℕ) × HasFirstSixth wire place) ⊎ EndsInFive wire) }
    ensures plain_or_sixth { (wire plain : List Bool) (place : ℕ) → Stuffs wire plain → ¬ HasFirstSixth wire place }
    ensures plain_or_five { (wire plain : List Bool) → Stuffs wire plain → ¬ EndsInFive wire }
    ensures sixth_or_five { (wire : List Bool) (place : ℕ) → HasFirstSixth wire place → ¬ EndsInFive wire }
    ensures one_sixth { (wire : List Bool) (first second : ℕ) → HasFirstSixth wire first
        → HasFirstSixth wire second → first ≡ second }
{}

/// What `are_equal` tests: that many neighbours are there, and each is the first one.
pub fn equal_neighbours()
    ensures equal_neighbours { (wire : List Bool) (start count : ℕ) → IsTrue (are_equal wire start count)
        ↔ ((start + count ≤ length wire)
        × ((k : ℕ) → k < count → bit_at wire (start + k) ≡ bit_at wire start)) }
{}

/// The definitions, which look at what was sent newest first, say what the same words say by places in
/// the order of sending.
pub fn by_place()
    ensures stuffs { (wire plain : List Bool) → Stuffs wire plain ↔ StuffsByPlace wire plain }
    ensures sixth { (wire : List Bool) (place : ℕ) → HasFirstSixth wire place ↔ HasFirstSixthByPlace wire place }
    ensures five { (wire : List Bool) → EndsInFive wire ↔ EndsInFiveByPlace wire }
{}
