//! Laws about the definitions of this crate. Each function has an empty body, and its contract is the law.

ghost use Rattle.std.specs.Prelude.{◌≡◌, ℕ, ◌<◌, ◌≤◌, ◌↔◌, List, Some, All, IsSomeAnd, length, slice_get};
ghost use Rattle.std.specs.Option.{option_map};
ghost use Rattle.requirement_table.specs.declared.entries.Placed.{Placed};
ghost use Rattle.bit_sets.specs.Sets.{most_slots};
ghost use Rattle.requirement_table.specs.Instance.{Instance, release_of};
ghost use Rattle.requirement_table.specs.Table.{IsWellPlaced, instance_in, is_last_in, not_over};
ghost use Rattle.requirement_table.specs.Table.{released_in, releases_in, worst_in};
ghost use Rattle.change_protocol.specs.declared.operations.Change.{Change};
ghost use Rattle.change_protocol.specs.Applied.{IsChangedAt, IsKept, IsNewFrom, applied, without_end};
ghost use Rattle.change_protocol.specs.Malformed.{Bounds, IsWellFormed, faults};
ghost use Rattle.change_protocol.specs.Pruned.{pruned};
ghost use Rattle.change_protocol.specs.WellFormed.{BreaksNoRule};
ghost use Rattle.change_protocol.specs.Operations.{HasTypes};

/// A change is well formed exactly where it has 1 to 16 operations on distinct slots, starts below 2^40, and each of
/// its operations has a known slot, an entry that can be placed, and finds its slot as it needs it: free at the start,
/// or with a live entry that does not begin behind it.
pub fn well_formed_changes()
    ensures formed { (placed : List Placed) (bounds : Bounds) (change : Change) → IsWellPlaced placed
        → IsWellFormed placed bounds change ↔ BreaksNoRule placed bounds change }
{}

/// What a change makes of a well placed list came from it by a change with that start. It is well placed where the
/// change is well formed, for at most as many slots as a set of slots has room for.
pub fn lists_after_a_change()
    ensures changed { (placed : List Placed) (change : Change) → IsWellPlaced placed
        → IsChangedAt change.start placed (applied placed change) }
    ensures well_placed { (placed : List Placed) (bounds : Bounds) (change : Change)
        → bounds.slots ≤ most_slots → IsWellPlaced placed → All HasTypes change.ops → IsWellFormed placed bounds change → IsWellPlaced (applied placed change) }
{}

/// After a change each entry stands in its place, unchanged or with the start of the change as its end, where it was
/// live. Those behind are new.
pub fn entries_after_a_change()
    ensures kept { (start place : ℕ) (old new : List Placed) (p : Placed) → IsChangedAt start old new
        → slice_get old place ≡ Some p → IsSomeAnd (slice_get new place) (IsKept start p) }
    ensures new { (start place : ℕ) (old new : List Placed) (q : Placed) → IsChangedAt start old new
        → length old ≤ place → slice_get new place ≡ Some q → IsNewFrom start q }
{}

/// A change is not felt before its start: in each cycle before it the same slots have a release, and each slot may send
/// the same instance, which costs the same and has the same last cycle.
pub fn cycles_before_the_start()
    ensures released { (start c : ℕ) (old new : List Placed) → IsChangedAt start old new → c < start
        → released_in new c ≡ released_in old c }
    ensures releases { (start c slot : ℕ) (old new : List Placed) → IsChangedAt start old new → c < start
        → releases_in new c slot ≡ releases_in old c slot }
    ensures instance { (start c slot : ℕ) (old new : List Placed) → IsChangedAt start old new → c < start
        → option_map without_end (instance_in new slot c) ≡ option_map without_end (instance_in old slot c) }
    ensures worst { (start c slot : ℕ) (old new : List Placed) → IsChangedAt start old new → c < start
        → worst_in new c slot ≡ worst_in old c slot }
    ensures last { (start c slot : ℕ) (old new : List Placed) → IsChangedAt start old new → c < start
        → is_last_in new c slot ≡ is_last_in old c slot }
{}

/// An instance that was released before the start of a change may be sent until its last cycle as if there had been no
/// change.
pub fn instances_released_before_the_start()
    ensures instance { (start c slot : ℕ) (old new : List Placed) (i : Instance) → IsChangedAt start old new
        → instance_in old slot c ≡ Some i → release_of i.placed i.number < start
        → option_map without_end (instance_in new slot c) ≡ Some (without_end i) }
    ensures worst { (start c slot : ℕ) (old new : List Placed) (i : Instance) → IsChangedAt start old new
        → instance_in old slot c ≡ Some i → release_of i.placed i.number < start
        → worst_in new c slot ≡ worst_in old c slot }
    ensures last { (start c slot : ℕ) (old new : List Placed) (i : Instance) → IsChangedAt start old new
        → instance_in old slot c ≡ Some i → release_of i.placed i.number < start
        → is_last_in new c slot ≡ is_last_in old c slot }
{}

/// A list that is pruned by a cycle finds the same faults in each change as the whole list does. From that cycle on the
/// same entries are not over, of the lists themselves and of what a change makes of them. A list may be pruned at any
/// time: what is pruned again later is as if it had not been pruned before.
pub fn pruned_lists()
    ensures faults { (c : ℕ) (placed : List Placed) (bounds : Bounds) (change : Change) → IsWellPlaced placed
        → faults (pruned c placed) bounds change ≡ faults placed bounds change }
    ensures left { (c from : ℕ) (placed : List Placed) → c ≤ from
        → not_over from (pruned c placed) ≡ not_over from placed }
    ensures applied { (c from : ℕ) (placed : List Placed) (change : Change) → c ≤ from
        → not_over from (applied (pruned c placed) change) ≡ not_over from (applied placed change) }
    ensures again { (early late : ℕ) (placed : List Placed) (change : Change) → early ≤ late
        → pruned late (applied (pruned early placed) change) ≡ pruned late (applied placed change) }
{}
