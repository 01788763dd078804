//! Laws about plans. Each function has an empty body but for calls of other laws, and its contract is the law.

ghost use Rattle.std.specs.Prelude.{◌≡◌, ℕ, ◌+◌, ◌-◌, ◌<◌, ◌≤◌, ◌↔◌};
ghost use Rattle.std.specs.Prelude.{Bool, true, false, IsSome, List, All, Contains, take, drop, filter};
ghost use Rattle.requirement_table.specs.declared.entries.Placed.{Placed};
ghost use Rattle.bit_sets.specs.Sets.{has_bit, set_of, most_slots};
ghost use Rattle.requirement_table.specs.Flags.{HasWaiting, HasWaitingBefore, IsGoodCycle};
ghost use Rattle.requirement_table.specs.Table.{IsFreeAt, IsWellPlaced, held_before};
ghost use Rattle.requirement_table.specs.Table.{instance_in, releases_in, width_in, worst_in};
ghost use Rattle.planner_policies.specs.declared.Fill.TheVariants.{Prefix, Skip};
ghost use Rattle.planner_policies.specs.declared.Policy.{Policy};
ghost use Rattle.planner_policies.specs.Loop.{RepeatsFrom};
ghost use Rattle.planner_policies.specs.Order.{HasLongestFront, IsInKeyOrder, IsLongestFront, TakesWhatFits, width_with};
ghost use Rattle.planner_policies.specs.Plan.{HasNoMiss, HasNoMissIn, IsMissAt, IsMissIn, IsValid, NeverMisses};
ghost use Rattle.planner_policies.specs.Plan.{Planning, flags_of, is_by, is_missed_at, is_missed_in, left_after};
ghost use Rattle.planner_policies.specs.Plan.{mask_at, pending_at, pending_before, pending_in, planned_at, planned_in};

use requirement_table::laws::waiting_slots;

/// Key order is a total order of the slots.
pub fn key_order()
    ensures itself { (policy : Policy) (placed : List Placed) (c slot : ℕ) → is_by policy placed c slot slot ≡ true }
    ensures total { (policy : Policy) (placed : List Placed) (c one other : ℕ)
        → is_by policy placed c one other ≡ false → is_by policy placed c other one ≡ true }
    ensures one_way { (policy : Policy) (placed : List Placed) (c one other : ℕ)
        → is_by policy placed c one other ≡ true → is_by policy placed c other one ≡ true → one ≡ other }
    ensures along { (policy : Policy) (placed : List Placed) (c one other third : ℕ)
        → is_by policy placed c one other ≡ true → is_by policy placed c other third ≡ true
        → is_by policy placed c one third ≡ true }
{}

/// With the filling `Prefix` what is planned in a cycle is the longest front of the pending slots, in key order, whose
/// worst lengths fit the window together. There always is one.
pub fn longest_front()
    ensures planned { (plan : Planning) (c : ℕ) (before : ℕ → Bool) (order : List ℕ) (n slot : ℕ)
        → plan.fill ≡ Prefix → IsInKeyOrder plan c before order
        → IsLongestFront (worst_in plan.placed c) plan.window order n → slot < most_slots
        → (planned_in plan c before slot ≡ true) ↔ Contains (take n order) slot }
    ensures left { (plan : Planning) (c : ℕ) (before : ℕ → Bool) (order : List ℕ) (n slot : ℕ)
        → plan.fill ≡ Prefix → IsInKeyOrder plan c before order
        → IsLongestFront (worst_in plan.placed c) plan.window order n → slot < most_slots
        → (left_after plan c before slot ≡ true) ↔ Contains (drop n order) slot }
    ensures there { (plan : Planning) (c : ℕ) (before : ℕ → Bool) → HasLongestFront plan c before }
{}

/// With the filling `Skip` a slot is planned in a cycle exactly where it is pending, and its worst length and those of
/// the planned slots before it in key order sum to at most the window. No other slots could be planned so. All that the
/// filling `Prefix` plans of the same pending slots is planned, and what is left would not have fitted.
pub fn each_that_fits()
    ensures planned { (plan : Planning) (c : ℕ) (before : ℕ → Bool) → plan.fill ≡ Skip
        → TakesWhatFits plan c before (planned_in plan c before) }
    ensures one { (plan : Planning) (c : ℕ) (before test : ℕ → Bool) (slot : ℕ) → plan.fill ≡ Skip
        → TakesWhatFits plan c before test → slot < most_slots → test slot ≡ planned_in plan c before slot }
    ensures more { (plan : Planning) (c : ℕ) (before : ℕ → Bool) (slot : ℕ) → plan.fill ≡ Skip → slot < most_slots
        → planned_in (record plan { fill = Prefix }) c before slot ≡ true → planned_in plan c before slot ≡ true }
    ensures left { (plan : Planning) (c : ℕ) (before : ℕ → Bool) (slot : ℕ) → plan.fill ≡ Skip → slot < most_slots
        → left_after plan c before slot ≡ true → plan.window < width_with plan c (planned_in plan c before) slot }
{}

/// Where all pending slots fit the window together, all are planned, with either filling.
pub fn all_that_fit()
    ensures all { (plan : Planning) (c : ℕ) (before : ℕ → Bool) (slot : ℕ) → slot < most_slots
        → width_in plan.placed c (pending_in plan.placed c before) ≤ plan.window
        → pending_in plan.placed c before slot ≡ true → planned_in plan c before slot ≡ true }
{}

/// The plan follows from the instances of the slots: two tables that have the same ones in the cycles of a planning
/// have the same plan.
pub fn same_instances()
    ensures pending { (plan : Planning) (placed : List Placed) (n : ℕ)
        → ((k slot : ℕ) → k < n → slot < most_slots
        → instance_in placed slot (plan.from + k) ≡ instance_in plan.placed slot (plan.from + k))
        → ((k slot : ℕ) → k < n → slot < most_slots
        → releases_in placed (plan.from + k) slot ≡ releases_in plan.placed (plan.from + k) slot)
        → (m slot : ℕ) → m ≤ n → slot < most_slots
        → pending_before (record plan { placed = placed }) m slot ≡ pending_before plan m slot }
    ensures planned { (plan : Planning) (placed : List Placed) (n : ℕ)
        → ((k slot : ℕ) → k < n → slot < most_slots
        → instance_in placed slot (plan.from + k) ≡ instance_in plan.placed slot (plan.from + k))
        → ((k slot : ℕ) → k < n → slot < most_slots
        → releases_in placed (plan.from + k) slot ≡ releases_in plan.placed (plan.from + k) slot)
        → (m slot : ℕ) → m < n → slot < most_slots
        → planned_at (record plan { placed = placed }) m slot ≡ planned_at plan m slot }
    ensures missed { (plan : Planning) (placed : List Placed) (n : ℕ)
        → ((k slot : ℕ) → k < n → slot < most_slots
        → instance_in placed slot (plan.from + k) ≡ instance_in plan.placed slot (plan.from + k))
        → ((k slot : ℕ) → k < n → slot < most_slots
        → releases_in placed (plan.from + k) slot ≡ releases_in plan.placed (plan.from + k) slot)
        → (m slot : ℕ) → m < n → slot < most_slots
        → is_missed_at (record plan { placed = placed }) m slot ≡ is_missed_at plan m slot }
{}

/// A planning goes on from what it left: the one that begins at a later cycle, with the slots that are pending before
/// it, has the same plan from there on.
pub fn going_on()
    ensures pending { (plan : Planning) (n m slot : ℕ) → slot < most_slots
        → pending_before plan (n + m) slot
        ≡ pending_before (record plan { from = plan.from + n; pending = pending_at plan n }) m slot }
    ensures planned { (plan : Planning) (n m slot : ℕ) → slot < most_slots
        → planned_at plan (n + m) slot
        ≡ planned_at (record plan { from = plan.from + n; pending = pending_at plan n }) m slot }
    ensures missed { (plan : Planning) (n m slot : ℕ) → slot < most_slots
        → is_missed_at plan (n + m) slot
        ≡ is_missed_at (record plan { from = plan.from + n; pending = pending_at plan n }) m slot }
{}

/// A state at the n-th cycle of a planning, which is the cycle and the set of the slots pending before it, has what is
/// planned in that cycle, and leads to the state at the next one.
pub fn states()
    ensures planned { (plan : Planning) (n : ℕ)
        → set_of most_slots (planned_in plan (plan.from + n) (has_bit (pending_at plan n))) ≡ mask_at plan n }
    ensures left { (plan : Planning) (n : ℕ)
        → set_of most_slots (left_after plan (plan.from + n) (has_bit (pending_at plan n))) ≡ pending_at plan (n + 1) }
    ensures missed { (plan : Planning) (n slot : ℕ) → slot < most_slots
        → is_missed_in plan (plan.from + n) (has_bit (pending_at plan n)) slot ≡ is_missed_at plan n slot }
    ensures miss { (plan : Planning) (n slot release : ℕ)
        → IsMissIn plan (plan.from + n) (has_bit (pending_at plan n)) slot release
        → IsMissAt plan n slot release }
{}

/// The loop of a plan: where the same slots are pending before two cycles, by which all entries have settled and
/// between which there is a whole number of periods of each live entry, the plan goes on from the second one as it did
/// from the first one. Where no instance is missed up to the second one, none is missed at any later cycle, by any
/// policy and with any filling.
pub fn loops()
    ensures pending { (plan : Planning) (n m k slot : ℕ) → IsWellPlaced plan.placed → n < m
        → All (RepeatsFrom (plan.from + n) (m - n)) plan.placed → pending_at plan n ≡ pending_at plan m → slot < most_slots
        → pending_before plan (m + k) slot ≡ pending_before plan (n + k) slot }
    ensures planned { (plan : Planning) (n m k slot : ℕ) → IsWellPlaced plan.placed → n < m
        → All (RepeatsFrom (plan.from + n) (m - n)) plan.placed → pending_at plan n ≡ pending_at plan m → slot < most_slots
        → planned_at plan (m + k) slot ≡ planned_at plan (n + k) slot }
    ensures never_missed { (plan : Planning) (n m : ℕ) → IsWellPlaced plan.placed → n < m
        → All (RepeatsFrom (plan.from + n) (m - n)) plan.placed → pending_at plan n ≡ pending_at plan m
        → HasNoMiss plan m → NeverMisses plan }
{}

/// What is planned fits the window, is pending, and where the state is valid has an instance that may be sent.
pub fn planned_slots()
    ensures fits { (plan : Planning) (c : ℕ) (before : ℕ → Bool)
        → width_in plan.placed c (planned_in plan c before) ≤ plan.window }
    ensures pending { (plan : Planning) (c : ℕ) (before : ℕ → Bool) (slot : ℕ) → planned_in plan c before slot ≡ true
        → pending_in plan.placed c before slot ≡ true }
    ensures sendable { (plan : Planning) (c pending slot : ℕ) → IsWellPlaced plan.placed → IsValid plan.placed c pending
        → planned_in plan c (has_bit pending) slot ≡ true → IsSome (instance_in plan.placed slot c) }
{}

/// From a valid state a planning without a miss goes on in valid states.
pub fn valid_states()
    ensures next { (plan : Planning) (c pending : ℕ) → IsWellPlaced plan.placed → IsValid plan.placed c pending
        → HasNoMissIn plan c (has_bit pending)
        → IsValid plan.placed (c + 1) (set_of most_slots (left_after plan c (has_bit pending))) }
    ensures along { (plan : Planning) (n : ℕ) → IsWellPlaced plan.placed → IsValid plan.placed plan.from plan.pending
        → HasNoMiss plan n → IsValid plan.placed (plan.from + n) (pending_at plan n) }
{}

/// As long as no instance is missed the plan keeps the table: it flags slots that hold an instance, and flags each of
/// them in time.
pub fn keeping()
    ensures held { (plan : Planning) (n slot : ℕ)
        → held_before plan.placed (flags_of plan) plan.from (has_bit plan.pending) n slot
        ≡ pending_before plan n slot }
    ensures good { (plan : Planning) (n m : ℕ) → HasNoMiss plan n → m < n
        → IsGoodCycle plan.placed (flags_of plan) plan.from (has_bit plan.pending) m }
{}

/// As long as no instance is missed, from a valid state on: a slot is pending in the n-th cycle exactly where one of its
/// instances is, which was released, is not over and was not planned before. It is pending before that cycle exactly
/// where such an instance was released before it.
pub fn pending_slots()
    ensures before { (plan : Planning) (n : ℕ) → IsWellPlaced plan.placed
        → IsValid plan.placed plan.from plan.pending → HasNoMiss plan n
        → (slot : ℕ) → (pending_before plan n slot ≡ true)
        ↔ HasWaitingBefore plan.placed (flags_of plan) plan.from (has_bit plan.pending) (plan.from + n) slot }
    ensures within { (plan : Planning) (n : ℕ) → IsWellPlaced plan.placed
        → IsValid plan.placed plan.from plan.pending → HasNoMiss plan n
        → (slot : ℕ) → (pending_in plan.placed (plan.from + n) (pending_before plan n) slot ≡ true)
        ↔ HasWaiting plan.placed (flags_of plan) plan.from (has_bit plan.pending) (plan.from + n) slot }
{
    waiting_slots();
}
