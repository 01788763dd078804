//! Laws of a handover. Each function has an empty body but for calls of other laws, and its contract is the law.

ghost use Rattle.std.specs.Prelude.{◌≡◌, ℕ, ◌^◌, ◌<◌, ◌≤◌, ◌++◌, ◌∷◌, [], true, List, Some, map};
ghost use Rattle.profile.specs.Limits.{longest_window};
ghost use Rattle.can_frame.specs.DataFrame.{DataFrame};
ghost use Rattle.requirement_table.specs.declared.entries.Order.{Order};
ghost use Rattle.bit_sets.specs.Sets.{has_bit};
ghost use Rattle.requirement_table.specs.Table.{width_in};
ghost use Rattle.trigger_kind.specs.Kind.{IsSlots};
ghost use Rattle.change_protocol.specs.declared.operations.Change.{Change};
ghost use Rattle.admission_rules.specs.declared.Rules.{Rules};
ghost use Rattle.admission.specs.Verdict.{is_accepted};
ghost use Rattle.admission.specs.declared.verdict.Verdict.{Verdict};
ghost use Rattle.master_core.specs.declared.event.Event.{Event};
ghost use Rattle.master_core.specs.declared.event.Event.TheVariants.{Submit, Open};
ghost use Rattle.master_core.specs.Calls.{call_of};
ghost use Rattle.master_core.specs.History.{AllAfter, IsLegal, IsPlainlyLegal, IsPlannedNow, IsRight, is_changed, learned_of, next_of, placed_of};
ghost use Rattle.master_core.specs.Openings.{openings_after, openings_of};
ghost use Rattle.master_core.specs.Orders.{IsOrder};
ghost use Rattle.trigger_codec.specs.Bytes.{triggers_with};
ghost use Rattle.standby.specs.Core.{core_of, items_of};
ghost use Rattle.standby.specs.Following.{IsChanged, IsOpened, due_frames};
ghost use Rattle.standby.specs.Handover.{IsBehind, told_after};
ghost use Rattle.trigger_codec.specs.Heard.{heard_of};

use admission::laws::one_verdict;

/// The trigger frames of a cycle say what they were made of; a table has 40 slots or 96.
pub fn trigger_frames()
    ensures heard { (slots cycle l mask : ℕ) → IsSlots slots → l ≤ longest_window → mask < 2 ^ slots
        → heard_of slots cycle (triggers_with slots cycle l mask) ≡ Some (record { l = l; mask = mask }) }
{}

/// What a master has worked out of its history is worked out of the core alone: the placed entries, the next cycle, what
/// the nodes are to learn, and the openings. So two histories with one core have the same plan, and the same event is
/// right behind both.
pub fn one_core()
    ensures placed { (one other : List Event) → core_of one ≡ core_of other → placed_of one ≡ placed_of other }
    ensures next { (one other : List Event) → core_of one ≡ core_of other → next_of one ≡ next_of other }
    ensures changed { (one other : List Event) → core_of one ≡ core_of other → is_changed one ≡ is_changed other }
    ensures learned { (one other : List Event) → core_of one ≡ core_of other → learned_of one ≡ learned_of other }
    ensures openings { (one other : List Event) → core_of one ≡ core_of other → openings_of one ≡ openings_of other }
    ensures order { (rules : Rules) (one other : List Event) (order : Order) → core_of one ≡ core_of other
        → IsOrder rules one order → IsOrder rules other order }
    ensures right { (rules : Rules) (one other : List Event) (event : Event) → core_of one ≡ core_of other
        → IsRight rules one event → IsRight rules other event }
{}

/// *Handover*: where two histories have one core, whatever may follow the one may follow the other, with the same
/// openings. Where both go on by the same calls, each change planned when it is asked for, the same events follow.
pub fn goes_on()
    ensures legal { (rules : Rules) (one other later : List Event) → core_of one ≡ core_of other
        → IsLegal rules one → IsLegal rules (other ++ later) → IsLegal rules (one ++ later) }
    ensures plain { (rules : Rules) (one other later : List Event) → core_of one ≡ core_of other
        → IsPlainlyLegal rules one → IsPlainlyLegal rules (other ++ later) → IsPlainlyLegal rules (one ++ later) }
    ensures openings { (one other later : List Event) → core_of one ≡ core_of other
        → openings_after one later ≡ openings_after other later }
    ensures events { (rules : Rules) (one other later also : List Event) → core_of one ≡ core_of other
        → AllAfter (IsRight rules) one later → AllAfter IsPlannedNow one later
        → AllAfter (IsRight rules) other also → AllAfter IsPlannedNow other also
        → map call_of later ≡ map call_of also → later ≡ also }
{
    one_verdict();
}

/// A standby that has the core of the first master's history follows the next event so that it has the core again: it
/// hears the trigger frames of an opening, which are those that are due, and is told an accepted change. Of other events
/// it is told nothing.
pub fn follows_each()
    ensures due { (rules : Rules) (whole own : List Event) (cycle mask : ℕ) → core_of whole ≡ core_of own
        → IsRight rules whole (Open cycle mask)
        → triggers_with rules.slots cycle (width_in (placed_of whole) cycle (has_bit mask)) mask
        ≡ due_frames (record { rules = rules; history = own }) }
    ensures opened { (rules : Rules) (whole own new : List Event) (cycle mask : ℕ) (frames : List DataFrame)
        → core_of whole ≡ core_of own → IsRight rules whole (Open cycle mask)
        → IsOpened (record { rules = rules; history = own }) frames new
        → core_of (whole ++ Open cycle mask ∷ []) ≡ core_of new }
    ensures changed { (rules : Rules) (whole own new : List Event) (caller from : ℕ) (change : Change)
        (verdict : Verdict) (trail : List ℕ) → core_of whole ≡ core_of own → is_accepted verdict ≡ true
        → IsChanged (record { rules = rules; history = own }) caller change new
        → core_of (whole ++ Submit caller change from verdict trail ∷ []) ≡ core_of new }
    ensures untold { (whole own : List Event) (event : Event) → core_of whole ≡ core_of own → items_of event ≡ []
        → core_of (whole ++ event ∷ []) ≡ core_of own }
{}

/// One who was told nothing yet is behind by all that is to be told of a history. Where nothing is left to be told, it
/// has the core of the whole history.
pub fn told_whole()
    ensures nothing { (rules : Rules) (whole : List Event) → IsBehind rules whole [] (told_after rules [] whole) }
    ensures all { (rules : Rules) (whole own : List Event) → IsBehind rules whole own []
        → core_of whole ≡ core_of own }
{}
