//! Laws about histories. Each function has an empty body, and its contract is the law.

ghost use Rattle.std.specs.Prelude.{◌≡◌, ℕ, ◌+◌, ◌<◌, ◌≤◌, ◌++◌, ◌∷◌, [], List, All, map, option_map, true};
ghost use Rattle.std.specs.List.{range_with_len};
ghost use Rattle.requirement_table.specs.declared.entries.Order.{Order};
ghost use Rattle.requirement_table.specs.Table.{IsWellPlaced, instance_in};
ghost use Rattle.change_protocol.specs.declared.operations.Change.{Change};
ghost use Rattle.change_protocol.specs.Applied.{IsChangedAt, without_end};
ghost use Rattle.planner_policies.specs.Plan.{IsValid, NeverMisses, mask_at, pending_at};
ghost use Rattle.admission_rules.specs.declared.Rules.{Rules};
ghost use Rattle.admission.specs.declared.verdict.Verdict.{Verdict};
ghost use Rattle.admission.specs.Verdict.{IsRules, IsVerdict, is_accepted};
ghost use Rattle.master_core.specs.declared.event.Event.{Event};
ghost use Rattle.master_core.specs.declared.apart.Snapshot.{Snapshot};
ghost use Rattle.master_core.specs.CorePlans.{IsLedTo, snapshot_of_core};
ghost use Rattle.master_core.specs.Cores.{CoreView, IsCore, IsCoreOrder, IsStateOf, answered_by, core_of, onward, opened, saved_of};
ghost use Rattle.master_core.specs.History.{IsLegal, IsRightAnswer, learned_of, next_of, placed_of, plan_of};
ghost use Rattle.master_core.specs.Orders.{IsOrder};
ghost use Rattle.master_core.specs.Openings.{openings_of};

use planner_policies::laws::loops;

/// The placed entries of a legal history are well placed, in slots and of nodes of the rules, and no deadline of theirs
/// is ever missed. So what is pending before the next cycle can be planned from.
pub fn legal_histories()
    ensures well_placed { (rules : Rules) (history : List Event)
        → IsLegal rules history → IsWellPlaced (placed_of history) }
    ensures slots { (rules : Rules) (history : List Event)
        → IsLegal rules history → All (λ p. p.entry.slot < rules.slots) (placed_of history) }
    ensures nodes { (rules : Rules) (history : List Event)
        → IsLegal rules history → All (λ p. p.entry.node < rules.nodes) (placed_of history) }
    ensures in_time { (rules : Rules) (history : List Event)
        → IsLegal rules history → NeverMisses (plan_of rules (placed_of history)) }
    ensures valid { (rules : Rules) (history : List Event) → IsLegal rules history
        → IsValid (placed_of history) (next_of history)
        (pending_at (plan_of rules (placed_of history)) (next_of history)) }
{}

/// One event more does not change the cycles that were opened: it changes the list from a start on that is not below
/// the next cycle. So the plan below that cycle stays, and what is pending before it, and each slot has the same
/// instance there, but for an end that its entry got.
pub fn one_event_more()
    ensures changed { (rules : Rules) (history : List Event) (event : Event) → IsLegal rules (history ++ event ∷ [])
        → (start : ℕ) × (next_of history ≤ start)
        × IsChangedAt start (placed_of history) (placed_of (history ++ event ∷ [])) }
    ensures masks { (rules : Rules) (history : List Event) (event : Event) (c : ℕ)
        → IsLegal rules (history ++ event ∷ []) → c < next_of history
        → mask_at (plan_of rules (placed_of (history ++ event ∷ []))) c
        ≡ mask_at (plan_of rules (placed_of history)) c }
    ensures pending { (rules : Rules) (history : List Event) (event : Event) (c : ℕ)
        → IsLegal rules (history ++ event ∷ []) → c ≤ next_of history
        → pending_at (plan_of rules (placed_of (history ++ event ∷ []))) c
        ≡ pending_at (plan_of rules (placed_of history)) c }
    ensures instances { (rules : Rules) (history : List Event) (event : Event) (c slot : ℕ)
        → IsLegal rules (history ++ event ∷ []) → c < next_of history
        → option_map without_end (instance_in (placed_of (history ++ event ∷ [])) slot c)
        ≡ option_map without_end (instance_in (placed_of history) slot c) }
{}

/// A legal history opens the cycles below the next one, in their order, each once. Each was opened with the plan of all
/// placed entries there are, also of those that were placed later, and each slot had the same instance in it, but for
/// an end that its entry got later.
pub fn opened_cycles()
    ensures cycles { (rules : Rules) (history : List Event) → IsLegal rules history
        → map (λ o. o.cycle) (openings_of history) ≡ range_with_len 0 (next_of history) }
    ensures masks { (rules : Rules) (history : List Event) → IsLegal rules history
        → All (λ o. o.mask ≡ mask_at (plan_of rules (placed_of history)) o.cycle) (openings_of history) }
    ensures instances { (rules : Rules) (history : List Event) → IsLegal rules history
        → All (λ o. (slot : ℕ) → option_map without_end (instance_in o.placed slot o.cycle)
        ≡ option_map without_end (instance_in (placed_of history) slot o.cycle)) (openings_of history) }
{}

/// A change that is accepted by a plan from an earlier cycle is accepted too where it is planned from the next cycle:
/// what repeats within the horizon repeats from there on too.
pub fn accepted_anew()
    ensures accepted { (rules : Rules) (history : List Event) (change : Change) (from : ℕ)
        (verdict anew : Verdict) (trail : List ℕ) → IsRules rules → IsLegal rules history
        → IsRightAnswer rules history change from verdict trail → is_accepted verdict ≡ true
        → IsVerdict rules (placed_of history) (pending_at (plan_of rules (placed_of history)) (next_of history))
        (next_of history) (next_of history) change anew → is_accepted anew ≡ true }
{
    loops();
}

/// A core that is the state after a history goes on with the plan of the placed entries of the history. What it orders for
/// the next cycle is what is ordered after the history. But the nodes are to learn the list that it keeps.
pub fn cores_after_histories()
    ensures masks { (history : List Event) (core : CoreView) (n : ℕ) → IsCore core → IsStateOf history core
        → mask_at (onward core) n ≡ mask_at (plan_of core.rules (placed_of history)) (next_of history + n) }
    ensures order { (history : List Event) (core : CoreView) (order : Order) → IsCore core → IsStateOf history core
        → IsCoreOrder core order → IsOrder core.rules history (record order { learned = learned_of history }) }
{}

/// What is saved of a core is saved of no other one.
pub fn saved_cores()
    ensures saved { (core : CoreView) → IsCore core → core_of (saved_of core) ≡ core }
{}

/// The plan from a snapshot leads to the core that it was taken of, and so it is behind each opening. Behind an accepted
/// change it leads to the core no more.
pub fn leading_plans()
    ensures here { (core : CoreView) → IsCore core → IsLedTo core (snapshot_of_core core) }
    ensures opened { (core : CoreView) (snapshot : Snapshot) → IsCore core → IsLedTo core snapshot
        → IsLedTo (opened core) snapshot }
    ensures accepted { (core : CoreView) (snapshot : Snapshot) (from : ℕ) (change : Change) (verdict : Verdict)
        → is_accepted verdict ≡ true → IsLedTo core snapshot
        → IsLedTo (answered_by core from change verdict) snapshot → ⊥ }
{}
