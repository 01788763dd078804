//! Laws about recurrences, verdicts and changes. Each function has no body of its own, and its contract is the law.

ghost use Rattle.std.specs.Prelude.{◌≡◌, ℕ, ◌+◌, ◌^◌, ◌<◌, ◌≤◌, List, All, length};
ghost use Rattle.profile.specs.Limits.{cycles_end, openings_end};
ghost use Rattle.requirement_table.specs.declared.entries.Placed.{Placed};
ghost use Rattle.bit_sets.specs.Sets.{has_bit, most_slots};
ghost use Rattle.requirement_table.specs.Table.{IsWellPlaced, not_over};
ghost use Rattle.change_protocol.specs.declared.operations.Change.{Change};
ghost use Rattle.change_protocol.specs.Applied.{applied};
ghost use Rattle.change_protocol.specs.Operations.{HasTypes};
ghost use Rattle.change_protocol.specs.Pruned.{pruned};
ghost use Rattle.planner_policies.specs.Plan.{HasNoMiss, IsValid, NeverMisses, Planning, mask_at, pending_at};
ghost use Rattle.planner_policies.specs.declared.state.PlanState.{PlanState};
ghost use Rattle.plan_check.specs.Certificate.{CertificateView};
ghost use Rattle.plan_check.specs.PlanKept.{HasPending};
ghost use Rattle.plan_check.specs.PlanText.{IsTextOfPlan, plan_text};
ghost use Rattle.admission_rules.specs.declared.Rules.{Rules};
ghost use Rattle.admission.specs.Certified.{IsCertificateFrom, IsCertificateOf, end_of};
ghost use Rattle.admission.specs.declared.verdict.Verdict.{Verdict};
ghost use Rattle.admission.specs.Recurrence.{IsRecurrence};
ghost use Rattle.admission.specs.Safe.{HasRepeat, IsSafeWithin};
ghost use Rattle.admission.specs.Verdict.{IsInTime, IsRules, IsTakenWhereDue, IsVerdict, IsVerdictOnPlan};
ghost use Rattle.admission.specs.Verdict.{masks_of, plan_from, trail_of};
ghost use Rattle.admission.specs.declared.verdict.Verdict.TheVariants.{Accepted};

/// There is one verdict on a change of a list, planned from a cycle on before which the same slots are pending, when
/// the same cycle is the next one to be opened.
pub fn one_verdict()
    ensures same { (rules : Rules) (placed : List Placed) (pending from next : ℕ)
        (change : Change) (one other : Verdict)
        → IsVerdict rules placed pending from next change one
        → IsVerdict rules placed pending from next change other → one ≡ other }
{}

/// A planning that repeats, and in which no instance is missed up to the end of the repeat, misses none at any later
/// cycle, by any policy.
pub fn repeats_for_ever()
    ensures never { (plan : Planning) (first length n : ℕ) → IsWellPlaced plan.placed → IsRecurrence plan first length
        → first + length ≤ plan.from + n → HasNoMiss plan n → NeverMisses plan }
{}

/// A change is not felt before its start: up to it the same slots are pending as without the change, and before it the
/// same slots are planned. So a planning of the changed list that begins at an earlier cycle has the masks of all
/// cycles that are opened until then.
pub fn not_felt_before_its_start()
    ensures pending { (rules : Rules) (placed : List Placed) (change : Change) (from pending n : ℕ)
        → IsWellPlaced placed → from + n ≤ change.start
        → pending_at (plan_from rules (applied placed change) from pending) n
        ≡ pending_at (plan_from rules placed from pending) n }
    ensures planned { (rules : Rules) (placed : List Placed) (change : Change) (from pending n : ℕ)
        → IsWellPlaced placed → from + n < change.start
        → mask_at (plan_from rules (applied placed change) from pending) n
        ≡ mask_at (plan_from rules placed from pending) n }
{}

/// A change that is in time by rules that are in range, and whose planning from a cycle on never misses a deadline, is
/// accepted wherever there is a cycle by which all entries have settled, in which each live entry releases an instance,
/// and which lies a whole common period within the horizon.
pub fn taken_where_due()
    ensures taken { (rules : Rules) (placed : List Placed) (pending from next : ℕ)
        (change : Change) (verdict : Verdict) → IsRules rules → IsWellPlaced placed
        → All HasTypes change.ops → IsValid placed from pending → from ≤ next → IsInTime rules placed next change
        → IsVerdict rules placed pending from next change verdict
        → IsTakenWhereDue rules (plan_from rules (applied placed change) from pending) verdict }
{}

/// The certificate of a table, which is the plan from cycle 0 on, is in the range of the checker. It has a mask for each
/// cycle, of slots that a set has room for. Nothing is pending before it, and its cycles are below the end of cycle
/// numbers. Where at most 100,000 cycles were opened, its text is that of a plan in the ranges of the reader too. So
/// reading gives it back, and it is never refused for its form. The certificate from a state on is in the range of the
/// checker too: each slot that is pending before it has an instance, as the state has, and its cycles are below that end.
pub fn certificates_in_range()
    ensures count { (plan : Planning) (n : ℕ) → length (masks_of plan n) ≡ n }
    ensures masks { (plan : Planning) (n : ℕ) → All (λ mask. mask < 2 ^ most_slots) (masks_of plan n) }
    ensures pending { (rules : Rules) (placed : List Placed) (opened : List ℕ) (state : PlanState)
        (certificate : CertificateView) → IsCertificateOf rules placed opened state certificate
        → HasPending placed certificate.from (has_bit certificate.pending) }
    ensures cycles { (rules : Rules) (placed : List Placed) (opened : List ℕ) (state : PlanState)
        (certificate : CertificateView) → IsRules rules → state.cycle ≤ openings_end
        → IsCertificateOf rules placed opened state certificate
        → certificate.masks ≡ masks_of (plan_from rules placed 0 0) (end_of certificate)
        → certificate.from + length certificate.masks ≤ cycles_end }
    ensures read { (rules : Rules) (placed : List Placed) (opened : List ℕ) (state : PlanState)
        (certificate : CertificateView) → IsRules rules → state.cycle ≤ 100000
        → IsCertificateOf rules placed opened state certificate
        → certificate.masks ≡ masks_of (plan_from rules placed 0 0) (end_of certificate)
        → IsTextOfPlan (plan_text certificate) certificate }
    ensures pending_from { (rules : Rules) (placed : List Placed) (state : PlanState) (certificate : CertificateView)
        → IsCertificateFrom rules placed state certificate → IsValid placed state.cycle state.pending
        → HasPending placed certificate.from (has_bit certificate.pending) }
    ensures cycles_from { (rules : Rules) (placed : List Placed) (state : PlanState) (certificate : CertificateView)
        → IsCertificateFrom rules placed state certificate → IsRules rules → state.cycle ≤ openings_end
        → certificate.from + length certificate.masks ≤ cycles_end }
{}

/// A list that is pruned by a cycle has the verdict of the whole list on each change that is planned from that cycle or
/// a later one.
pub fn pruned_lists()
    ensures verdict { (rules : Rules) (c from pending next : ℕ) (placed : List Placed) (change : Change)
        (verdict : Verdict) → c ≤ from → IsWellPlaced placed → rules.slots ≤ most_slots → All HasTypes change.ops
        → IsVerdict rules (pruned c placed) pending from next change verdict
        → IsVerdict rules placed pending from next change verdict }
    ensures trail { (rules : Rules) (c from pending next : ℕ) (placed : List Placed) (change : Change)
        (verdict : Verdict) → c ≤ from → IsWellPlaced placed → rules.slots ≤ most_slots → All HasTypes change.ops
        → IsVerdict rules (pruned c placed) pending from next change verdict
        → trail_of (plan_from rules (applied (pruned c placed) change) from pending) verdict
        ≡ trail_of (plan_from rules (applied placed change) from pending) verdict }
    ensures well_placed { (c : ℕ) (placed : List Placed) → IsWellPlaced placed → IsWellPlaced (pruned c placed) }
    ensures due { (rules : Rules) (c from pending next : ℕ) (placed : List Placed) (change : Change)
        (verdict : Verdict) → c ≤ from → IsWellPlaced placed → rules.slots ≤ most_slots → All HasTypes change.ops
        → (IsInTime rules (pruned c placed) next change
        → IsTakenWhereDue rules (plan_from rules (applied (pruned c placed) change) from pending) verdict)
        → IsInTime rules placed next change
        → IsTakenWhereDue rules (plan_from rules (applied placed change) from pending) verdict }
{}

/// What an accepted change makes is safe within the horizon, and stays so: at each later cycle that is opened, with the
/// slots that the plan leaves pending, and where the list is pruned by that cycle or an earlier one. So is each well placed
/// list that has the same entries that are not over by the first cycle. A pruned list has the plan of the whole one.
pub fn safe_states()
    ensures found { (horizon : ℕ) (plan : Planning) (first length : ℕ)
        → IsVerdictOnPlan horizon plan (Accepted first length) → HasRepeat plan horizon }
    ensures later { (rules : Rules) (placed : List Placed) (from pending n : ℕ) → from + n ≤ openings_end
        → IsSafeWithin rules placed from pending
        → IsSafeWithin rules placed (from + n) (pending_at (plan_from rules placed from pending) n) }
    ensures pruned { (rules : Rules) (placed : List Placed) (c from pending : ℕ) → c ≤ from
        → IsSafeWithin rules placed from pending → IsSafeWithin rules (pruned c placed) from pending }
    ensures whole { (rules : Rules) (placed list : List Placed) (from pending : ℕ) → IsWellPlaced placed
        → not_over from list ≡ not_over from placed
        → IsSafeWithin rules list from pending → IsSafeWithin rules placed from pending }
    ensures pending { (rules : Rules) (placed : List Placed) (c from pending n : ℕ) → c ≤ from → IsWellPlaced placed
        → pending_at (plan_from rules (pruned c placed) from pending) n
        ≡ pending_at (plan_from rules placed from pending) n }
    ensures planned { (rules : Rules) (placed : List Placed) (c from pending n : ℕ) → c ≤ from → IsWellPlaced placed
        → masks_of (plan_from rules (pruned c placed) from pending) n
        ≡ masks_of (plan_from rules placed from pending) n }
{}
