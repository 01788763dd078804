//! Laws about combinations and choices. Each function has no body of its own, and its contract is the law.

ghost use Rattle.std.specs.Prelude.{◌≡◌, ◌<◌, ◌++◌, ◌∷◌, [], ℕ, All, List};
ghost use Rattle.requirement_table.specs.declared.entries.Placed.{Placed};
ghost use Rattle.planner_policies.specs.Plan.{pending_at};
ghost use Rattle.admission_rules.specs.declared.Rules.{Rules};
ghost use Rattle.admission.specs.Verdict.{IsVerdict};
ghost use Rattle.admission.specs.declared.verdict.Verdict.{Verdict};
ghost use Rattle.admission.specs.declared.verdict.Verdict.TheVariants.{Accepted};
ghost use Rattle.master_core.specs.declared.event.Event.{Event};
ghost use Rattle.master_core.specs.declared.event.Event.TheVariants.{Submit};
ghost use Rattle.master_core.specs.History.{IsLegal, next_of, placed_of, plan_of};
ghost use Rattle.elastic.specs.Choice.{IsChoice, IsElasticFault};
ghost use Rattle.elastic.specs.Combination.{AreChoices, HasChoice, IsLexicallyBefore, change_of, combinations, operations_at};
ghost use Rattle.elastic.specs.Combination.{operations_in, places_in};
ghost use Rattle.elastic.specs.declared.choice.Choice.{Choice};
ghost use Rattle.elastic.specs.declared.choice.ElasticFault.{ElasticFault};
ghost use Rattle.elastic.specs.declared.choice.ElasticFault.TheVariants.{Memory};
ghost use Rattle.elastic.specs.declared.wish.Wish.{Wish};
ghost use Rattle.elastic.specs.declared.wish.WishOp.{WishOp};

use admission::laws::one_verdict;

/// A combination takes one choice of each operation, and each way to take one is the combination of a number below
/// theirs. With the numbers the choices rise as words in a dictionary do: the last list runs fastest.
pub fn combinations_in_order()
    ensures taken { (ops : List WishOp) (number : ℕ)
        → operations_in number ops ≡ operations_at ops (places_in number ops) }
    ensures choices { (ops : List WishOp) (number : ℕ) → All HasChoice ops → AreChoices ops (places_in number ops) }
    ensures each { (ops : List WishOp) (places : List ℕ) → AreChoices ops places
        → (number : ℕ) × (number < combinations ops) × (places_in number ops ≡ places) }
    ensures in_order { (ops : List WishOp) (number other : ℕ) → number < other → other < combinations ops
        → IsLexicallyBefore (places_in number ops) (places_in other ops) }
{}

/// Whoever judges the change of a chosen combination by the same rules, for the same list and from the same state,
/// accepts it with the numbers of the choice.
pub fn chosen_is_accepted()
    ensures accepted { (rules : Rules) (placed : List Placed) (pending from : ℕ)
        (wish : Wish) (choice : Choice) (verdict : Verdict) → IsChoice rules placed pending from wish choice
        → IsVerdict rules placed pending from from (change_of wish choice.number) verdict
        → verdict ≡ Accepted choice.first choice.length }
{
    one_verdict();
}

/// A master whose rules, list and state a combination was chosen from, and which is then asked for its change, accepts
/// it with the numbers of the choice: no history in which it answers something else is legal.
pub fn chosen_is_answered()
    ensures answered { (rules : Rules) (history : List Event) (wish : Wish) (choice : Choice)
        (caller : ℕ) (verdict : Verdict) (trail : List ℕ)
        → IsChoice rules (placed_of history) (pending_at (plan_of rules (placed_of history)) (next_of history))
        (next_of history) wish choice
        → IsLegal rules
        (history ++ Submit caller (change_of wish choice.number) (next_of history) verdict trail ∷ [])
        → verdict ≡ Accepted choice.first choice.length }
{
    one_verdict();
}

/// There is one choice at most, and where there is one, nothing but want of memory is why none would be made.
pub fn one_choice()
    ensures same { (rules : Rules) (placed : List Placed) (pending from : ℕ) (wish : Wish) (one other : Choice)
        → IsChoice rules placed pending from wish one → IsChoice rules placed pending from wish other → one ≡ other }
    ensures no_fault { (rules : Rules) (placed : List Placed) (pending from : ℕ) (wish : Wish) (choice : Choice)
        (fault : ElasticFault) → IsChoice rules placed pending from wish choice
        → IsElasticFault rules placed pending from wish fault → fault ≡ Memory }
{
    one_verdict();
}
