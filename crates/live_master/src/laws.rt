//! Laws of the calls of a shared master, for the crates whose contracts speak of them. Each function has an empty body,
//! and its contract is the law.

ghost use Rattle.std.specs.Prelude.{◌≡◌, ◌↔◌, ℕ, ◌≤◌, List, filter, true};
ghost use Rattle.admission_rules.specs.declared.Rules.{Rules};
ghost use Rattle.turn_lock.specs.History.{own};
ghost use Rattle.turn_lock.specs.Passes.{Facts};
ghost use Rattle.turn_lock.specs.declared.view.View.{View};
ghost use Rattle.master_core.specs.declared.event.Event.{Event};
ghost use Rattle.master_core.specs.History.{is_open, next_of};
ghost use Rattle.live_master.specs.Callers.{is_called_by, number_of};

/// Each pass makes events of its own kind. The dispatcher's, of number 0, makes openings and nothing else, and that of
/// operator `k`, 1 to 8, makes the changes and looks of this operator and nothing else.
pub fn events_of_passes()
    ensures openings { (event : Event) → (number_of event ≡ 0) ↔ (is_open event ≡ true) }
    ensures calls { (k : ℕ) (event : Event) → 1 ≤ k → k ≤ 8 → (number_of event ≡ k) ↔ (is_called_by k event ≡ true) }
{}

/// So the events of the pass 0 in a history are its openings, and those of the pass `k` are the changes and looks of
/// operator `k`.
pub fn events_in_histories()
    ensures openings { (history : List Event) → own number_of 0 history ≡ filter is_open history }
    ensures calls { (k : ℕ) (history : List Event) → 1 ≤ k → k ≤ 8
        → own number_of k history ≡ filter (is_called_by k) history }
{}

/// The dispatcher made all openings that it has seen, and it made nothing else.
pub fn openings_of_dispatchers()
    ensures openings { (v : View Event Rules) → Facts number_of v → v.number ≡ 0 → filter is_open v.seen ≡ v.mine }
    ensures cycles { (v : View Event Rules) → Facts number_of v → v.number ≡ 0 → next_of v.seen ≡ next_of v.mine }
{}
