//! Calls of both searches for the first repeat of a walk.

ghost use Rattle.std.specs.Prelude.{◌≡◌, ◌+◌, ◌<◌, Some, None, nat_lt, nat_eq, if◌then◌else◌};

use crate::numbers::{first, number};
use profile::GREATEST_HORIZON;
use recurrence_check::{Keyed, Repeat, Stretch, Walk, WalkEnd, lasso, lasso_keyed};
use std::alloc::{AllocError, Global};

/// The values 0, 1, 2 and so on up to `top`, and then again those from `back` to `top`. The walk
/// does not go on from the value `stop`. States with the same value are the same.
#[derive(Clone, Copy)]
struct Values {
    back: u64,
    top: u64,
    stop: u64,
}

/// A value, and the number of steps to it.
#[derive(Clone, Copy)]
struct SteppedValue {
    value: u64,
    steps: u64,
}

impl Values {
    /// The value behind a value.
    fn behind(&self, value: u64) -> Option<u64>
        ensures behind { result ≡ (if nat_eq value self.now.stop then None
            else Some (if nat_lt value self.now.top then value + 1 else self.now.back)) }
    {
        if value == self.stop {
            None
        } else if value < self.top {
            Some(value + 1)
        } else {
            Some(self.back)
        }
    }
}

impl Walk for Values {
    type State = SteppedValue;

    type Here = SteppedValue;

    ghost use Rattle.std.specs.Prelude.{Option};
    ghost use Rattle.std.specs.Option.{option_map};
    ghost use Rattle.std.proofs.Common.{refl, subst, sym, ◌∙◌, ℕ};
    ghost use Rattle.recurrence_check.specs.Course.{GoOnAlike};
    ghost use Rattle.plan_cases.specs.declared.walk_calls.SteppedValue.{SteppedValue};
    ghost use Rattle.plan_cases.specs.declared.walk_calls.Values.{Values};

    ghost course = { λ walk. record {
      start = record { value = 0; steps = 0 };
      next = λ place. option_map (λ value. record { value = value; steps = place.steps + 1 })
          (if nat_eq place.value walk.stop then None
          else Some (if nat_lt place.value walk.top then place.value + 1 else walk.back));
      alike = λ one other. one.value ≡ other.value;
    } };

    ghost is_good = { λ walk place. Unit {0} };

    ghost number = { λ walk place. place.steps };

    ghost state_of = { λ here. here };

    ghost is_on = { λ walk here. Unit {0} };

    fn begin(&self, _alloc: Global) -> Result<SteppedValue, AllocError> {
        Ok(SteppedValue { value: 0, steps: 0 })
    }

    fn state(&self, here: &SteppedValue) -> SteppedValue {
        *here
    }

    fn step(&self, here: &mut SteppedValue) -> Option<SteppedValue> {
        let value = self.behind(here.value)?;
        *here = SteppedValue {
            value,
            steps: here.steps + 1,
        };
        Some(*here)
    }

    fn same(&self, one: &SteppedValue, other: &SteppedValue) -> bool {
        one.value == other.value
    }

    ghost symmetric = { λ walk one other same. sym same };

    ghost transitive = { λ walk one other third same again. same ∙ again };

    ghost kept = { λ walk one other _ _ _ _ same.
        let behind : ℕ → Option ℕ = λ value. if nat_eq value walk.stop then None
        else Some (if nat_lt value walk.top then value + 1 else walk.back) in
        let place : ℕ → ℕ → SteppedValue = λ steps value. record { value = value; steps = steps + 1 } in
        let alike : Option SteppedValue → Option SteppedValue → Type 0 =
        GoOnAlike (λ (one other : SteppedValue). one.value ≡ other.value) in
        subst (λ value. alike (option_map (place one.steps) (behind one.value))
        (option_map (place other.steps) (behind value))) same
        (elim (behind one.value) as (λ found. alike (option_map (place one.steps) found)
        (option_map (place other.steps) found)) [ None ↦ tt | Some value ↦ refl ]) };
}

impl Keyed for Values {
    ghost use Rattle.std.proofs.Common.{ap, refl, sym, ◌∙◌, ℕ};
    ghost use Rattle.std.proofs.lemmas.Option.{same_Some};

    ghost key_of = { λ walk place. Some (place.value, 0) };

    fn key(&self, state: &SteppedValue) -> Option<(u128, u64)> {
        Some((u128::from(state.value), 0))
    }

    fn places(&self) -> u64 {
        1
    }

    fn pass(&self, _here: &mut SteppedValue, _most: u64) -> Stretch {
        Stretch {
            steps: 0,
            key: None,
        }
    }

    ghost keyed = { λ walk one other _ _ _ _. (
      λ same. ((one.value, 0), refl, ap (λ value. Some (value, 0)) (sym same)),
      λ keys. ap (λ (key : ℕ × ℕ). key.0)
          (same_Some (one.value, 0) (other.value, 0) (keys.1 ∙ sym keys.2)),
    ) };
}

/// The first repeat of a walk, as it is found by comparing states and as it is found by keys: BACK TOP STOP HORIZON.
pub fn answer(alloc: Global, numbers: &str) -> Result<String, AllocError> {
    let (back, rest) = first(numbers);
    let (top, rest) = first(rest);
    let (stop, rest) = first(rest);
    let horizon = number(rest);
    if horizon > GREATEST_HORIZON {
        return Ok(String::new(alloc));
    }
    let walk = Values { back, top, stop };
    let compared = found(alloc, lasso(alloc, &walk, horizon))?;
    let keyed = found(alloc, lasso_keyed(alloc, &walk, horizon))?;
    format!(in alloc; "{compared}, {keyed}")
}

/// A repeat as `FIRST LENGTH`, or why there is none.
fn found(alloc: Global, found: Result<Repeat, WalkEnd>) -> Result<String, AllocError> {
    match found {
        Ok(Repeat { first, length }) => format!(in alloc; "{first} {length}"),
        Err(why) => format!(in alloc; "{why}"),
    }
}
