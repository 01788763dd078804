//! Walks from state to state.

ghost use Rattle.std.specs.Prelude.{◌≡◌, ◌+◌, ◌<◌, ◌≤◌, ◌↔◌, ℕ, IfOk, IfSome, IsTrue, Option, Some};
ghost use Rattle.profile.specs.Limits.{greatest_horizon};
ghost use Rattle.recurrence_check.specs.Course.{Course, GoOnAlike};
ghost use Rattle.recurrence_check.specs.Keys.{row_places};
ghost use Rattle.recurrence_check.specs.Stretch.{IsStretch};

use std::alloc::{AllocError, Global};

/// A walk from state to state.
///
/// Its meaning is a course: the first state, the state behind each state, and which states are the
/// same. Each state has a number, and some are good. The first one is good and has the number 0,
/// and a step from a good state with a number below 100,000 leads to a good one with the next
/// number, or nowhere.
///
/// Who walks is in a place. A place has a state, and may keep more that makes the next step quick.
/// A step changes the place.
pub trait Walk {
    /// A state of the walk.
    type State: Copy;

    /// A place on a walk.
    type Here: Drop;

    ghost course: { Self → Course Self.State };

    ghost is_good: { Self → Self.State → Type 0 };

    ghost number: { Self → Self.State → ℕ };

    ghost state_of: { Self.Here → Self.State };

    ghost is_on: { Self → Self.Here → Type 0 };

    /// A place in the state in which the walk begins. All memory that the walk takes is taken here.
    ///
    /// # Errors
    ///
    /// Only where memory runs out.
    fn begin(&self, alloc: Global) -> Result<Self::Here, AllocError>
        ensures on { IfOk result (λ here. is_on self.now here) }
        ensures start { IfOk result (λ here. state_of here ≡ (course self.now).start) }
        ensures good { IfOk result (λ here. is_good self.now (state_of here)) }
        ensures number { IfOk result (λ here. number self.now (state_of here) ≡ 0) };

    /// The state of a place.
    fn state(&self, here: &Self::Here) -> Self::State
        ensures state { result ≡ state_of here.now };

    /// The state behind that of a place, which is then the state of the place; `None` where the walk does not go on, and
    /// then the place is not used any more. `is_on` says that a place is one of this walk.
    fn step(&self, here: &mut Self::Here) -> Option<Self::State>
        requires on { is_on self.now here.old }
        requires good { is_good self.now (state_of here.old) }
        requires number { number self.now (state_of here.old) < greatest_horizon }
        ensures next { result ≡ (course self.now).next (state_of here.old) }
        ensures on { IfSome result (λ next. is_on self.now here.new) }
        ensures here { IfSome result (λ next. next ≡ state_of here.new) }
        ensures good { IfSome result (λ next. is_good self.now next) }
        ensures number { IfSome result
            (λ next. number self.now next ≡ number self.now (state_of here.old) + 1) };

    /// Whether two states are the same.
    fn same(&self, one: &Self::State, other: &Self::State) -> bool
        requires one_good { is_good self.now one.now }
        requires other_good { is_good self.now other.now }
        requires one_number { number self.now one.now ≤ greatest_horizon }
        requires other_number { number self.now other.now ≤ greatest_horizon }
        ensures same { IsTrue result ↔ (course self.now).alike one.now other.now };

    ghost symmetric: { (walk : Self) (one other : Self.State)
        → (course walk).alike one other → (course walk).alike other one };

    ghost transitive: { (walk : Self) (one other third : Self.State)
        → (course walk).alike one other → (course walk).alike other third
        → (course walk).alike one third };

    ghost kept: { (walk : Self) (one other : Self.State)
        → is_good walk one → is_good walk other
        → number walk one < greatest_horizon → number walk other < greatest_horizon
        → (course walk).alike one other
        → GoOnAlike (course walk).alike ((course walk).next one) ((course walk).next other) };
}

/// States that stand one behind the other, in front of a place, and are passed at once.
#[derive(Clone, Copy, Debug)]
pub struct Stretch {
    /// How many states they are.
    pub steps: u64,
    /// The key of the first one. Each later one has the same mark, and a place that is one further. `None` where no state
    /// has a key.
    pub key: Option<(u128, u64)>,
}

/// A walk whose states have keys that tell which of them are the same.
pub trait Keyed: Walk {
    ghost key_of: { Self → Self.State → Option (ℕ × ℕ) };

    /// The key of a state; `None` where it is the same as no state, itself included.
    fn key(&self, state: &Self::State) -> Option<(u128, u64)>
        ensures key { result ≡ key_of self.now state.now };

    /// How many places the keys of the walk are expected to have. Room for so many is taken at once; no answer depends
    /// on it.
    fn places(&self) -> u64;

    /// Leads a place over states whose keys are known at once: `most` of them, or fewer. Where none is passed, the walk
    /// goes on by a step. The places of the keys stay below 100,000.
    fn pass(&self, here: &mut Self::Here, most: u64) -> Stretch
        requires on { Self.is_on self.now here.old }
        requires good { Self.is_good self.now (Self.state_of here.old) }
        ensures stretch { IsStretch (Self.course self.now) (Self.is_good self.now) (Self.number self.now)
            (key_of self.now) (Self.state_of here.old) (Self.state_of here.new) result.steps result.key }
        ensures most { result.steps ≤ most }
        ensures short { IfSome result.key (λ key. key.1 + result.steps ≤ row_places) }
        ensures on { Self.is_on self.now here.new };

    ghost keyed: { (walk : Self) (one other : Self.State)
        → Self.is_good walk one → Self.is_good walk other
        → Self.number walk one ≤ greatest_horizon → Self.number walk other ≤ greatest_horizon
        → (Self.course walk).alike one other
        ↔ ((key : ℕ × ℕ) × (key_of walk one ≡ Some key) × (key_of walk other ≡ Some key)) };
}
