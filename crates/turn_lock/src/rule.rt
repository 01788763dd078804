//! The rule of the lock, and what each step on its word tells.

use crate::stands::Stands;
use crate::view::View;
use atomic_table::{Join, Play, Split, TableRule};
use std::marker::PhantomData;
use std::snapshot::Snapshot;

/// The rule of a lock. It is made with the first value, whose fixed part all values have.
pub struct TurnRule<T> {
    value: PhantomData<T>,
}

impl<T: Stands> TableRule<Option<T>, View<T::Entry, T::Fixed>, Snapshot<T>> for TurnRule<T> {
    ghost use Rattle.turn_lock.specs.Rule.{IsRuleKept};
    ghost use Rattle.turn_lock.specs.Passes.{first_view};

    ghost holds = { λ first s. IsRuleKept T.entries T.fixed T.number (T.fixed first.value) s };

    ghost first = { λ first. first_view (T.fixed first.value) };
}

/// A load.
pub struct Looks<T> {
    value: PhantomData<T>,
}

impl<T: Stands> Play<Option<T>, View<T::Entry, T::Fixed>> for Looks<T> {
    ghost use Rattle.turn_lock.specs.Steps.{Looked};

    ghost then = { Looked T.entries T.fixed T.number };
}

/// A try to get the turn.
pub struct Tries<T> {
    value: PhantomData<T>,
}

impl<T: Stands> Play<Option<T>, View<T::Entry, T::Fixed>> for Tries<T> {
    ghost use Rattle.turn_lock.specs.Steps.{Tried};

    ghost then = { Tried T.entries T.fixed T.number };
}

/// The turn is let go with an entry more.
pub struct Commits<T> {
    value: PhantomData<T>,
}

impl<T: Stands> Play<Option<T>, View<T::Entry, T::Fixed>> for Commits<T> {
    ghost use Rattle.turn_lock.specs.Steps.{Committed};

    ghost then = { Committed T.entries T.fixed T.number };
}

/// The turn is let go with nothing added.
pub struct GivesBack<T> {
    value: PhantomData<T>,
}

impl<T: Stands> Play<Option<T>, View<T::Entry, T::Fixed>> for GivesBack<T> {
    ghost use Rattle.turn_lock.specs.Steps.{GivenBack};

    ghost then = { GivenBack T.entries T.fixed T.number };
}

/// A pass is split from the first one, or joined into it.
pub struct Parts;

impl<E, F> Split<View<E, F>> for Parts {
    ghost use Rattle.turn_lock.specs.Passes.{split_from, split_off};

    ghost left = { split_from };

    ghost right = { split_off };
}

impl<E, F> Join<View<E, F>> for Parts {
    ghost use Rattle.turn_lock.specs.Passes.{joined, spent_view};

    ghost both = { joined };

    ghost spent = { spent_view };
}
