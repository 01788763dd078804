//! The turn: to try for it, and to let it go.

ghost use Rattle.std.specs.Prelude.{◌≡◌, ◌≢◌, ◌+◌, ◌*◌, ◌%◌, ◌≤◌, ◌∷◌, ◌++◌, [], ℕ};
ghost use Rattle.std.specs.Prelude.{Some, IfOk, IfErr, MatchResult, length};
ghost use Rattle.std.specs.Borrow.{sem, RestsIfErr, Lends};
ghost use mathlib.Core.List.{IsPrefix};
ghost use mir.Syntax.{named};
ghost use Rattle.turn_lock.specs.History.{own};
ghost use Rattle.turn_lock.specs.Passes.{IsOfLock, IsReady, IsFound, IsOneMore, Facts};
ghost use Rattle.turn_lock.specs.Passes.{knowing, granted, refused, committed, given_back};
ghost use Rattle.turn_lock.specs.contracts.pass.Pass.{the_row};
ghost use Rattle.turn_lock.specs.contracts.held.Held.{the_row as held_row};

use crate::pass::Pass;
use crate::rule::{Commits, GivesBack, Tries};
use crate::stands::Stands;
use crate::turn::Turn;

/// Another pass held the turn.
#[derive(Clone, Copy, Debug, PartialEq, Eq)]
pub struct Busy {
    /// The word that was found: twice the length of the history then, and one.
    pub word: u64,
}

/// The turn, held by a pass, with the value of the lock. It has to be spent, by `commit` or by
/// `give_back`.
pub struct Held<'a, T: Stands + Drop> {
    pub pass: &'a mut Pass<T>,
    pub turn: &'a Turn<T>,
    pub value: T,
}

/// Takes the turn, and the value out of its slot, if the turn is free.
fn take_turn<T: Stands + Drop>(turn: &Turn<T>, pass: &mut Pass<T>) -> Result<T, Busy>
    requires ready { IsReady turn.now pass.old }
    ensures taken { IfOk result (λ value.
        pass.new ≡ knowing pass.old (granted (T.entries value) pass.old.view)) }
    ensures fixed { IfOk result (λ value. T.fixed value ≡ turn.now.fixed) }
    ensures begins { IfOk result (λ value. IsPrefix pass.old.view.seen (T.entries value)) }
    ensures own { IfOk result (λ value.
        own T.number pass.old.view.number (T.entries value) ≡ pass.old.view.mine) }
    ensures refused { IfErr result (λ busy.
        pass.new ≡ knowing pass.old (refused busy.word pass.old.view)) }
    ensures odd { IfErr result (λ busy. busy.word % 2 ≡ 1) }
    ensures least { IfErr result (λ busy. 2 * length pass.old.view.seen + 1 ≤ busy.word) }
    ensures others { IfErr result (λ _. pass.old.view.number ≡ 0 → pass.old.view.out ≢ 0) }
    ensures facts { Facts T.number pass.new.view }
{
    let shared = &turn.table.shared;
    let word = shared.fetch_or::<Tries<T>>(&mut pass.seat, 0, 1);
    if word % 2 == 1 {
        return Err(Busy { word });
    }
    Ok(shared.exchange(&mut pass.seat, 0, None).unwrap())
}

/// Puts the value back into its slot, and lets the turn go with an entry more.
fn let_go_with_more<T: Stands + Drop>(turn: &Turn<T>, pass: &mut Pass<T>, value: T)
    requires of { IsOfLock turn.now pass.old }
    requires next { (e : T.Entry) × IsOneMore T.entries T.number pass.old.view value e }
    requires fixed { T.fixed value ≡ turn.now.fixed }
    ensures committed { pass.new ≡ knowing pass.old (committed (T.entries value) pass.old.view) }
    ensures facts { Facts T.number pass.new.view }
{
    let shared = &turn.table.shared;
    let None = shared.exchange(&mut pass.seat, 0, Some(value)) else {
        unreachable!()
    };
    shared.fetch_add::<Commits<T>>(&mut pass.seat, 0, 1);
}

/// Puts the value back into its slot, and lets the turn go with nothing added.
fn let_go<T: Stands + Drop>(turn: &Turn<T>, pass: &mut Pass<T>, value: T)
    requires of { IsOfLock turn.now pass.old }
    requires same { IsFound T.entries pass.old.view value }
    requires fixed { T.fixed value ≡ turn.now.fixed }
    ensures given_back { pass.new ≡ knowing pass.old (given_back (T.entries value) pass.old.view) }
    ensures facts { Facts T.number pass.new.view }
{
    let shared = &turn.table.shared;
    let None = shared.exchange(&mut pass.seat, 0, Some(value)) else {
        unreachable!()
    };
    shared.fetch_sub::<GivesBack<T>>(&mut pass.seat, 0, 1);
}

impl<T: Stands + Drop> Pass<T> {
    /// Tries once for the turn, by one `fetch_or` of 1 on the word. It waits for nobody.
    ///
    /// `Busy` where that step found the word odd: another pass held the turn. Then the pass keeps the
    /// word, counts the try, and is else as it was. Otherwise it holds the turn. The value then stands
    /// for the history, which begins with all that the pass has seen.
    pub fn try_turn<'a>(&'a mut self, turn: &'a Turn<T>) -> Result<Held<'a, T>, Busy>
        requires ready { IsReady turn.now self.old }
        ensures* rests { sem 𝓛 (RestsIfErr (the_row T.row T.Entry.row T.Fixed.row T.Stands) self.entry
            (λ held. held.pass.ghost_name) result
            (λ last. IfErr result (λ busy. last ≡ knowing self.old (refused busy.word self.old.view)))) }
        ensures same_reference { IfOk result (λ held. held.pass.ghost_name ≡ self.entry.ghost_name) }
        ensures holding { IfOk result (λ held. (held.turn.now ≡ turn.now)
            × (held.pass.now ≡ knowing self.old (granted (T.entries held.value) self.old.view))) }
        ensures fixed { IfOk result (λ held. T.fixed held.value ≡ turn.now.fixed) }
        ensures begins { IfOk result (λ held. IsPrefix self.old.view.seen (T.entries held.value)) }
        ensures own { IfOk result (λ held.
            own T.number self.old.view.number (T.entries held.value) ≡ self.old.view.mine) }
        ensures odd { IfErr result (λ busy. busy.word % 2 ≡ 1) }
        ensures least { IfErr result (λ busy. 2 * length self.old.view.seen + 1 ≤ busy.word) }
        ensures others { IfErr result (λ _. self.old.view.number ≡ 0 → self.old.view.out ≢ 0) }
        ensures facts { MatchResult result (λ held. Facts T.number held.pass.now.view)
            (λ busy. Facts T.number (refused busy.word self.old.view)) }
    {
        match take_turn(turn, self) {
            Ok(value) => Ok(Held {
                pass: self,
                turn,
                value,
            }),
            Err(busy) => Err(busy),
        }
    }
}

impl<T: Stands + Drop> Held<'_, T> {
    /// The value, which stands for the history where it was not changed.
    pub fn value(&self) -> &T
        ensures value { result.now ≡ self.now.value }
    {
        &self.value
    }

    /// The value, to be changed.
    pub fn value_mut(&mut self) -> &mut T
        ensures* writes_back { sem 𝓛 (Lends
            (held_row (record { mir = named 1; lft = [] }) T.row T.Entry.row T.Fixed.row T.Stands)
            T.row self.entry result (λ w. record self.old { value = w })) }
        ensures value { result.now ≡ self.old.value }
    {
        &mut self.value
    }

    /// Lets the turn go with one entry more, by one `fetch_add` of 1 on the word. The value has to
    /// stand for the list that was found with an entry of this pass behind it.
    pub fn commit(self)
        requires of { IsOfLock self.turn.now self.pass.now }
        requires next { (e : T.Entry) × IsOneMore T.entries T.number self.pass.now.view self.value e }
        requires fixed { T.fixed self.value ≡ self.turn.now.fixed }
        ensures committed { self.exit.0.now ≡ knowing self.entry.pass.now
            (committed (T.entries self.entry.value) self.entry.pass.now.view) }
        ensures mine { (e : T.Entry) → IsOneMore T.entries T.number self.entry.pass.now.view self.entry.value e
            → self.exit.0.now.view.mine ≡ self.entry.pass.now.view.mine ++ e ∷ [] }
        ensures facts { Facts T.number self.exit.0.now.view }
    {
        let Held { pass, turn, value } = self;
        let_go_with_more(turn, pass, value);
    }

    /// Lets the turn go with nothing added, by one `fetch_sub` of 1 on the word. The value has to
    /// stand for the list that was found.
    pub fn give_back(self)
        requires of { IsOfLock self.turn.now self.pass.now }
        requires same { IsFound T.entries self.pass.now.view self.value }
        requires fixed { T.fixed self.value ≡ self.turn.now.fixed }
        ensures given_back { self.exit.0.now ≡ knowing self.entry.pass.now
            (given_back (T.entries self.entry.value) self.entry.pass.now.view) }
        ensures facts { Facts T.number self.exit.0.now.view }
    {
        let Held { pass, turn, value } = self;
        let_go(turn, pass, value);
    }
}

impl<T: Stands + Drop> Turn<T> {
    /// `Pass::try_turn`, called at the lock.
    pub fn try_turn<'a>(&'a self, pass: &'a mut Pass<T>) -> Result<Held<'a, T>, Busy>
        requires ready { IsReady self.now pass.old }
        ensures* rests { sem 𝓛 (RestsIfErr (the_row T.row T.Entry.row T.Fixed.row T.Stands) pass.entry
            (λ held. held.pass.ghost_name) result
            (λ last. IfErr result (λ busy. last ≡ knowing pass.old (refused busy.word pass.old.view)))) }
        ensures same_reference { IfOk result (λ held. held.pass.ghost_name ≡ pass.entry.ghost_name) }
        ensures holding { IfOk result (λ held. (held.turn.now ≡ self.now)
            × (held.pass.now ≡ knowing pass.old (granted (T.entries held.value) pass.old.view))) }
        ensures fixed { IfOk result (λ held. T.fixed held.value ≡ self.now.fixed) }
        ensures begins { IfOk result (λ held. IsPrefix pass.old.view.seen (T.entries held.value)) }
        ensures own { IfOk result (λ held.
            own T.number pass.old.view.number (T.entries held.value) ≡ pass.old.view.mine) }
        ensures odd { IfErr result (λ busy. busy.word % 2 ≡ 1) }
        ensures least { IfErr result (λ busy. 2 * length pass.old.view.seen + 1 ≤ busy.word) }
        ensures others { IfErr result (λ _. pass.old.view.number ≡ 0 → pass.old.view.out ≢ 0) }
        ensures facts { MatchResult result (λ held. Facts T.number held.pass.now.view)
            (λ busy. Facts T.number (refused busy.word pass.old.view)) }
    {
        pass.try_turn(self)
    }
}
