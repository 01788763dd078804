//! The lock: made, asked for its length, parted among passes and closed.

ghost use Rattle.std.specs.Prelude.{◌≡◌, ◌+◌, ◌≤◌, ◌<◌, ◌^◌, ◌≢◌, List, [], Some, IfOk, length, Contains};
ghost use mathlib.Core.List.{IsPrefix};
ghost use Rattle.turn_lock.specs.Passes.{IsReady, IsCovered, Facts, knowing, first_view, split_from, split_off, joined};

use crate::pass::Pass;
use crate::rule::{Looks, Parts, TurnRule};
use crate::stands::Stands;
use crate::view::View;
use atomic_table::Table;
use std::alloc::{AllocError, Global};
use std::marker::Model;
use std::snapshot::Snapshot;

/// A lock with one word and one slot, under which values of `T` stand for one history that only grows.
/// Contracts see it as its table and the fixed part of its values.
#[derive(Drop)]
pub struct Turn<T: Stands + Drop> {
    pub(crate) table: Table<Option<T>, View<T::Entry, T::Fixed>, Snapshot<T>, TurnRule<T>, Global>,
}

impl<T: Stands + Drop> Model for Turn<T> {
    ghost use Rattle.std.specs.Prelude.{◌≡◌};
    ghost use Rattle.turn_lock.specs.Passes.{Lock};

    ghost Value = { Lock T.Fixed };

    ghost view = { λ t. record { table = t.table.shared.table_id; fixed = T.fixed t.table.shared.key.value } };

    ghost invariant = { λ t. (t.table.shared.table_id.words ≡ 1) × (t.table.shared.table_id.slots ≡ 1) };
}

impl<T: Stands + Drop> Turn<T> {
    /// A lock with a value that stands for no entries, and its first pass, which has number 0. The value
    /// is dropped where there is no memory.
    pub fn new(alloc: Global, value: T) -> Result<(Turn<T>, Pass<T>), AllocError>
        requires empty { T.entries value ≡ [] }
        ensures pass { IfOk result (λ made.
            made.1 ≡ record { table = made.0.table; view = first_view made.0.fixed }) }
        ensures fixed { IfOk result (λ made. made.0.fixed ≡ T.fixed value) }
        ensures facts { IfOk result (λ made. Facts T.number made.1.view) }
    {
        let first = Snapshot::of(&value);
        let mut slots = Vec::new(alloc);
        slots.push(Some(value))?;
        let Ok((table, seat)) = Table::new(alloc, &[0], slots, &first) else {
            return Err(AllocError);
        };
        let pass = Pass {
            seat,
            number: 0,
            made: 0,
            out: 0,
        };
        Ok((Turn { table }, pass))
    }

    /// The length of the history at one load of the word. It changes nothing, and waits for nobody.
    /// The contract says only that it is no less than what the pass has seen.
    pub fn length(&self, pass: &mut Pass<T>) -> u64
        requires ready { IsReady self.now pass.old }
        ensures same { pass.new ≡ pass.old }
        ensures least { length pass.old.view.seen ≤ result }
        ensures facts { Facts T.number pass.new.view }
    {
        self.table.shared.load::<Looks<T>>(&mut pass.seat, 0) / 2
    }

    /// Splits another pass from the first one. It has seen the same, has made no entries, and its number
    /// is the number of passes that were split so far, itself included.
    pub fn split_pass(&self, pass: &mut Pass<T>) -> Pass<T>
        requires ready { IsReady self.now pass.old }
        requires first { pass.old.view.number ≡ 0 }
        requires few { pass.old.view.made < 2 ^ 32 }
        ensures lent { pass.new ≡ knowing pass.old (split_from pass.old.view) }
        ensures given { result ≡ knowing pass.old (split_off pass.old.view) }
        ensures facts { Facts T.number pass.new.view × Facts T.number result.view }
    {
        let shared = &self.table.shared;
        let mut seat = shared.split_seat::<Parts>(&mut pass.seat);
        shared.load::<Looks<T>>(&mut seat, 0);
        pass.made += 1;
        pass.out += 1;
        Pass {
            seat,
            number: pass.made,
            made: 0,
            out: 0,
        }
    }

    /// Joins another pass into the first one, which then has seen the longer of the two lists. Both lists
    /// begin it. The other's entries stand in `ended` under its number, and its turns in `taken`.
    pub fn join_pass(&self, pass: &mut Pass<T>, other: Pass<T>)
        requires ready { IsReady self.now pass.old }
        requires other { IsReady self.now other }
        requires first { pass.old.view.number ≡ 0 }
        requires not_first { other.view.number ≢ 0 }
        ensures joined { pass.new ≡ knowing pass.old (joined pass.old.view other.view) }
        ensures out { pass.new.view.out + 1 ≡ pass.old.view.out }
        ensures this { IsPrefix pass.old.view.seen pass.new.view.seen }
        ensures that { IsPrefix other.view.seen pass.new.view.seen }
        ensures facts { Facts T.number pass.new.view }
    {
        let shared = &self.table.shared;
        let Pass {
            seat,
            number: _,
            made: _,
            out: _,
        } = other;
        shared.join_seat::<Parts>(&mut pass.seat, seat);
        shared.load::<Looks<T>>(&mut pass.seat, 0);
        pass.out -= 1;
    }

    /// Ends the lock, once all passes were joined into the first one. The value stands for all that
    /// this pass has seen, where each entry is its own or one of a pass that was joined into it.
    pub fn close(self, pass: Pass<T>) -> T
        requires ready { IsReady self pass }
        requires first { pass.view.number ≡ 0 }
        requires joined { pass.view.out ≡ 0 }
        ensures stands { T.entries result ≡ pass.view.seen }
        ensures fixed { T.fixed result ≡ self.fixed }
        ensures covered { IsCovered pass.view }
    {
        let Turn { table } = self;
        let Pass {
            seat,
            number: _,
            made: _,
            out: _,
        } = pass;
        let mut closed = table.close_with(seat);
        let value = closed.take(0).unwrap();
        closed.free();
        value
    }
}
