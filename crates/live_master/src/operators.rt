//! Operators of a shared master: made, and retired.

ghost use Rattle.std.specs.Prelude.{◌≡◌, ◌+◌, ◌<◌};
ghost use mathlib.Core.List.{IsPrefix};
ghost use Rattle.turn_lock.specs.Passes.{IsOfLock, joined, knowing, split_from, split_off};
ghost use Rattle.live_master.specs.Passes.{IsPassOf};

use crate::live::LiveMaster;
use crate::passes::{DispatcherPass, OperatorPass};

impl LiveMaster {
    /// Makes an operator. Its number, 1 to 8, is one above those made before, and it has seen what the dispatcher has.
    /// Fewer than 8 were made so far.
    pub fn operator(&self, pass: &mut DispatcherPass) -> OperatorPass
        requires of { IsOfLock self.now pass.old }
        requires few { pass.old.view.made < 8 }
        ensures lent { pass.new ≡ knowing pass.old (split_from pass.old.view) }
        ensures given { result ≡ knowing pass.old (split_off pass.old.view) }
        ensures standing { IsPassOf self.now pass.new }
        ensures made { IsPassOf self.now result }
    {
        let operator = self.turn.split_pass(&mut pass.pass);
        let caller = operator.number() as u8;
        OperatorPass {
            pass: operator,
            caller,
        }
    }

    /// Retires an operator. The dispatcher then has seen the longer of the two histories, which both begin, and has the
    /// operator's calls under its number.
    pub fn retire(&self, pass: &mut DispatcherPass, operator: OperatorPass)
        requires of { IsOfLock self.now pass.old }
        requires operator { IsOfLock self.now operator }
        ensures joined { pass.new ≡ knowing pass.old (joined pass.old.view operator.view) }
        ensures out { pass.new.view.out + 1 ≡ pass.old.view.out }
        ensures this { IsPrefix pass.old.view.seen pass.new.view.seen }
        ensures that { IsPrefix operator.view.seen pass.new.view.seen }
        ensures standing { IsPassOf self.now pass.new }
    {
        let OperatorPass {
            pass: operator,
            caller: _,
        } = operator;
        self.turn.join_pass(&mut pass.pass, operator);
    }
}
