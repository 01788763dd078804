//! The calls that try once for the turn. They wait for nobody.

ghost use Rattle.std.specs.Prelude.{◌<◌, IfOk, IfErr};
ghost use Rattle.profile.specs.Limits.{openings_end};
ghost use Rattle.turn_lock.specs.Passes.{IsOfLock};
ghost use Rattle.master_core.specs.History.{next_of};
ghost use Rattle.live_master.specs.Calls.{AtOnce, Faulted, IsOpenedInTurn, IsPlannedIn, LookedAt, SettleFaulted, Settled};
ghost use Rattle.live_master.specs.Calls.{Snapped, SubmitFaulted, Submitted};
ghost use Rattle.live_master.specs.Passes.{IsPassOf};

use crate::fault::{SettleFault, TryFault};
use crate::live::LiveMaster;
use crate::passes::{DispatcherPass, OperatorPass};
use crate::turns::{look_once, open_once, settle_once, snapshot_once};
use admission::Verdict;
use change_protocol::Change;
use master_core::{Planned, Snapshot, plan_apart};
use requirement_table::Order;
use std::alloc::Global;

impl LiveMaster {
    /// Tries once to have a change answered, which this pass's operator asks for. It takes a snapshot, plans the change
    /// with no turn held, and settles it.
    ///
    /// # Errors
    ///
    /// `Busy` exactly where this call found the turn held by another pass, the first time or the second, and `Memory`
    /// where memory ran out. The call left no event then, and may be made again.
    pub fn try_submit(
        &self,
        alloc: Global,
        pass: &mut OperatorPass,
        change: &Change,
    ) -> Result<Verdict, TryFault>
        requires of { IsOfLock self.now pass.old }
        ensures submitted { IfOk result (λ verdict.
            Submitted AtOnce self.now.fixed pass.old pass.new change.now verdict) }
        ensures fault { IfErr result (λ fault. SubmitFaulted pass.old pass.new fault) }
        ensures standing { IsPassOf self.now pass.new }
    {
        let snapshot = self.try_snapshot(alloc, pass)?;
        let planned = match plan_apart(alloc, &snapshot, change) {
            Ok(planned) => planned,
            Err(_full) => return Err(TryFault::Memory),
        };
        match self.try_settle(alloc, pass, change, planned) {
            Ok(verdict) => Ok(verdict),
            Err(SettleFault::Busy { word, planned: _ }) => Err(TryFault::Busy { word }),
            Err(SettleFault::Memory) => Err(TryFault::Memory),
        }
    }

    /// Tries once to take a snapshot, from which a change can be planned with no turn held. It leaves no event.
    ///
    /// # Errors
    ///
    /// `Busy` exactly where this call found the turn held by another pass, and `Memory` where memory ran out. The call
    /// may be made again.
    pub fn try_snapshot(&self, alloc: Global, pass: &mut OperatorPass) -> Result<Snapshot, TryFault>
        requires of { IsOfLock self.now pass.old }
        ensures taken { IfOk result (λ snapshot. Snapped self.now.fixed pass.old pass.new snapshot) }
        ensures fault { IfErr result (λ fault. Faulted pass.old pass.new fault) }
        ensures standing { IsPassOf self.now pass.new }
    {
        snapshot_once(&self.turn, alloc, &mut pass.pass)
    }

    /// Tries once to have a change answered that was planned apart, for this change and from a snapshot that this pass
    /// took. Where another change was accepted since, it is planned anew under the turn.
    ///
    /// # Errors
    ///
    /// `Busy` exactly where this call found the turn held by another pass: it hands the plan back. `Memory` where
    /// memory ran out: the plan is dropped. The call left no event then.
    pub fn try_settle(
        &self,
        alloc: Global,
        pass: &mut OperatorPass,
        change: &Change,
        planned: Planned,
    ) -> Result<Verdict, SettleFault>
        requires of { IsOfLock self.now pass.old }
        requires planned { IsPlannedIn self.now.fixed pass.old.view.seen change.now planned }
        ensures settled { IfOk result (λ verdict. Settled pass.old pass.new change.now planned verdict) }
        ensures fault { IfErr result (λ fault. SettleFaulted pass.old pass.new planned fault) }
        ensures standing { IsPassOf self.now pass.new }
    {
        settle_once(
            &self.turn,
            alloc,
            &mut pass.pass,
            pass.caller,
            change,
            planned,
        )
    }

    /// Tries once to look: answers the next cycle to be opened.
    ///
    /// # Errors
    ///
    /// `Busy` exactly where this call found the turn held by another pass, and `Memory` where memory ran out. The call
    /// left no event then, and may be made again.
    pub fn try_look(&self, alloc: Global, pass: &mut OperatorPass) -> Result<u64, TryFault>
        requires of { IsOfLock self.now pass.old }
        ensures looked { IfOk result (λ next. LookedAt pass.old pass.new next) }
        ensures fault { IfErr result (λ fault. Faulted pass.old pass.new fault) }
        ensures standing { IsPassOf self.now pass.new }
    {
        look_once(&self.turn, alloc, &mut pass.pass, pass.caller)
    }

    /// Tries once to open the next cycle. The pass opened fewer than 2^41 so far.
    ///
    /// # Errors
    ///
    /// `Busy` exactly where this call found the turn held by another pass, and `Memory` where memory ran out. The call
    /// left no event then, and may be made again.
    pub fn try_open(&self, alloc: Global, pass: &mut DispatcherPass) -> Result<Order, TryFault>
        requires of { IsOfLock self.now pass.old }
        requires cycles { next_of pass.old.view.mine < openings_end }
        ensures opened { IfOk result (λ order. IsOpenedInTurn self.now.fixed pass.old pass.new order) }
        ensures fault { IfErr result (λ fault. Faulted pass.old pass.new fault) }
        ensures standing { IsPassOf self.now pass.new }
    {
        let order = open_once(&self.turn, alloc, &mut pass.pass)?;
        pass.cycles += 1;
        Ok(order)
    }
}
