//! The calls that try again until they get the turn.

ghost use Rattle.std.specs.Prelude.{◌⊎◌, ◌<◌, IfOk, OnErr};
ghost use Rattle.profile.specs.Limits.{openings_end};
ghost use Rattle.turn_lock.specs.Passes.{IsOfLock};
ghost use Rattle.master_core.specs.History.{next_of};
ghost use Rattle.live_master.specs.Calls.{AfterWaiting, GaveBack, InTurn, IsOpenedInTurn, IsPlannedIn, LookedAt, Settled};
ghost use Rattle.live_master.specs.Calls.{Snapped, Submitted};
ghost use Rattle.live_master.specs.Passes.{IsPassOf};

use crate::fault::{SettleFault, TryFault};
use crate::live::LiveMaster;
use crate::passes::{DispatcherPass, OperatorPass};
use crate::pauses::Pauses;
use admission::Verdict;
use change_protocol::Change;
use master_core::{Planned, Snapshot, plan_apart};
use requirement_table::Order;
use std::alloc::{AllocError, Global};
use std::sync::Wait;

impl LiveMaster {
    /// Has a change answered, which this pass's operator asks for: takes a snapshot, plans the change with no turn held,
    /// and settles it. It tries again until it gets each of the two turns.
    ///
    /// # Errors
    ///
    /// Only where memory runs out. The call left no event then.
    pub fn submit<R: Wait>(
        &self,
        rt: &R,
        alloc: Global,
        pass: &mut OperatorPass,
        change: &Change,
    ) -> Result<Verdict, AllocError>
        requires of { IsOfLock self.now pass.old }
        ensures submitted { IfOk result (λ verdict.
            Submitted AfterWaiting self.now.fixed pass.old pass.new change.now verdict) }
        ensures memory { OnErr result (AfterWaiting GaveBack pass.old pass.new
            ⊎ InTurn (AfterWaiting GaveBack) (AfterWaiting GaveBack) pass.old pass.new) }
        ensures standing { IsPassOf self.now pass.new }
    {
        let snapshot = self.snapshot(rt, alloc, pass)?;
        let planned = plan_apart(alloc, &snapshot, change)?;
        self.settle(rt, alloc, pass, change, planned)
    }

    /// Takes a snapshot, from which a change can be planned with no turn held: tries again until it gets the turn. It
    /// leaves no event.
    ///
    /// # Errors
    ///
    /// Only where memory runs out.
    pub fn snapshot<R: Wait>(
        &self,
        rt: &R,
        alloc: Global,
        pass: &mut OperatorPass,
    ) -> Result<Snapshot, AllocError>
        requires of { IsOfLock self.now pass.old }
        ensures taken { IfOk result (λ snapshot.
            AfterWaiting (λ old new. Snapped self.now.fixed old new snapshot) pass.old pass.new) }
        ensures memory { OnErr result (AfterWaiting GaveBack pass.old pass.new) }
        ensures standing { IsPassOf self.now pass.new }
    {
        let mut pauses = Pauses::new();
        for _ in rt.forever() {
            match self.try_snapshot(alloc, pass) {
                Ok(snapshot) => return Ok(snapshot),
                Err(TryFault::Memory) => return Err(AllocError),
                Err(TryFault::Busy { .. }) => pauses.pause(),
            }
        }
        unreachable!()
    }

    /// Has a change answered that was planned apart, for this change and from a snapshot that this pass took: tries
    /// again until it gets the turn. Where another change was accepted since, it is planned anew under the turn.
    ///
    /// # Errors
    ///
    /// Only where memory runs out. The plan is dropped then, and the call left no event.
    pub fn settle<R: Wait>(
        &self,
        rt: &R,
        alloc: Global,
        pass: &mut OperatorPass,
        change: &Change,
        planned: Planned,
    ) -> Result<Verdict, AllocError>
        requires of { IsOfLock self.now pass.old }
        requires planned { IsPlannedIn self.now.fixed pass.old.view.seen change.now planned }
        ensures settled { IfOk result (λ verdict.
            AfterWaiting (λ old new. Settled old new change.now planned verdict) pass.old pass.new) }
        ensures memory { OnErr result (AfterWaiting GaveBack pass.old pass.new) }
        ensures standing { IsPassOf self.now pass.new }
    {
        let mut plan = planned;
        let mut pauses = Pauses::new();
        for _ in rt.forever() {
            match self.try_settle(alloc, pass, change, plan) {
                Ok(verdict) => return Ok(verdict),
                Err(SettleFault::Memory) => return Err(AllocError),
                Err(SettleFault::Busy { word: _, planned }) => {
                    plan = planned;
                    pauses.pause();
                }
            }
        }
        unreachable!()
    }

    /// Answers the next cycle to be opened: tries again until it gets the turn.
    ///
    /// # Errors
    ///
    /// Only where memory runs out. The call left no event then.
    pub fn look<R: Wait>(
        &self,
        rt: &R,
        alloc: Global,
        pass: &mut OperatorPass,
    ) -> Result<u64, AllocError>
        requires of { IsOfLock self.now pass.old }
        ensures looked { IfOk result (λ next. AfterWaiting (λ old new. LookedAt old new next) pass.old pass.new) }
        ensures memory { OnErr result (AfterWaiting GaveBack pass.old pass.new) }
        ensures standing { IsPassOf self.now pass.new }
    {
        let mut pauses = Pauses::new();
        for _ in rt.forever() {
            match self.try_look(alloc, pass) {
                Ok(next) => return Ok(next),
                Err(TryFault::Memory) => return Err(AllocError),
                Err(TryFault::Busy { .. }) => pauses.pause(),
            }
        }
        unreachable!()
    }

    /// Opens the next cycle: tries again until it gets the turn. The pass opened fewer than 2^41 so far.
    ///
    /// # Errors
    ///
    /// Only where memory runs out. The call left no event then.
    pub fn open<R: Wait>(
        &self,
        rt: &R,
        alloc: Global,
        pass: &mut DispatcherPass,
    ) -> Result<Order, AllocError>
        requires of { IsOfLock self.now pass.old }
        requires cycles { next_of pass.old.view.mine < openings_end }
        ensures opened { IfOk result (λ order.
            AfterWaiting (λ old new. IsOpenedInTurn self.now.fixed old new order) pass.old pass.new) }
        ensures memory { OnErr result (AfterWaiting GaveBack pass.old pass.new) }
        ensures standing { IsPassOf self.now pass.new }
    {
        let mut pauses = Pauses::new();
        for _ in rt.forever() {
            match self.try_open(alloc, pass) {
                Ok(order) => return Ok(order),
                Err(TryFault::Memory) => return Err(AllocError),
                Err(TryFault::Busy { .. }) => pauses.pause(),
            }
        }
        unreachable!()
    }
}
