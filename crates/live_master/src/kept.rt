//! Changes that are planned from the entries that the shared master keeps.

ghost use Rattle.std.specs.Prelude.{◌≡◌, ◌≤◌, IfOk, IfErr, OnErr};
ghost use Rattle.turn_lock.specs.Passes.{Facts, IsOfLock, IsReady};
ghost use Rattle.master_core.specs.History.{IsLegal};
ghost use Rattle.live_master.specs.Callers.{number_of};
ghost use Rattle.live_master.specs.Calls.{AfterWaiting, Faulted, GaveBack};
ghost use Rattle.live_master.specs.Kept.{IsKeptPlanIn, KeptFaulted, KeptSettled, KeptSnapped};
ghost use Rattle.live_master.specs.Passes.{IsPassOf};

use crate::desk::Desk;
use crate::fault::TryFault;
use crate::live::LiveMaster;
use crate::passes::OperatorPass;
use crate::pauses::Pauses;
use admission::Verdict;
use master_core::{CorePlanned, CoreSnapshot};
use std::alloc::{AllocError, Global};
use std::sync::Wait;
use turn_lock::{Pass, Turn};

/// Why a change that was planned from the kept entries was not settled. It left no event.
#[derive(Drop)]
enum KeptFault {
    /// Another pass held the turn, and the word that was found. The plan is handed back.
    Busy { word: u64, planned: CorePlanned },
    /// Memory ran out. The plan is dropped.
    Memory,
}

/// Tries once to take a snapshot of the entries that are kept.
fn kept_snapshot_once(
    turn: &Turn<Desk>,
    alloc: Global,
    pass: &mut Pass<Desk>,
) -> Result<CoreSnapshot, TryFault>
    requires standing { IsPassOf turn.now pass.old }
    ensures taken { IfOk result (λ snapshot. KeptSnapped turn.now.fixed pass.old pass.new snapshot) }
    ensures fault { IfErr result (λ fault. Faulted pass.old pass.new fault) }
    ensures ready { IsReady turn.now pass.new }
    ensures facts { Facts number_of pass.new.view }
    ensures legal { IsLegal turn.now.fixed pass.new.view.seen }
{
    match pass.try_turn(turn) {
        Ok(held) => {
            let snapshot = held.value().kept_snapshot(alloc);
            held.give_back();
            match snapshot {
                Ok(snapshot) => Ok(snapshot),
                Err(_full) => Err(TryFault::Memory),
            }
        }
        Err(busy) => Err(TryFault::Busy { word: busy.word }),
    }
}

/// Tries once to have a change answered that was planned from the kept entries, for operator `caller`.
fn settle_kept_once(
    turn: &Turn<Desk>,
    alloc: Global,
    pass: &mut Pass<Desk>,
    caller: u8,
    planned: CorePlanned,
) -> Result<Verdict, KeptFault>
    requires standing { IsPassOf turn.now pass.old }
    requires caller { (pass.old.view.number ≡ caller) × (1 ≤ caller) × (caller ≤ 8) }
    requires planned { IsKeptPlanIn turn.now.fixed pass.old.view.seen planned }
    ensures settled { IfOk result (λ verdict. KeptSettled pass.old pass.new planned verdict) }
    ensures fault { IfErr result (λ fault. KeptFaulted pass.old pass.new planned fault) }
    ensures ready { IsReady turn.now pass.new }
    ensures facts { Facts number_of pass.new.view }
    ensures legal { IsLegal turn.now.fixed pass.new.view.seen }
{
    match pass.try_turn(turn) {
        Ok(mut held) => {
            let desk = held.value_mut();
            match desk.master.settle_kept(alloc, caller, planned) {
                Ok(verdict) => {
                    held.commit();
                    Ok(verdict)
                }
                Err(_full) => {
                    held.give_back();
                    Err(KeptFault::Memory)
                }
            }
        }
        Err(busy) => Err(KeptFault::Busy {
            word: busy.word,
            planned,
        }),
    }
}

impl LiveMaster {
    /// Tries once to take a snapshot of the entries that are kept.
    fn try_kept_snapshot(
        &self,
        alloc: Global,
        pass: &mut OperatorPass,
    ) -> Result<CoreSnapshot, TryFault>
        requires of { IsOfLock self.now pass.old }
        ensures taken { IfOk result (λ snapshot. KeptSnapped self.now.fixed pass.old pass.new snapshot) }
        ensures fault { IfErr result (λ fault. Faulted pass.old pass.new fault) }
        ensures standing { IsPassOf self.now pass.new }
    {
        kept_snapshot_once(&self.turn, alloc, &mut pass.pass)
    }

    /// Tries once to have a change answered that was planned from the kept entries.
    fn try_settle_kept(
        &self,
        alloc: Global,
        pass: &mut OperatorPass,
        planned: CorePlanned,
    ) -> Result<Verdict, KeptFault>
        requires of { IsOfLock self.now pass.old }
        requires planned { IsKeptPlanIn self.now.fixed pass.old.view.seen planned }
        ensures settled { IfOk result (λ verdict. KeptSettled pass.old pass.new planned verdict) }
        ensures fault { IfErr result (λ fault. KeptFaulted pass.old pass.new planned fault) }
        ensures standing { IsPassOf self.now pass.new }
    {
        settle_kept_once(&self.turn, alloc, &mut pass.pass, pass.caller, planned)
    }

    /// Takes a snapshot of the entries that are kept, from which a change can be planned with no turn held: tries again
    /// until it gets the turn. The time under the turn does not grow with all entries that were ever placed. It leaves
    /// no event.
    ///
    /// # Errors
    ///
    /// Only where memory runs out.
    pub fn kept_snapshot<R: Wait>(
        &self,
        rt: &R,
        alloc: Global,
        pass: &mut OperatorPass,
    ) -> Result<CoreSnapshot, AllocError>
        requires of { IsOfLock self.now pass.old }
        ensures taken { IfOk result (λ snapshot.
            AfterWaiting (λ old new. KeptSnapped self.now.fixed old new snapshot) pass.old pass.new) }
        ensures memory { OnErr result (AfterWaiting GaveBack pass.old pass.new) }
        ensures standing { IsPassOf self.now pass.new }
    {
        let mut pauses = Pauses::new();
        for _ in rt.forever() {
            match self.try_kept_snapshot(alloc, pass) {
                Ok(snapshot) => return Ok(snapshot),
                Err(TryFault::Memory) => return Err(AllocError),
                Err(TryFault::Busy { .. }) => pauses.pause(),
            }
        }
        unreachable!()
    }

    /// Has a change answered that was planned apart, from a snapshot of the kept entries that this pass took: tries
    /// again until it gets the turn. Where another change was accepted since, it is planned anew under the turn.
    ///
    /// # Errors
    ///
    /// Only where memory runs out. The plan is dropped then, and the call left no event.
    pub fn settle_kept<R: Wait>(
        &self,
        rt: &R,
        alloc: Global,
        pass: &mut OperatorPass,
        planned: CorePlanned,
    ) -> Result<Verdict, AllocError>
        requires of { IsOfLock self.now pass.old }
        requires planned { IsKeptPlanIn self.now.fixed pass.old.view.seen planned }
        ensures settled { IfOk result (λ verdict.
            AfterWaiting (λ old new. KeptSettled old new planned verdict) pass.old pass.new) }
        ensures memory { OnErr result (AfterWaiting GaveBack pass.old pass.new) }
        ensures standing { IsPassOf self.now pass.new }
    {
        let mut plan = planned;
        let mut pauses = Pauses::new();
        for _ in rt.forever() {
            match self.try_settle_kept(alloc, pass, plan) {
                Ok(verdict) => return Ok(verdict),
                Err(KeptFault::Memory) => return Err(AllocError),
                Err(KeptFault::Busy { word: _, planned }) => {
                    plan = planned;
                    pauses.pause();
                }
            }
        }
        unreachable!()
    }
}
