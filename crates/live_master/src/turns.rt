//! One call under one turn.

ghost use Rattle.std.specs.Prelude.{◌≡◌, ◌<◌, ◌≤◌, IfOk, IfErr};
ghost use Rattle.profile.specs.Limits.{openings_end};
ghost use Rattle.turn_lock.specs.Passes.{Facts, IsReady};
ghost use Rattle.master_core.specs.History.{IsLegal, next_of};
ghost use Rattle.live_master.specs.Callers.{number_of};
ghost use Rattle.live_master.specs.Calls.{Faulted, IsOpenedInTurn, IsPlannedIn, LookedAt, SettleFaulted, Settled, Snapped};
ghost use Rattle.live_master.specs.Passes.{IsPassOf};

use crate::desk::Desk;
use crate::fault::{SettleFault, TryFault};
use admission::Verdict;
use change_protocol::Change;
use master_core::{Planned, Snapshot};
use requirement_table::Order;
use std::alloc::Global;
use turn_lock::{Pass, Turn};

/// Tries once to look, for operator `caller`.
pub fn look_once(
    turn: &Turn<Desk>,
    alloc: Global,
    pass: &mut Pass<Desk>,
    caller: u8,
) -> Result<u64, TryFault>
    requires standing { IsPassOf turn.now pass.old }
    requires caller { (pass.old.view.number ≡ caller) × (1 ≤ caller) × (caller ≤ 8) }
    ensures looked { IfOk result (λ next. LookedAt pass.old pass.new next) }
    ensures fault { IfErr result (λ fault. Faulted pass.old pass.new fault) }
    ensures ready { IsReady turn.now pass.new }
    ensures facts { Facts number_of pass.new.view }
    ensures legal { IsLegal turn.now.fixed pass.new.view.seen }
{
    match pass.try_turn(turn) {
        Ok(mut held) => {
            let desk = held.value_mut();
            match desk.master.reserve(alloc, 1) {
                Ok(()) => {
                    let next = desk.master.look(caller);
                    held.commit();
                    Ok(next)
                }
                Err(_full) => {
                    held.give_back();
                    Err(TryFault::Memory)
                }
            }
        }
        Err(busy) => Err(TryFault::Busy { word: busy.word }),
    }
}

/// Tries once to take a snapshot.
pub fn snapshot_once(
    turn: &Turn<Desk>,
    alloc: Global,
    pass: &mut Pass<Desk>,
) -> Result<Snapshot, TryFault>
    requires standing { IsPassOf turn.now pass.old }
    ensures taken { IfOk result (λ snapshot. Snapped turn.now.fixed pass.old pass.new snapshot) }
    ensures fault { IfErr result (λ fault. Faulted pass.old pass.new fault) }
    ensures ready { IsReady turn.now pass.new }
    ensures facts { Facts number_of pass.new.view }
    ensures legal { IsLegal turn.now.fixed pass.new.view.seen }
{
    match pass.try_turn(turn) {
        Ok(held) => {
            let snapshot = held.value().master.snapshot(alloc);
            held.give_back();
            match snapshot {
                Ok(snapshot) => Ok(snapshot),
                Err(_full) => Err(TryFault::Memory),
            }
        }
        Err(busy) => Err(TryFault::Busy { word: busy.word }),
    }
}

/// Tries once to have a change answered that was planned apart, for operator `caller`.
pub fn settle_once(
    turn: &Turn<Desk>,
    alloc: Global,
    pass: &mut Pass<Desk>,
    caller: u8,
    change: &Change,
    planned: Planned,
) -> Result<Verdict, SettleFault>
    requires standing { IsPassOf turn.now pass.old }
    requires caller { (pass.old.view.number ≡ caller) × (1 ≤ caller) × (caller ≤ 8) }
    requires planned { IsPlannedIn turn.now.fixed pass.old.view.seen change.now planned }
    ensures settled { IfOk result (λ verdict. Settled pass.old pass.new change.now planned verdict) }
    ensures fault { IfErr result (λ fault. SettleFaulted pass.old pass.new planned fault) }
    ensures ready { IsReady turn.now pass.new }
    ensures facts { Facts number_of pass.new.view }
    ensures legal { IsLegal turn.now.fixed pass.new.view.seen }
{
    match pass.try_turn(turn) {
        Ok(mut held) => {
            let desk = held.value_mut();
            match desk.master.settle(alloc, caller, change, planned) {
                Ok(verdict) => {
                    held.commit();
                    Ok(verdict)
                }
                Err(_full) => {
                    held.give_back();
                    Err(SettleFault::Memory)
                }
            }
        }
        Err(busy) => Err(SettleFault::Busy {
            word: busy.word,
            planned,
        }),
    }
}

/// Tries once to open the next cycle, for the dispatcher, which opened fewer than 2^41.
pub fn open_once(turn: &Turn<Desk>, alloc: Global, pass: &mut Pass<Desk>) -> Result<Order, TryFault>
    requires standing { IsPassOf turn.now pass.old }
    requires dispatcher { pass.old.view.number ≡ 0 }
    requires cycles { next_of pass.old.view.mine < openings_end }
    ensures opened { IfOk result (λ order. IsOpenedInTurn turn.now.fixed pass.old pass.new order) }
    ensures fault { IfErr result (λ fault. Faulted pass.old pass.new fault) }
    ensures ready { IsReady turn.now pass.new }
    ensures facts { Facts number_of pass.new.view }
    ensures legal { IsLegal turn.now.fixed pass.new.view.seen }
{
    match pass.try_turn(turn) {
        Ok(mut held) => {
            let desk = held.value_mut();
            match desk.master.open_all(alloc) {
                Ok(order) => {
                    held.commit();
                    Ok(order)
                }
                Err(_full) => {
                    held.give_back();
                    Err(TryFault::Memory)
                }
            }
        }
        Err(busy) => Err(TryFault::Busy { word: busy.word }),
    }
}
