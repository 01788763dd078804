//! The call that opens a cycle only where there is room for what the nodes learn with it.

ghost use Rattle.std.specs.Prelude.{◌≡◌, ◌<◌, IfOk, IfErr, OnErr};
ghost use Rattle.profile.specs.Limits.{openings_end};
ghost use Rattle.turn_lock.specs.Passes.{Facts, IsOfLock, IsReady};
ghost use Rattle.master_core.specs.History.{IsLegal, next_of};
ghost use Rattle.live_master.specs.Callers.{number_of};
ghost use Rattle.live_master.specs.Calls.{AfterWaiting, Faulted, GaveBack};
ghost use Rattle.live_master.specs.Passes.{IsPassOf};
ghost use Rattle.live_master.specs.Within.{OpenedWithin};

use crate::desk::Desk;
use crate::fault::TryFault;
use crate::live::LiveMaster;
use crate::passes::DispatcherPass;
use crate::pauses::Pauses;
use requirement_table::Order;
use std::alloc::{AllocError, Global};
use std::sync::Wait;
use turn_lock::{Pass, Turn};

/// What a call found that opens a cycle where there is room for so many entries.
#[derive(Drop, Debug)]
pub enum FoundOpening {
    /// There is room: the cycle was opened by this order.
    Opened { order: Order },
    /// So many entries are kept, more than there is room for. No cycle was opened.
    Short { needed: usize },
}

/// Tries once to open the next cycle where no more than so many entries are kept, for the dispatcher, which opened
/// fewer than 2^41.
fn open_within_once(
    turn: &Turn<Desk>,
    alloc: Global,
    pass: &mut Pass<Desk>,
    entries: usize,
) -> Result<FoundOpening, TryFault>
    requires standing { IsPassOf turn.now pass.old }
    requires dispatcher { pass.old.view.number ≡ 0 }
    requires cycles { next_of pass.old.view.mine < openings_end }
    ensures within { IfOk result (λ opening. OpenedWithin turn.now.fixed entries pass.old pass.new opening) }
    ensures fault { IfErr result (λ fault. Faulted pass.old pass.new fault) }
    ensures ready { IsReady turn.now pass.new }
    ensures facts { Facts number_of pass.new.view }
    ensures legal { IsLegal turn.now.fixed pass.new.view.seen }
{
    match pass.try_turn(turn) {
        Ok(mut held) => {
            let desk = held.value_mut();
            let needed = desk.master.placed().len();
            if entries < needed {
                held.give_back();
                return Ok(FoundOpening::Short { needed });
            }
            match desk.master.reserve(alloc, 1) {
                Ok(()) => {
                    let order = desk.master.open();
                    held.commit();
                    Ok(FoundOpening::Opened { order })
                }
                Err(_full) => {
                    held.give_back();
                    Err(TryFault::Memory)
                }
            }
        }
        Err(busy) => Err(TryFault::Busy { word: busy.word }),
    }
}

impl LiveMaster {
    /// Tries once to open the next cycle where the master keeps no more than `entries` entries. The nodes learn these
    /// with it, and they stand for all that are placed. The pass opened fewer than 2^41 so far.
    ///
    /// # Errors
    ///
    /// `Busy` exactly where this call found the turn held by another pass, and `Memory` where memory ran out. The call
    /// left no event then, and may be made again.
    pub fn try_open_within(
        &self,
        alloc: Global,
        pass: &mut DispatcherPass,
        entries: usize,
    ) -> Result<FoundOpening, TryFault>
        requires of { IsOfLock self.now pass.old }
        requires cycles { next_of pass.old.view.mine < openings_end }
        ensures within { IfOk result (λ opening. OpenedWithin self.now.fixed entries pass.old pass.new opening) }
        ensures fault { IfErr result (λ fault. Faulted pass.old pass.new fault) }
        ensures standing { IsPassOf self.now pass.new }
    {
        match open_within_once(&self.turn, alloc, &mut pass.pass, entries)? {
            FoundOpening::Opened { order } => {
                pass.cycles += 1;
                Ok(FoundOpening::Opened { order })
            }
            FoundOpening::Short { needed } => Ok(FoundOpening::Short { needed }),
        }
    }

    /// The same, and tries again until it gets the turn. What the nodes are to learn with the cycle is then no longer
    /// than `entries`, so the caller can take the memory for it first.
    ///
    /// # Errors
    ///
    /// Only where memory runs out. The call left no event then.
    pub fn open_within<R: Wait>(
        &self,
        rt: &R,
        alloc: Global,
        pass: &mut DispatcherPass,
        entries: usize,
    ) -> Result<FoundOpening, AllocError>
        requires of { IsOfLock self.now pass.old }
        requires cycles { next_of pass.old.view.mine < openings_end }
        ensures within { IfOk result (λ opening.
            AfterWaiting (λ old new. OpenedWithin self.now.fixed entries old new opening) pass.old pass.new) }
        ensures memory { OnErr result (AfterWaiting GaveBack pass.old pass.new) }
        ensures standing { IsPassOf self.now pass.new }
    {
        let mut pauses = Pauses::new();
        for _ in rt.forever() {
            match self.try_open_within(alloc, pass, entries) {
                Ok(opening) => return Ok(opening),
                Err(TryFault::Memory) => return Err(AllocError),
                Err(TryFault::Busy { .. }) => pauses.pause(),
            }
        }
        unreachable!()
    }
}
