//! The standby, which follows the first master.

ghost use Rattle.std.specs.Prelude.{◌≡◌, ℕ, ◌<◌, ◌≤◌, [], List, All, IfErr, IfOk, OnErr, OnOk, true};
ghost use Rattle.profile.specs.Limits.{openings_end};
ghost use Rattle.trigger_kind.specs.Kind.{IsSlots};
ghost use Rattle.admission.specs.Verdict.{IsRules, is_accepted};
ghost use Rattle.admission.specs.declared.verdict.Verdict.{Verdict as VerdictOf};
ghost use Rattle.master_core.specs.declared.event.Event.{Event};
ghost use Rattle.master_core.specs.History.{IsLegal, IsPlainlyLegal, IsRightAnswer, next_of};
ghost use Rattle.standby.specs.Core.{core_of};
ghost use Rattle.standby.specs.declared.follow_fault.FollowFault.TheVariants.{Memory};
ghost use Rattle.standby.specs.Following.{IsChangeFault, IsChanged, IsInCore, IsOpened, IsTriggerFault, due_frames};

use crate::follow_fault::FollowFault;
use admission::Rules;
use can_frame::Frame;
use change_protocol::Change;
use master_core::laws::accepted_anew;
use master_core::{Event, LeanMaster, Master};
use std::alloc::{AllocError, Global};
use std::marker::Model;
use trigger_codec::hear;

/// A standby. Contracts see its rules and its history, which has accepted changes and openings alone. Each change was
/// planned when it was told.
#[derive(Drop, Debug)]
pub struct Standby {
    /// It keeps all events.
    master: LeanMaster,
}

impl Model for Standby {
    ghost use Rattle.std.specs.Prelude.{◌≡◌, true};
    ghost use Rattle.standby.specs.Following.{IsStandby, StandbyView};

    ghost Value = { StandbyView };

    ghost view = { λ s. record { rules = s.master.rules; history = s.master.history } };

    ghost invariant = { λ s. IsStandby s.master.rules s.master.history × (s.master.keeps ≡ true) };
}

impl Standby {
    /// A standby with these rules, which was told nothing yet.
    ///
    /// # Errors
    ///
    /// Only where memory runs out.
    pub fn new(alloc: Global, rules: Rules) -> Result<Standby, AllocError>
        requires rules { IsRules rules }
        requires slots { IsSlots rules.slots }
        ensures rules { IfOk result (λ standby. standby.rules ≡ rules) }
        ensures history { IfOk result (λ standby. standby.history ≡ []) }
    {
        let master = LeanMaster::new(alloc, rules, true)?;
        Ok(Standby { master })
    }

    /// Follows a change that the first master accepted, of operator `caller`, 1 to 8. It is planned from the standby's
    /// own next cycle on.
    ///
    /// # Errors
    ///
    /// `Refused` exactly where the standby's own table refuses the change; and `Memory`. Nothing is changed then.
    pub fn change(&mut self, alloc: Global, caller: u8, change: &Change) -> Result<(), FollowFault>
        requires caller { (1 ≤ caller) × (caller ≤ 8) }
        ensures rules { self.new.rules ≡ self.old.rules }
        ensures event { OnOk result (IsChanged self.old caller change.now self.new.history) }
        ensures same { OnErr result (self.new.history ≡ self.old.history) }
        ensures fault { IfErr result (IsChangeFault self.old change.now) }
        ensures due { (history : List Event) (from : ℕ) (verdict : VerdictOf) (trail : List ℕ)
            → core_of history ≡ core_of self.old.history → IsLegal self.old.rules history
            → IsRightAnswer self.old.rules history change.now from verdict trail → is_accepted verdict ≡ true
            → IfErr result (λ fault. fault ≡ Memory) }
        ensures plain { IsPlainlyLegal self.new.rules self.new.history }
    {
        accepted_anew();
        let verdict = self.master.accept(alloc, caller, change)?;
        if !verdict.is_accepted() {
            return Err(FollowFault::Refused { verdict });
        }
        Ok(())
    }

    /// Follows the opening of the next cycle, below 2^41, of which these trigger frames were heard. The cycle is planned
    /// once.
    ///
    /// # Errors
    ///
    /// The first that holds of `Trigger`, `Differs` and `Window`; and `Memory`. Nothing is changed then.
    pub fn trigger(&mut self, alloc: Global, frames: &[Frame]) -> Result<(), FollowFault>
        requires next { next_of self.old.history < openings_end }
        ensures rules { self.new.rules ≡ self.old.rules }
        ensures event { OnOk result (IsOpened self.old frames.now self.new.history) }
        ensures same { OnErr result (self.new.history ≡ self.old.history) }
        ensures fault { IfErr result (IsTriggerFault self.old frames.now) }
        ensures due { frames.now ≡ due_frames self.old → IfErr result (λ fault. fault ≡ Memory) }
        ensures plain { IsPlainlyLegal self.new.rules self.new.history }
    {
        let cycle = self.master.next();
        let upcoming = self.master.upcoming();
        let Some(heard) = hear(self.master.rules().slots, cycle, frames) else {
            return Err(FollowFault::Trigger { cycle });
        };
        if heard.mask != upcoming.mask {
            return Err(FollowFault::Differs {
                cycle,
                heard: heard.mask,
                planned: upcoming.mask,
            });
        }
        if heard.l != upcoming.l {
            return Err(FollowFault::Window {
                l: heard.l,
                sum: upcoming.l,
            });
        }
        self.master.reserve(alloc, 1)?;
        self.master.pass(upcoming);
        Ok(())
    }

    /// The master with the standby's history, which goes on in place of the first one. It takes no memory.
    pub fn take_over(self) -> Master
        ensures rules { result.rules ≡ self.rules }
        ensures history { result.history ≡ self.history }
        ensures plain { IsPlainlyLegal result.rules result.history }
    {
        let Standby { master } = self;
        match master.into_master() {
            Some(master) => master,
            None => unreachable!(),
        }
    }

    /// The next cycle that the standby expects.
    pub fn next(&self) -> u64
        ensures next { result ≡ next_of self.now.history }
    {
        self.master.next()
    }

    /// The accepted changes and the openings, in their order.
    pub fn history(&self) -> &[Event]
        ensures list { result.now ≡ self.now.history }
        ensures core_alone { All IsInCore self.now.history }
        ensures plain { IsPlainlyLegal self.now.rules self.now.history }
    {
        match self.master.history() {
            Some(events) => events,
            None => unreachable!(),
        }
    }
}
