//! A shared master: made, parted among operators and closed.

ghost use Rattle.std.specs.Prelude.{◌≡◌, IfOk};
ghost use Rattle.admission.specs.Verdict.{IsRules};
ghost use Rattle.master_core.specs.History.{IsLegal};
ghost use Rattle.turn_lock.specs.Passes.{first_view, IsOfLock};
ghost use Rattle.live_master.specs.Passes.{HasAllCalls, IsPassOf};

use crate::desk::Desk;
use crate::passes::DispatcherPass;
use admission_rules::Rules;
use master_core::Master;
use std::alloc::{AllocError, Global};
use std::marker::Model;
use turn_lock::Turn;

/// A master that threads share. Contracts see it as its lock's table and its rules.
#[derive(Drop)]
pub struct LiveMaster {
    pub(crate) turn: Turn<Desk>,
}

impl Model for LiveMaster {
    ghost use Rattle.turn_lock.specs.Passes.{Lock};
    ghost use Rattle.admission_rules.specs.declared.Rules.{Rules};

    ghost Value = { Lock Rules };

    ghost view = { λ m. m.turn };

    ghost invariant = { λ m. Unit {0} };
}

impl LiveMaster {
    /// A shared master with these rules, which was not called yet, and its dispatcher's pass.
    ///
    /// # Errors
    ///
    /// Only where memory runs out.
    pub fn new(alloc: Global, rules: Rules) -> Result<(LiveMaster, DispatcherPass), AllocError>
        requires rules { IsRules rules }
        ensures rules { IfOk result (λ made. made.0.fixed ≡ rules) }
        ensures pass { IfOk result (λ made.
            made.1 ≡ record { table = made.0.table; view = first_view rules }) }
        ensures standing { IfOk result (λ made. IsPassOf made.0 made.1) }
    {
        let (turn, pass) = Turn::new(alloc, Desk::new(alloc, rules)?)?;
        Ok((LiveMaster { turn }, DispatcherPass { pass, cycles: 0 }))
    }

    /// Ends the sharing, once all operators were retired. The master's history is what the dispatcher's pass has seen.
    pub fn close(self, pass: DispatcherPass) -> Master
        requires of { IsOfLock self pass }
        requires retired { pass.view.out ≡ 0 }
        ensures rules { result.rules ≡ self.fixed }
        ensures history { result.history ≡ pass.view.seen }
        ensures legal { IsLegal result.rules result.history }
        ensures calls { HasAllCalls result.history pass.view }
    {
        let LiveMaster { turn } = self;
        let DispatcherPass { pass, cycles: _ } = pass;
        let Desk { master } = turn.close(pass);
        match master.into_master() {
            Some(master) => master,
            None => unreachable!(),
        }
    }
}
