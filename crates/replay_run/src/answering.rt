//! A master alone, which answers steps.

ghost use Rattle.std.specs.Prelude.{IfOk};
ghost use Rattle.std.specs.Prelude.{◌≡◌};
ghost use Rattle.admission.specs.Verdict.{IsRules};
ghost use Rattle.steps_file.specs.StepsFile.{AreLegalSteps};
ghost use Rattle.master_core.specs.History.{IsPlainlyLegal};
ghost use Rattle.replay_run.specs.Run.{AnswersSteps};

use crate::driver::{Driven, drive};
use admission_rules::Rules;
use change_protocol::Act;
use master_core::{LeanMaster, Master};
use std::alloc::{AllocError, Global};
use steps_file::Step;

impl Driven for LeanMaster {
    ghost use Rattle.std.specs.Prelude.{⊤};
    ghost use Rattle.master_core.specs.History.{next_of};
    ghost use Rattle.replay_run.specs.Answered.{HasAnsweredCalls, StoppedIn, answered-nothing, answered-more, stopped-later};

    type Stop = AllocError;

    ghost is_ready = { λ master. ⊤ };

    ghost cycles = { λ master. next_of master.history };

    ghost goes_on = { HasAnsweredCalls };

    ghost stops = { λ old calls new why. StoppedIn old calls new };

    fn open_cycle(&mut self, alloc: Global) -> Result<(), AllocError> {
        self.reserve(alloc, 1)?;
        self.open();
        Ok(())
    }

    fn answer(&mut self, alloc: Global, caller: u8, act: &Act) -> Result<(), AllocError> {
        match act {
            Act::Ask { change } => {
                self.submit(alloc, caller, change)?;
            }
            Act::Look => {
                self.reserve(alloc, 1)?;
                self.look(caller);
            }
        }
        Ok(())
    }

    /// A master alone tells no rows.
    fn pass_on(&mut self) -> Result<(), AllocError> {
        Ok(())
    }

    ghost at_once = { answered-nothing };

    ghost in_turn = { answered-more };

    ghost ready_still = { λ one other calls ready on. tt };

    ghost stops_later = { λ one other third calls later more why on stopped.
        stopped-later one other third calls later more on stopped };
}

/// Answers the steps of a file by a master alone, with no bus. Its history is the one of every run of these steps by
/// these rules.
///
/// # Errors
///
/// Only where memory runs out.
pub fn answer(alloc: Global, rules: &Rules, steps: &[Step]) -> Result<Master, AllocError>
    requires rules { IsRules rules.now }
    requires steps { AreLegalSteps steps.now }
    ensures rules { IfOk result (λ master. master.rules ≡ rules.now) }
    ensures plain { IfOk result (λ master. IsPlainlyLegal master.rules master.history) }
    ensures answers { IfOk result (λ master. AnswersSteps master.history steps.now) }
{
    let mut master = LeanMaster::new(alloc, *rules, true)?;
    drive(&mut master, alloc, steps)?;
    match master.into_master() {
        Some(master) => Ok(master),
        None => unreachable!(),
    }
}
