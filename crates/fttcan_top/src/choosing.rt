//! What is chosen of a wish behind steps, as a text.

ghost use Rattle.std.specs.Prelude.{◌≡◌, ℕ, IfOk, string_bytes};
ghost use Rattle.elastic.specs.ChoiceRows.{IsFaultText};
ghost use Rattle.elastic.specs.declared.choice.ElasticFault.TheVariants.{NoPeriod};
ghost use Rattle.asked_files.specs.Asked.{IsJob};
ghost use Rattle.asked_files.specs.Inputs.{IsToChoose};
ghost use Rattle.fttcan_top.specs.Output.{IsChoiceText, IsDoneStatus};

use crate::status::Status;
use crate::work::Outcome;
use asked_files::Job;
use elastic::{ElasticFault, Wish, choice_row, choose, none_rows, too_many_row};
use replay_run::answer;
use std::alloc::{AllocError, Global};

/// The rows that tell why nothing is chosen of the wish of a file, of which each operation leaves a choice.
fn fault_rows(alloc: Global, fault: &ElasticFault) -> Result<String, AllocError>
    requires choice { (op : ℕ) → fault.now ≡ NoPeriod op → ⊥ }
    ensures rows { IfOk result (λ text. IsFaultText fault.now (string_bytes text)) }
{
    match fault {
        ElasticFault::TooMany { count } => too_many_row(alloc, *count),
        ElasticFault::NoneFits { verdicts } => none_rows(alloc, verdicts.as_slice()),
        ElasticFault::NoPeriod { .. } => unreachable!(),
        ElasticFault::Memory => Err(AllocError),
    }
}

/// Has a master answer the steps, and answers with the first combination of periods of the wish that it would accept
/// then, or with why none was chosen. The master is not changed by that.
#[tactic(auto, using(crate::proofs::ChosenLemmas::no_lack))]
pub fn choice_of(alloc: Global, job: &Job, wish: &Wish) -> Result<Outcome, AllocError>
    requires job { IsJob job.now }
    requires wish { IsToChoose wish.now }
    ensures choice { IfOk result (λ outcome. IsChoiceText job.now wish.now outcome.status outcome.text.items) }
    ensures done { IfOk result (λ outcome. IsDoneStatus outcome.status) }
{
    let master = answer(alloc, &job.system.rules, job.steps.as_slice())?;
    let behind = master.snapshot(alloc)?;
    let placed = behind.placed.as_slice();
    match choose(alloc, &behind.rules, placed, &behind.state, wish) {
        Ok(choice) => Ok(Outcome {
            status: Status::Done,
            text: choice_row(alloc, &choice)?.into_bytes(),
        }),
        Err(fault) => Ok(Outcome {
            status: Status::Refused,
            text: fault_rows(alloc, &fault)?.into_bytes(),
        }),
    }
}
