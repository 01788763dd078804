//! The checker of plans, as texts.

ghost use Rattle.std.specs.Prelude.{◌≡◌, ◌≢◌, ◌+◌, ◌≤◌, ◌↔◌, ◌⊎◌, ℕ, IfErr, IfOk, IsTrue, MatchResult, OnOk, length};
ghost use Rattle.profile.specs.Limits.{cycles_end};
ghost use Rattle.requirement_table.specs.Table.{IsWellPlaced};
ghost use Rattle.plan_check.specs.PlanKept.{HasPending};
ghost use Rattle.plan_check.specs.PlanText.{IsFirstWrongLine, IsTextOfPlan};
ghost use Rattle.plan_check.specs.declared.text_fault.PlanTextFault.{PlanTextFault as PlanTextFaultOf};
ghost use Rattle.fttcan_c.specs.declared.checked.Finding.TheVariants.{Kept};
ghost use Rattle.c_values.specs.declared.refusal.ExportRefusal.{ExportRefusal as RefusalOf};
ghost use Rattle.c_values.specs.declared.refusal.ExportRefusal.TheVariants.{Memory};
ghost use Rattle.fttcan_c.specs.Checked.{BeginsRight, IsFinding, IsPlanBroken, IsPlanTaken, RefusesPlan, RefusesPlanOf};
ghost use Rattle.c_values.specs.Plain.{table_of};
ghost use Rattle.c_values.specs.Refused.{status_of};

use c_values::{ExportRefusal, FttBreach, FttPlaced, OK, breach_out, table_in};
use plan_check::{Certificate, PlanTextFault, check, read_plan};
use planner_policies::{Fill, PlanState, Policy, rank, valid};
use profile::CYCLES_END;
use requirement_table::Placed;
use std::alloc::{AllocError, Global};

/// What is found of the text of a plan.
#[derive(Clone, Copy, PartialEq, Eq, Debug)]
pub enum Finding {
    /// The plan keeps the table for ever.
    Kept,
    /// It does not: this is the first breach.
    Broken { breach: FttBreach },
    /// The text is none of a plan: the first line, from 1, that breaks the form.
    Unread { number: u64 },
}

/// Whether a plan begins where each pending slot has an instance that was released before it and is not over, and its
/// cycles are below 2^42.
fn begins_right(
    alloc: Global,
    placed: &[Placed],
    certificate: &Certificate,
) -> Result<bool, AllocError>
    requires well_placed { IsWellPlaced placed.now }
    ensures right { IfOk result (λ right. IsTrue right ↔ BeginsRight placed.now certificate.now) }
{
    let first = certificate.first();
    if first >= CYCLES_END || certificate.length() > CYCLES_END - first {
        return Ok(false);
    }
    let ranked = rank(alloc, placed, Policy::Rm, Fill::Prefix)?;
    let state = PlanState {
        cycle: certificate.from(),
        pending: certificate.pending(),
    };
    Ok(valid(&ranked, &state))
}

/// What is found of the text of a plan of a table, within a window of so many bit times.
#[tactic(auto, using(crate::proofs::Taken::only_memory))]
fn found(
    alloc: Global,
    placed: &[FttPlaced],
    window: u32,
    text: &[u8],
) -> Result<Finding, ExportRefusal>
    ensures found { IfOk result (IsFinding (table_of placed.now) window text.now) }
    ensures complete { IsPlanTaken (table_of placed.now) window text.now
        → MatchResult result (λ finding. finding ≡ Kept) (λ refusal. refusal ≡ Memory) }
    ensures refused { IfErr result (RefusesPlan placed.now text.now) }
{
    let list = table_in(alloc, placed)?;
    found_in(alloc, list.as_slice(), window, text)
}

/// What is found of the text of a plan of a well placed list.
fn found_in(
    alloc: Global,
    list: &[Placed],
    window: u32,
    text: &[u8],
) -> Result<Finding, ExportRefusal>
    requires well_placed { IsWellPlaced list.now }
    ensures found { IfOk result (IsFinding list.now window text.now) }
    ensures complete { IsPlanTaken list.now window text.now
        → MatchResult result (λ finding. finding ≡ Kept) (λ refusal. refusal ≡ Memory) }
    ensures refused { IfErr result (RefusesPlanOf list.now text.now) }
{
    let certificate = match read_plan(alloc, text) {
        Ok(certificate) => certificate,
        Err(PlanTextFault::Memory) => return Err(ExportRefusal::Memory),
        Err(PlanTextFault::Line { number }) => return Ok(Finding::Unread { number }),
    };
    if !begins_right(alloc, list, &certificate)? {
        return Err(ExportRefusal::State);
    }
    match check(list, window, &certificate) {
        Ok(()) => Ok(Finding::Kept),
        Err(breach) => Ok(Finding::Broken {
            breach: breach_out(&breach),
        }),
    }
}

/// Checks the text of a plan against a table: whether it keeps the table for ever within a window of `window` bit times.
/// It may begin at any cycle, with the slots pending that it names.
///
/// It answers `No` with the first breach, and `Text` with the number of the first line that breaks the form as `first`
/// of the breach. `State` is the answer where a slot is said to be pending that has no instance then, or where a cycle
/// is 2^42 or above.
#[unsafe(no_mangle)]
pub extern "C" fn fttcan_check(
    alloc: Global,
    placed: &[FttPlaced],
    window: u32,
    text: &[u8],
    breach: &mut FttBreach,
) -> u32
    ensures taken { result ≡ 0 → IsPlanTaken (table_of placed.now) window text.now × (breach.new ≡ breach.old) }
    ensures complete { IsPlanTaken (table_of placed.now) window text.now → (result ≡ 0) ⊎ (result ≡ 1) }
    ensures broken { result ≡ 10 → IsPlanBroken (table_of placed.now) window text.now breach.new }
    ensures unread { result ≡ 9 → (number : ℕ) × IsWellPlaced (table_of placed.now) × IsFirstWrongLine text.now number
        × (breach.new ≡ record breach.old { first = number }) }
    ensures refused { result ≢ 0 → result ≢ 9 → result ≢ 10 → (breach.new ≡ breach.old)
        × ((refusal : RefusalOf) × (result ≡ status_of refusal) × RefusesPlan placed.now text.now refusal) }
{
    match found(alloc, placed, window, text) {
        Ok(Finding::Kept) => OK,
        Ok(Finding::Broken { breach: first }) => {
            *breach = first;
            ExportRefusal::No.status()
        }
        Ok(Finding::Unread { number }) => {
            breach.first = number;
            ExportRefusal::Text.status()
        }
        Err(refusal) => refusal.status(),
    }
}
