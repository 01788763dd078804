//! The table that steps ask for.

ghost use Rattle.std.specs.Prelude.{◌≡◌, IfOk, OnOk};
ghost use Rattle.requirement_table.specs.Table.{IsWellPlaced};
ghost use Rattle.admission.specs.Verdict.{IsRules, bounds_by};
ghost use Rattle.replay_run.specs.Asked.{CanApply, bounds_in};
ghost use Rattle.steps_file.specs.StepsFile.{AreLegalSteps};
ghost use Rattle.replay_run.specs.AskedTable.{after_change, table_of};

use crate::driver::{Driven, drive};
use admission_rules::Rules;
use change_protocol::{Act, ApplyFault, Change, PlacedTable};
use requirement_table::Placed;
use std::alloc::{AllocError, Global};
use steps_file::Step;

/// The placed entries after some calls on a bus of so many nodes and slots, and the number of cycles that these open.
#[derive(Drop)]
struct AskedEntries {
    nodes: u8,
    slots: u8,
    table: PlacedTable,
    next: u64,
}

/// Applies a change where it breaks no rule and its start has not passed.
fn ask(asked: &mut AskedEntries, alloc: Global, change: &Change) -> Result<(), AllocError>
    requires can_apply { CanApply asked.old }
    ensures can_apply { OnOk result (CanApply asked.new) }
    ensures bounds { OnOk result (bounds_in asked.new ≡ bounds_in asked.old) }
    ensures next { OnOk result (asked.new.next ≡ asked.old.next) }
    ensures applied { OnOk result (asked.new.table
        ≡ after_change (bounds_in asked.old) asked.old.table asked.old.next change.now) }
{
    if change.start < asked.next {
        return Ok(());
    }
    match asked.table.apply(alloc, asked.nodes, asked.slots, change) {
        Ok(()) => Ok(()),
        Err(ApplyFault::Malformed { .. }) => Ok(()),
        Err(ApplyFault::Memory) => Err(AllocError),
    }
}

impl Driven for AskedEntries {
    ghost use Rattle.std.specs.Prelude.{⊤};
    ghost use Rattle.replay_run.specs.Asked.{CanApply, IsAskedAfter, on-nothing, on-more};

    type Stop = AllocError;

    ghost is_ready = { CanApply };

    ghost cycles = { λ asked. asked.next };

    ghost goes_on = { IsAskedAfter };

    ghost stops = { λ old calls new why. ⊤ };

    fn open_cycle(&mut self, _alloc: Global) -> Result<(), AllocError> {
        self.next += 1;
        Ok(())
    }

    fn answer(&mut self, alloc: Global, _caller: u8, act: &Act) -> Result<(), AllocError> {
        match act {
            Act::Ask { change } => ask(self, alloc, change),
            Act::Look => Ok(()),
        }
    }

    /// It tells no rows.
    fn pass_on(&mut self) -> Result<(), AllocError> {
        Ok(())
    }

    ghost at_once = { on-nothing };

    ghost in_turn = { on-more };

    ghost ready_still = { λ one other calls ready on. on.can_apply ready };

    ghost stops_later = { λ one other third calls later more why on stopped. tt };
}

/// The placed entries that the steps of a file ask for by these rules, where no admission is asked: each change counts
/// that breaks no rule and whose start is not below the number of cycles in the rows before it.
///
/// # Errors
///
/// Only where memory runs out.
pub fn asked_table(alloc: Global, rules: &Rules, steps: &[Step]) -> Result<Vec<Placed>, AllocError>
    requires rules { IsRules rules.now }
    requires steps { AreLegalSteps steps.now }
    ensures placed { IfOk result (λ placed. placed.items ≡ (table_of (bounds_by rules.now) steps.now).placed) }
    ensures well_placed { IfOk result (λ placed. IsWellPlaced placed.items) }
{
    let mut asked = AskedEntries {
        nodes: rules.nodes,
        slots: rules.slots,
        table: PlacedTable::new(alloc),
        next: 0,
    };
    drive(&mut asked, alloc, steps)?;
    Ok(asked.table.into_vec())
}
