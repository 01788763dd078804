//! The table after a change that a master has accepted, without a plan.

ghost use Rattle.std.specs.Prelude.{◌≡◌, ◌≢◌, List, IfErr, IfOk};
ghost use Rattle.requirement_table.specs.Table.{IsWellPlaced};
ghost use Rattle.change_protocol.specs.Applied.{applied};
ghost use Rattle.c_values.specs.declared.plain.FttPlaced.{FttPlaced as FttPlacedOf};
ghost use Rattle.c_values.specs.declared.refusal.ExportRefusal.{ExportRefusal as RefusalOf};
ghost use Rattle.c_values.specs.Refused.{status_of};
ghost use Rattle.c_values.specs.Room.{IsRoomFilled, IsRoomShort};
ghost use Rattle.fttcan_node_c.specs.Applying.{IsAccepted, IsApplied, RefusesApply, RefusesApplying};

use c_values::{ExportRefusal, FttOp, FttPlaced, OK, change_in, put, table_in, table_out};
use change_protocol::{ApplyFault, Change, apply};
use profile::{MOST_NODES, MOST_SLOTS};
use requirement_table::Placed;
use std::alloc::Global;

/// The list after a change, for as many nodes and slots as there can be.
fn changed(alloc: Global, list: &[Placed], change: &Change) -> Result<Vec<Placed>, ExportRefusal>
    requires well_placed { IsWellPlaced list.now }
    ensures list { IfOk result (λ made. made.items ≡ applied list.now change.now) }
    ensures well_formed { IfOk result (λ _. IsAccepted list.now change.now) }
    ensures refused { IfErr result (RefusesApplying list.now change.now) }
{
    match apply(alloc, list, MOST_NODES, MOST_SLOTS, change) {
        Ok(made) => Ok(made),
        Err(ApplyFault::Malformed { op: _, why: _ }) => Err(ExportRefusal::No),
        Err(ApplyFault::Memory) => Err(ExportRefusal::Memory),
    }
}

/// The table after a change, as C is told it.
fn applied_to(
    alloc: Global,
    placed: &[FttPlaced],
    start: u64,
    ops: &[FttOp],
) -> Result<Vec<FttPlaced>, ExportRefusal>
    ensures applied { IfOk result (λ made. IsApplied placed.now start ops.now made.items) }
    ensures refused { IfErr result (RefusesApply placed.now start ops.now) }
{
    let change = change_in(alloc, start, ops)?;
    let list = table_in(alloc, placed)?;
    let made = changed(alloc, list.as_slice(), &change)?;
    let told = table_out(alloc, made.as_slice())?;
    Ok(told)
}

/// The table after a change that a master has accepted. It plans nothing. The answer is `No` where no master accepts it:
/// it is malformed, with 96 slots and 30 nodes.
#[unsafe(no_mangle)]
pub extern "C" fn fttcan_apply(
    alloc: Global,
    placed: &[FttPlaced],
    start: u64,
    ops: &[FttOp],
    room: &mut [FttPlaced],
    count: &mut usize,
) -> u32
    ensures applied { result ≡ 0 → (list : List FttPlacedOf) × IsApplied placed.now start ops.now list
        × IsRoomFilled list room.old room.new count.new }
    ensures short { result ≡ 5 → (list : List FttPlacedOf) × IsApplied placed.now start ops.now list
        × IsRoomShort list room.old room.new count.new }
    ensures refused { result ≢ 0 → result ≢ 5 → (room.new ≡ room.old) × (count.new ≡ count.old)
        × ((refusal : RefusalOf) × (result ≡ status_of refusal) × RefusesApply placed.now start ops.now refusal) }
{
    match applied_to(alloc, placed, start, ops) {
        Ok(made) => match put(made.as_slice(), room, count) {
            Ok(()) => OK,
            Err(refusal) => refusal.status(),
        },
        Err(refusal) => refusal.status(),
    }
}
