//! A node behind a handle: made, let go, and told its entries.

ghost use Rattle.std.specs.Prelude.{◌≡◌, ◌≢◌, Some, None, IfErr, IfOk, OnOk, false, true};
ghost use Rattle.requirement_table.specs.Table.{IsWellPlaced};
ghost use Rattle.node_handle.specs.declared.held.HeldNode.{HeldNode as HeldOf};
ghost use Rattle.c_values.specs.declared.refusal.ExportRefusal.{ExportRefusal as RefusalOf};
ghost use Rattle.c_values.specs.declared.refusal.ExportRefusal.TheVariants.{Argument};
ghost use Rattle.c_values.specs.Plain.{layout_of, table_of};
ghost use Rattle.c_values.specs.Refused.{RefusesTable, status_of};
ghost use Rattle.live_node.specs.Live.{Learns};
ghost use Rattle.fttcan_node_c.specs.Nodes.{Holds, IsFresh, IsNodeAsked, KnowsFew, RefusesNode};

use crate::owners::are_owners;
use crate::plain::{FULL, FttSettings};
use async_window::Owner;
use c_values::{ExportRefusal, FttLayout, FttPlaced, OK, layout_in, table_in};
use cycle_layout::Layout;
use live_node::{LiveNode, Settings};
use node_handle::{FttNode, HeldNode};
use profile::MOST_NODES;
use requirement_table::Placed;
use std::alloc::Global;
use std::mem;

/// The most cycles by which the count of a driver may be off.
const MOST_TOLERANCE: u8 = 127;

/// The layout of a node, where all that it is made of is in range.
fn asked(
    layout: &FttLayout,
    settings: &FttSettings,
    owners: &[Owner],
) -> Result<Layout, ExportRefusal>
    ensures layout { IfOk result (λ made. made ≡ layout_of layout.now) }
    ensures known { OnOk result (IsNodeAsked layout.now settings.now owners.now) }
    ensures refused { IfErr result (λ refusal. (refusal ≡ Argument)
        × (IsNodeAsked layout.now settings.now owners.now → ⊥)) }
{
    let made = layout_in(layout)?;
    if settings.number >= MOST_NODES || settings.tolerance > MOST_TOLERANCE || !are_owners(owners) {
        return Err(ExportRefusal::Argument);
    }
    Ok(made)
}

/// A node, in a box of its own.
fn made(
    alloc: Global,
    layout: &FttLayout,
    settings: &FttSettings,
    owners: &[Owner],
) -> Result<Box<HeldNode>, ExportRefusal>
    ensures fresh { IfOk result (λ held. IsFresh layout.now settings.now owners.now held.value.node) }
    ensures known { OnOk result (IsNodeAsked layout.now settings.now owners.now) }
    ensures refused { IfErr result (RefusesNode layout.now settings.now owners.now) }
{
    let layout = asked(layout, settings, owners)?;
    let wanted = Settings {
        room: settings.room as usize,
        entries: settings.entries as usize,
        tolerance: settings.tolerance,
        silent: settings.silent != 0,
    };
    let node = LiveNode::new(alloc, settings.number, layout, owners, &wanted)?;
    match Box::new(alloc, HeldNode { node }) {
        Ok(held) => Ok(held),
        Err(_) => Err(ExportRefusal::Memory),
    }
}

/// Makes a node that knows no entries, where the handle holds nothing. It takes all its memory here.
#[unsafe(no_mangle)]
pub extern "C" fn fttcan_node_new(
    n: &mut FttNode,
    alloc: Global,
    layout: &FttLayout,
    settings: &FttSettings,
    owners: &[Owner],
) -> u32
    ensures made { result ≡ 0 → (n.old.value ≡ None) × IsNodeAsked layout.now settings.now owners.now
        × Holds n.new.value (IsFresh layout.now settings.now owners.now) }
    ensures same { result ≢ 0 → n.new.value ≡ n.old.value }
    ensures taken { result ≡ 8 → (held : HeldOf) × (n.old.value ≡ Some held) }
    ensures free { result ≢ 8 → n.old.value ≡ None }
    ensures refused { result ≢ 0 → result ≢ 8 → (refusal : RefusalOf) × (result ≡ status_of refusal)
        × RefusesNode layout.now settings.now owners.now refusal }
{
    if let Some(held) = mem::replace(n, FttNode::none()).into_box(alloc) {
        *n = FttNode::of(held);
        return ExportRefusal::Open.status();
    }
    match made(alloc, layout, settings, owners) {
        Ok(held) => {
            *n = FttNode::of(held);
            OK
        }
        Err(refusal) => refusal.status(),
    }
}

/// Frees what the handle holds, where it holds something.
#[unsafe(no_mangle)]
pub extern "C" fn fttcan_node_free(n: &mut FttNode, alloc: Global)
    ensures none { n.new.value ≡ None }
{
    drop(mem::replace(n, FttNode::none()).into_box(alloc));
}

/// Has a node learn its entries of a list.
fn learnt(held: &mut HeldNode, placed: &[Placed]) -> bool
    requires well_placed { IsWellPlaced placed.now }
    ensures learnt { result ≡ true → KnowsFew placed.now held.old.node × Learns placed.now held.old.node held.new.node }
    ensures same { result ≡ false → (held.new ≡ held.old) × (KnowsFew placed.now held.old.node → ⊥) }
{
    held.node.learn(placed)
}

/// Replaces what the node knows by the entries of its number in a table. The answer is `FULL` where these are more than it
/// was made for.
#[unsafe(no_mangle)]
pub extern "C" fn fttcan_node_learn(n: &mut FttNode, alloc: Global, placed: &[FttPlaced]) -> u32
    ensures learnt { result ≡ 0 → IsWellPlaced (table_of placed.now) × Holds n.old.value (λ old.
        KnowsFew (table_of placed.now) old × Holds n.new.value (Learns (table_of placed.now) old)) }
    ensures full { result ≡ 12 → IsWellPlaced (table_of placed.now)
        × Holds n.old.value (λ old. KnowsFew (table_of placed.now) old → ⊥) }
    ensures same { result ≢ 0 → n.new.value ≡ n.old.value }
    ensures refused { result ≢ 0 → result ≢ 7 → result ≢ 12 → (refusal : RefusalOf) × (result ≡ status_of refusal)
        × RefusesTable placed.now refusal }
    ensures closed { result ≡ 7 → n.old.value ≡ None }
    ensures empty { n.old.value ≡ None → result ≡ 7 }
{
    let Some(mut held) = mem::replace(n, FttNode::none()).into_box(alloc) else {
        return ExportRefusal::Closed.status();
    };
    let list = match table_in(alloc, placed) {
        Ok(list) => list,
        Err(refusal) => {
            *n = FttNode::of(held);
            return refusal.status();
        }
    };
    let done = learnt(&mut held, list.as_slice());
    *n = FttNode::of(held);
    if done { OK } else { FULL }
}
