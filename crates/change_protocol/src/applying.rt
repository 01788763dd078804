//! The application of a change.

ghost use Rattle.std.specs.Prelude.{◌≡◌, ◌<◌, ◌≤◌, ◌++◌, ℕ, []};
ghost use Rattle.std.specs.Prelude.{Some, None, All, OnErr, IfErr, IfOk, IfSome, OnOk, map, length, slice_index_or, slice_set};
ghost use Rattle.std.specs.List.{cons_option, filter_map};
ghost use Rattle.profile.specs.Limits.{starts_end};
ghost use Rattle.requirement_table.specs.declared.entries.Placed.{Placed};
ghost use Rattle.bit_sets.specs.Sets.{most_slots};
ghost use Rattle.requirement_table.specs.Table.{IsWellPlaced};
ghost use Rattle.change_protocol.specs.Applied.{IsChangedAt, applied, ended, origin_behind, placed_by};
ghost use Rattle.change_protocol.specs.Malformed.{IsFaultOf, IsWellFormed, bounds_of, slot_empty};
ghost use Rattle.change_protocol.specs.Operations.{HasTypes, IsTyped, slot_of};
ghost use Rattle.change_protocol.specs.Slots.{EndsAt, IsCounted};
ghost use Rattle.change_protocol.specs.declared.malformed.ApplyFault.TheVariants.{Memory};

use crate::malformed::ApplyFault;
use crate::operations::{Change, Op};
use crate::rules::{check_change, check_operations};
use crate::slots::{Counts, SlotTable, counts_of, last_place};
use requirement_table::{Entry, Placed, copy_with_room};
use std::alloc::{AllocError, Global};

/// The place of the live entry that the operation ends, where it ends one. It needs no look at the entries: a change
/// that breaks no rule ends the last entry of a slot, which is live.
fn ended_place(counts: &Counts, op: &Op) -> Option<usize>
    requires { slot_of op.now < most_slots }
    ensures only { EndsAt counts.now op.now result }
{
    match op {
        Op::Add { .. } => None,
        Op::Remove { slot } => last_place(counts, *slot),
        Op::Change { entry } => last_place(counts, entry.slot),
    }
}

/// Sets the end of the entry at the place, where there is one.
fn set_end(list: &mut [Placed], place: Option<usize>, start: u64)
    requires within { IfSome place (λ k. k < length list.old) }
    ensures none { place ≡ None → list.new ≡ list.old }
    ensures some { (k : ℕ) (d : Placed) → place ≡ Some k → list.new
        ≡ slice_set list.old k (record (slice_index_or list.old k d) { end = Some start }) }
{
    if let Some(place) = place {
        list[place].end = Some(start);
    }
}

/// Sets the ends that the operations of a change set which breaks no rule.
fn set_ends(list: &mut [Placed], counts: &Counts, start: u64, ops: &[Op])
    requires counted { IsCounted list.old counts.now }
    requires slots { All (λ op. slot_of op < most_slots) ops.now }
    requires live { All (λ op. slot_empty list.old op ≡ []) ops.now }
    ensures list { list.new ≡ map (ended start ops.now) list.old }
{
    for op in ops {
        set_end(list, ended_place(counts, op), start);
    }
}

/// The entry with this origin and no end.
fn live(entry: Entry, origin: u64) -> Placed
    ensures placed { result ≡ record { entry = entry; origin = origin; end = None } }
    ensures types { IsTyped entry }
{
    Placed {
        entry,
        origin,
        end: None,
    }
}

/// The origin of the entry that follows the live entry of the slot, which ends at `start`.
fn origin_behind(table: &SlotTable, start: u64, slot: u8) -> u64
    requires slot { slot < most_slots }
    requires start { start < starts_end }
    ensures origin { result ≡ origin_behind table.now.placed.now start slot }
{
    match table.slot(slot).live {
        Some(live) => {
            let deadline = live.entry.deadline;
            start + u64::from(deadline) - 1
        }
        None => start,
    }
}

/// The entry that an operation places.
fn placed_by(table: &SlotTable, start: u64, op: &Op) -> Option<Placed>
    requires slot { slot_of op.now < most_slots }
    requires start { start < starts_end }
    ensures placed { result ≡ placed_by table.now.placed.now start op.now }
    ensures types { HasTypes op.now }
{
    match op {
        Op::Add { entry } => Some(live(*entry, start)),
        Op::Remove { .. } => None,
        Op::Change { entry } => Some(live(*entry, origin_behind(table, start, entry.slot))),
    }
}

/// Puts the placed entry behind the list, where there is one.
fn put(list: &mut Vec<Placed>, p: Option<Placed>) -> Result<(), ApplyFault>
    ensures list { OnOk result (list.new.items ≡ list.old.items ++ cons_option p []) }
    ensures fault { IfErr result (λ fault. fault ≡ Memory) }
{
    if let Some(p) = p {
        list.push(p)?;
    }
    Ok(())
}

/// Puts the entries behind the list that the operations place.
fn place(
    list: &mut Vec<Placed>,
    table: &SlotTable,
    start: u64,
    ops: &[Op],
) -> Result<(), ApplyFault>
    requires slots { All (λ op. slot_of op < most_slots) ops.now }
    requires start { start < starts_end }
    ensures list { OnOk result
        (list.new.items ≡ list.old.items ++ filter_map (placed_by table.now.placed.now start) ops.now) }
    ensures types { OnOk result (All HasTypes ops.now) }
    ensures fault { IfErr result (λ fault. fault ≡ Memory) }
{
    for op in ops {
        put(list, placed_by(table, start, op))?;
    }
    Ok(())
}

/// The entries that a change places, where it breaks no rule.
pub(crate) fn new_entries(
    alloc: Global,
    table: &SlotTable,
    nodes: u8,
    slots: u8,
    change: &Change,
) -> Result<Vec<Placed>, ApplyFault>
    requires slots { slots ≤ most_slots }
    ensures added { IfOk result (λ added. added.items
        ≡ filter_map (placed_by table.now.placed.now change.now.start) change.now.ops) }
    ensures types { IfOk result (λ _. All HasTypes change.now.ops) }
    ensures well_formed { IfOk result (λ _. IsWellFormed table.now.placed.now (bounds_of nodes slots) change.now) }
    ensures fault { IfErr result (IsFaultOf table.now.placed.now (bounds_of nodes slots) change.now) }
{
    let ops = change.ops.as_slice();
    check_change(change.start, ops)?;
    check_operations(table, nodes, slots, change.start, ops)?;
    let mut added = Vec::with_capacity(alloc, ops.len())?;
    place(&mut added, table, change.start, ops)?;
    Ok(added)
}

/// Makes a change of the list that breaks no rule: puts the entries behind it that the change places, and sets the ends
/// of those that it ends. Memory is asked for before: where it runs out, the list is as it was.
pub(crate) fn change_list(
    list: &mut Vec<Placed>,
    counts: &Counts,
    change: &Change,
    added: &[Placed],
) -> Result<(), AllocError>
    requires counted { IsCounted list.old.items counts.now }
    requires slots { All (λ op. slot_of op < most_slots) change.now.ops }
    requires live { All (λ op. slot_empty list.old.items op ≡ []) change.now.ops }
    ensures list { OnOk result
        (list.new.items ≡ map (ended change.now.start change.now.ops) list.old.items ++ added.now) }
    ensures same { OnErr result (list.new.items ≡ list.old.items) }
{
    list.reserve(added.len())?;
    set_ends(
        list.as_mut_slice(),
        counts,
        change.start,
        change.ops.as_slice(),
    );
    list.extend_from_slice(added)
}

/// The placed entries after a change: the ends that its operations set are set in place, and the entries that they
/// place stand behind, in the order of the operations. The new list is well placed, and below the change's start it has
/// the same instances as the old one.
///
/// `nodes` is the number of nodes. `slots` is that of slots, 40 or 96, of which the contract needs only that a set of
/// slots has room for so many. A change costs time linear in the placed entries. Where many are applied one after the
/// other, a [`PlacedTable`](crate::PlacedTable) takes each in the time of its operations.
///
/// # Errors
///
/// `Malformed` exactly where the change breaks a rule, with the first rule that it breaks. `Memory` where memory ran
/// out, which is only asked for where no rule is broken.
pub fn apply(
    alloc: Global,
    placed: &[Placed],
    nodes: u8,
    slots: u8,
    change: &Change,
) -> Result<Vec<Placed>, ApplyFault>
    requires well_placed { IsWellPlaced placed.now }
    requires slots { slots ≤ most_slots }
    ensures ok { IfOk result (λ list. list.items ≡ applied placed.now change.now) }
    ensures well_formed { IfOk result (λ _. IsWellFormed placed.now (bounds_of nodes slots) change.now) }
    ensures fault { IfErr result (IsFaultOf placed.now (bounds_of nodes slots) change.now) }
    ensures well_placed { IfOk result (λ list. IsWellPlaced list.items) }
    ensures changed { IfOk result (λ list. IsChangedAt change.now.start placed.now list.items) }
{
    let counts = counts_of(placed);
    let table = SlotTable::of(placed, &counts);
    let added = new_entries(alloc, &table, nodes, slots, change)?;
    let mut list = copy_with_room(alloc, placed, added.len())?;
    change_list(&mut list, &counts, change, added.as_slice())?;
    Ok(list)
}
