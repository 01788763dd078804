//! All placed entries of a history, beside those that a core keeps.

ghost use Rattle.std.specs.Prelude.{◌≡◌, ◌+◌, ◌≤◌, [], Some, None, OnErr, OnOk, if◌then◌else◌, length, vec_capacity};
ghost use Rattle.bit_sets.specs.Sets.{most_slots};
ghost use Rattle.requirement_table.specs.Table.{IsWellPlaced};
ghost use Rattle.change_protocol.specs.Applied.{applied};
ghost use Rattle.change_protocol.specs.Malformed.{IsWellFormed};
ghost use Rattle.admission.specs.Verdict.{bounds_by};

use admission::Rules;
use change_protocol::{ApplyFault, Change, PlacedTable};
use requirement_table::{Placed, PlacedList};
use std::alloc::{AllocError, Global};
use std::marker::Model;

/// All placed entries, to which changes are applied in place. Contracts see the list.
///
/// There is room for it a second time: so a master can be made of it without memory.
#[derive(Drop, Debug)]
pub(crate) struct AllPlaced {
    table: PlacedTable,
    /// No entry, and room for as many as there are.
    room: Vec<Placed>,
}

impl Model for AllPlaced {
    ghost use Rattle.std.specs.Prelude.{◌≡◌, ◌≤◌, [], List, length, vec_capacity};
    ghost use Rattle.requirement_table.specs.declared.entries.Placed.{Placed};

    ghost Value = { List Placed };

    ghost view = { λ a. a.table };

    ghost invariant = { λ a. (a.room.items ≡ []) × (length a.table ≤ vec_capacity a.room) };
}

impl AllPlaced {
    /// No entry yet. It takes no memory.
    pub(crate) fn new(alloc: Global) -> AllPlaced
        ensures none { result ≡ [] }
    {
        AllPlaced {
            table: PlacedTable::new(alloc),
            room: Vec::new(alloc),
        }
    }

    /// Applies a change that breaks no rule, in place. It takes time linear in the operations of the change; only where
    /// there is no room left all entries are moved, to a place with room for as many again.
    ///
    /// # Errors
    ///
    /// Only where memory runs out. Nothing is changed then.
    pub(crate) fn apply(
        &mut self,
        alloc: Global,
        rules: &Rules,
        change: &Change,
    ) -> Result<(), AllocError>
        requires slots { rules.now.slots ≤ most_slots }
        requires well_formed { IsWellFormed self.old (bounds_by rules.now) change.now }
        ensures ok { OnOk result (self.new ≡ applied self.old change.now) }
        ensures same { OnErr result (self.new ≡ self.old) }
    {
        make_room(&mut self.room, self.table.placed(), change)?;
        change_table(&mut self.table, alloc, rules, change)
    }

    /// The entries.
    pub(crate) fn placed(&self) -> &[Placed]
        ensures list { result.now ≡ self.now }
        ensures well_placed { IsWellPlaced self.now }
    {
        self.table.placed()
    }

    /// The list, and the same one again where `twice` says so. It takes no memory.
    pub(crate) fn into_lists(self, twice: bool) -> (Vec<Placed>, Option<PlacedList>)
        ensures list { result.0.items ≡ self }
        ensures again { result.1 ≡ (if twice then Some self else None) }
        ensures well_placed { IsWellPlaced self }
    {
        let AllPlaced { table, room } = self;
        let list = table.into_vec();
        let again = if twice {
            Some(PlacedList::of(filled(room, list.as_slice())))
        } else {
            None
        };
        (list, again)
    }
}

/// Makes room for the entries with the change applied. The room stays empty.
fn make_room(room: &mut Vec<Placed>, placed: &[Placed], change: &Change) -> Result<(), AllocError>
    requires empty { room.old.items ≡ [] }
    ensures empty { room.new.items ≡ [] }
    ensures kept { vec_capacity room.old ≤ vec_capacity room.new }
    ensures room { OnOk result (length (applied placed.now change.now) ≤ vec_capacity room.new) }
{
    reserve_both(room, placed.len(), change.ops.len())?;
    Ok(())
}

/// Makes room for two numbers of entries. The room stays empty.
fn reserve_both(room: &mut Vec<Placed>, entries: usize, more: usize) -> Result<(), AllocError>
    requires empty { room.old.items ≡ [] }
    ensures empty { room.new.items ≡ [] }
    ensures kept { vec_capacity room.old ≤ vec_capacity room.new }
    ensures room { OnOk result (entries + more ≤ vec_capacity room.new) }
{
    if more > usize::MAX - entries {
        return Err(AllocError);
    }
    room.reserve(entries + more)?;
    Ok(())
}

/// Applies a change that breaks no rule, in place.
fn change_table(
    table: &mut PlacedTable,
    alloc: Global,
    rules: &Rules,
    change: &Change,
) -> Result<(), AllocError>
    requires slots { rules.now.slots ≤ most_slots }
    requires well_formed { IsWellFormed table.old (bounds_by rules.now) change.now }
    ensures ok { OnOk result (table.new ≡ applied table.old change.now) }
    ensures same { OnErr result (table.new ≡ table.old) }
{
    match table.apply(alloc, rules.nodes, rules.slots, change) {
        Ok(()) => Ok(()),
        Err(ApplyFault::Memory) => Err(AllocError),
        Err(ApplyFault::Malformed { .. }) => unreachable!(),
    }
}

/// The empty room, filled with these entries.
fn filled(room: Vec<Placed>, placed: &[Placed]) -> Vec<Placed>
    requires empty { room.items ≡ [] }
    requires room { length placed.now ≤ vec_capacity room }
    ensures list { result.items ≡ placed.now }
{
    let mut list = room;
    for p in placed {
        list.push_reserved(*p);
    }
    list
}
