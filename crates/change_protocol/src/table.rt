//! A table of placed entries that grows by changes.

ghost use Rattle.std.specs.Prelude.{◌≡◌, ◌≤◌, [], IfErr, OnErr, OnOk};
ghost use Rattle.bit_sets.specs.Sets.{most_slots};
ghost use Rattle.requirement_table.specs.Table.{IsWellPlaced};
ghost use Rattle.change_protocol.specs.Applied.{IsChangedAt, applied};
ghost use Rattle.change_protocol.specs.Malformed.{IsFaultOf, IsWellFormed, bounds_of};

use crate::applying::{change_list, new_entries};
use crate::malformed::ApplyFault;
use crate::operations::Change;
use crate::slots::{Counts, SlotTable, count_from, counts_of};
use requirement_table::{MOST_SLOTS, Placed};
use std::alloc::Global;
use std::marker::Model;

/// A well placed list of placed entries, to which changes are applied in place. Contracts see the list.
///
/// Beside the list it knows where the last entry of each slot stands. So a change costs time linear in its operations,
/// and not in the entries.
#[derive(Drop, Debug)]
pub struct PlacedTable {
    placed: Vec<Placed>,
    counts: Counts,
}

impl Model for PlacedTable {
    ghost use Rattle.std.specs.Prelude.{List};
    ghost use Rattle.requirement_table.specs.declared.entries.Placed.{Placed};
    ghost use Rattle.change_protocol.specs.Slots.{IsCounted};

    ghost Value = { List Placed };

    ghost view = { λ t. t.placed.items };

    ghost invariant = { λ t. IsCounted t.placed.items t.counts };
}

impl PlacedTable {
    /// The table before any change: no entry. It takes no memory.
    pub fn new(alloc: Global) -> PlacedTable
        ensures none { result ≡ [] }
    {
        PlacedTable {
            placed: Vec::new(alloc),
            counts: [0; MOST_SLOTS as usize],
        }
    }

    /// The table of these placed entries. It takes no memory, and time linear in the entries.
    pub fn of(placed: Vec<Placed>) -> PlacedTable
        requires well_placed { IsWellPlaced placed.items }
        ensures placed { result ≡ placed.items }
    {
        let counts = counts_of(placed.as_slice());
        PlacedTable { placed, counts }
    }

    /// The placed entries.
    pub fn placed(&self) -> &[Placed]
        ensures placed { result.now ≡ self.now }
        ensures well_placed { IsWellPlaced self.now }
    {
        self.placed.as_slice()
    }

    /// The list of the placed entries.
    pub fn into_vec(self) -> Vec<Placed>
        ensures placed { result.items ≡ self }
        ensures well_placed { IsWellPlaced self }
    {
        self.placed
    }

    /// Applies a change in place, as [`apply`](crate::apply) makes a list of it. Where it is refused, the table is as
    /// before.
    ///
    /// `nodes` is the number of nodes. `slots` is that of slots, 40 or 96, of which the contract needs only that a set
    /// of slots has room for so many. A change costs time linear in its operations; only where the list has no room left
    /// it is moved, to a place with room for as many entries again.
    ///
    /// # Errors
    ///
    /// `Malformed` exactly where the change breaks a rule, with the first rule that it breaks. `Memory` where memory ran
    /// out, which is only asked for where no rule is broken.
    pub fn apply(
        &mut self,
        alloc: Global,
        nodes: u8,
        slots: u8,
        change: &Change,
    ) -> Result<(), ApplyFault>
        requires slots { slots ≤ most_slots }
        ensures ok { OnOk result (self.new ≡ applied self.old change.now) }
        ensures refused { OnErr result (self.new ≡ self.old) }
        ensures well_formed { OnOk result (IsWellFormed self.old (bounds_of nodes slots) change.now) }
        ensures fault { IfErr result (IsFaultOf self.old (bounds_of nodes slots) change.now) }
        ensures well_placed { IsWellPlaced self.new }
        ensures changed { OnOk result (IsChangedAt change.now.start self.old self.new) }
    {
        let table = SlotTable::of(self.placed.as_slice(), &self.counts);
        let added = new_entries(alloc, &table, nodes, slots, change)?;
        let before = self.placed.len();
        change_list(&mut self.placed, &self.counts, change, added.as_slice())?;
        count_from(&mut self.counts, self.placed.as_slice(), before);
        Ok(())
    }
}
