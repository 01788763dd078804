//! The placed entries that are needed at a place of a history, and what the flagged slots of a cycle cost. All lengths
//! are bit times.

ghost use Rattle.std.specs.Prelude.{◌≡◌, ◌≤◌, ◌<◌, [], List, IfOk, OnOk, length};
ghost use Rattle.requirement_table.specs.declared.entries.Placed.{Placed};
ghost use Rattle.requirement_table.specs.Instance.{worst};
ghost use Rattle.bit_sets.specs.Sets.{has_bit};
ghost use Rattle.requirement_table.specs.Table.{IsInRange, IsWellPlaced, width_in};
ghost use Rattle.change_protocol.specs.Applied.{applied};
ghost use Rattle.bus_trace.specs.Logged.{HasEntries, IsFormed, cost_in};

use admission::laws::pruned_lists;
use change_protocol::laws::well_formed_changes;
use change_protocol::{ApplyFault, Change, apply, prune};
use profile::MOST_NODES;
use requirement_table::{MOST_SLOTS, Mask, Placed, cost, current};
use std::alloc::{AllocError, Global};

/// The placed entries at a place of a history, but for those that nothing later asks for.
#[derive(Drop, Debug)]
pub struct Entries {
    /// Each accepted change drops those that are over by the next cycle of that time and that another one of their slot
    /// follows. None of them has an instance to send any more, or is in the way of a later change.
    kept: Vec<Placed>,
}

impl Entries {
    /// The entries before any change: none.
    pub fn new(alloc: Global) -> Entries
        ensures entries { HasEntries [] 0 result.kept.items }
    {
        Entries {
            kept: Vec::new(alloc),
        }
    }

    /// Applies a change that was accepted when `next` was the next cycle to be opened. It costs time linear in the
    /// entries that are kept.
    ///
    /// # Errors
    ///
    /// Only where memory runs out.
    pub fn accept(&mut self, alloc: Global, change: &Change, next: u64) -> Result<(), AllocError>
        requires well_placed { IsWellPlaced self.old.kept.items }
        requires formed { IsFormed self.old.kept.items change.now }
        ensures entries { OnOk result ((list : List Placed) → HasEntries list next self.old.kept.items
            → HasEntries (applied list change.now) next self.new.kept.items) }
    {
        let mut list = after_change(alloc, self.kept.as_slice(), change)?;
        pruned_lists();
        prune(&mut list, next);
        self.kept = list;
        Ok(())
    }

    /// The length of the synchronous window of a cycle in which these slots are flagged: their worst lengths together.
    pub fn width(&self, cycle: u64, mask: Mask) -> u32
        requires kept { IsWellPlaced self.now.kept.items }
        ensures width { result ≡ width_in self.now.kept.items cycle (has_bit mask) }
    {
        width(self.kept.as_slice(), cycle, mask)
    }
}

/// The entries after a change that is well formed.
fn after_change(
    alloc: Global,
    placed: &[Placed],
    change: &Change,
) -> Result<Vec<Placed>, AllocError>
    requires placed { IsWellPlaced placed.now }
    requires formed { IsFormed placed.now change.now }
    ensures list { IfOk result (λ list. list.items ≡ applied placed.now change.now) }
    ensures well_placed { IfOk result (λ list. IsWellPlaced list.items) }
{
    well_formed_changes();
    match apply(alloc, placed, MOST_NODES, MOST_SLOTS, change) {
        Ok(list) => Ok(list),
        Err(ApplyFault::Memory) => Err(AllocError),
        Err(ApplyFault::Malformed { .. }) => unreachable!(),
    }
}

/// What these entries' instances that may be sent in a cycle cost together, of those whose slots are flagged.
fn width(placed: &[Placed], cycle: u64, mask: Mask) -> u32
    requires placed { IsWellPlaced placed.now }
    ensures width { result ≡ width_in placed.now cycle (has_bit mask) }
{
    let mut width = 0;
    for p in placed {
        width += cost_in(p, cycle, mask);
    }
    width
}

/// What the entry costs in a cycle: the worst length of its frame where its slot is flagged and an instance of it may
/// be sent.
fn cost_in(p: &Placed, cycle: u64, mask: Mask) -> u32
    requires range { IsInRange p.now }
    ensures cost { result ≡ cost_in cycle (has_bit mask) p.now }
    ensures range { result ≤ worst 8 }
{
    if mask.has(p.entry.slot) && current(p, cycle).is_some() {
        cost(p.entry.length)
    } else {
        0
    }
}
