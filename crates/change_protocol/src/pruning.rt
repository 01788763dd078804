//! Lists without the entries that no later change asks for.

ghost use Rattle.std.specs.Prelude.{◌≡◌, ◌+◌, ◌-◌, ◌<◌, ◌≤◌, ◌&&◌, ◌∷◌, if◌then◌else◌};
ghost use Rattle.std.specs.Prelude.{All, drop, length, slice_index_or, take};
ghost use Rattle.std.specs.Vec.{vec_capacity};
ghost use Rattle.requirement_table.specs.declared.entries.Placed.{Placed};
ghost use Rattle.bit_sets.specs.Sets.{has_bit};
ghost use Rattle.requirement_table.specs.Table.{IsInRange, is_over};
ghost use Rattle.change_protocol.specs.Pruned.{pruned};

use requirement_table::{Mask, Placed, is_over_in_range};

/// Prunes a list by a cycle, in place and without memory: each entry that is over by `cycle` and has another one of its
/// slot behind it goes, and the others stay in their order. It takes time linear in the entries.
///
/// A list that is pruned answers each change as before, where the change is planned from that cycle or a later one. The
/// last entry of each slot stays, since what is refused of a change of its slot may depend on it.
pub fn prune(placed: &mut Vec<Placed>, cycle: u64)
    requires in_range { All IsInRange placed.old.items }
    ensures pruned { placed.new.items ≡ pruned cycle placed.old.items }
    ensures shorter { length placed.new.items ≤ length placed.old.items }
    ensures capacity { vec_capacity placed.new ≡ vec_capacity placed.old }
{
    let gone = move_to_end(placed.as_mut_slice(), cycle);
    placed.drain(..gone);
}

/// Moves the entries that stay to the end of the list, from the last one on. The answer is the place of the first one.
fn move_to_end(list: &mut [Placed], cycle: u64) -> usize
    requires in_range { All IsInRange list.old }
    ensures within { result ≤ length list.old }
    ensures same { length list.new ≡ length list.old }
    ensures pruned { drop result list.new ≡ pruned cycle list.old }
{
    let mut first = list.len();
    let mut slots = Mask::empty();
    for place in (0..list.len()).rev() {
        let p = entry_at(list, place);
        first = put_before(list, first, p, may_go(&p, &slots, cycle));
        slots = slots.with(p.entry.slot);
    }
    first
}

/// The entry at a place of the list.
fn entry_at(list: &[Placed], place: usize) -> Placed
    requires within { place < length list.now }
    ensures value { (d : Placed) → slice_index_or list.now place d ≡ result }
{
    list[place]
}

/// Whether the entry goes, where entries of these slots stand behind it.
fn may_go(p: &Placed, behind: &Mask, cycle: u64) -> bool
    requires in_range { IsInRange p.now }
    ensures goes { result ≡ (is_over cycle p.now && has_bit behind.now p.now.entry.slot) }
{
    is_over_in_range(p, cycle) && behind.has(p.entry.slot)
}

/// Puts the entry before the place `first` of the list, unless it goes. The answer is the place of the first one then.
fn put_before(list: &mut [Placed], first: usize, p: Placed, goes: bool) -> usize
    requires some { 1 ≤ first }
    requires within { first ≤ length list.old }
    ensures same { length list.new ≡ length list.old }
    ensures before { first ≤ result + 1 }
    ensures after { result ≤ first }
    ensures front { take (first - 1) list.new ≡ take (first - 1) list.old }
    ensures moved { drop result list.new ≡ (if goes then drop first list.old else p ∷ drop first list.old) }
{
    if goes {
        return first;
    }
    list[first - 1] = p;
    first - 1
}
