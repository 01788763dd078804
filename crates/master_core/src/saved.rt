//! A core as plain data.

ghost use Rattle.std.specs.Prelude.{◌≡◌, ◌<◌, ◌≤◌, ◌↔◌, true, All, IsTrue, length};
ghost use Rattle.master_core.specs.Cores.{CoreView, IsCore, core_of, most_kept, saved_of};

use crate::cores::MOST_KEPT;
use admission::Rules;
use planner_policies::PlanState;
use requirement_table::{Placed, PlacedList};

/// A core as plain data, from which it can be made again.
#[derive(Drop, Debug)]
pub struct Saved {
    /// The rules by which changes are judged.
    pub rules: Rules,
    /// The placed entries that are kept, in the order of their placing.
    pub placed: PlacedList,
    /// The next cycle, and the slots that are pending before it.
    pub state: PlanState,
    /// The number of changes that were accepted.
    pub accepted: u64,
    /// Whether the core drops the entries that no answer needs any more.
    pub forgets: bool,
    /// Whether the nodes are to learn the placed entries.
    pub learns: bool,
}

/// Whether the entries have slots and nodes of the rules, and are no more than a core keeps where it forgets.
pub(crate) fn can_keep(rules: &Rules, placed: &[Placed], forgets: bool) -> bool
    ensures slots { IsTrue result → All (λ p. p.entry.slot < rules.now.slots) placed.now }
    ensures nodes { IsTrue result → All (λ p. p.entry.node < rules.now.nodes) placed.now }
    ensures few { IsTrue result → forgets ≡ true → length placed.now ≤ most_kept }
    ensures complete { All (λ p. p.entry.slot < rules.now.slots) placed.now
        → All (λ p. p.entry.node < rules.now.nodes) placed.now
        → (forgets ≡ true → length placed.now ≤ most_kept) → IsTrue result }
{
    have_slots(placed, rules.slots)
        && have_nodes(placed, rules.nodes)
        && (!forgets || placed.len() <= MOST_KEPT)
}

/// Whether all entries have slots below this number.
fn have_slots(placed: &[Placed], slots: u8) -> bool
    ensures slots { IsTrue result ↔ All (λ p. p.entry.slot < slots) placed.now }
{
    placed.iter().all(|p| p.entry.slot < slots)
}

/// Whether all entries have nodes below this number.
fn have_nodes(placed: &[Placed], nodes: u8) -> bool
    ensures nodes { IsTrue result ↔ All (λ p. p.entry.node < nodes) placed.now }
{
    placed.iter().all(|p| p.entry.node < nodes)
}
