//! Numbers of which the least, and the first that is at most a bound, are found in as many steps as a tree over them has
//! levels.

ghost use Rattle.std.specs.Prelude.{◌≡◌, ◌≢◌, ℕ, ◌+◌, ◌*◌, ◌/◌, ◌^◌, ◌<◌, ◌≤◌};
ghost use Rattle.std.specs.Prelude.{IfOk, MatchOption, false, length, min, slice_index_or};
ghost use Rattle.async_window.specs.Tournament.{IsFirstWithin, IsTree, IsTreeBut, never};

use crate::mailbox::NEVER;
use std::alloc::{AllocError, Global};
use std::marker::Model;

/// Some numbers, at most 2,048. Contracts see their list.
///
/// They are the leaves of a binary tree, in which an inner node has the lesser number of the two below it.
#[derive(Drop)]
pub struct Tournament {
    /// The nodes: below node `n` are `2 * n` and `2 * n + 1`, and node 1 is the top. The leaves stand in the second half.
    /// Node 0 is not used.
    nodes: Vec<u64>,
    /// The number of levels above the leaves.
    levels: u32,
}

impl Model for Tournament {
    ghost use Rattle.std.specs.Prelude.{ℕ, ◌^◌, List, drop};
    ghost use Rattle.async_window.specs.Tournament.{IsTree};

    ghost Value = { List ℕ };

    ghost view = { λ t. drop (2 ^ t.levels) t.nodes.items };

    ghost invariant = { λ t. IsTree t.levels t.nodes.items };
}

/// The first number that is at most a bound, and what stands before it.
#[derive(Clone, Copy)]
pub struct First {
    /// Its place.
    pub place: usize,
    /// A number above the bound, below which none of those before it falls.
    pub sooner: u64,
}

/// A step on the way from the top of the tree to a leaf.
#[derive(Clone, Copy)]
struct TreeStep {
    /// The node that is reached.
    node: usize,
    /// The least number of the nodes that were left aside before it.
    sooner: u64,
}

impl Tournament {
    /// At least so many numbers, each of them `NEVER`. There are at most 2,048.
    pub fn new(alloc: Global, count: usize) -> Result<Tournament, AllocError>
        requires few { count ≤ 2048 }
        ensures room { IfOk result (λ made. count ≤ length made) }
        ensures nothing { IfOk result (λ made. (place : ℕ) → place < length made → slice_index_or made place 0 ≡ never) }
    {
        let levels = levels_for(count);
        let nodes = all_never(alloc, 2 * leaves_of(levels))?;
        Ok(Tournament { nodes, levels })
    }

    /// Sets the number at a place.
    pub fn set(&mut self, place: usize, number: u64)
        requires place { place < length self.old }
        ensures length { length self.new ≡ length self.old }
        ensures here { slice_index_or self.new place 0 ≡ number }
        ensures others { (other : ℕ) → other ≢ place → slice_index_or self.new other 0 ≡ slice_index_or self.old other 0 }
    {
        put(self.nodes.as_mut_slice(), self.levels, place, number);
    }

    /// The least number.
    pub fn least(&self) -> u64
        ensures least { (place : ℕ) → place < length self.now → result ≤ slice_index_or self.now place 0 }
        ensures some { (bound : ℕ) → result ≤ bound
            → (place : ℕ) × (place < length self.now) × (slice_index_or self.now place 0 ≤ bound) }
    {
        self.nodes[1]
    }

    /// The first number that is at most a bound.
    pub fn first(&self, bound: u64) -> Option<First>
        requires bound { bound < never }
        ensures first { MatchOption result
            ((place : ℕ) → place < length self.now → bound < slice_index_or self.now place 0)
            (λ first. IsFirstWithin bound self.now first.place first.sooner) }
    {
        if self.nodes[1] <= bound {
            Some(descend(self.nodes.as_slice(), self.levels, bound))
        } else {
            None
        }
    }

    /// All numbers.
    pub fn numbers(&self) -> &[u64]
        ensures numbers { result.now ≡ self.now }
    {
        &self.nodes[self.nodes.len() / 2..]
    }
}

/// So many numbers, each of them `NEVER`.
fn all_never(alloc: Global, count: usize) -> Result<Vec<u64>, AllocError>
    ensures length { IfOk result (λ nodes. length nodes.items ≡ count) }
    ensures nothing { IfOk result (λ nodes. (node : ℕ) → node < count → slice_index_or nodes.items node 0 ≡ never) }
{
    vec![in alloc; NEVER; count]
}

/// Sets the number of a leaf, and mends the nodes above it.
fn put(nodes: &mut [u64], levels: u32, place: usize, number: u64)
    requires tree { IsTree levels nodes.old }
    requires place { place < 2 ^ levels }
    ensures tree { IsTree levels nodes.new }
    ensures here { slice_index_or nodes.new (2 ^ levels + place) 0 ≡ number }
    ensures others { (other : ℕ) → other ≢ place
        → slice_index_or nodes.new (2 ^ levels + other) 0 ≡ slice_index_or nodes.old (2 ^ levels + other) 0 }
{
    let leaf = nodes.len() / 2 + place;
    nodes[leaf] = number;
    mend(nodes, levels, leaf, number);
}

/// Brings the nodes above a leaf up to date, from the leaf upwards, until one of them need not change.
///
/// The number of the node that was reached is carried up, so that a level costs one look, at the node beside that one.
/// The two nodes below node `n` are `4 * n + 1` together.
fn mend(nodes: &mut [u64], levels: u32, leaf: usize, number: u64)
    requires leaf { 2 ^ levels ≤ leaf }
    requires within { leaf < 2 * 2 ^ levels }
    requires number { slice_index_or nodes.old leaf 0 ≡ number }
    requires tree { IsTreeBut (leaf / 2) levels nodes.old }
    ensures tree { IsTree levels nodes.new }
    ensures leaves { (node : ℕ) → 2 ^ levels ≤ node → slice_index_or nodes.new node 0 ≡ slice_index_or nodes.old node 0 }
{
    let mut node = leaf;
    let mut least = number;
    for _ in 0..levels {
        let above = node / 2;
        least = least.min(nodes[4 * above + 1 - node]);
        if nodes[above] == least {
            return;
        }
        nodes[above] = least;
        node = above;
    }
}

/// The first leaf whose number is at most a bound, where the top's number is.
fn descend(nodes: &[u64], levels: u32, bound: u64) -> First
    requires tree { IsTree levels nodes.now }
    requires bound { bound < never }
    requires top { slice_index_or nodes.now 1 0 ≤ bound }
    ensures within { result.place < 2 ^ levels }
    ensures here { slice_index_or nodes.now (2 ^ levels + result.place) 0 ≤ bound }
    ensures later { bound < result.sooner }
    ensures most { result.sooner ≤ never }
    ensures before { (other : ℕ) → other < result.place
        → result.sooner ≤ slice_index_or nodes.now (2 ^ levels + other) 0 }
{
    let mut step = TreeStep {
        node: 1,
        sooner: NEVER,
    };
    for _ in 0..levels {
        step = below(nodes, step, bound);
    }
    First {
        place: step.node - nodes.len() / 2,
        sooner: step.sooner,
    }
}

/// The first of the two nodes below one whose number is at most a bound, where one of them is.
#[inline(always)]
fn below(nodes: &[u64], step: TreeStep, bound: u64) -> TreeStep
    requires below { 2 * step.node + 1 < length nodes.now }
    requires few { length nodes.now ≤ 4096 }
    ensures left { slice_index_or nodes.now (2 * step.node) 0 ≤ bound
        → (result.node ≡ 2 * step.node) × (result.sooner ≡ step.sooner) }
    ensures right { bound < slice_index_or nodes.now (2 * step.node) 0
        → (result.node ≡ 2 * step.node + 1)
        × (result.sooner ≡ min step.sooner (slice_index_or nodes.now (2 * step.node) 0)) }
{
    let left = 2 * step.node;
    let number = nodes[left];
    if number <= bound {
        TreeStep {
            node: left,
            sooner: step.sooner,
        }
    } else {
        TreeStep {
            node: left + 1,
            sooner: step.sooner.min(number),
        }
    }
}

/// The number of levels of a tree with room for so many leaves, of which there are at most 2,048.
fn levels_for(leaves: usize) -> u32
    requires few { leaves ≤ 2048 }
    ensures room { leaves ≤ 2 ^ result }
    ensures low { result ≤ 11 }
{
    for levels in 0..11u32 {
        if leaves <= leaves_of(levels) {
            return levels;
        }
    }
    11
}

/// The number of leaves of a tree with so many levels above them.
fn leaves_of(levels: u32) -> usize
    requires low { levels ≤ 11 }
    ensures leaves { result ≡ 2 ^ levels }
{
    1 << levels
}
