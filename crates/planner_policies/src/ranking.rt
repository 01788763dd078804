//! The table of a planning, in key order.

ghost use Rattle.std.specs.Prelude.{◌≡◌, All, IfOk, IsPermutation, [], true};
ghost use Rattle.requirement_table.specs.Table.{IsInRange, IsWellPlaced, near_of, not_over};
ghost use Rattle.planner_policies.specs.Ranked.{AreRanked};

use crate::{Fill, Policy};
use requirement_table::laws::entries_that_are_near;
use requirement_table::{Placed, drop_over, put_near};
use std::alloc::{AllocError, Global};
use std::marker::Model;

/// A list of placed entries, the policy by which they are planned, and the filling. Contracts see these three.
#[derive(Drop, Debug)]
pub struct Ranked {
    placed: Vec<Placed>,
    /// The same entries in key order, by their own numbers: for `Edf` in the order that breaks ties.
    rows: Vec<Placed>,
    policy: Policy,
    fill: Fill,
}

impl Model for Ranked {
    ghost use Rattle.std.specs.Prelude.{IsPermutation};
    ghost use Rattle.requirement_table.specs.Table.{IsWellPlaced};
    ghost use Rattle.planner_policies.specs.Plan.{Ranking};
    ghost use Rattle.planner_policies.specs.Ranked.{AreRanked};

    ghost Value = { Ranking };

    ghost view = { λ r. record { placed = r.placed.items; policy = r.policy; fill = r.fill } };

    ghost invariant = { λ r. IsWellPlaced r.placed.items × IsPermutation r.placed.items r.rows.items
        × AreRanked r.policy r.rows.items };
}

/// The entries, in their order, with the policy by which they are planned and the filling. The list is well placed.
pub fn rank(
    alloc: Global,
    placed: &[Placed],
    policy: Policy,
    fill: Fill,
) -> Result<Ranked, AllocError>
    requires well_placed { IsWellPlaced placed.now }
    ensures ranked { IfOk result (λ ranked. ranked ≡ record { placed = placed.now; policy = policy; fill = fill }) }
{
    let list = placed.to_vec(alloc)?;
    rank_list(alloc, list, policy, fill)
}

/// Does what `rank` does, with a list that is not copied.
pub fn rank_list(
    alloc: Global,
    placed: Vec<Placed>,
    policy: Policy,
    fill: Fill,
) -> Result<Ranked, AllocError>
    requires well_placed { IsWellPlaced placed.items }
    ensures ranked { IfOk result (λ ranked. ranked ≡ record { placed = placed.items; policy = policy; fill = fill }) }
{
    let mut rows = placed.as_slice().to_vec(alloc)?;
    put_in_order(&mut rows, policy);
    Ok(Ranked {
        placed,
        rows,
        policy,
        fill,
    })
}

/// Puts entries in the order of the policy, by their own numbers: for `Edf` in the order that breaks ties.
fn put_in_order(rows: &mut Vec<Placed>, policy: Policy)
    ensures same { IsPermutation rows.old.items rows.new.items }
    ensures order { AreRanked policy rows.new.items }
{
    match policy {
        Policy::Rm => {
            rows.sort_unstable_by_key(|p| (p.entry.period, p.entry.priority, p.entry.slot));
        }
        Policy::Dm => {
            rows.sort_unstable_by_key(|p| (p.entry.deadline, p.entry.priority, p.entry.slot));
        }
        Policy::Edf => {
            rows.sort_unstable_by_key(|p| (p.entry.priority, p.entry.slot));
        }
    }
}

impl Ranked {
    /// The same entries, policy and filling, in memory of their own.
    pub fn copy(&self, alloc: Global) -> Result<Ranked, AllocError>
        ensures same { IfOk result (λ copy. copy ≡ self.now) }
    {
        Ok(Ranked {
            placed: self.placed.as_slice().to_vec(alloc)?,
            rows: self.rows.as_slice().to_vec(alloc)?,
            policy: self.policy,
            fill: self.fill,
        })
    }

    /// No entries, with room for so many, and the policy and the filling of this list.
    pub fn empty_with_room(&self, alloc: Global, count: usize) -> Result<Ranked, AllocError>
        ensures empty { IfOk result (λ ranked. ranked ≡ record self.now { placed = [] }) }
    {
        Ok(Ranked {
            placed: Vec::with_capacity(alloc, count)?,
            rows: Vec::with_capacity(alloc, count)?,
            policy: self.policy,
            fill: self.fill,
        })
    }

    /// Takes the entries of `all` that are not over by the cycle `since` and begin before the cycle `until`, with the
    /// policy and the filling, in place and without memory. The answer is whether there is room for them; where there is
    /// none, no entry is left.
    pub fn take_near(&mut self, all: &Ranked, since: u64, until: u64) -> bool
        ensures near { result ≡ true
            → self.new ≡ record all.now { placed = near_of since until all.now.placed } }
    {
        entries_that_are_near();
        self.policy = all.policy;
        self.fill = all.fill;
        let rows = all.rows();
        if put_near(&mut self.placed, all.placed(), since, until)
            && put_near(&mut self.rows, rows, since, until)
        {
            return true;
        }
        self.placed.clear();
        self.rows.clear();
        false
    }

    /// The policy.
    pub fn policy(&self) -> Policy
        ensures value { result ≡ self.now.policy }
    {
        self.policy
    }

    /// The filling.
    pub fn fill(&self) -> Fill
        ensures value { result ≡ self.now.fill }
    {
        self.fill
    }

    /// The placed entries, as they were handed in.
    pub fn placed(&self) -> &[Placed]
        ensures list { result.now ≡ self.now.placed }
        ensures well_placed { IsWellPlaced self.now.placed }
    {
        self.placed.as_slice()
    }

    /// Drops the entries that are over by `cycle`, in place and without memory.
    pub fn drop_over(&mut self, cycle: u64)
        ensures left { self.new ≡ record self.old { placed = not_over cycle self.old.placed } }
    {
        drop_over(&mut self.placed, cycle);
        drop_over(&mut self.rows, cycle);
    }

    /// The placed entries in key order, by their own numbers: for `Edf` in the order that breaks ties.
    pub fn rows(&self) -> &[Placed]
        ensures same { IsPermutation self.now.placed result.now }
        ensures order { AreRanked self.now.policy result.now }
        ensures in_range { All IsInRange result.now }
        ensures well_placed { IsWellPlaced self.now.placed }
    {
        self.rows.as_slice()
    }
}
