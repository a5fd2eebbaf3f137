//! The plan of nearest neighbours.
ghost use Rattle.std.specs.Prelude.{◌≡◌, ◌≢◌, ℕ, ◌+◌, ◌<◌, ◌≤◌, List, length, take, drop, Option, IfOk, slice_get, slice_index_or, IsPermutation, All};
ghost use Rattle.wire_cost.specs.Lengths.{ArePlaced, AreNear, AreWithin, IsNearOrNowhere, link_of};
ghost use Rattle.chain_rules.specs.Legality.{IsLegal, chain_at};
ghost use Rattle.chain_rules.specs.Plans.{PlanLists};
ghost use Rattle.order_search.specs.Nearest.{IsNearestChain, IsNearestPlan};
ghost use Rattle.order_search.specs.Searches.{AreSearchable};

use crate::reversals::free_count;
use base_types::{NoMemory, Point};
use chain_rules::{Plan, Rules};
use std::alloc::Global;
use wire_cost::{Ends, entry_of, exit_of, wire};

/// The place of the unit with the least link from `from`, the first on a tie.
fn nearest_of(ends: &Ends, from: Option<Point>, left: &[u32]) -> usize
    requires near { AreNear ends.now.entry }
    requires from { IsNearOrNowhere from }
    requires units { AreWithin left.now (length ends.now.entry) }
    requires some { 0 < length left.now }
    ensures within { result < length left.now }
    ensures first { (k : ℕ) → k < result → link_of from (slice_get ends.now.entry (slice_index_or left.now result 0)) < link_of from (slice_get ends.now.entry (slice_index_or left.now k 0)) }
    ensures least { (k : ℕ) → k < length left.now → link_of from (slice_get ends.now.entry (slice_index_or left.now result 0)) ≤ link_of from (slice_get ends.now.entry (slice_index_or left.now k 0)) }
{
    let mut best = 0;
    let mut least = wire(from, Some(entry_of(ends, left[0])));
    for k in 1..left.len() {
        let way = wire(from, Some(entry_of(ends, left[k])));
        if way < least {
            best = k;
            least = way;
        }
    }
    best
}

/// The units of a chain as read, each the nearest to what stands before it, and a pinned one last.
fn nearest_chain(
    alloc: Global,
    rules: &Rules,
    ends: &Ends,
    chain: usize,
) -> Result<Vec<u32>, NoMemory>
    requires searchable { AreSearchable rules.now ends.now }
    requires chain { chain < length rules.now.chains }
    ensures value { IfOk result (λ units. IsNearestChain rules.now ends.now chain units.items) }
{
    let read = rules.read.chain(chain);
    let free = free_count(rules, read);
    let mut left = Vec::from_slice(alloc, &read[..free])?;
    let mut placed = Vec::with_capacity(alloc, read.len())?;
    let mut from = ends.start.as_slice()[chain];
    for _ in 0..free {
        let unit = left.remove(nearest_of(ends, from, left.as_slice()));
        placed.push(unit)?;
        from = Some(exit_of(ends, unit));
    }
    placed.extend_from_slice(&read[free..])?;
    Ok(placed)
}

/// The plan of nearest neighbours: each chain keeps its units as read and takes from its start always the remaining one
/// with the least link, the earliest as read on a tie, and a pinned one last. It takes quadratic time in a chain's units.
pub fn nearest_plan(alloc: Global, rules: &Rules, ends: &Ends) -> Result<Plan, NoMemory>
    requires searchable { AreSearchable rules.now ends.now }
    ensures value { IfOk result (λ plan. IsNearestPlan rules.now ends.now plan) }
    ensures only { IfOk result (λ plan. (other : PlanLists) → IsNearestPlan rules.now ends.now other → other ≡ plan) }
    ensures legal { IfOk result (λ plan. IsLegal rules.now plan) }
{
    let mut chains = Vec::with_capacity(alloc, rules.read.len())?;
    for chain in 0..rules.read.len() {
        chains.push(nearest_chain(alloc, rules, ends, chain)?)?;
    }
    Ok(Plan::of(chains))
}
