//! A plan with the bits that are kept of it.
ghost use Rattle.std.specs.Prelude.{◌≡◌, ◌<◌, ◌≤◌, ◌+◌, ◌^◌, ℕ, length, slice_index_or, nat_eq, count_by, IfOk};
ghost use Rattle.std.specs.List.{concat, sum};
ghost use Rattle.chain_rules.specs.Legality.{bits_of, IsLegal};
ghost use Rattle.chain_balance.specs.Balance.{most_below};
ghost use Rattle.chain_balance.specs.Gains.{AreLoads, AreHeld, load_of};

use crate::paths::{path_bits, total_bits};
use base_types::NoMemory;
use chain_rules::{Plan, Rules};
use std::alloc::Global;

/// A plan, with the bits of its paths and those of its chains.
#[derive(Drop)]
pub(crate) struct Work {
    pub(crate) plan: Plan,
    pub(crate) paths: Vec<u32>,
    pub(crate) chains: Vec<u32>,
}

/// The bits of all paths after a plan.
fn loads_of(alloc: Global, rules: &Rules, fixed: &[u32], plan: &Plan) -> Result<Vec<u32>, NoMemory>
    requires legal { IsLegal rules.now plan.now }
    requires small { sum fixed.now + bits_of rules.now (concat plan.now.chains) < 2 ^ 32 }
    ensures value { IfOk result (λ loads. AreLoads rules.now fixed.now plan.now loads.items) }
{
    let mut loads = Vec::with_capacity(alloc, fixed.len())?;
    for path in 0..fixed.len() {
        loads.push(path_bits(rules, fixed, plan, path))?;
    }
    Ok(loads)
}

/// The bits of all chains of a plan.
fn held_of(alloc: Global, rules: &Rules, plan: &Plan) -> Result<Vec<u32>, NoMemory>
    requires legal { IsLegal rules.now plan.now }
    requires small { bits_of rules.now (concat plan.now.chains) < 2 ^ 32 }
    ensures value { IfOk result (λ held. AreHeld rules.now plan.now held.items) }
{
    let mut held = Vec::with_capacity(alloc, plan.len())?;
    for chain in 0..plan.len() {
        held.push(total_bits(rules, plan.chain(chain)))?;
    }
    Ok(held)
}

/// A copy of a plan, with its bits.
pub(crate) fn work_on(
    alloc: Global,
    rules: &Rules,
    fixed: &[u32],
    plan: &Plan,
) -> Result<Work, NoMemory>
    requires legal { IsLegal rules.now plan.now }
    requires small { sum fixed.now + bits_of rules.now (concat plan.now.chains) < 2 ^ 32 }
    ensures plan { IfOk result (λ work. work.plan ≡ plan.now) }
    ensures loads { IfOk result (λ work. AreLoads rules.now fixed.now plan.now work.paths.items) }
    ensures held { IfOk result (λ work. AreHeld rules.now plan.now work.chains.items) }
{
    let paths = loads_of(alloc, rules, fixed, plan)?;
    let chains = held_of(alloc, rules, plan)?;
    let plan = plan.copy(alloc)?;
    Ok(Work {
        plan,
        paths,
        chains,
    })
}

/// The most bits of a path; 0 where there is none.
pub(crate) fn greatest(loads: &[u32]) -> u32
    ensures value { result ≡ most_below (length loads.now) (load_of loads.now) }
{
    let mut most = 0;
    for load in loads {
        most = most.max(*load);
    }
    most
}

/// How many paths have so many bits.
pub(crate) fn count_of(loads: &[u32], most: u32) -> usize
    ensures value { result ≡ count_by (nat_eq most) loads.now }
{
    loads.iter().filter(|load| **load == most).count()
}

/// The first path with so many bits.
pub(crate) fn first_longest(loads: &[u32], most: u32) -> usize
    requires some { 0 < count_by (nat_eq most) loads.now }
    ensures within { result < length loads.now }
    ensures value { slice_index_or loads.now result 0 ≡ most }
    ensures first { (k : ℕ) → k < result → ¬ (slice_index_or loads.now k 0 ≡ most) }
{
    let mut path = 0;
    while loads[path] != most {
        path += 1;
    }
    path
}
