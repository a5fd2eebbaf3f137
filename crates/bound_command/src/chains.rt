//! The bounds of a design's chains.
ghost use Rattle.std.specs.Prelude.{◌≡◌, ℕ, pos, ◌<◌, length, IfOk};
ghost use Rattle.chain_rules.specs.Legality.{chain_at};
ghost use Rattle.wire_cost.specs.Lengths.{ArePlaced, IsChainAt, IsPlanAt, chain_ends};
ghost use Rattle.length_bound.specs.Growth.{IsBelowOrders};
ghost use Rattle.bound_command.specs.Bounds.{AreBounds, IsChainBound};

use base_types::NoMemory;
use chain_rules::Rules;
use length_bound::{Potentials, bound_law, potentials, tree, value};
use std::alloc::Global;
use wire_cost::{Ends, wire_of};

/// How long a chain is, and how long it is at least in every order of its units, in half database units.
#[derive(Drop)]
pub(crate) struct ChainBound {
    /// The length as read.
    pub(crate) length: u64,
    /// The value of the certificate.
    pub(crate) bound: u64,
    /// The certificate.
    pub(crate) potentials: Potentials,
    /// The greater of that and the bound by trees, where one was asked for.
    pub(crate) tree: u64,
}

/// The bound of a chain by trees in so many rounds, or 0.
fn tree_of(
    alloc: Global,
    ends: &Ends,
    chain: u32,
    units: &[u32],
    rounds: Option<u32>,
) -> Result<u64, NoMemory>
    requires placed { ArePlaced ends.now }
    requires chain { IsChainAt ends.now chain units.now }
    ensures below { IfOk result (λ bound. IsBelowOrders (chain_ends ends.now chain) units.now (pos bound)) }
{
    match rounds {
        Some(rounds) => tree(alloc, ends, chain, units, rounds),
        None => Ok(0),
    }
}

/// The bounds of a chain with these units.
fn bound_of(
    alloc: Global,
    ends: &Ends,
    chain: u32,
    units: &[u32],
    rounds: Option<u32>,
) -> Result<ChainBound, NoMemory>
    requires placed { ArePlaced ends.now }
    requires chain { IsChainAt ends.now chain units.now }
    requires some { 0 < length units.now }
    ensures value { IfOk result (IsChainBound (chain_ends ends.now chain) units.now) }
{
    bound_law();
    let length = wire_of(ends, chain, units);
    let potentials = potentials(alloc, ends, chain, units)?;
    let bound = value(&potentials).unsigned_abs();
    let tree = tree_of(alloc, ends, chain, units, rounds)?.max(bound);
    Ok(ChainBound {
        length,
        bound,
        potentials,
        tree,
    })
}

/// The bounds of each chain as read.
pub(crate) fn bounds_of(
    alloc: Global,
    rules: &Rules,
    ends: &Ends,
    rounds: Option<u32>,
) -> Result<Vec<ChainBound>, NoMemory>
    requires placed { ArePlaced ends.now }
    requires plan { IsPlanAt ends.now rules.now.read }
    requires some { (c : ℕ) → c < length rules.now.read.chains → 0 < length (chain_at rules.now.read c) }
    ensures count { IfOk result (λ bounds. length bounds.items ≡ length rules.now.read.chains) }
    ensures each { IfOk result (λ bounds. AreBounds rules.now ends.now bounds.items) }
{
    let mut bounds = Vec::with_capacity(alloc, rules.read.len())?;
    for number in 0..rules.read.len() {
        let units = rules.read.chain(number);
        bounds.push(bound_of(alloc, ends, number as u32, units, rounds)?)?;
    }
    Ok(bounds)
}
