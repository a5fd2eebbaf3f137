//! The contracts of `length_bound`.
ghost use Rattle.length_bound.specs.Certificates.{AreLeast, BoundLaw, HasSmallNumbers, IsCertificate, total, value_of};
ghost use Rattle.length_bound.specs.Growth.{IsBelowOrders};
ghost use Rattle.length_bound.specs.Trees.{TreeLaw};
ghost use Rattle.std.specs.Prelude.{IfOk, IsTrue, length, pos, ◌<◌, ◌↔◌, ◌≡◌, ◌≤ℤ◌, ◌≤◌};
ghost use Rattle.wire_cost.specs.Lengths.{ArePlaced, IsChainAt, chain_ends};

use base_types::NoMemory;
use length_bound::Potentials;
use std::alloc::Global;
use wire_cost::Ends;

/// As `length_bound::potentials`.
pub fn potentials(
    alloc: Global,
    ends: &Ends,
    chain: u32,
    units: &[u32],
) -> Result<Potentials, NoMemory>
    requires placed { ArePlaced ends.now }
    requires chain { IsChainAt ends.now chain units.now }
    requires some { 0 < length units.now }
    ensures certificate { IfOk result (λ p. IsCertificate (chain_ends ends.now chain) units.now p) }
    ensures least { IfOk result (λ p. AreLeast (chain_ends ends.now chain) units.now p) }
    ensures value { IfOk result (λ p. total p.enter ≤ℤ value_of p) }
    ensures small { IfOk result (λ p. HasSmallNumbers p) }
{
    length_bound::potentials(alloc, ends, chain, units)
}

/// As `length_bound::is_certificate`.
pub fn is_certificate(ends: &Ends, chain: u32, units: &[u32], p: &Potentials) -> bool
    requires placed { ArePlaced ends.now }
    requires chain { IsChainAt ends.now chain units.now }
    ensures exact { IsTrue result ↔ IsCertificate (chain_ends ends.now chain) units.now p.now }
{
    length_bound::is_certificate(ends, chain, units, p)
}

/// As `length_bound::value`.
pub fn value(p: &Potentials) -> i64
    requires small { HasSmallNumbers p.now }
    ensures value { result ≡ value_of p.now }
{
    length_bound::value(p)
}

/// As `length_bound::bound_law`.
pub fn bound_law()
    ensures law { BoundLaw }
{
    length_bound::bound_law()
}

/// As `length_bound::tree`.
pub fn tree(
    alloc: Global,
    ends: &Ends,
    chain: u32,
    units: &[u32],
    rounds: u32,
) -> Result<u64, NoMemory>
    requires placed { ArePlaced ends.now }
    requires chain { IsChainAt ends.now chain units.now }
    ensures below { IfOk result (λ bound. IsBelowOrders (chain_ends ends.now chain) units.now (pos bound)) }
{
    length_bound::tree(alloc, ends, chain, units, rounds)
}

/// As `length_bound::tree_law`.
pub fn tree_law()
    ensures law { TreeLaw }
{
    length_bound::tree_law()
}
