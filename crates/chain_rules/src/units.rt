//! The units and rules of the chains, or their first fault.
ghost use Rattle.std.specs.Prelude.{◌≡◌, ◌+◌, ◌<◌, ℕ, length, IfOk, OnOk, IfErr, IfSome, IfNone};
ghost use Rattle.std.specs.List.{concat, range_with_len};
ghost use Rattle.chain_rules.specs.Stretches.{spec_at, AreChainSpecs};
ghost use Rattle.chain_rules.specs.ChainFaults.{IsFaultless, IsRefused, fault_at};
ghost use Rattle.chain_rules.specs.Rules.{AreRulesOf};
ghost use Rattle.chain_rules.specs.Legality.{IsLegal};
ghost use Rattle.chain_rules.specs.Runs.{AreRunsOf};

use crate::build::rules_of;
use crate::counts::first_too_many_units;
use crate::faults::{first_order_broken, first_over_max_bits, first_unlisted_bits};
use crate::index::Index;
use crate::listing::listings_of;
use crate::meets::first_not_a_stretch;
use crate::spec::{ChainSpec, PathSpec};
use crate::stretch::{Run, stretch_of};
use crate::unit::Rules;
use base_types::{Fault, FileKind, Kind, NoMemory, ReadFault, Spot};
use std::alloc::Global;

/// A fault of a kind, at the line of the chain's statement.
fn refusal(kind: Kind, chain: &ChainSpec) -> ReadFault
    ensures value { result ≡ fault_at kind chain.now }
{
    ReadFault::Fault(Fault {
        kind,
        file: FileKind::Def,
        spot: Spot::Line(chain.line),
    })
}

/// The stretches of the chains, where they have one.
fn runs_of(
    alloc: Global,
    index: &Index<'_>,
    chains: &[ChainSpec],
) -> Result<Vec<Option<Run>>, NoMemory>
    requires chains { AreChainSpecs index.now chains.now }
    ensures value { IfOk result (λ runs. AreRunsOf index.now chains.now runs.items) }
{
    let mut runs = Vec::with_capacity(alloc, chains.len())?;
    for chain in 0..chains.len() {
        runs.push(stretch_of(index, &chains[chain]))?;
    }
    Ok(runs)
}

/// The units of the chains, what each chain may hold, and the plan as read; else the first fault of NotAStretch,
/// UnlistedBits, OrderBroken, OverMaxBits and TooManyUnits, of the earliest chain that has it, at the chain's line.
pub fn units_of(alloc: Global, paths: &[PathSpec], chains: &[ChainSpec]) -> Result<Rules, ReadFault>
    requires chains { AreChainSpecs paths.now chains.now }
    ensures value { IfOk result (λ rules. AreRulesOf paths.now chains.now rules) }
    ensures legal { IfOk result (λ rules. IsLegal rules rules.read) }
    ensures numbered { IfOk result (λ rules. concat rules.read.chains ≡ range_with_len 0 (length rules.units)) }
    ensures faultless { OnOk result (IsFaultless paths.now chains.now) }
    ensures first { IfErr result (IsRefused paths.now chains.now) }
{
    let index = Index::of(alloc, paths)?;
    let runs = runs_of(alloc, &index, chains)?;
    if let Some(chain) = first_not_a_stretch(alloc, &index, chains, runs.as_slice())? {
        return Err(refusal(Kind::NotAStretch, &chains[chain]));
    }
    let listings = listings_of(alloc, &index, chains, runs.as_slice())?;
    if let Some(chain) = first_unlisted_bits(&index, chains, listings.as_slice()) {
        return Err(refusal(Kind::UnlistedBits, &chains[chain]));
    }
    if let Some(chain) = first_order_broken(&index, chains, listings.as_slice()) {
        return Err(refusal(Kind::OrderBroken, &chains[chain]));
    }
    if let Some(chain) = first_over_max_bits(&index, chains, listings.as_slice()) {
        return Err(refusal(Kind::OverMaxBits, &chains[chain]));
    }
    if let Some(chain) = first_too_many_units(alloc, chains)? {
        return Err(refusal(Kind::TooManyUnits, &chains[chain]));
    }
    Ok(rules_of(alloc, &index, chains, listings.as_slice())?)
}
