//! The units and rules of the chains.
ghost use Rattle.std.specs.Prelude.{◌≡◌, ◌+◌, ◌^◌, ◌<◌, ◌≤◌, ◌↔◌, ℕ, nat_lt, length, sum_by, IsTrue, IfOk, if◌then◌else◌, All};
ghost use Rattle.std.specs.List.{AllZip, concat, range_with_len};
ghost use Rattle.chain_rules.specs.Stretches.{path_at, spec_at, groups_of, bits_between, AreChainSpecs};
ghost use Rattle.chain_rules.specs.ChainFaults.{IsOrderBroken};
ghost use Rattle.chain_rules.specs.Rules.{PinsLast, IsReadChain, AreRulesOfEach};
ghost use Rattle.chain_rules.specs.Runs.{AreListingsOf, IsUnitOfCut, IsRuleOfRun};

use crate::cuts::{Cut, cuts_of};
use crate::index::Index;
use crate::listing::Listing;
use crate::plan::Plan;
use crate::spec::{ChainSpec, EndSpec};
use crate::stretch::Run;
use crate::unit::{ChainRule, Rules, Unit};
use base_types::{NoMemory, Rows};
use std::alloc::Global;

/// Whether the last unit of a chain is pinned, where it ends at this place.
fn pins_last(index: &Index<'_>, chain: &ChainSpec, run: Run, last: usize) -> bool
    requires path { run.path < length index.now }
    requires last { last < run.to }
    ensures value { IsTrue result ↔ PinsLast (path_at index.now run.path) chain.now run.to last }
{
    if let EndSpec::Cell {
        instance: _,
        path: _,
        out: _,
    } = chain.stop
    {
        return false;
    }
    run.to == last + 1 && !index.paths()[run.path].free_out
}

/// The unit of a cut, of a chain whose last unit ends at this place.
fn unit_of(index: &Index<'_>, chain: &ChainSpec, run: Run, cut: Cut, last: usize) -> Unit
    requires path { run.path < length index.now }
    requires few_paths { length index.now < 2 ^ 32 }
    requires few_steps { length (path_at index.now run.path).steps < 2 ^ 32 }
    requires small { sum_by (λ s. s.bits) (path_at index.now run.path).steps < 2 ^ 32 }
    requires within { run.to ≤ length (path_at index.now run.path).steps }
    requires order { cut.first ≤ cut.last }
    requires below { cut.last ≤ last }
    requires last { last < run.to }
    ensures value { IsUnitOfCut (path_at index.now run.path) chain.now run cut last result }
{
    Unit {
        path: run.path as u32,
        first: cut.first as u32,
        last: cut.last as u32,
        bits: index.bits(run.path, cut.first, cut.last + 1),
        pinned: cut.last == last && pins_last(index, chain, run, last),
    }
}

/// What a chain may hold whose units as read stand from one place to another.
fn rule_of(index: &Index<'_>, chain: &ChainSpec, run: Run, first: usize, last: usize) -> ChainRule
    requires path { run.path < length index.now }
    requires few_paths { length index.now < 2 ^ 32 }
    requires few_steps { length (path_at index.now run.path).steps < 2 ^ 32 }
    requires small { sum_by (λ s. s.bits) (path_at index.now run.path).steps < 2 ^ 32 }
    requires within { run.to ≤ length (path_at index.now run.path).steps }
    requires order { first ≤ last }
    requires last { last < run.to }
    ensures value { IsRuleOfRun (path_at index.now run.path) chain.now run first last result }
{
    let bits = index.bits(run.path, first, last + 1);
    ChainRule {
        path: run.path as u32,
        first: first as u32,
        last: last as u32,
        partition: chain.partition,
        bound: if chain.max_bits > 0 {
            chain.max_bits
        } else {
            bits
        },
        keeps_bit: bits > 0,
    }
}

/// The units of the cuts of a chain.
fn units_of_cuts(
    alloc: Global,
    index: &Index<'_>,
    chain: &ChainSpec,
    run: Run,
    cuts: &[Cut],
    last: usize,
) -> Result<Vec<Unit>, NoMemory>
    requires path { run.path < length index.now }
    requires few_paths { length index.now < 2 ^ 32 }
    requires few_steps { length (path_at index.now run.path).steps < 2 ^ 32 }
    requires small { sum_by (λ s. s.bits) (path_at index.now run.path).steps < 2 ^ 32 }
    requires within { run.to ≤ length (path_at index.now run.path).steps }
    requires order { All (λ c. (c.first ≤ c.last) × (c.last ≤ last)) cuts.now }
    requires last { last < run.to }
    ensures value { IfOk result (λ units. AllZip (λ c u. IsUnitOfCut (path_at index.now run.path) chain.now run c last u) cuts.now units.items) }
{
    let mut units = Vec::with_capacity(alloc, cuts.len())?;
    for cut in cuts {
        units.push(unit_of(index, chain, run, *cut, last))?;
    }
    Ok(units)
}

/// So many numbers in order.
fn numbers(alloc: Global, from: usize, count: usize) -> Result<Vec<u32>, NoMemory>
    requires small { from + count ≤ 2 ^ 32 }
    ensures value { IfOk result (λ ns. ns.items ≡ range_with_len from count) }
{
    let mut numbers = Vec::with_capacity(alloc, count)?;
    for number in from..from + count {
        numbers.push(number as u32)?;
    }
    Ok(numbers)
}

/// The rule and the units of a chain as read.
#[derive(Drop)]
struct Built {
    rule: ChainRule,
    units: Vec<Unit>,
}

/// The rule and the units of a chain.
fn built_chain(
    alloc: Global,
    index: &Index<'_>,
    chains: &[ChainSpec],
    listings: &[Listing],
    chain: usize,
) -> Result<Built, NoMemory>
    requires chains { AreChainSpecs index.now chains.now }
    requires listings { AreListingsOf index.now chains.now listings.now }
    requires chain { chain < length chains.now }
    requires whole { ¬ IsOrderBroken index.now (spec_at chains.now chain) }
    ensures value { IfOk result (λ b. IsReadChain index.now (spec_at chains.now chain) b.rule b.units.items × (0 < length b.units.items) × (length b.units.items ≤ length (groups_of (spec_at chains.now chain)))) }
{
    let listing = &listings[chain];
    let cuts = cuts_of(alloc, listing)?;
    let first = cuts[0].first;
    let last = cuts[cuts.len() - 1].last;
    let spec = &chains[chain];
    let rule = rule_of(index, spec, listing.run, first, last);
    let units = units_of_cuts(alloc, index, spec, listing.run, cuts.as_slice(), last)?;
    Ok(Built { rule, units })
}

/// The rules of the chains.
pub(crate) fn rules_of(
    alloc: Global,
    index: &Index<'_>,
    chains: &[ChainSpec],
    listings: &[Listing],
) -> Result<Rules, NoMemory>
    requires chains { AreChainSpecs index.now chains.now }
    requires listings { AreListingsOf index.now chains.now listings.now }
    requires whole { (c : ℕ) → c < length chains.now → ¬ IsOrderBroken index.now (spec_at chains.now c) }
    ensures value { IfOk result (λ rules. AreRulesOfEach index.now chains.now rules) }
    ensures numbered { IfOk result (λ rules. concat rules.read.chains ≡ range_with_len 0 (length rules.units)) }
{
    let mut units = Vec::new(alloc);
    let mut rules = Vec::with_capacity(alloc, chains.len())?;
    let mut read = Vec::with_capacity(alloc, chains.len())?;
    for chain in 0..chains.len() {
        let built = built_chain(alloc, index, chains, listings, chain)?;
        let order = numbers(alloc, units.len(), built.units.len())?;
        units.extend_from_slice(built.units.as_slice())?;
        rules.push(built.rule)?;
        read.push(order)?;
    }
    Ok(Rules {
        units: Rows::of(units),
        chains: Rows::of(rules),
        read: Plan::of(read),
    })
}
