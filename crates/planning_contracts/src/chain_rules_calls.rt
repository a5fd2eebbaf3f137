//! The contracts of `chain_rules`.
ghost use Rattle.chain_rules.specs.ChainFaults.{IsFaultless, IsRefused};
ghost use Rattle.chain_rules.specs.Legality.{IsIn, IsLegal, IsOpen, moved_plan, swapped_plan, taken_out};
ghost use Rattle.chain_rules.specs.Rules.{AreRulesOf};
ghost use Rattle.chain_rules.specs.Stretches.{AreChainSpecs};
ghost use Rattle.std.specs.List.{concat, range_with_len};
ghost use Rattle.std.specs.Prelude.{IfErr, IfOk, IsTrue, OnOk, length, ◌↔◌, ◌≡◌};

use base_types::{NoMemory, ReadFault};
use chain_rules::{ChainSpec, PathSpec, Plan, Position, Rules};
use std::alloc::Global;

/// As `chain_rules::units_of`.
pub fn units_of(alloc: Global, paths: &[PathSpec], chains: &[ChainSpec]) -> Result<Rules, ReadFault>
    requires chains { AreChainSpecs paths.now chains.now }
    ensures value { IfOk result (λ rules. AreRulesOf paths.now chains.now rules) }
    ensures legal { IfOk result (λ rules. IsLegal rules rules.read) }
    ensures numbered { IfOk result (λ rules. concat rules.read.chains ≡ range_with_len 0 (length rules.units)) }
    ensures faultless { OnOk result (IsFaultless paths.now chains.now) }
    ensures first { IfErr result (IsRefused paths.now chains.now) }
{
    chain_rules::units_of(alloc, paths, chains)
}

/// As `chain_rules::are_chains`.
pub fn are_chains(alloc: Global, paths: &[PathSpec], chains: &[ChainSpec]) -> Result<bool, NoMemory>
    ensures value { IfOk result (λ yes. IsTrue yes ↔ AreChainSpecs paths.now chains.now) }
{
    chain_rules::are_chains(alloc, paths, chains)
}

/// As `chain_rules::is_legal`.
pub fn is_legal(rules: &Rules, plan: &Plan) -> bool
    ensures value { IsTrue result ↔ IsLegal rules.now plan.now }
{
    chain_rules::is_legal(rules, plan)
}

/// As `chain_rules::can_move`.
pub fn can_move(rules: &Rules, plan: &Plan, from: Position, to: Position) -> bool
    requires legal { IsLegal rules.now plan.now }
    requires from { IsIn plan.now from }
    requires to { IsOpen (taken_out plan.now from) to }
    ensures value { IsTrue result ↔ IsLegal rules.now (moved_plan plan.now from to) }
{
    chain_rules::can_move(rules, plan, from, to)
}

/// As `chain_rules::can_swap`.
pub fn can_swap(rules: &Rules, plan: &Plan, a: Position, b: Position) -> bool
    requires legal { IsLegal rules.now plan.now }
    requires a { IsIn plan.now a }
    requires b { IsIn plan.now b }
    ensures value { IsTrue result ↔ IsLegal rules.now (swapped_plan plan.now a b) }
{
    chain_rules::can_swap(rules, plan, a, b)
}
