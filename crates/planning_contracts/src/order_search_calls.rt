//! The contracts of `order_search`.
ghost use Rattle.chain_rules.specs.Legality.{IsLegal, chain_at};
ghost use Rattle.chain_rules.specs.Plans.{PlanLists};
ghost use Rattle.order_search.specs.Nearest.{IsNearestPlan};
ghost use Rattle.order_search.specs.Searches.{AreSearchable};
ghost use Rattle.order_search.specs.Steps.{IsChainSettled, IsPinnedLast, IsSettled};
ghost use Rattle.order_search.specs.declared.effort.Effort.TheVariants.{Order};
ghost use Rattle.std.specs.List.{IsDistinct};
ghost use Rattle.std.specs.Prelude.{IfOk, IsPermutation, IsTrue, OnErr, OnOk, length, nat_eq, ℕ, ◌+◌, ◌<◌, ◌↔◌, ◌≡◌, ◌≤◌};
ghost use Rattle.wire_cost.specs.Lengths.{AreWithin, chain_length_of, plan_length_of};

use base_types::NoMemory;
use chain_rules::{Plan, Rules};
use order_search::{Effort, SearchCount};
use std::alloc::Global;
use wire_cost::{Ends, Sums};

/// As `order_search::nearest_plan`.
pub fn nearest_plan(alloc: Global, rules: &Rules, ends: &Ends) -> Result<Plan, NoMemory>
    requires searchable { AreSearchable rules.now ends.now }
    ensures value { IfOk result (λ plan. IsNearestPlan rules.now ends.now plan) }
    ensures only { IfOk result (λ plan. (other : PlanLists) → IsNearestPlan rules.now ends.now other → other ≡ plan) }
    ensures legal { IfOk result (λ plan. IsLegal rules.now plan) }
{
    order_search::nearest_plan(alloc, rules, ends)
}

/// As `order_search::settle_chain`.
pub fn settle_chain(rules: &Rules, ends: &Ends, chain: u32, units: &mut [u32], sums: &mut Sums)
    requires searchable { AreSearchable rules.now ends.now }
    requires chain { chain < length rules.now.chains }
    requires units { AreWithin units.old (length rules.now.units) }
    requires different { IsDistinct nat_eq units.old }
    requires pinned { IsPinnedLast rules.now units.old }
    requires room { length units.old ≤ sums.old.room }
    ensures permutation { IsPermutation units.old units.new }
    ensures pinned { IsPinnedLast rules.now units.new }
    ensures no_longer { chain_length_of ends.now chain units.new ≤ chain_length_of ends.now chain units.old }
    ensures settled { IsChainSettled rules.now ends.now chain units.new }
    ensures room { sums.new.room ≡ sums.old.room }
{
    order_search::settle_chain(rules, ends, chain, units, sums)
}

/// As `order_search::settle_order`.
pub fn settle_order(
    alloc: Global,
    rules: &Rules,
    ends: &Ends,
    plan: &mut Plan,
) -> Result<(), NoMemory>
    requires searchable { AreSearchable rules.now ends.now }
    requires legal { IsLegal rules.now plan.old }
    ensures legal { OnOk result (IsLegal rules.now plan.new) }
    ensures members { OnOk result ((c : ℕ) → c < length plan.old.chains → IsPermutation (chain_at plan.old c) (chain_at plan.new c)) }
    ensures no_longer { OnOk result (plan_length_of ends.now plan.new ≤ plan_length_of ends.now plan.old) }
    ensures settled { OnOk result (IsSettled Order rules.now ends.now plan.new) }
    ensures unchanged { OnErr result (plan.new ≡ plan.old) }
{
    order_search::settle_order(alloc, rules, ends, plan)
}

/// As `order_search::settle_chain_counted`.
pub fn settle_chain_counted(
    rules: &Rules,
    ends: &Ends,
    chain: u32,
    units: &mut [u32],
    sums: &mut Sums,
) -> SearchCount
    requires searchable { AreSearchable rules.now ends.now }
    requires chain { chain < length rules.now.chains }
    requires units { AreWithin units.old (length rules.now.units) }
    requires different { IsDistinct nat_eq units.old }
    requires pinned { IsPinnedLast rules.now units.old }
    requires room { length units.old ≤ sums.old.room }
    ensures permutation { IsPermutation units.old units.new }
    ensures pinned { IsPinnedLast rules.now units.new }
    ensures no_longer { chain_length_of ends.now chain units.new ≤ chain_length_of ends.now chain units.old }
    ensures settled { IsChainSettled rules.now ends.now chain units.new }
    ensures room { sums.new.room ≡ sums.old.room }
    ensures shorter { result.steps + chain_length_of ends.now chain units.new ≤ chain_length_of ends.now chain units.old }
    ensures still { result.steps ≡ 0 → units.new ≡ units.old }
{
    order_search::settle_chain_counted(rules, ends, chain, units, sums)
}

/// As `order_search::settle_order_counted`.
pub fn settle_order_counted(
    alloc: Global,
    rules: &Rules,
    ends: &Ends,
    plan: &mut Plan,
) -> Result<SearchCount, NoMemory>
    requires searchable { AreSearchable rules.now ends.now }
    requires legal { IsLegal rules.now plan.old }
    ensures legal { OnOk result (IsLegal rules.now plan.new) }
    ensures members { OnOk result ((c : ℕ) → c < length plan.old.chains → IsPermutation (chain_at plan.old c) (chain_at plan.new c)) }
    ensures no_longer { OnOk result (plan_length_of ends.now plan.new ≤ plan_length_of ends.now plan.old) }
    ensures settled { OnOk result (IsSettled Order rules.now ends.now plan.new) }
    ensures unchanged { OnErr result (plan.new ≡ plan.old) }
{
    order_search::settle_order_counted(alloc, rules, ends, plan)
}

/// As `order_search::is_settled`.
pub fn is_settled(
    alloc: Global,
    effort: Effort,
    rules: &Rules,
    ends: &Ends,
    plan: &Plan,
) -> Result<bool, NoMemory>
    requires searchable { AreSearchable rules.now ends.now }
    requires legal { IsLegal rules.now plan.now }
    ensures value { IfOk result (λ yes. IsTrue yes ↔ IsSettled effort rules.now ends.now plan.now) }
{
    order_search::plain::is_settled(alloc, effort, rules, ends, plan)
}
