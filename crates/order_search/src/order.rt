//! Settles the order of the units in every chain of a plan.
ghost use Rattle.std.specs.Prelude.{◌≡◌, ℕ, ◌<◌, ◌≤◌, [], length, OnErr, OnOk, IsPermutation, slice_index_or};
ghost use Rattle.chain_rules.specs.Legality.{IsLegal, chain_at};
ghost use Rattle.wire_cost.specs.Lengths.{plan_length_of};
ghost use Rattle.order_search.specs.Searches.{AreSearchable};
ghost use Rattle.order_search.specs.Steps.{IsSettled};
ghost use Rattle.order_search.specs.declared.effort.Effort.TheVariants.{Order};

use crate::reversals::{SearchCount, settle_chain_counted};
use base_types::NoMemory;
use chain_rules::{Plan, Rules};
use std::alloc::Global;
use wire_cost::{Ends, Sums};

/// The number of units in the longest chain.
fn longest_chain(plan: &Plan) -> usize
    ensures longest { (c : ℕ) → c < length plan.now.chains → length (chain_at plan.now c) ≤ result }
{
    let mut longest = 0;
    for c in 0..plan.len() {
        longest = longest.max(plan.chain(c).len());
    }
    longest
}

/// Reverses runs of units within the chains of a plan until none makes it shorter, and tells what it took in all chains
/// together. It takes no memory: `units` is a place for one chain, and `sums` has room for each.
pub fn settle_plan(
    rules: &Rules,
    ends: &Ends,
    plan: &mut Plan,
    units: &mut Vec<u32>,
    sums: &mut Sums,
) -> SearchCount
    requires searchable { AreSearchable rules.now ends.now }
    requires legal { IsLegal rules.now plan.old }
    requires room { (c : ℕ) → c < length plan.old.chains → length (chain_at plan.old c) ≤ sums.old.room }
    ensures legal { IsLegal rules.now plan.new }
    ensures members { (c : ℕ) → c < length plan.old.chains → IsPermutation (chain_at plan.old c) (chain_at plan.new c) }
    ensures no_longer { plan_length_of ends.now plan.new ≤ plan_length_of ends.now plan.old }
    ensures settled { IsSettled Order rules.now ends.now plan.new }
    ensures room { sums.new.room ≡ sums.old.room }
{
    let mut taken = SearchCount {
        passes: 0,
        steps: 0,
    };
    for c in 0..plan.len() {
        plan.exchange(c, units);
        let more = settle_chain_counted(rules, ends, c as u32, units.as_mut_slice(), sums);
        plan.exchange(c, units);
        taken.passes = taken.passes.saturating_add(more.passes);
        taken.steps = taken.steps.saturating_add(more.steps);
    }
    taken
}

/// As `settle_order`, and tells what it took in all chains together.
pub fn settle_order_counted(
    alloc: Global,
    rules: &Rules,
    ends: &Ends,
    plan: &mut Plan,
) -> Result<SearchCount, NoMemory>
    requires searchable { AreSearchable rules.now ends.now }
    requires legal { IsLegal rules.now plan.old }
    ensures legal { OnOk result (IsLegal rules.now plan.new) }
    ensures members { OnOk result ((c : ℕ) → c < length plan.old.chains → IsPermutation (chain_at plan.old c) (chain_at plan.new c)) }
    ensures no_longer { OnOk result (plan_length_of ends.now plan.new ≤ plan_length_of ends.now plan.old) }
    ensures settled { OnOk result (IsSettled Order rules.now ends.now plan.new) }
    ensures unchanged { OnErr result (plan.new ≡ plan.old) }
{
    let mut sums = Sums::make(alloc, longest_chain(plan))?;
    let mut units = Vec::new(alloc);
    Ok(settle_plan(rules, ends, plan, &mut units, &mut sums))
}

/// Reverses runs of units within the chains of a plan until none makes it shorter. After want of memory the plan is as
/// before; its room is taken before the first step.
pub fn settle_order(
    alloc: Global,
    rules: &Rules,
    ends: &Ends,
    plan: &mut Plan,
) -> Result<(), NoMemory>
    requires searchable { AreSearchable rules.now ends.now }
    requires legal { IsLegal rules.now plan.old }
    ensures legal { OnOk result (IsLegal rules.now plan.new) }
    ensures members { OnOk result ((c : ℕ) → c < length plan.old.chains → IsPermutation (chain_at plan.old c) (chain_at plan.new c)) }
    ensures no_longer { OnOk result (plan_length_of ends.now plan.new ≤ plan_length_of ends.now plan.old) }
    ensures settled { OnOk result (IsSettled Order rules.now ends.now plan.new) }
    ensures unchanged { OnErr result (plan.new ≡ plan.old) }
{
    settle_order_counted(alloc, rules, ends, plan)?;
    Ok(())
}
