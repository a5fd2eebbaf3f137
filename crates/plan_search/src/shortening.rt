//! Makes a plan shorter by what the search proposes, tested.
ghost use Rattle.std.specs.Prelude.{◌≡◌, ℕ, ◌<◌, ◌≤◌, ◌↔◌, length, IfOk, OnOk, OnErr, IsTrue, IsPermutation};
ghost use Rattle.chain_rules.specs.Legality.{IsLegal, chain_at};
ghost use Rattle.wire_cost.specs.Lengths.{plan_length_of};
ghost use Rattle.order_search.specs.Searches.{AreSearchable};
ghost use Rattle.order_search.specs.declared.effort.Effort.TheVariants.{Order};
ghost use Rattle.plan_search.specs.Members.{HaveSameMembers};

use crate::progress::Progress;
use crate::propose::proposed_plan;
use base_types::NoMemory;
use chain_rules::plain::is_legal;
use chain_rules::{Plan, Rules};
use order_search::Effort;
use order_search::plain::length_of;
use std::alloc::Global;
use wire_cost::Ends;

// Whether both hold the same units, each as often.
fn have_same_units(alloc: Global, one: &[u32], other: &[u32]) -> Result<bool, NoMemory>
    ensures value { IfOk result (λ yes. IsTrue yes ↔ IsPermutation one.now other.now) }
{
    let mut one = Vec::from_slice(alloc, one)?;
    let mut other = Vec::from_slice(alloc, other)?;
    one.sort_unstable();
    other.sort_unstable();
    Ok(one == other)
}

// Whether each chain holds the same units in both plans.
fn have_same_members(alloc: Global, one: &Plan, other: &Plan) -> Result<bool, NoMemory>
    requires chains { length one.now.chains ≡ length other.now.chains }
    ensures value { IfOk result (λ yes. IsTrue yes ↔ HaveSameMembers one.now other.now) }
{
    for c in 0..one.len() {
        if !have_same_units(alloc, one.chain(c), other.chain(c))? {
            return Ok(false);
        }
    }
    Ok(true)
}

// Whether a proposed plan may stand in the place of a legal one: it is legal and shorter, and where only orders are searched
// its chains hold the same units.
fn is_gain(
    alloc: Global,
    rules: &Rules,
    ends: &Ends,
    effort: Effort,
    plan: &Plan,
    proposed: &Plan,
) -> Result<bool, NoMemory>
    requires searchable { AreSearchable rules.now ends.now }
    requires legal { IsLegal rules.now plan.now }
    ensures value { IfOk result (λ yes. IsTrue yes ↔ (IsLegal rules.now proposed.now × (plan_length_of ends.now proposed.now < plan_length_of ends.now plan.now) × (effort ≡ Order → HaveSameMembers plan.now proposed.now))) }
{
    if !is_legal(rules, proposed) {
        return Ok(false);
    }
    if length_of(rules, ends, proposed) >= length_of(rules, ends, plan) {
        return Ok(false);
    }
    match effort {
        Effort::Order => have_same_members(alloc, plan, proposed),
        Effort::Full => Ok(true),
    }
}

/// Searches a shorter plan. What is found is tested, and dropped where it isn't legal, isn't shorter, or where only orders
/// are searched and a chain holds other units. After want of memory the plan is as before.
///
/// The work is counted and not timed, so that the same rules give the same plan on every machine.
pub fn shorten<P: Progress>(
    alloc: Global,
    rules: &Rules,
    ends: &Ends,
    effort: Effort,
    plan: &mut Plan,
    progress: &P,
) -> Result<(), NoMemory>
    requires searchable { AreSearchable rules.now ends.now }
    requires legal { IsLegal rules.now plan.old }
    ensures legal { OnOk result (IsLegal rules.now plan.new) }
    ensures members { OnOk result (effort ≡ Order → HaveSameMembers plan.old plan.new) }
    ensures no_longer { OnOk result (plan_length_of ends.now plan.new ≤ plan_length_of ends.now plan.old) }
    ensures unchanged { OnErr result (plan.new ≡ plan.old) }
{
    let proposed = proposed_plan(alloc, rules, ends, effort, plan, progress)?;
    if is_gain(alloc, rules, ends, effort, plan, &proposed)? {
        *plan = proposed;
    }
    Ok(())
}
