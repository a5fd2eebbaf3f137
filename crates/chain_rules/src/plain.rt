//! The test of a whole plan, by the definition.
ghost use Rattle.std.specs.Prelude.{◌≡◌, ◌<◌, ◌↔◌, ℕ, length, IsTrue, Some, All};
ghost use Rattle.chain_rules.specs.Legality.{rule_at, chain_at, partition_of, IsLegal, IsLegalChain};

use crate::legal::{are_held, are_pins_last, has_as_many, read_units};
use crate::owners::are_own;
use crate::plan::Plan;
use crate::standing::all_stand;
use crate::unit::Rules;

/// Whether a chain of a plan, whose units are of its partition, meets its rule.
fn is_legal_chain(rules: &Rules, plan: &Plan, chain: usize) -> bool
    requires rule { chain < length rules.now.chains }
    requires within { chain < length plan.now.chains }
    requires own { All (λ u. partition_of rules.now u ≡ Some (rule_at rules.now chain).partition) (chain_at plan.now chain) }
    ensures value { IsTrue result ↔ IsLegalChain rules.now chain (chain_at plan.now chain) }
{
    let us = plan.chain(chain);
    if !are_pins_last(rules, read_units(rules, chain), us) {
        return false;
    }
    are_held(rules, chain, us)
}

/// Whether each chain of a plan, whose units are of its partition, meets its rule.
fn are_legal_chains(rules: &Rules, plan: &Plan) -> bool
    requires chains { length plan.now.chains ≡ length rules.now.chains }
    requires own { (c : ℕ) → c < length plan.now.chains → All (λ u. partition_of rules.now u ≡ Some (rule_at rules.now c).partition) (chain_at plan.now c) }
    ensures value { IsTrue result ↔ ((c : ℕ) → c < length plan.now.chains → IsLegalChain rules.now c (chain_at plan.now c)) }
{
    for chain in 0..plan.len() {
        if !is_legal_chain(rules, plan, chain) {
            return false;
        }
    }
    true
}

/// Whether a plan is legal. It goes over the plan once, and once more for each few thousand units, and takes no memory.
pub fn is_legal(rules: &Rules, plan: &Plan) -> bool
    ensures value { IsTrue result ↔ IsLegal rules.now plan.now }
{
    let units = rules.units.as_slice().len();
    if plan.len() != rules.chains.as_slice().len() {
        return false;
    }
    if !has_as_many(plan, units) {
        return false;
    }
    if !all_stand(plan, units) {
        return false;
    }
    if !are_own(rules, plan) {
        return false;
    }
    are_legal_chains(rules, plan)
}
