//! The bits that chains hold, and what they may hold.
ghost use Rattle.std.specs.Prelude.{◌≡◌, ℕ, ◌+◌, ◌<◌, ◌≤◌, ◌↔◌, length, IfOk, IsTrue};
ghost use Rattle.chain_rules.specs.Legality.{IsLegal, bits_of, chain_at, rule_at, unit_at};
ghost use Rattle.partition_moves.specs.Fits.{MayHold};
ghost use Rattle.partition_moves.specs.Roomy.{AreHeld, IsLeast};

use base_types::NoMemory;
use chain_rules::{Plan, Rules};
use std::alloc::Global;

/// The bits of a unit, 0 where there is no such unit.
pub(crate) fn unit_bits(rules: &Rules, unit: u32) -> u32
    ensures value { result ≡ (unit_at rules.now unit).bits }
{
    let units = rules.units.as_slice();
    if (unit as usize) < units.len() {
        units[unit as usize].bits
    } else {
        0
    }
}

/// The bits of some units together, which a bound is known for.
fn bits_within(rules: &Rules, us: &[u32], bound: u32) -> u32
    requires bounded { bits_of rules.now us.now ≤ bound }
    ensures value { result ≡ bits_of rules.now us.now }
{
    us.iter().map(|u| unit_bits(rules, *u)).sum()
}

/// The bits of the units of a chain.
pub(crate) fn held_bits(rules: &Rules, chain: usize, us: &[u32]) -> u32
    requires rule { chain < length rules.now.chains }
    requires bounded { bits_of rules.now us.now ≤ (rule_at rules.now chain).bound }
    ensures value { result ≡ bits_of rules.now us.now }
{
    bits_within(rules, us, rules.chains.as_slice()[chain].bound)
}

/// The bits of each chain of a plan, or want of memory.
pub(crate) fn held_by(alloc: Global, rules: &Rules, plan: &Plan) -> Result<Vec<u32>, NoMemory>
    requires legal { IsLegal rules.now plan.now }
    ensures value { IfOk result (λ bits. AreHeld rules.now plan.now bits.items) }
{
    let mut bits = Vec::with_capacity(alloc, plan.len())?;
    for c in 0..plan.len() {
        bits.push(held_bits(rules, c, plan.chain(c)))?;
    }
    Ok(bits)
}

/// The least bits of a unit.
pub(crate) fn least_bits(rules: &Rules) -> u32
    ensures value { IsLeast rules.now result }
{
    let mut least = u32::MAX;
    for unit in rules.units.as_slice() {
        least = least.min(unit.bits);
    }
    least
}

/// Whether a chain may hold what it does, without some of its bits and with others.
pub(crate) fn can_hold(rules: &Rules, chain: usize, held: u32, given: u32, taken: u32) -> bool
    requires rule { chain < length rules.now.chains }
    requires given { given ≤ held }
    requires bounded { held ≤ (rule_at rules.now chain).bound }
    ensures value { IsTrue result ↔ MayHold rules.now chain held given taken }
{
    let rule = rules.chains.as_slice()[chain];
    let others = held - given;
    if taken > rule.bound - others {
        return false;
    }
    !rule.keeps_bit || others > 0 || taken > 0
}
