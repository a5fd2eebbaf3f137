//! Which plans are legal.
ghost use Rattle.std.specs.Prelude.{◌≡◌, ◌≤◌, ◌<◌, ◌↔◌, length, IsTrue, Some, SomeIff, All, Any, Contains};
ghost use Rattle.std.specs.List.{concat};
ghost use Rattle.chain_rules.specs.Legality.{unit_at, rule_at, chain_at, bits_of, last_of, IsLegal};

use crate::plan::Plan;
use crate::unit::Rules;

/// The bits of a unit, 0 where there is no such unit.
pub(crate) fn unit_bits(rules: &Rules, unit: u32) -> u32
    ensures value { result ≡ (unit_at rules.now unit).bits }
{
    let units = rules.units.as_slice();
    if (unit as usize) < units.len() {
        units[unit as usize].bits
    } else {
        0
    }
}

pub(crate) fn is_pinned(rules: &Rules, unit: u32) -> bool
    ensures value { result ≡ (unit_at rules.now unit).pinned }
{
    let units = rules.units.as_slice();
    if (unit as usize) < units.len() {
        units[unit as usize].pinned
    } else {
        false
    }
}

/// The bits of some units together, where they aren't above the bound.
fn bits_within(rules: &Rules, us: &[u32], bound: u32) -> Option<u32>
    ensures value { SomeIff result (bits_of rules.now us.now ≤ bound) (bits_of rules.now us.now) }
{
    let mut bits = 0;
    for u in us {
        let more = unit_bits(rules, *u);
        if bound - bits < more {
            return None;
        }
        bits += more;
    }
    Some(bits)
}

/// Whether the units are as many and have as many bits as a chain may hold.
pub(crate) fn are_held(rules: &Rules, chain: usize, us: &[u32]) -> bool
    requires within { chain < length rules.now.chains }
    ensures value { IsTrue result ↔ ((0 < length us.now) × (IsTrue (rule_at rules.now chain).keeps_bit → 0 < bits_of rules.now us.now) × (bits_of rules.now us.now ≤ (rule_at rules.now chain).bound)) }
{
    let rule = rules.chains.as_slice()[chain];
    match bits_within(rules, us, rule.bound) {
        Some(bits) => !us.is_empty() && (!rule.keeps_bit || bits > 0),
        None => false,
    }
}

/// Whether a unit may stand before others, or is the last of these.
fn is_last_or_free(rules: &Rules, unit: u32, us: &[u32]) -> bool
    ensures value { IsTrue result ↔ (IsTrue (unit_at rules.now unit).pinned → last_of us.now ≡ Some unit) }
{
    !is_pinned(rules, unit) || us.last() == Some(&unit)
}

/// Whether each pinned unit of a read chain is the last of the chain.
pub(crate) fn are_pins_last(rules: &Rules, read: &[u32], us: &[u32]) -> bool
    ensures value { IsTrue result ↔ All (λ u. IsTrue (unit_at rules.now u).pinned → last_of us.now ≡ Some u) read.now }
{
    read.iter().all(|u| is_last_or_free(rules, *u, us))
}

/// The units of a read chain; none where there is no such chain.
pub(crate) fn read_units(rules: &Rules, chain: usize) -> &[u32]
    ensures value { result.now ≡ chain_at rules.now.read chain }
{
    if chain < rules.read.len() {
        rules.read.chain(chain)
    } else {
        &[]
    }
}

/// Whether the chains of a plan have so many units together.
pub(crate) fn has_as_many(plan: &Plan, units: usize) -> bool
    ensures value { IsTrue result ↔ (length (concat plan.now.chains) ≡ units) }
{
    let mut left = units;
    for chain in 0..plan.len() {
        let more = plan.chain(chain).len();
        if left < more {
            return false;
        }
        left -= more;
    }
    left == 0
}
