//! The bits of the paths after a plan.
ghost use Rattle.std.specs.Prelude.{◌≡◌, ◌<◌, ◌≤◌, ◌+◌, ◌^◌, ◌↔◌, length, slice_index_or, IsTrue};
ghost use Rattle.std.specs.List.{concat, sum};
ghost use Rattle.chain_rules.specs.Legality.{unit_at, bits_of, IsLegal};
ghost use Rattle.chain_balance.specs.Balance.{path_bits, longest, HaveOneBit};

use chain_rules::{Plan, Rules};

/// The bits of a unit, 0 where there is no such unit.
pub(crate) fn unit_bits(rules: &Rules, unit: u32) -> u32
    ensures value { result ≡ (unit_at rules.now unit).bits }
{
    let units = rules.units.as_slice();
    if (unit as usize) < units.len() {
        units[unit as usize].bits
    } else {
        0
    }
}

pub(crate) fn is_pinned(rules: &Rules, unit: u32) -> bool
    ensures value { result ≡ (unit_at rules.now unit).pinned }
{
    let units = rules.units.as_slice();
    if (unit as usize) < units.len() {
        units[unit as usize].pinned
    } else {
        false
    }
}

/// Whether each unit has one bit.
pub(crate) fn have_one_bit(rules: &Rules) -> bool
    ensures value { IsTrue result ↔ HaveOneBit rules.now }
{
    let units = rules.units.as_slice();
    for place in 0..units.len() {
        if units[place].bits != 1 {
            return false;
        }
    }
    true
}

/// The bits of some units together.
pub(crate) fn total_bits(rules: &Rules, us: &[u32]) -> u32
    requires bound { bits_of rules.now us.now < 2 ^ 32 }
    ensures value { result ≡ bits_of rules.now us.now }
{
    us.iter().map(|u| unit_bits(rules, *u)).sum()
}

/// The bits of a path, of which so many are outside all units.
pub(crate) fn path_bits(rules: &Rules, fixed: &[u32], plan: &Plan, path: usize) -> u32
    requires legal { IsLegal rules.now plan.now }
    requires small { sum fixed.now + bits_of rules.now (concat plan.now.chains) < 2 ^ 32 }
    requires path { path < length fixed.now }
    ensures value { result ≡ path_bits rules.now fixed.now plan.now path }
{
    let chains = rules.chains.as_slice();
    let mut bits = fixed[path];
    for chain in 0..chains.len() {
        if chains[chain].path as usize == path {
            bits += total_bits(rules, plan.chain(chain));
        }
    }
    bits
}

/// The bits of the longest path after a legal plan, where `fixed` has for each path its bits outside all units; 0 where there is no
/// path. These and the bits of all units are together less than 2^32. It takes no memory, and time of the paths times the chains, and
/// of the units.
pub fn longest(rules: &Rules, fixed: &[u32], plan: &Plan) -> u32
    requires legal { IsLegal rules.now plan.now }
    requires small { sum fixed.now + bits_of rules.now (concat plan.now.chains) < 2 ^ 32 }
    ensures value { result ≡ longest rules.now fixed.now plan.now }
{
    let mut most = 0;
    for path in 0..fixed.len() {
        most = most.max(path_bits(rules, fixed, plan, path));
    }
    most
}
