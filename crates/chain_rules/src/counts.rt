//! How many units the chains have.
ghost use Rattle.std.specs.Prelude.{◌≡◌, ◌+◌, ◌^◌, ◌<◌, ◌≤◌, ◌↔◌, ℕ, nat_eq, length, sum_by, unwrap_or, IsTrue, IfOk, IfSome, IfNone};
ghost use Rattle.std.specs.HashMap.{get};
ghost use Rattle.chain_rules.specs.Stretches.{groups_in, groups_of};
ghost use Rattle.chain_rules.specs.ChainFaults.{IsTooManyUnits};

use crate::spec::{ChainSpec, ListSpec};
use base_types::NoMemory;
use std::alloc::Global;
use std::collections::HashMap;

/// The most units of a partition.
const MOST_UNITS: usize = 16384;

/// The number of units of a list.
fn count_in_list(list: &ListSpec) -> usize
    ensures value { result ≡ length (groups_in list.now) }
{
    match list {
        ListSpec::Floating(elements) => elements.as_slice().len(),
        ListSpec::Ordered(_elements) => 1,
    }
}

/// The number of units of a chain.
pub(crate) fn count_units(chain: &ChainSpec) -> usize
    requires small { length (groups_of chain.now) < 2 ^ 32 }
    ensures value { result ≡ length (groups_of chain.now) }
{
    let mut units = 0;
    for list in chain.lists.as_slice() {
        units += count_in_list(list);
    }
    units
}

/// The units of a chain's partition so far, and those of the chain.
fn units_with(units: &HashMap<u32, usize>, chain: &ChainSpec) -> usize
    requires small { unwrap_or (get nat_eq units.now chain.now.partition) 0 + length (groups_of chain.now) < 2 ^ 32 }
    ensures value { result ≡ unwrap_or (get nat_eq units.now chain.now.partition) 0 + length (groups_of chain.now) }
{
    let before = match units.get(&chain.partition) {
        Some(count) => *count,
        None => 0,
    };
    before + count_units(chain)
}

/// The first chain with which its partition has too many units.
pub(crate) fn first_too_many_units(
    alloc: Global,
    chains: &[ChainSpec],
) -> Result<Option<usize>, NoMemory>
    requires small { sum_by (λ c. length (groups_of c)) chains.now < 2 ^ 32 }
    ensures found { IfOk result (λ first. IfSome first (λ c. (c < length chains.now) × IsTooManyUnits chains.now c × ((d : ℕ) → d < c → ¬ IsTooManyUnits chains.now d))) }
    ensures none { IfOk result (λ first. IfNone first ((c : ℕ) → c < length chains.now → ¬ IsTooManyUnits chains.now c)) }
{
    let mut units = HashMap::new(alloc);
    for chain in 0..chains.len() {
        let spec = &chains[chain];
        let count = units_with(&units, spec);
        if count > MOST_UNITS {
            return Ok(Some(chain));
        }
        units.insert(spec.partition, count)?;
    }
    Ok(None)
}
