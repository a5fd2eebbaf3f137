//! The chains of one partition as groups of small numbers.
ghost use Rattle.std.specs.Prelude.{◌≡◌, ◌==◌, ℕ, Some, None, if◌then◌else◌, IfOk, OnOk};
ghost use Rattle.std.specs.HashMap.{get};
ghost use Rattle.std.specs.Option.{option_or};
ghost use Rattle.chain_balance.specs.Rooms.{AreGroups};

use base_types::NoMemory;
use chain_rules::Rules;
use std::alloc::Global;
use std::collections::HashMap;

/// The number of a partition; that of this chain where it has none yet.
fn group_of(
    numbers: &mut HashMap<u32, usize>,
    partition: u32,
    chain: usize,
) -> Result<usize, NoMemory>
    ensures numbers { OnOk result ((q : ℕ) → get ◌==◌ numbers.new q ≡ option_or (get ◌==◌ numbers.old q) (if partition == q then Some chain else None)) }
    ensures value { IfOk result (λ group. get ◌==◌ numbers.new partition ≡ Some group) }
{
    if let Some(group) = numbers.get(&partition) {
        return Ok(*group);
    }
    numbers.insert(partition, chain)?;
    Ok(chain)
}

/// For each chain the number of its group, below the number of chains: the chains of one partition have one number.
pub(crate) fn groups_of(alloc: Global, rules: &Rules) -> Result<Vec<usize>, NoMemory>
    ensures value { IfOk result (λ groups. AreGroups rules.now groups.items) }
{
    let chains = rules.chains.as_slice();
    let mut numbers = HashMap::with_capacity(alloc, chains.len())?;
    let mut groups = Vec::with_capacity(alloc, chains.len())?;
    for chain in 0..chains.len() {
        let group = group_of(&mut numbers, chains[chain].partition, chain)?;
        groups.push(group)?;
    }
    Ok(groups)
}
