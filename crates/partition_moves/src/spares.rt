//! How many units a chain may come to hold, so that room for them is taken before the first step.
ghost use Rattle.std.specs.Prelude.{◌≡◌, ◌+◌, ◌<◌, ◌≤◌, length, IfOk};
ghost use Rattle.partition_moves.specs.Roomy.{AreSpares, AreSparesOf, bitless, most_in};

use base_types::NoMemory;
use chain_rules::{Plan, Rules};
use std::alloc::Global;

/// How many of the units have no bit.
pub(crate) fn count_bitless(rules: &Rules) -> usize
    ensures value { result ≡ bitless rules.now }
{
    let mut count = 0;
    for unit in rules.units.as_slice() {
        if unit.bits == 0 {
            count += 1;
        }
    }
    count
}

/// Adds what a chain holds besides one unit to what its partition can spare.
fn add_spare(rules: &Rules, plan: &Plan, spares: &mut [usize], c: usize)
    requires rules { length plan.now.chains ≡ length rules.now.chains }
    requires chain { c < length plan.now.chains }
    requires before { AreSparesOf rules.now plan.now spares.old c }
    ensures after { AreSparesOf rules.now plan.now spares.new (c + 1) }
{
    let units = rules.units.as_slice().len();
    let part = rules.chains.as_slice()[c].partition as usize;
    if part >= spares.len() {
        return;
    }
    let more = plan.chain(c).len().saturating_sub(1);
    spares[part] = spares[part].min(units) + more;
}

/// How many units the chains of each partition hold besides one each, or want of memory. It says nothing of a partition
/// whose number is none of a chain.
pub(crate) fn spares_of(alloc: Global, rules: &Rules, plan: &Plan) -> Result<Vec<usize>, NoMemory>
    requires rules { length plan.now.chains ≡ length rules.now.chains }
    ensures value { IfOk result (λ spares. AreSpares rules.now plan.now spares.items) }
{
    let mut spares = vec![in alloc; 0usize; plan.len()]?;
    for c in 0..plan.len() {
        add_spare(rules, plan, spares.as_mut_slice(), c);
    }
    Ok(spares)
}

/// The most units that a chain may hold.
pub(crate) fn most_units(
    rules: &Rules,
    plan: &Plan,
    spares: &[usize],
    without_bits: usize,
    c: usize,
) -> usize
    requires chain { c < length rules.now.chains }
    requires rules { length plan.now.chains ≡ length rules.now.chains }
    requires spares { AreSpares rules.now plan.now spares.now }
    requires without_bits { without_bits ≡ bitless rules.now }
    ensures value { most_in rules.now plan.now c ≤ result }
{
    let units = rules.units.as_slice().len();
    let rule = rules.chains.as_slice()[c];
    let partition = rule.partition as usize;
    let spare = if partition < plan.len() {
        spares[partition].min(units)
    } else {
        units
    };
    (spare + 1).min(rule.bound as usize + without_bits)
}
