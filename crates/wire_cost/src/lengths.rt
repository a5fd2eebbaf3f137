//! The length of a chain and of a plan.
ghost use Rattle.std.specs.Prelude.{◌≡◌, ℕ, pos, ◌+◌, ◌*◌, ◌^◌, ◌≤◌, length};
ghost use Rattle.wire_cost.specs.Lengths.{ArePlaced, IsChainAt, IsPlanAt, chain_length_of, plan_length_of};

use crate::ends::Ends;
use crate::links::{point_after, point_before, wire};
use chain_rules::Plan;

/// The length of a chain as an unsigned number, for sums.
pub fn wire_of(ends: &Ends, chain: u32, units: &[u32]) -> u64
    requires placed { ArePlaced ends.now }
    requires chain { IsChainAt ends.now chain units.now }
    ensures value { result ≡ chain_length_of ends.now chain units.now }
    ensures small { result ≤ 2 ^ 43 * (length units.now + 1) }
{
    let mut total: u64 = 0;
    for i in 0..units.len() + 1 {
        total += wire(
            point_before(ends, chain, units, i),
            point_after(ends, chain, units, i),
        );
    }
    total
}

/// The length of a chain with these units, in half database units: the sum of its links from its start over the units,
/// exit to entry, to its stop. It takes as many steps as there are units.
pub fn chain_length(ends: &Ends, chain: u32, units: &[u32]) -> i64
    requires placed { ArePlaced ends.now }
    requires chain { IsChainAt ends.now chain units.now }
    ensures value { result ≡ pos (chain_length_of ends.now chain units.now) }
{
    wire_of(ends, chain, units) as i64
}

/// The length of a plan, in half database units: the sum of the lengths of its chains. It takes as many steps as there are
/// units and chains.
pub fn plan_length(ends: &Ends, plan: &Plan) -> i64
    requires placed { ArePlaced ends.now }
    requires plan { IsPlanAt ends.now plan.now }
    ensures value { result ≡ pos (plan_length_of ends.now plan.now) }
{
    let mut total: u64 = 0;
    for c in 0..plan.len() {
        total += wire_of(ends, c as u32, plan.chain(c));
    }
    total as i64
}
