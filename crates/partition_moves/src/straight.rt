//! Chains whose links no other unit makes shorter.
ghost use Rattle.std.specs.Prelude.{◌≡◌, ℕ, ◌+◌, ◌^◌, ◌<◌, ◌≤◌, ◌↔◌, length, slice_get, IsTrue};
ghost use Rattle.wire_cost.specs.Lengths.{ArePlaced, IsChainAt, chain_ends, link_of};
ghost use Rattle.order_search.specs.Searches.{AreSearchable};
ghost use Rattle.partition_moves.specs.Straight.{AreNarrow, IsStraightAt};

use chain_rules::Rules;
use wire_cost::{Ends, entry_of, exit_of, point_after, point_before, wire};

/// How far a unit is left from where it is entered, in half database units.
fn unit_width(ends: &Ends, unit: u32) -> u64
    requires placed { ArePlaced ends.now }
    requires entry { unit < length ends.now.entry }
    requires exit { unit < length ends.now.exit }
    ensures value { result ≡ link_of (slice_get ends.now.entry unit) (slice_get ends.now.exit unit) }
    ensures small { result ≤ 2 ^ 43 }
{
    let entry = Some(entry_of(ends, unit));
    let exit = Some(exit_of(ends, unit));
    wire(entry, exit)
}

/// No unit is left farther from where it is entered.
pub(crate) fn widest_unit(rules: &Rules, ends: &Ends) -> u64
    requires searchable { AreSearchable rules.now ends.now }
    ensures value { AreNarrow rules.now ends.now result }
    ensures small { result ≤ 2 ^ 43 }
{
    let mut widest = 0u64;
    for u in 0..rules.units.as_slice().len() {
        widest = widest.max(unit_width(ends, u as u32));
    }
    widest
}

/// Whether the two links at a place of a chain are no longer than the way past it, less what lies within a unit.
fn is_straight_at(ends: &Ends, chain: u32, units: &[u32], widest: u64, k: usize) -> bool
    requires placed { ArePlaced ends.now }
    requires chain { IsChainAt ends.now chain units.now }
    requires small { widest ≤ 2 ^ 43 }
    requires within { k < length units.now }
    ensures value { IsTrue result ↔ IsStraightAt (chain_ends ends.now chain) units.now widest k }
{
    let left = point_before(ends, chain, units, k);
    let entry = point_after(ends, chain, units, k);
    let exit = point_before(ends, chain, units, k + 1);
    let right = point_after(ends, chain, units, k + 1);
    wire(left, entry) + wire(exit, right) + widest <= wire(left, right)
}

/// Whether that is so at each place of a chain. Then no unit in place of one of them makes its links shorter.
pub(crate) fn is_straight(ends: &Ends, chain: u32, units: &[u32], widest: u64) -> bool
    requires placed { ArePlaced ends.now }
    requires chain { IsChainAt ends.now chain units.now }
    requires small { widest ≤ 2 ^ 43 }
    ensures straight { IsTrue result → (k : ℕ) → k < length units.now → IsStraightAt (chain_ends ends.now chain) units.now widest k }
{
    for k in 0..units.len() {
        if !is_straight_at(ends, chain, units, widest, k) {
            return false;
        }
    }
    true
}
