//! The contracts of `wire_cost`.
ghost use Rattle.std.specs.Prelude.{length, pos, slice_index_or, ℕ, ◌+◌, ◌≡◌, ◌≤◌};
ghost use Rattle.wire_cost.specs.Lengths.{ArePlaced, IsChainAt, IsNearOrNowhere, IsPlanAt, backward_sum, chain_ends, chain_length_of, forward_sum, link_of, plan_length_of};
ghost use Rattle.wire_cost.specs.Rows.{AreBlocksOf, AreRowsOf};

use base_types::Point;
use chain_rules::Plan;
use wire_cost::{Ends, Rows, Sums};

/// As `wire_cost::link`.
pub fn link(a: Option<Point>, b: Option<Point>) -> i64
    requires a { IsNearOrNowhere a }
    requires b { IsNearOrNowhere b }
    ensures value { result ≡ pos (link_of a b) }
{
    wire_cost::link(a, b)
}

/// As `wire_cost::chain_length`.
pub fn chain_length(ends: &Ends, chain: u32, units: &[u32]) -> i64
    requires placed { ArePlaced ends.now }
    requires chain { IsChainAt ends.now chain units.now }
    ensures value { result ≡ pos (chain_length_of ends.now chain units.now) }
{
    wire_cost::chain_length(ends, chain, units)
}

/// As `wire_cost::plan_length`.
pub fn plan_length(ends: &Ends, plan: &Plan) -> i64
    requires placed { ArePlaced ends.now }
    requires plan { IsPlanAt ends.now plan.now }
    ensures value { result ≡ pos (plan_length_of ends.now plan.now) }
{
    wire_cost::plan_length(ends, plan)
}

/// As `wire_cost::Sums::fill`.
pub fn sums_fill(sums: &mut Sums, ends: &Ends, chain: u32, units: &[u32])
    requires placed { ArePlaced ends.now }
    requires chain { IsChainAt ends.now chain units.now }
    requires room { length units.now ≤ sums.old.room }
    ensures forward_count { length sums.new.forward ≡ length units.now + 2 }
    ensures forward { (k : ℕ) → k ≤ length units.now + 1 → slice_index_or sums.new.forward k (pos 0) ≡ pos (forward_sum (chain_ends ends.now chain) units.now k) }
    ensures backward_count { length sums.new.backward ≡ length units.now + 2 }
    ensures backward { (k : ℕ) → k ≤ length units.now + 1 → slice_index_or sums.new.backward k (pos 0) ≡ pos (backward_sum (chain_ends ends.now chain) units.now k) }
    ensures rows { AreRowsOf (chain_ends ends.now chain) units.now sums.new.rows }
    ensures block_rows { AreBlocksOf (chain_ends ends.now chain) units.now sums.new.rows }
    ensures room { sums.new.room ≡ sums.old.room }
{
    sums.fill(ends, chain, units)
}

/// As `wire_cost::Sums::rows`.
pub fn sums_rows(sums: &Sums) -> Rows<'_>
    ensures entry_x { result.entry_x.now ≡ sums.now.rows.entry_x }
    ensures entry_y { result.entry_y.now ≡ sums.now.rows.entry_y }
    ensures exit_x { result.exit_x.now ≡ sums.now.rows.exit_x }
    ensures exit_y { result.exit_y.now ≡ sums.now.rows.exit_y }
    ensures turned { result.turned.now ≡ sums.now.rows.turned }
    ensures gaps { result.gaps.now ≡ sums.now.rows.gaps }
    ensures middle_x { result.middle_x.now ≡ sums.now.rows.middle_x }
    ensures middle_y { result.middle_y.now ≡ sums.now.rows.middle_y }
    ensures slack { result.slack.now ≡ sums.now.rows.slack }
{
    sums.rows()
}
