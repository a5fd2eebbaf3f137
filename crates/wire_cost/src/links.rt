//! The points beside a place of a chain, and the link between two of them.
ghost use Rattle.std.specs.Prelude.{◌≡◌, ℕ, pos, ◌+◌, ◌^◌, ◌<◌, ◌≤◌, length, take, drop, Some, slice_get, slice_index_or};
ghost use Rattle.wire_cost.specs.Lengths.{ArePlaced, AreNear, IsChainAt, IsNear, IsNearOrNowhere, chain_ends, end_of, first_of, gap_of, link_of};

use crate::ends::Ends;
use base_types::Point;

#[inline(always)]
fn gap(a: Point, b: Point) -> u64
    requires a { IsNear a }
    requires b { IsNear b }
    ensures value { result ≡ gap_of a b }
    ensures small { result ≤ 2 ^ 43 }
{
    a.x.abs_diff(b.x) + a.y.abs_diff(b.y)
}

/// The link between two places, as an unsigned number for sums.
#[inline(always)]
pub fn wire(a: Option<Point>, b: Option<Point>) -> u64
    requires a { IsNearOrNowhere a }
    requires b { IsNearOrNowhere b }
    ensures value { result ≡ link_of a b }
    ensures small { result ≤ 2 ^ 43 }
{
    match (a, b) {
        (Some(p), Some(q)) => gap(p, q),
        _ => 0,
    }
}

/// The wire that a link between two places takes, in half database units: `|dx| + |dy|`, or 0 where an end stands nowhere.
pub fn link(a: Option<Point>, b: Option<Point>) -> i64
    requires a { IsNearOrNowhere a }
    requires b { IsNearOrNowhere b }
    ensures value { result ≡ pos (link_of a b) }
{
    wire(a, b) as i64
}

/// Where a unit is entered.
#[inline(always)]
pub fn entry_of(ends: &Ends, unit: u32) -> Point
    requires near { AreNear ends.now.entry }
    requires within { unit < length ends.now.entry }
    ensures value { slice_get ends.now.entry unit ≡ Some result }
    ensures near { IsNear result }
{
    ends.entry.as_slice()[unit as usize]
}

/// Where a unit is left.
#[inline(always)]
pub fn exit_of(ends: &Ends, unit: u32) -> Point
    requires near { AreNear ends.now.exit }
    requires within { unit < length ends.now.exit }
    ensures value { slice_get ends.now.exit unit ≡ Some result }
    ensures near { IsNear result }
{
    ends.exit.as_slice()[unit as usize]
}

/// The point that a chain comes from before its place `i`: the exit of the unit before, or the chain's start.
#[inline(always)]
pub fn point_before(ends: &Ends, chain: u32, units: &[u32], i: usize) -> Option<Point>
    requires placed { ArePlaced ends.now }
    requires chain { IsChainAt ends.now chain units.now }
    requires within { i ≤ length units.now }
    ensures value { let w = chain_ends ends.now chain in result ≡ end_of w.exit w.start (take i units.now) }
    ensures near { IsNearOrNowhere result }
{
    if i == 0 {
        ends.start.as_slice()[chain as usize]
    } else {
        Some(exit_of(ends, units[i - 1]))
    }
}

/// The point that a chain goes to at its place `i`: the entry of the unit there, or at the end the chain's stop.
#[inline(always)]
pub fn point_after(ends: &Ends, chain: u32, units: &[u32], i: usize) -> Option<Point>
    requires placed { ArePlaced ends.now }
    requires chain { IsChainAt ends.now chain units.now }
    requires within { i ≤ length units.now }
    ensures value { let w = chain_ends ends.now chain in result ≡ first_of w.entry w.stop (drop i units.now) }
    ensures near { IsNearOrNowhere result }
{
    if i < units.len() {
        Some(entry_of(ends, units[i]))
    } else {
        ends.stop.as_slice()[chain as usize]
    }
}
