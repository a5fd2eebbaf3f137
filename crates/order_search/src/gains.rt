//! Tests reversed runs of one chain by the sums of its links.
//!
//! A run is tested in constant time: its inner links are the difference of two sums. Where the chain comes from a point, the
//! runs from one place on are tested over the rows, block by block. A place behind which the stop stands nowhere, and every
//! place where the start does, is tested by itself, since the rows hold no point there.
ghost use Rattle.std.specs.Prelude.{◌≡◌, ◌≢◌, ℕ, pos, ◌+◌, ◌-◌, ◌-ℤ◌, ◌^◌, ◌<◌, ◌≤◌, length, None, Some, IfSome, IfNone, slice_get, slice_index_or, unsigned_abs, true, false};
ghost use Rattle.wire_cost.specs.Lengths.{ArePlaced, IsChainAt, IsNear, backward_sum, chain_ends, chain_length_of, forward_sum, link_of};
ghost use Rattle.wire_cost.specs.Rows.{before_at, next_at};
ghost use Rattle.order_search.specs.Runs.{IsSettledAt, IsSettledBetween};
ghost use Rattle.order_search.specs.Steps.{reversed_run};
ghost use Rattle.order_search.specs.Sums.{IsFilledWith};

use crate::blocks::{Aim, first_place};
use base_types::Point;
use wire_cost::{Ends, Sums, entry_of, exit_of, point_after, point_before, wire};

/// The sum of the first k links of a chain, whose sums are filled in.
#[inline(always)]
fn forward_of(ends: &Ends, chain: u32, units: &[u32], sums: &Sums, k: usize) -> u64
    requires placed { ArePlaced ends.now }
    requires chain { IsChainAt ends.now chain units.now }
    requires filled { IsFilledWith (chain_ends ends.now chain) units.now sums.now }
    requires within { k ≤ length units.now + 1 }
    ensures value { result ≡ forward_sum (chain_ends ends.now chain) units.now k }
    ensures small { result ≤ 2 ^ 60 }
{
    sums.forward(k).unsigned_abs()
}

/// The sum of the same links turned round.
#[inline(always)]
fn backward_of(ends: &Ends, chain: u32, units: &[u32], sums: &Sums, k: usize) -> u64
    requires placed { ArePlaced ends.now }
    requires chain { IsChainAt ends.now chain units.now }
    requires filled { IsFilledWith (chain_ends ends.now chain) units.now sums.now }
    requires within { k ≤ length units.now + 1 }
    ensures value { result ≡ backward_sum (chain_ends ends.now chain) units.now k }
    ensures small { result ≤ 2 ^ 60 }
{
    sums.backward(k).unsigned_abs()
}

/// Whether the chain is shorter with its run from place i to place j reversed.
///
/// Both sides lack the links that stay. The sums up to the run's first unit stand on the other side each, so that none is
/// taken away.
fn is_shorter_turned(
    ends: &Ends,
    chain: u32,
    units: &[u32],
    sums: &Sums,
    i: usize,
    j: usize,
) -> bool
    requires placed { ArePlaced ends.now }
    requires chain { IsChainAt ends.now chain units.now }
    requires filled { IsFilledWith (chain_ends ends.now chain) units.now sums.now }
    requires order { i < j }
    requires within { j < length units.now }
    ensures yes { result ≡ true → chain_length_of ends.now chain (reversed_run units.now i (j + 1 - i)) < chain_length_of ends.now chain units.now }
    ensures no { result ≡ false → chain_length_of ends.now chain units.now ≤ chain_length_of ends.now chain (reversed_run units.now i (j + 1 - i)) }
{
    let before = point_before(ends, chain, units, i);
    let after = point_after(ends, chain, units, j + 1);
    let first_entry = Some(entry_of(ends, units[i]));
    let first_exit = Some(exit_of(ends, units[i]));
    let last_entry = Some(entry_of(ends, units[j]));
    let now = wire(before, first_entry)
        + forward_of(ends, chain, units, sums, j + 2)
        + backward_of(ends, chain, units, sums, i + 1);
    let then = wire(before, last_entry)
        + wire(first_exit, after)
        + backward_of(ends, chain, units, sums, j + 1)
        + forward_of(ends, chain, units, sums, i + 1);
    then < now
}

/// The length of the shortest run from place i to a place from `from` on, among the first `limit` places, whose reversal
/// makes the chain shorter.
fn shorter_from(
    ends: &Ends,
    chain: u32,
    units: &[u32],
    sums: &Sums,
    limit: usize,
    i: usize,
    from: usize,
) -> Option<usize>
    requires placed { ArePlaced ends.now }
    requires chain { IsChainAt ends.now chain units.now }
    requires filled { IsFilledWith (chain_ends ends.now chain) units.now sums.now }
    requires order { i < from }
    requires within { limit ≤ length units.now }
    ensures found { IfSome result (λ m. (i + m ≤ limit) × (chain_length_of ends.now chain (reversed_run units.now i m) < chain_length_of ends.now chain units.now)) }
    ensures none { IfNone result (IsSettledBetween ends.now chain units.now i from limit) }
{
    for j in from..limit {
        if is_shorter_turned(ends, chain, units, sums, i, j) {
            return Some(j + 1 - i);
        }
    }
    None
}

/// The place before which every run of the first `limit` places has a point behind it: `limit`, or one less where the stop
/// stands there and nowhere.
fn lane_end(ends: &Ends, chain: u32, units: &[u32], limit: usize) -> usize
    requires placed { ArePlaced ends.now }
    requires chain { IsChainAt ends.now chain units.now }
    requires some { 0 < limit }
    requires within { limit ≤ length units.now }
    ensures high { result ≤ limit }
    ensures low { limit ≤ result + 1 }
    ensures somewhere { (j : ℕ) → j < result → next_at (chain_ends ends.now chain) units.now (j + 1) ≢ None }
{
    match point_after(ends, chain, units, limit) {
        Some(_) => limit,
        None => limit - 1,
    }
}

/// What the sum of a run from place i has to stay below for a gain: the link before the run, and the sum of the links up to
/// its first unit turned round less the same links as they are.
fn turn_limit(ends: &Ends, chain: u32, units: &[u32], sums: &Sums, before: Point, i: usize) -> i64
    requires placed { ArePlaced ends.now }
    requires chain { IsChainAt ends.now chain units.now }
    requires filled { IsFilledWith (chain_ends ends.now chain) units.now sums.now }
    requires near { IsNear before }
    requires within { i < length units.now }
    ensures value { let w = chain_ends ends.now chain in result ≡ pos (link_of (Some before) (slice_get w.entry (slice_index_or units.now i 0)) + backward_sum w units.now (i + 1)) -ℤ pos (forward_sum w units.now (i + 1)) }
    ensures small { unsigned_abs result ≤ 2 ^ 61 }
{
    let first = wire(Some(before), Some(entry_of(ends, units[i])));
    let turned = backward_of(ends, chain, units, sums, i + 1);
    let straight = forward_of(ends, chain, units, sums, i + 1);
    (first + turned) as i64 - straight as i64
}

/// The length of the shortest run from place i to a place before `until` whose reversal makes the chain shorter, by blocks
/// and lanes. The chain comes from the point `before`, and has a point behind each of these places.
fn shorter_in_rows(
    ends: &Ends,
    chain: u32,
    units: &[u32],
    sums: &Sums,
    before: Point,
    i: usize,
    until: usize,
) -> Option<usize>
    requires placed { ArePlaced ends.now }
    requires chain { IsChainAt ends.now chain units.now }
    requires filled { IsFilledWith (chain_ends ends.now chain) units.now sums.now }
    requires before { before_at (chain_ends ends.now chain) units.now i ≡ Some before }
    requires near { IsNear before }
    requires order { i < until }
    requires within { until ≤ length units.now }
    requires somewhere { (j : ℕ) → i < j → j < until → next_at (chain_ends ends.now chain) units.now (j + 1) ≢ None }
    ensures found { IfSome result (λ m. (i + m ≤ until) × (chain_length_of ends.now chain (reversed_run units.now i m) < chain_length_of ends.now chain units.now)) }
    ensures none { IfNone result (IsSettledBetween ends.now chain units.now i (i + 1) until) }
{
    let aim = Aim {
        before,
        exit: exit_of(ends, units[i]),
        limit: turn_limit(ends, chain, units, sums, before, i),
    };
    let place = first_place(ends, chain, units, sums, &aim, i + 1, until)?;
    Some(place + 1 - i)
}

/// The length of a run from place i on, among the first `limit` places, whose reversal makes the chain shorter.
pub(crate) fn shorter_at(
    ends: &Ends,
    chain: u32,
    units: &[u32],
    sums: &Sums,
    limit: usize,
    i: usize,
) -> Option<usize>
    requires placed { ArePlaced ends.now }
    requires chain { IsChainAt ends.now chain units.now }
    requires filled { IsFilledWith (chain_ends ends.now chain) units.now sums.now }
    requires below { i < limit }
    requires within { limit ≤ length units.now }
    ensures found { IfSome result (λ m. (i + m ≤ limit) × (chain_length_of ends.now chain (reversed_run units.now i m) < chain_length_of ends.now chain units.now)) }
    ensures none { IfNone result (IsSettledAt ends.now chain units.now limit i) }
{
    let Some(before) = point_before(ends, chain, units, i) else {
        return shorter_from(ends, chain, units, sums, limit, i, i + 1);
    };
    let until = lane_end(ends, chain, units, limit).max(i + 1);
    if let Some(m) = shorter_in_rows(ends, chain, units, sums, before, i, until) {
        return Some(m);
    }
    shorter_from(ends, chain, units, sums, limit, i, until)
}
