//! Looks over the rows of a chain for the first run that is worth reversing: block by block, and four places at a time.
ghost use Rattle.std.specs.Prelude.{◌≡◌, ◌≢◌, ℕ, ◌+◌, ◌*◌, ◌^◌, ◌<◌, ◌≤◌, ◌≤ℤ◌, ◌<ℤ◌, length, None, IfSome, IfNone, unsigned_abs};
ghost use Rattle.wire_cost.specs.Lengths.{ArePlaced, IsChainAt, IsNear, chain_ends};
ghost use Rattle.wire_cost.specs.Rows.{block_count, next_at};
ghost use Rattle.order_search.specs.Sums.{IsFilledWith};
ghost use Rattle.order_search.specs.Aims.{IsPassed, IsNoGainTo, IsSmallAim, turned_sum};

use base_types::Point;
use lane_kernels::first_gain;
use wire_cost::{BLOCK, Ends, Sums};

/// What the runs from one place are tested by, in half database units.
#[derive(Clone, Copy)]
pub(crate) struct Aim {
    /// Where the chain comes from before the run.
    pub before: Point,
    /// Where the run's first unit is left.
    pub exit: Point,
    /// What the sum of a run has to stay below for a gain.
    pub limit: i64,
}

/// The first of some places whose run is a gain, four at a time.
fn first_among(
    ends: &Ends,
    chain: u32,
    units: &[u32],
    sums: &Sums,
    aim: &Aim,
    from: usize,
    until: usize,
) -> Option<usize>
    requires placed { ArePlaced ends.now }
    requires chain { IsChainAt ends.now chain units.now }
    requires filled { IsFilledWith (chain_ends ends.now chain) units.now sums.now }
    requires small { IsSmallAim aim.now }
    requires order { from ≤ until }
    requires within { until ≤ length units.now }
    requires somewhere { (j : ℕ) → from ≤ j → j < until → next_at (chain_ends ends.now chain) units.now (j + 1) ≢ None }
    ensures within { IfSome result (λ j. (from ≤ j) × (j < until)) }
    ensures found { IfSome result (λ j. turned_sum (chain_ends ends.now chain) units.now aim.now j <ℤ aim.now.limit) }
    ensures none { IfNone result ((j : ℕ) → from ≤ j → j < until → IsNoGainTo (chain_ends ends.now chain) units.now aim.now j) }
{
    let rows = sums.rows();
    let places = first_gain(
        aim.before.x,
        aim.before.y,
        aim.exit.x,
        aim.exit.y,
        &rows.entry_x[from..until],
        &rows.entry_y[from..until],
        &rows.entry_x[from + 1..until + 1],
        &rows.entry_y[from + 1..until + 1],
        &rows.turned[from..until],
        aim.limit,
    )?;
    Some(from + places)
}

/// The first of some blocks that may hold a place whose run is a gain, by its bound; four blocks at a time.
fn first_block(
    ends: &Ends,
    chain: u32,
    units: &[u32],
    sums: &Sums,
    aim: &Aim,
    from: usize,
    until: usize,
) -> Option<usize>
    requires placed { ArePlaced ends.now }
    requires chain { IsChainAt ends.now chain units.now }
    requires filled { IsFilledWith (chain_ends ends.now chain) units.now sums.now }
    requires small { IsSmallAim aim.now }
    requires order { from ≤ until }
    requires within { until ≤ block_count (length units.now) }
    ensures within { IfSome result (λ b. (from ≤ b) × (b < until)) }
    ensures before { IfSome result (λ b. (d : ℕ) → from ≤ d → d < b → IsPassed (chain_ends ends.now chain) units.now aim.now d) }
    ensures none { IfNone result ((d : ℕ) → from ≤ d → d < until → IsPassed (chain_ends ends.now chain) units.now aim.now d) }
{
    let rows = sums.rows();
    let middle_x = &rows.middle_x[from..until];
    let middle_y = &rows.middle_y[from..until];
    let blocks = first_gain(
        aim.before.x,
        aim.before.y,
        aim.exit.x,
        aim.exit.y,
        middle_x,
        middle_y,
        middle_x,
        middle_y,
        &rows.slack[from..until],
        aim.limit,
    )?;
    Some(from + blocks)
}

/// The first of some places whose run is a gain. A block whose bound leaves none is passed over whole.
pub(crate) fn first_place(
    ends: &Ends,
    chain: u32,
    units: &[u32],
    sums: &Sums,
    aim: &Aim,
    from: usize,
    until: usize,
) -> Option<usize>
    requires placed { ArePlaced ends.now }
    requires chain { IsChainAt ends.now chain units.now }
    requires filled { IsFilledWith (chain_ends ends.now chain) units.now sums.now }
    requires small { IsSmallAim aim.now }
    requires order { from ≤ until }
    requires within { until ≤ length units.now }
    requires somewhere { (j : ℕ) → from ≤ j → j < until → next_at (chain_ends ends.now chain) units.now (j + 1) ≢ None }
    ensures within { IfSome result (λ j. (from ≤ j) × (j < until)) }
    ensures found { IfSome result (λ j. turned_sum (chain_ends ends.now chain) units.now aim.now j <ℤ aim.now.limit) }
    ensures none { IfNone result ((j : ℕ) → from ≤ j → j < until → IsNoGainTo (chain_ends ends.now chain) units.now aim.now j) }
{
    let last = (until + BLOCK - 1) / BLOCK;
    let mut at = from / BLOCK;
    'tries: while let Some(block) = first_block(ends, chain, units, sums, aim, at, last) {
        let low = (BLOCK * block).max(from);
        let high = (BLOCK * block + BLOCK).min(until);
        if let Some(place) = first_among(ends, chain, units, sums, aim, low, high) {
            return Some(place);
        }
        at = block + 1;
    }
    None
}
