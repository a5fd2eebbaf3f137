//! The rows of a chain's blocks, by which all units of a block are passed over at once.
ghost use Rattle.std.specs.Prelude.{◌≡◌, ℕ, ℤ, pos, ◌+◌, ◌*◌, ◌^◌, ◌<◌, ◌≤◌, min, length, slice_index_or, unsigned_abs};
ghost use Rattle.wire_cost.specs.Rows.{block_count, middle_of};
ghost use Rattle.wire_cost.specs.Blocks.{AreSmall, IsLeastIn, slack_in, way_in};

/// How many units a block has.
pub const BLOCK: usize = 32;

/// Writes the coordinates of the middle place of each block.
pub(crate) fn fill_middles(
    middle_x: &mut [i64],
    middle_y: &mut [i64],
    xs: &[i64],
    ys: &[i64],
    units: usize,
)
    requires middle_x { block_count units ≤ length middle_x.old }
    requires middle_y { block_count units ≤ length middle_y.old }
    requires xs { units < length xs.now }
    requires ys { units < length ys.now }
    requires few { units ≤ 65536 }
    ensures x_count { length middle_x.new ≡ length middle_x.old }
    ensures y_count { length middle_y.new ≡ length middle_y.old }
    ensures x { (b : ℕ) → b < block_count units → slice_index_or middle_x.new b (pos 0) ≡ slice_index_or xs.now (middle_of units b) (pos 0) }
    ensures y { (b : ℕ) → b < block_count units → slice_index_or middle_y.new b (pos 0) ≡ slice_index_or ys.now (middle_of units b) (pos 0) }
{
    for b in 0..(units + BLOCK - 1) / BLOCK {
        let middle = (BLOCK * b + BLOCK / 2).min(units);
        middle_x[b] = xs[middle];
        middle_y[b] = ys[middle];
    }
}

/// How far apart two places are.
#[inline(always)]
fn way(xs: &[i64], ys: &[i64], one: usize, other: usize) -> u64
    requires xs { AreSmall (2 ^ 41) xs.now }
    requires ys { AreSmall (2 ^ 41) ys.now }
    requires one_x { one < length xs.now }
    requires one_y { one < length ys.now }
    requires other_x { other < length xs.now }
    requires other_y { other < length ys.now }
    ensures value { result ≡ way_in xs.now ys.now one other }
    ensures small { result ≤ 2 ^ 43 }
{
    xs[one].abs_diff(xs[other]) + ys[one].abs_diff(ys[other])
}

/// The number of a unit in `turned`, less the ways from a place to those before and behind the unit.
#[inline(always)]
fn slack_at(xs: &[i64], ys: &[i64], turned: &[i64], middle: usize, unit: usize) -> i64
    requires xs { AreSmall (2 ^ 41) xs.now }
    requires ys { AreSmall (2 ^ 41) ys.now }
    requires turned { AreSmall (2 ^ 61) turned.now }
    requires middle_x { middle < length xs.now }
    requires middle_y { middle < length ys.now }
    requires x { unit + 1 < length xs.now }
    requires y { unit + 1 < length ys.now }
    requires unit { unit < length turned.now }
    ensures value { result ≡ slack_in xs.now ys.now turned.now middle unit }
    ensures small { unsigned_abs result ≤ 2 ^ 62 }
{
    let ways = way(xs, ys, middle, unit) + way(xs, ys, middle, unit + 1);
    turned[unit] - ways as i64
}

/// The least of these numbers from one unit up to before another.
fn least_slack(
    xs: &[i64],
    ys: &[i64],
    turned: &[i64],
    middle: usize,
    from: usize,
    until: usize,
) -> i64
    requires xs { AreSmall (2 ^ 41) xs.now }
    requires ys { AreSmall (2 ^ 41) ys.now }
    requires turned { AreSmall (2 ^ 61) turned.now }
    requires middle_x { middle < length xs.now }
    requires middle_y { middle < length ys.now }
    requires some { from < until }
    requires x { until < length xs.now }
    requires y { until < length ys.now }
    requires unit { until ≤ length turned.now }
    ensures value { IsLeastIn xs.now ys.now turned.now middle from until result }
    ensures small { unsigned_abs result ≤ 2 ^ 62 }
{
    let mut least = slack_at(xs, ys, turned, middle, from);
    for unit in from + 1..until {
        let other = slack_at(xs, ys, turned, middle, unit);
        if other < least {
            least = other;
        }
    }
    least
}

/// Writes for each block the least of these numbers over its units, seen from its middle place.
pub(crate) fn fill_least(slack: &mut [i64], xs: &[i64], ys: &[i64], turned: &[i64])
    requires xs { AreSmall (2 ^ 41) xs.now }
    requires ys { AreSmall (2 ^ 41) ys.now }
    requires turned { AreSmall (2 ^ 61) turned.now }
    requires few { length turned.now ≤ 65536 }
    requires x { length turned.now < length xs.now }
    requires y { length turned.now < length ys.now }
    requires room { block_count (length turned.now) ≤ length slack.old }
    ensures count { length slack.new ≡ length slack.old }
    ensures each { (b : ℕ) → b < block_count (length turned.now) → IsLeastIn xs.now ys.now turned.now (middle_of (length turned.now) b) (32 * b) (min (32 * b + 32) (length turned.now)) (slice_index_or slack.new b (pos 0)) }
{
    let units = turned.len();
    for b in 0..(units + BLOCK - 1) / BLOCK {
        let from = BLOCK * b;
        let middle = (from + BLOCK / 2).min(units);
        let until = (from + BLOCK).min(units);
        slack[b] = least_slack(xs, ys, turned, middle, from, until);
    }
}
