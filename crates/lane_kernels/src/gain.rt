//! The search for a step that shortens, four places at a time.
ghost use Rattle.std.specs.Prelude.{◌≡◌, ℕ, ℤ, ◌+◌, ◌<◌, ◌≤◌, ◌<ℤ◌, ◌≤ℤ◌, length, IfSome, IfNone};
ghost use Rattle.lane_kernels.specs.Kernels.{AreNear, AreRows, sum_at};

use crate::plain::{Aim, is_gain};
use std::simd::prelude::*;

/// The least k with `|px - ex[k]| + |py - ey[k]| + |qx - nx[k]| + |qy - ny[k]| + c[k] < limit`, or None where there is
/// none. Lengths are in half database units.
pub fn first_gain(
    px: i64,
    py: i64,
    qx: i64,
    qy: i64,
    ex: &[i64],
    ey: &[i64],
    nx: &[i64],
    ny: &[i64],
    c: &[i64],
    limit: i64,
) -> Option<usize>
    requires near { AreNear px py qx qy }
    requires rows { AreRows ex.now ey.now nx.now ny.now c.now }
    ensures within { IfSome result (λ k. k < length ex.now) }
    ensures found { IfSome result (λ k. sum_at px py qx qy ex.now ey.now nx.now ny.now c.now k <ℤ limit) }
    ensures least { IfSome result (λ k. (j : ℕ) → j < k → limit ≤ℤ sum_at px py qx qy ex.now ey.now nx.now ny.now c.now j) }
    ensures none { IfNone result ((j : ℕ) → j < length ex.now → limit ≤ℤ sum_at px py qx qy ex.now ey.now nx.now ny.now c.now j) }
{
    let aim = Aim {
        px,
        py,
        qx,
        qy,
        limit,
    };
    let mut at: usize = 0;
    while 4 <= ex.len() - at {
        let before = places_before(&aim, ex, ey, nx, ny, c, at) as usize;
        if before < 4 {
            return Some(at + before);
        }
        at += 4;
    }
    while at < ex.len() {
        if is_gain(&aim, ex, ey, nx, ny, c, at) {
            return Some(at);
        }
        at += 1;
    }
    None
}

/// How many of the four places from `at` on come before the first whose sum is less than the limit.
#[inline(always)]
fn places_before(
    aim: &Aim,
    ex: &[i64],
    ey: &[i64],
    nx: &[i64],
    ny: &[i64],
    c: &[i64],
    at: usize,
) -> u32
    requires near { AreNear aim.now.px aim.now.py aim.now.qx aim.now.qy }
    requires rows { AreRows ex.now ey.now nx.now ny.now c.now }
    requires room { at + 4 ≤ length ex.now }
    ensures high { result ≤ 4 }
    ensures before { (j : ℕ) → at ≤ j → j < at + result → aim.now.limit ≤ℤ sum_at aim.now.px aim.now.py aim.now.qx aim.now.qy ex.now ey.now nx.now ny.now c.now j }
    ensures stops { result < 4 → sum_at aim.now.px aim.now.py aim.now.qx aim.now.qy ex.now ey.now nx.now ny.now c.now (at + result) <ℤ aim.now.limit }
{
    let px = i64x4::splat(aim.px)
        .strict_sub(i64x4::from_slice(&ex[at..]))
        .strict_abs();
    let py = i64x4::splat(aim.py)
        .strict_sub(i64x4::from_slice(&ey[at..]))
        .strict_abs();
    let qx = i64x4::splat(aim.qx)
        .strict_sub(i64x4::from_slice(&nx[at..]))
        .strict_abs();
    let qy = i64x4::splat(aim.qy)
        .strict_sub(i64x4::from_slice(&ny[at..]))
        .strict_abs();
    let links = px.strict_add(py).strict_add(qx.strict_add(qy));
    let sums = links.strict_add(i64x4::from_slice(&c[at..]));
    let marks = sums.simd_lt(i64x4::splat(aim.limit)).to_bitmask();
    if marks == 0 {
        4
    } else {
        marks.trailing_zeros()
    }
}
