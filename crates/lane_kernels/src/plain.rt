//! The same calls one element at a time, under the same contracts: what the lanes are held against.
ghost use Rattle.std.specs.Prelude.{◌≡◌, ℕ, ℤ, pos, ◌+◌, ◌^◌, ◌<◌, ◌≤◌, ◌<ℤ◌, ◌≤ℤ◌, ◌==◌, length, count_by, unsigned_abs, IfSome, IfNone, IsTrue, ◌↔◌, slice_index, slice_set, true, false};
ghost use Rattle.std.specs.Simd.Lanes.{zip2};
ghost use Rattle.lane_kernels.specs.Kernels.{flipped, flipped_where, is_allowed, AllWithin, AreNear, AreRows, sum_at};

/// How many of the bytes are `b`.
pub fn count_byte(bytes: &[u8], b: u8) -> usize
    ensures value { result ≡ count_by (λ x. x == b) bytes.now }
{
    let mut total = 0;
    for x in bytes {
        if *x == b {
            total += 1;
        }
    }
    total
}

/// Exchanges `0` and `1`, and `L` and `H`, where the mask is not 0; all else stays.
pub fn flip_where(symbols: &mut [u8], mask: &[u8])
    requires lengths { length symbols.old ≡ length mask.now }
    ensures value { symbols.new ≡ zip2 flipped_where symbols.old mask.now }
{
    for at in 0..mask.len() {
        flip_at(symbols, mask, at);
    }
}

/// Exchanges the symbol at one place, if the mask is not 0 there.
pub(crate) fn flip_at(symbols: &mut [u8], mask: &[u8], at: usize)
    requires symbols { at < length symbols.old }
    requires mask { at < length mask.now }
    ensures value { symbols.new ≡ slice_set symbols.old at (flipped_where (slice_index symbols.old at) (slice_index mask.now at)) }
{
    if mask[at] != 0 {
        symbols[at] = flipped(symbols[at]);
    }
}

/// `0` for `1`, `1` for `0`, `L` for `H`, `H` for `L`, and every other symbol for itself.
fn flipped(symbol: u8) -> u8
    ensures value { result ≡ flipped symbol }
{
    match symbol {
        b'0' => b'1',
        b'1' => b'0',
        b'L' => b'H',
        b'H' => b'L',
        other => other,
    }
}

/// The least index of a byte that is not one of `allowed`, or None where each byte is.
pub fn any_byte_outside(bytes: &[u8], allowed: &[u8]) -> Option<usize>
    ensures within { IfSome result (λ k. k < length bytes.now) }
    ensures found { IfSome result (λ k. is_allowed allowed.now (slice_index bytes.now k) ≡ false) }
    ensures least { IfSome result (λ k. (j : ℕ) → j < k → is_allowed allowed.now (slice_index bytes.now j) ≡ true) }
    ensures none { IfNone result ((j : ℕ) → j < length bytes.now → is_allowed allowed.now (slice_index bytes.now j) ≡ true) }
{
    for at in 0..bytes.len() {
        if !allowed.contains(&bytes[at]) {
            return Some(at);
        }
    }
    None
}

/// The points p and q from which a step is measured, and the limit that its sum has to stay below.
#[derive(Clone, Copy)]
pub(crate) struct Aim {
    pub px: i64,
    pub py: i64,
    pub qx: i64,
    pub qy: i64,
    pub limit: i64,
}

/// Whether the sum at place k is less than the limit.
pub(crate) fn is_gain(
    aim: &Aim,
    ex: &[i64],
    ey: &[i64],
    nx: &[i64],
    ny: &[i64],
    c: &[i64],
    k: usize,
) -> bool
    requires near { AreNear aim.now.px aim.now.py aim.now.qx aim.now.qy }
    requires rows { AreRows ex.now ey.now nx.now ny.now c.now }
    requires within { k < length ex.now }
    ensures gain { result ≡ true → sum_at aim.now.px aim.now.py aim.now.qx aim.now.qy ex.now ey.now nx.now ny.now c.now k <ℤ aim.now.limit }
    ensures no_gain { result ≡ false → aim.now.limit ≤ℤ sum_at aim.now.px aim.now.py aim.now.qx aim.now.qy ex.now ey.now nx.now ny.now c.now k }
{
    let p = aim.px.abs_diff(ex[k]) + aim.py.abs_diff(ey[k]);
    let q = aim.qx.abs_diff(nx[k]) + aim.qy.abs_diff(ny[k]);
    (p + q) as i64 + c[k] < aim.limit
}

/// The least k with `|px - ex[k]| + |py - ey[k]| + |qx - nx[k]| + |qy - ny[k]| + c[k] < limit`, or None where there is
/// none.
pub fn first_gain(
    px: i64,
    py: i64,
    qx: i64,
    qy: i64,
    ex: &[i64],
    ey: &[i64],
    nx: &[i64],
    ny: &[i64],
    c: &[i64],
    limit: i64,
) -> Option<usize>
    requires near { AreNear px py qx qy }
    requires rows { AreRows ex.now ey.now nx.now ny.now c.now }
    ensures within { IfSome result (λ k. k < length ex.now) }
    ensures found { IfSome result (λ k. sum_at px py qx qy ex.now ey.now nx.now ny.now c.now k <ℤ limit) }
    ensures least { IfSome result (λ k. (j : ℕ) → j < k → limit ≤ℤ sum_at px py qx qy ex.now ey.now nx.now ny.now c.now j) }
    ensures none { IfNone result ((j : ℕ) → j < length ex.now → limit ≤ℤ sum_at px py qx qy ex.now ey.now nx.now ny.now c.now j) }
{
    let aim = Aim {
        px,
        py,
        qx,
        qy,
        limit,
    };
    for k in 0..ex.len() {
        if is_gain(&aim, ex, ey, nx, ny, c, k) {
            return Some(k);
        }
    }
    None
}

/// Whether five rows are what `first_gain` asks: of one length, the first four of coordinates within 2^41 in size, the
/// last within 2^60.
pub fn are_rows(ex: &[i64], ey: &[i64], nx: &[i64], ny: &[i64], c: &[i64]) -> bool
    ensures value { IsTrue result ↔ AreRows ex.now ey.now nx.now ny.now c.now }
{
    let near = 1 << 41;
    let same = ey.len() == ex.len()
        && nx.len() == ex.len()
        && ny.len() == ex.len()
        && c.len() == ex.len();
    same && are_within(ex, near)
        && are_within(ey, near)
        && are_within(nx, near)
        && are_within(ny, near)
        && are_within(c, 1 << 60)
}

/// Whether each number is at most `most` in size.
fn are_within(xs: &[i64], most: u64) -> bool
    ensures value { IsTrue result ↔ AllWithin most xs.now }
{
    for x in xs {
        if most < x.unsigned_abs() {
            return false;
        }
    }
    true
}
