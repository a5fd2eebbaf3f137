//! The contracts of `lane_kernels`.
ghost use Rattle.lane_kernels.specs.Kernels.{AreNear, AreRows, flipped_where, is_allowed, sum_at};
ghost use Rattle.std.specs.Prelude.{IfNone, IfSome, count_by, false, length, slice_index, true, ℕ, ℤ, ◌<ℤ◌, ◌<◌, ◌==◌, ◌≡◌, ◌≤ℤ◌, ◌≤◌};
ghost use Rattle.std.specs.Simd.Lanes.{zip2};

/// As `lane_kernels::first_gain`.
pub fn first_gain(
    px: i64,
    py: i64,
    qx: i64,
    qy: i64,
    ex: &[i64],
    ey: &[i64],
    nx: &[i64],
    ny: &[i64],
    c: &[i64],
    limit: i64,
) -> Option<usize>
    requires near { AreNear px py qx qy }
    requires rows { AreRows ex.now ey.now nx.now ny.now c.now }
    ensures within { IfSome result (λ k. k < length ex.now) }
    ensures found { IfSome result (λ k. sum_at px py qx qy ex.now ey.now nx.now ny.now c.now k <ℤ limit) }
    ensures least { IfSome result (λ k. (j : ℕ) → j < k → limit ≤ℤ sum_at px py qx qy ex.now ey.now nx.now ny.now c.now j) }
    ensures none { IfNone result ((j : ℕ) → j < length ex.now → limit ≤ℤ sum_at px py qx qy ex.now ey.now nx.now ny.now c.now j) }
{
    lane_kernels::first_gain(px, py, qx, qy, ex, ey, nx, ny, c, limit)
}

/// As `lane_kernels::flip_where`.
pub fn flip_where(symbols: &mut [u8], mask: &[u8])
    requires lengths { length symbols.old ≡ length mask.now }
    ensures value { symbols.new ≡ zip2 flipped_where symbols.old mask.now }
{
    lane_kernels::flip_where(symbols, mask)
}

/// As `lane_kernels::count_byte`.
pub fn count_byte(bytes: &[u8], b: u8) -> usize
    ensures value { result ≡ count_by (λ x. x == b) bytes.now }
{
    lane_kernels::count_byte(bytes, b)
}

/// As `lane_kernels::any_byte_outside`.
pub fn any_byte_outside(bytes: &[u8], allowed: &[u8]) -> Option<usize>
    ensures within { IfSome result (λ k. k < length bytes.now) }
    ensures found { IfSome result (λ k. is_allowed allowed.now (slice_index bytes.now k) ≡ false) }
    ensures least { IfSome result (λ k. (j : ℕ) → j < k → is_allowed allowed.now (slice_index bytes.now j) ≡ true) }
    ensures none { IfNone result ((j : ℕ) → j < length bytes.now → is_allowed allowed.now (slice_index bytes.now j) ≡ true) }
{
    lane_kernels::any_byte_outside(bytes, allowed)
}
