//! Counts, flips and tests of bytes, 32 at a time.
ghost use Rattle.std.specs.Prelude.{◌≡◌, ℕ, ◌+◌, ◌<◌, ◌≤◌, ◌==◌, length, count_by, slice_range, IfSome, IfNone, slice_index, true, false};
ghost use Rattle.std.specs.List.{prefix_len};
ghost use Rattle.std.specs.Simd.Lanes.{zip2, chunk, put_chunk};
ghost use Rattle.lane_kernels.specs.Kernels.{flipped_where, is_allowed};

use crate::plain::flip_at;
use std::simd::prelude::*;

/// How many of the bytes are `b`.
pub fn count_byte(bytes: &[u8], b: u8) -> usize
    ensures value { result ≡ count_by (λ x. x == b) bytes.now }
{
    let mut total: usize = 0;
    let mut at: usize = 0;
    while 32 <= bytes.len() - at {
        total += count_in(bytes, at, b) as usize;
        at += 32;
    }
    while at < bytes.len() {
        if bytes[at] == b {
            total += 1;
        }
        at += 1;
    }
    total
}

/// Exchanges `0` and `1`, and `L` and `H`, where the mask is not 0; all else stays.
pub fn flip_where(symbols: &mut [u8], mask: &[u8])
    requires lengths { length symbols.old ≡ length mask.now }
    ensures value { symbols.new ≡ zip2 flipped_where symbols.old mask.now }
{
    let mut at: usize = 0;
    while 32 <= mask.len() - at {
        flip_in(symbols, mask, at);
        at += 32;
    }
    while at < mask.len() {
        flip_at(symbols, mask, at);
        at += 1;
    }
}

/// The least index of a byte that is not one of `allowed`, or None where each byte is. Any set is good, the empty one
/// too; the time grows with its size.
pub fn any_byte_outside(bytes: &[u8], allowed: &[u8]) -> Option<usize>
    ensures within { IfSome result (λ k. k < length bytes.now) }
    ensures found { IfSome result (λ k. is_allowed allowed.now (slice_index bytes.now k) ≡ false) }
    ensures least { IfSome result (λ k. (j : ℕ) → j < k → is_allowed allowed.now (slice_index bytes.now j) ≡ true) }
    ensures none { IfNone result ((j : ℕ) → j < length bytes.now → is_allowed allowed.now (slice_index bytes.now j) ≡ true) }
{
    let mut at: usize = 0;
    while 32 <= bytes.len() - at {
        let before = allowed_in(bytes, at, allowed) as usize;
        if before < 32 {
            return Some(at + before);
        }
        at += 32;
    }
    while at < bytes.len() {
        if !allowed.contains(&bytes[at]) {
            return Some(at);
        }
        at += 1;
    }
    None
}

/// How many of the 32 bytes from `at` on are `b`.
#[inline(always)]
fn count_in(bytes: &[u8], at: usize, b: u8) -> u32
    requires { at + 32 ≤ length bytes.now }
    ensures { result ≡ count_by (λ x. x == b) (slice_range bytes.now at (at + 32)) }
{
    let lanes = u8x32::from_slice(&bytes[at..]);
    lanes.simd_eq(u8x32::splat(b)).to_bitmask().count_ones()
}

/// Flips the 32 symbols from `at` on where the mask is not 0.
#[inline(always)]
fn flip_in(symbols: &mut [u8], mask: &[u8], at: usize)
    requires symbols { at + 32 ≤ length symbols.old }
    requires mask { at + 32 ≤ length mask.now }
    ensures { symbols.new ≡ put_chunk at symbols.old (zip2 flipped_where (chunk at 32 symbols.old) (chunk at 32 mask.now)) }
{
    let s = u8x32::from_slice(&symbols[at..]);
    let m = u8x32::from_slice(&mask[at..]);
    let high = s.simd_eq(u8x32::splat(b'H')).select(u8x32::splat(b'L'), s);
    let low = s
        .simd_eq(u8x32::splat(b'L'))
        .select(u8x32::splat(b'H'), high);
    let one = s
        .simd_eq(u8x32::splat(b'1'))
        .select(u8x32::splat(b'0'), low);
    let zero = s
        .simd_eq(u8x32::splat(b'0'))
        .select(u8x32::splat(b'1'), one);
    let out = m.simd_eq(u8x32::splat(0)).select(s, zero);
    out.copy_to_slice(&mut symbols[at..]);
}

/// How many of the 32 bytes from `at` on come before the first that is not allowed.
#[inline(always)]
fn allowed_in(bytes: &[u8], at: usize, allowed: &[u8]) -> u32
    requires { at + 32 ≤ length bytes.now }
    ensures { result ≡ prefix_len (is_allowed allowed.now) (chunk at 32 bytes.now) }
{
    let lanes = u8x32::from_slice(&bytes[at..]);
    let mut seen = u8x32::splat(0);
    for byte in allowed {
        seen = lanes
            .simd_eq(u8x32::splat(*byte))
            .select(u8x32::splat(255), seen);
    }
    let marks = seen.simd_eq(u8x32::splat(0)).to_bitmask();
    if marks == 0 {
        32
    } else {
        marks.trailing_zeros()
    }
}
