//! The last unit of a chain after a step.
ghost use Rattle.std.specs.Prelude.{◌≡◌, ◌<◌, ◌≤◌, ◌↔◌, length, IsTrue, insert, remove, slice_set, slice_index_or};
ghost use Rattle.chain_rules.specs.Legality.{last_of};
ghost use Rattle.chain_rules.specs.Pins.{KeepsPin};

use crate::legal::is_pinned;
use crate::unit::Rules;

/// Whether the last of the units isn't pinned, or is the last afterwards.
pub(crate) fn keeps_pin(rules: &Rules, us: &[u32], last: Option<u32>) -> bool
    ensures value { IsTrue result ↔ KeepsPin rules.now us.now last }
{
    match us.last() {
        Some(unit) => !is_pinned(rules, *unit) || last == Some(*unit),
        None => true,
    }
}

/// The last unit where the one at a place is taken out.
pub(crate) fn last_without(us: &[u32], place: usize) -> Option<u32>
    requires within { place < length us.now }
    ensures value { result ≡ last_of (remove us.now place) }
{
    let left = us.len() - 1;
    if left == 0 {
        None
    } else if place < left {
        Some(us[left])
    } else {
        Some(us[left - 1])
    }
}

/// The last unit where one is put in at a place.
pub(crate) fn last_with(us: &[u32], place: usize, unit: u32) -> Option<u32>
    requires within { place ≤ length us.now }
    ensures value { result ≡ last_of (insert us.now place unit) }
{
    if place == us.len() {
        Some(unit)
    } else {
        us.last().copied()
    }
}

/// The last unit where the one at a place is put at another, which counts without it.
pub(crate) fn last_moved(us: &[u32], from: usize, to: usize) -> Option<u32>
    requires from { from < length us.now }
    requires to { to < length us.now }
    ensures value { result ≡ last_of (insert (remove us.now from) to (slice_index_or us.now from 0)) }
{
    if to == us.len() - 1 {
        Some(us[from])
    } else {
        last_without(us, from)
    }
}

/// The last unit where another stands at a place.
pub(crate) fn last_replaced(us: &[u32], place: usize, unit: u32) -> Option<u32>
    requires within { place < length us.now }
    ensures value { result ≡ last_of (slice_set us.now place unit) }
{
    if place == us.len() - 1 {
        Some(unit)
    } else {
        us.last().copied()
    }
}

/// The last unit where those at two places are exchanged.
pub(crate) fn last_swapped(us: &[u32], a: usize, b: usize) -> Option<u32>
    requires a { a < length us.now }
    requires b { b < length us.now }
    ensures value { result ≡ last_of (slice_set (slice_set us.now a (slice_index_or us.now b 0)) b (slice_index_or us.now a 0)) }
{
    if b == us.len() - 1 {
        Some(us[a])
    } else {
        last_replaced(us, a, us[b])
    }
}
