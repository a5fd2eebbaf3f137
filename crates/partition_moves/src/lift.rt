//! A unit that is taken out of its place, and the places of a chain where it makes the wire shorter.
//!
//! The places of a chain go by blocks: where the bounds of a block leave no gain, none of its places is tested.
ghost use Rattle.std.specs.Prelude.{◌≡◌, ℕ, ◌+◌, ◌*◌, ◌<◌, ◌≤◌, ◌↔◌, List, length, slice_get, Some, IfSome, IfNone, IsTrue};
ghost use Rattle.wire_cost.specs.Lengths.{ArePlaced, ChainEnds, IsChainAt, chain_ends};
ghost use Rattle.partition_moves.specs.Covers.{AreBlocks, Covers, IsNearBlock};
ghost use Rattle.partition_moves.specs.Links.{IsCloserAt, IsLift, IsShorterAt, IsSmallLift};

use crate::{Block, PLACES, least_links};
use base_types::Point;
use wire_cost::{Ends, entry_of, exit_of, point_after, point_before, wire};

/// A unit that is taken out of a chain, with lengths in half database units.
#[derive(Clone, Copy)]
pub(crate) struct Lift {
    /// Where it is entered.
    pub entry: Point,
    /// Where it is left.
    pub exit: Point,
    /// Its two links.
    pub opened: u64,
    /// The link over its place.
    pub closed: u64,
}

/// The unit at a place of a chain, taken out.
pub(crate) fn lift_of(ends: &Ends, chain: u32, units: &[u32], i: usize) -> Lift
    requires placed { ArePlaced ends.now }
    requires chain { IsChainAt ends.now chain units.now }
    requires within { i < length units.now }
    ensures value { IsLift (chain_ends ends.now chain) units.now i result }
    ensures small { IsSmallLift result }
{
    let entry = entry_of(ends, units[i]);
    let exit = exit_of(ends, units[i]);
    let before = point_before(ends, chain, units, i);
    let after = point_after(ends, chain, units, i + 1);
    Lift {
        entry,
        exit,
        opened: wire(before, Some(entry)) + wire(Some(exit), after),
        closed: wire(before, after),
    }
}

/// A unit without its links: what the test of the two links at another place reads of it.
pub(crate) fn unplaced(ends: &Ends, unit: u32) -> Lift
    requires placed { ArePlaced ends.now }
    requires entry { unit < length ends.now.entry }
    requires exit { unit < length ends.now.exit }
    ensures entry { slice_get ends.now.entry unit ≡ Some result.entry }
    ensures exit { slice_get ends.now.exit unit ≡ Some result.exit }
    ensures small { IsSmallLift result }
{
    Lift {
        entry: entry_of(ends, unit),
        exit: exit_of(ends, unit),
        opened: 0,
        closed: 0,
    }
}

/// Whether the wire is shorter with the unit at a place of a chain.
fn is_shorter_at(ends: &Ends, chain: u32, units: &[u32], lift: &Lift, k: usize) -> bool
    requires placed { ArePlaced ends.now }
    requires chain { IsChainAt ends.now chain units.now }
    requires lift { IsSmallLift lift.now }
    requires within { k ≤ length units.now }
    ensures value { IsTrue result ↔ IsShorterAt (chain_ends ends.now chain) units.now lift.now k }
{
    let left = point_before(ends, chain, units, k);
    let right = point_after(ends, chain, units, k);
    let then = wire(left, Some(lift.entry)) + wire(Some(lift.exit), right) + lift.closed;
    then < wire(left, right) + lift.opened
}

/// Whether the wire is shorter at no place of a block, by its bounds.
fn is_far(block: &Block, lift: &Lift) -> bool
    requires block { IsNearBlock block.now }
    requires lift { IsSmallLift lift.now }
    ensures far { IsTrue result → (w : ChainEnds) (us : List ℕ) (k : ℕ) → Covers w us block.now k → ¬ IsShorterAt w us lift.now k }
{
    block.link + lift.opened <= least_links(block, lift.entry, lift.exit) + lift.closed
}

/// The first place of a chain, from one on, where the wire is shorter with the unit there.
pub(crate) fn shorter_place(
    ends: &Ends,
    chain: u32,
    units: &[u32],
    blocks: &[Block],
    lift: &Lift,
    from: usize,
) -> Option<usize>
    requires placed { ArePlaced ends.now }
    requires chain { IsChainAt ends.now chain units.now }
    requires room { length units.now < 32 * length blocks.now }
    requires blocks { AreBlocks (chain_ends ends.now chain) units.now blocks.now }
    requires lift { IsSmallLift lift.now }
    ensures within { IfSome result (λ k. (from ≤ k) × (k ≤ length units.now)) }
    ensures least { IfSome result (λ k. (j : ℕ) → from ≤ j → j < k → ¬ IsShorterAt (chain_ends ends.now chain) units.now lift.now j) }
    ensures found { IfSome result (λ k. IsShorterAt (chain_ends ends.now chain) units.now lift.now k) }
    ensures none { IfNone result ((j : ℕ) → from ≤ j → j ≤ length units.now → ¬ IsShorterAt (chain_ends ends.now chain) units.now lift.now j) }
{
    let mut k = from;
    while k <= units.len() {
        if k % PLACES == 0 && is_far(&blocks[k / PLACES], lift) {
            k += PLACES;
        } else if is_shorter_at(ends, chain, units, lift, k) {
            return Some(k);
        } else {
            k += 1;
        }
    }
    None
}

/// Whether the two links at a place of a chain are shorter with the unit there.
fn is_closer_at(ends: &Ends, chain: u32, units: &[u32], lift: &Lift, k: usize) -> bool
    requires placed { ArePlaced ends.now }
    requires chain { IsChainAt ends.now chain units.now }
    requires lift { IsSmallLift lift.now }
    requires within { k < length units.now }
    ensures value { IsTrue result ↔ IsCloserAt (chain_ends ends.now chain) units.now lift.now k }
{
    let left = point_before(ends, chain, units, k);
    let entry = point_after(ends, chain, units, k);
    let exit = point_before(ends, chain, units, k + 1);
    let right = point_after(ends, chain, units, k + 1);
    wire(left, Some(lift.entry)) + wire(Some(lift.exit), right)
        < wire(left, entry) + wire(exit, right)
}

/// Whether the two links are shorter at no place of a block, by its bounds.
fn is_no_closer(block: &Block, lift: &Lift) -> bool
    requires block { IsNearBlock block.now }
    requires lift { IsSmallLift lift.now }
    ensures far { IsTrue result → (w : ChainEnds) (us : List ℕ) (k : ℕ) → k < length us → Covers w us block.now k → ¬ IsCloserAt w us lift.now k }
{
    block.pair <= least_links(block, lift.entry, lift.exit)
}

/// The first place of a chain, from one on, whose two links are shorter with the unit there.
pub(crate) fn closer_place(
    ends: &Ends,
    chain: u32,
    units: &[u32],
    blocks: &[Block],
    lift: &Lift,
    from: usize,
) -> Option<usize>
    requires placed { ArePlaced ends.now }
    requires chain { IsChainAt ends.now chain units.now }
    requires room { length units.now < 32 * length blocks.now }
    requires blocks { AreBlocks (chain_ends ends.now chain) units.now blocks.now }
    requires lift { IsSmallLift lift.now }
    ensures within { IfSome result (λ k. (from ≤ k) × (k < length units.now)) }
    ensures least { IfSome result (λ k. (j : ℕ) → from ≤ j → j < k → ¬ IsCloserAt (chain_ends ends.now chain) units.now lift.now j) }
    ensures none { IfNone result ((j : ℕ) → from ≤ j → j < length units.now → ¬ IsCloserAt (chain_ends ends.now chain) units.now lift.now j) }
{
    let mut k = from;
    while k < units.len() {
        if k % PLACES == 0 && is_no_closer(&blocks[k / PLACES], lift) {
            k += PLACES;
        } else if is_closer_at(ends, chain, units, lift, k) {
            return Some(k);
        } else {
            k += 1;
        }
    }
    None
}
