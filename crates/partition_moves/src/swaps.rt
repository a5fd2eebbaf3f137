//! Exchanges of two units of two chains.
//!
//! An exchange that makes the plan shorter makes the two links of one of both places shorter; so each two units are tried
//! from either side, and at a place whose links get no shorter nothing is tested.
ghost use Rattle.std.specs.Prelude.{◌≡◌, ◌≢◌, ℕ, ◌+◌, ◌*◌, ◌^◌, ◌<◌, ◌≤◌, ◌↔◌, cond, length, slice_set, IfSome, IfNone, IsTrue};
ghost use Rattle.chain_rules.specs.Legality.{IsIn, IsLegal, chain_at, swapped_plan, with_chain};
ghost use Rattle.wire_cost.specs.Lengths.{chain_ends, plan_length_of};
ghost use Rattle.partition_moves.specs.Covers.{AreBlocks};
ghost use Rattle.order_search.specs.Searches.{AreSearchable};
ghost use Rattle.order_search.specs.Trials.{IsGain, at};
ghost use Rattle.partition_moves.specs.Links.{NoCloserSwapAt};
ghost use Rattle.partition_moves.specs.Quiet.{HasNoSwap, NoCloserSwap};
ghost use Rattle.partition_moves.specs.Roomy.{IsKept};
ghost use Rattle.partition_moves.specs.Straight.{AreNarrow};
ghost use Rattle.partition_moves.specs.Together.{AreTogetherBy};

use crate::lift::{closer_place, unplaced};
use crate::partitions::{Partitions, are_together};
use crate::straight::{is_straight, widest_unit};
use crate::work::Work;
use crate::{Block, fill_blocks};
use chain_rules::{Position, Rules};
use wire_cost::{Ends, entry_of, exit_of, point_after, point_before, wire};

/// Whether an exchange that is told to be shorter or not is also legal.
fn is_swap(rules: &Rules, plan: &Work, shorter: bool, one: Position, other: Position) -> bool
    requires legal { IsLegal rules.now plan.now.plan }
    requires kept { IsKept rules.now plan.now }
    requires one { IsIn plan.now.plan one }
    requires other { IsIn plan.now.plan other }
    requires apart { one.chain ≢ other.chain }
    ensures value { IsTrue result ↔ (IsTrue shorter × IsLegal rules.now (swapped_plan plan.now.plan one other)) }
{
    shorter && plan.can_swap(rules, one, other)
}

/// Whether the exchange of the units at place i of chain c and at place j of chain d makes the plan shorter and leaves it
/// legal.
fn is_gain(rules: &Rules, ends: &Ends, plan: &Work, c: usize, i: usize, d: usize, j: usize) -> bool
    requires searchable { AreSearchable rules.now ends.now }
    requires legal { IsLegal rules.now plan.now.plan }
    requires chain { c < length plan.now.plan.chains }
    requires place { i < length (chain_at plan.now.plan c) }
    requires other { d < length plan.now.plan.chains }
    requires there { j < length (chain_at plan.now.plan d) }
    requires apart { c ≢ d }
    requires kept { IsKept rules.now plan.now }
    ensures value { IsTrue result ↔ IsGain rules.now ends.now plan.now.plan (swapped_plan plan.now.plan (at c i) (at d j)) }
{
    let us = plan.chain(c);
    let ws = plan.chain(d);
    let entry = Some(entry_of(ends, us[i]));
    let exit = Some(exit_of(ends, us[i]));
    let before = point_before(ends, c as u32, us, i);
    let after = point_after(ends, c as u32, us, i + 1);
    let here = wire(before, entry) + wire(exit, after);
    let one = Position {
        chain: c as u32,
        place: i as u32,
    };
    let its_entry = Some(entry_of(ends, ws[j]));
    let its_exit = Some(exit_of(ends, ws[j]));
    let left = point_before(ends, d as u32, ws, j);
    let right = point_after(ends, d as u32, ws, j + 1);
    let now = here + (wire(left, its_entry) + wire(its_exit, right));
    let then = wire(before, its_entry)
        + wire(its_exit, after)
        + (wire(left, entry) + wire(exit, right));
    let other = Position {
        chain: d as u32,
        place: j as u32,
    };
    is_swap(rules, plan, then < now, one, other)
}

/// The first place of chain d whose unit, exchanged with the one at place i of chain c, makes the links there and the plan
/// shorter and leaves it legal.
fn partner_for(
    rules: &Rules,
    ends: &Ends,
    plan: &Work,
    blocks: &[Block],
    c: usize,
    i: usize,
    d: usize,
) -> Option<usize>
    requires searchable { AreSearchable rules.now ends.now }
    requires legal { IsLegal rules.now plan.now.plan }
    requires chain { c < length plan.now.plan.chains }
    requires place { i < length (chain_at plan.now.plan c) }
    requires other { d < length plan.now.plan.chains }
    requires apart { c ≢ d }
    requires kept { IsKept rules.now plan.now }
    requires room { length rules.now.units < 32 * length blocks.now }
    requires blocks { AreBlocks (chain_ends ends.now d) (chain_at plan.now.plan d) blocks.now }
    ensures found { IfSome result (λ j. (j < length (chain_at plan.now.plan d)) × IsGain rules.now ends.now plan.now.plan (swapped_plan plan.now.plan (at c i) (at d j))) }
    ensures none { IfNone result ((k : ℕ) → k < length (chain_at plan.now.plan d) → NoCloserSwapAt rules.now ends.now plan.now.plan c i d k) }
{
    let others = plan.chain(d);
    let lift = unplaced(ends, plan.chain(c)[i]);
    let mut from = 0;
    'places: while let Some(k) = closer_place(ends, d as u32, others, blocks, &lift, from) {
        if is_gain(rules, ends, plan, c, i, d, k) {
            return Some(k);
        }
        from = k + 1;
    }
    None
}

/// Exchanges two units of two chains and counts the bits of both anew.
fn swap_counted(rules: &Rules, plan: &mut Work, c: usize, i: usize, d: usize, j: usize)
    requires legal { IsLegal rules.now plan.old.plan }
    requires kept { IsKept rules.now plan.old }
    requires chain { c < length plan.old.plan.chains }
    requires place { i < length (chain_at plan.old.plan c) }
    requires other { d < length plan.old.plan.chains }
    requires there { j < length (chain_at plan.old.plan d) }
    requires apart { c ≢ d }
    requires after { IsLegal rules.now (swapped_plan plan.old.plan (at c i) (at d j)) }
    ensures value { plan.new.plan ≡ swapped_plan plan.old.plan (at c i) (at d j) }
    ensures kept { IsKept rules.now plan.new }
{
    swap_units(plan, c, i, d, j);
    plan.recount(rules, c);
    plan.recount(rules, d);
}

/// Exchanges two units of two chains.
fn swap_units(plan: &mut Work, c: usize, i: usize, d: usize, j: usize)
    requires chain { c < length plan.old.plan.chains }
    requires place { i < length (chain_at plan.old.plan c) }
    requires other { d < length plan.old.plan.chains }
    requires there { j < length (chain_at plan.old.plan d) }
    requires apart { c ≢ d }
    ensures value { plan.new.plan ≡ swapped_plan plan.old.plan (at c i) (at d j) }
    ensures rooms { plan.new.rooms ≡ plan.old.rooms }
    ensures bits { plan.new.bits ≡ plan.old.bits }
    ensures least { plan.new.least ≡ plan.old.least }
{
    let one = plan.chain(c)[i];
    let two = plan.chain(d)[j];
    plan.replace(c, i, two);
    plan.replace(d, j, one);
}

/// Exchanges two units, as the plan gets shorter by, and fills in the blocks of the chain of the latter.
fn take_swap(
    rules: &Rules,
    ends: &Ends,
    plan: &mut Work,
    blocks: &mut [Block],
    c: usize,
    i: usize,
    d: usize,
    j: usize,
)
    requires searchable { AreSearchable rules.now ends.now }
    requires legal { IsLegal rules.now plan.old.plan }
    requires kept { IsKept rules.now plan.old }
    requires chain { c < length plan.old.plan.chains }
    requires place { i < length (chain_at plan.old.plan c) }
    requires other { d < length plan.old.plan.chains }
    requires there { j < length (chain_at plan.old.plan d) }
    requires apart { c ≢ d }
    requires gain { IsGain rules.now ends.now plan.old.plan (swapped_plan plan.old.plan (at c i) (at d j)) }
    requires room { length rules.now.units < 32 * length blocks.old }
    ensures legal { IsLegal rules.now plan.new.plan }
    ensures kept { IsKept rules.now plan.new }
    ensures shorter { plan_length_of ends.now plan.new.plan < plan_length_of ends.now plan.old.plan }
    ensures blocks { AreBlocks (chain_ends ends.now d) (chain_at plan.new.plan d) blocks.new }
    ensures room { length blocks.new ≡ length blocks.old }
{
    swap_counted(rules, plan, c, i, d, j);
    fill_blocks(blocks, ends, d as u32, plan.chain(d));
}

/// Exchanges each unit of chain c once with one of chain d, where such an exchange makes the plan shorter, and tells whether
/// one did. The blocks are those of chain d, before and afterwards.
fn swaps_between(
    rules: &Rules,
    ends: &Ends,
    plan: &mut Work,
    blocks: &mut [Block],
    c: usize,
    d: usize,
) -> bool
    requires searchable { AreSearchable rules.now ends.now }
    requires legal { IsLegal rules.now plan.old.plan }
    requires kept { IsKept rules.now plan.old }
    requires chain { c < length plan.old.plan.chains }
    requires other { d < length plan.old.plan.chains }
    requires room { length rules.now.units < 32 * length blocks.old }
    requires blocks { AreBlocks (chain_ends ends.now d) (chain_at plan.old.plan d) blocks.old }
    ensures legal { IsLegal rules.now plan.new.plan }
    ensures kept { IsKept rules.now plan.new }
    ensures shorter { plan_length_of ends.now plan.new.plan + cond result 1 0 ≤ plan_length_of ends.now plan.old.plan }
    ensures room { length blocks.new ≡ length blocks.old }
    ensures blocks { AreBlocks (chain_ends ends.now d) (chain_at plan.new.plan d) blocks.new }
    ensures quiet { ¬ IsTrue result → (plan.new.plan ≡ plan.old.plan) × NoCloserSwap rules.now ends.now plan.old.plan c d }
{
    if c == d || !are_together(rules, c, d) {
        return false;
    }
    let mut again = false;
    for i in 0..plan.chain(c).len() {
        if i < plan.chain(c).len() {
            if let Some(j) = partner_for(rules, ends, plan, blocks, c, i, d) {
                take_swap(rules, ends, plan, blocks, c, i, d, j);
                again = true;
            }
        }
    }
    again
}

/// Exchanges each unit once with one of chain d, where such an exchange makes the plan shorter, and tells
/// whether one did.
fn swaps_with_all(
    rules: &Rules,
    ends: &Ends,
    parts: &Partitions,
    plan: &mut Work,
    blocks: &mut [Block],
    d: usize,
) -> bool
    requires searchable { AreSearchable rules.now ends.now }
    requires parts { AreTogetherBy rules.now parts.now }
    requires legal { IsLegal rules.now plan.old.plan }
    requires kept { IsKept rules.now plan.old }
    requires chain { d < length plan.old.plan.chains }
    requires room { length rules.now.units < 32 * length blocks.old }
    ensures legal { IsLegal rules.now plan.new.plan }
    ensures kept { IsKept rules.now plan.new }
    ensures shorter { plan_length_of ends.now plan.new.plan + cond result 1 0 ≤ plan_length_of ends.now plan.old.plan }
    ensures room { length blocks.new ≡ length blocks.old }
    ensures quiet { ¬ IsTrue result → (plan.new.plan ≡ plan.old.plan) × ((c : ℕ) → c < length plan.old.plan.chains → NoCloserSwap rules.now ends.now plan.old.plan c d) }
{
    fill_blocks(blocks, ends, d as u32, plan.chain(d));
    let mut again = false;
    let mut c = parts.first(rules, d);
    'chains: while c < plan.len() {
        if swaps_between(rules, ends, plan, blocks, c, d) {
            again = true;
        }
        c = parts.after(rules, c, d);
    }
    again
}

/// As `swaps_with_all`, where no unit is wider than so much. A chain whose links no unit makes shorter is passed over.
fn swaps_into(
    rules: &Rules,
    ends: &Ends,
    parts: &Partitions,
    plan: &mut Work,
    blocks: &mut [Block],
    widest: u64,
    d: usize,
) -> bool
    requires searchable { AreSearchable rules.now ends.now }
    requires parts { AreTogetherBy rules.now parts.now }
    requires legal { IsLegal rules.now plan.old.plan }
    requires kept { IsKept rules.now plan.old }
    requires chain { d < length plan.old.plan.chains }
    requires narrow { AreNarrow rules.now ends.now widest }
    requires small { widest ≤ 2 ^ 43 }
    requires room { length rules.now.units < 32 * length blocks.old }
    ensures legal { IsLegal rules.now plan.new.plan }
    ensures kept { IsKept rules.now plan.new }
    ensures shorter { plan_length_of ends.now plan.new.plan + cond result 1 0 ≤ plan_length_of ends.now plan.old.plan }
    ensures room { length blocks.new ≡ length blocks.old }
    ensures quiet { ¬ IsTrue result → (plan.new.plan ≡ plan.old.plan) × ((c : ℕ) → c < length plan.old.plan.chains → NoCloserSwap rules.now ends.now plan.old.plan c d) }
{
    if is_straight(ends, d as u32, plan.chain(d), widest) {
        return false;
    }
    swaps_with_all(rules, ends, parts, plan, blocks, d)
}

/// Goes once over all units and exchanges each that an exchange makes the plan shorter by; tells whether there was one.
pub(crate) fn swap_pass(
    rules: &Rules,
    ends: &Ends,
    parts: &Partitions,
    plan: &mut Work,
    blocks: &mut [Block],
) -> bool
    requires searchable { AreSearchable rules.now ends.now }
    requires parts { AreTogetherBy rules.now parts.now }
    requires legal { IsLegal rules.now plan.old.plan }
    requires kept { IsKept rules.now plan.old }
    requires room { length rules.now.units < 32 * length blocks.old }
    ensures legal { IsLegal rules.now plan.new.plan }
    ensures kept { IsKept rules.now plan.new }
    ensures shorter { plan_length_of ends.now plan.new.plan + cond result 1 0 ≤ plan_length_of ends.now plan.old.plan }
    ensures room { length blocks.new ≡ length blocks.old }
    ensures quiet { ¬ IsTrue result → (plan.new.plan ≡ plan.old.plan) × HasNoSwap rules.now ends.now plan.old.plan }
{
    let widest = widest_unit(rules, ends);
    let mut again = false;
    for d in 0..plan.len() {
        if swaps_into(rules, ends, parts, plan, blocks, widest, d) {
            again = true;
        }
    }
    again
}
