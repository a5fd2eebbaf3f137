//! Moves of one unit to another place, in its own chain or in another one.
//!
//! The chains are gone over as those that units are put into, so that the blocks of one chain at a time are enough.
ghost use Rattle.std.specs.Prelude.{◌≡◌, ℕ, ◌+◌, ◌*◌, ◌<◌, ◌≤◌, ◌↔◌, cond, length, IfOk, OnOk, IfSome, IfNone, IsTrue};
ghost use Rattle.chain_rules.specs.Legality.{IsLegal, IsOpen, chain_at, moved_plan, rule_at, taken_out};
ghost use Rattle.wire_cost.specs.declared.ends.Ends.{Ends as ChainPlaces};
ghost use Rattle.wire_cost.specs.Lengths.{chain_ends, plan_length_of};
ghost use Rattle.partition_moves.specs.Covers.{AreBlocks};
ghost use Rattle.order_search.specs.Searches.{AreSearchable};
ghost use Rattle.order_search.specs.Trials.{IsGain, NoMoveTo, at};
ghost use Rattle.partition_moves.specs.Links.{IsApart, Lands};
ghost use Rattle.partition_moves.specs.Quiet.{HasNoMove, NoMoveBetween};
ghost use Rattle.partition_moves.specs.Roomy.{IsKept};
ghost use Rattle.partition_moves.specs.Together.{AreTogetherBy};

use crate::lift::{Lift, lift_of, shorter_place};
use crate::partitions::{Partitions, are_together};
use crate::work::Work;
use crate::{Block, fill_blocks};
use chain_rules::{Position, Rules};
use wire_cost::Ends;

/// Whether a unit of chain c may be put into chain d, by their partitions and the kept numbers.
fn are_open(rules: &Rules, plan: &Work, c: usize, d: usize) -> bool
    requires legal { IsLegal rules.now plan.now.plan }
    requires kept { IsKept rules.now plan.now }
    requires chain { c < length plan.now.plan.chains }
    requires other { d < length plan.now.plan.chains }
    ensures none { ¬ IsTrue result → (ends : ChainPlaces) → NoMoveBetween rules.now ends plan.now.plan c d }
{
    if c == d {
        return true;
    }
    if !are_together(rules, c, d) {
        return false;
    }
    !plan.are_shut(rules, c, d)
}

/// Whether the unit at place i of chain c may be put into chain d, by the kept numbers.
fn may_go(rules: &Rules, plan: &Work, c: usize, i: usize, d: usize) -> bool
    requires legal { IsLegal rules.now plan.now.plan }
    requires kept { IsKept rules.now plan.now }
    requires chain { c < length plan.now.plan.chains }
    requires place { i < length (chain_at plan.now.plan c) }
    requires other { d < length plan.now.plan.chains }
    ensures none { ¬ IsTrue result → (ends : ChainPlaces) → NoMoveTo rules.now ends plan.now.plan c i d }
{
    if c == d {
        return true;
    }
    plan.may_move(rules, c, i, d)
}

/// The place in chain d, without the unit at place i of chain c, that its place k is.
fn landing(c: usize, i: usize, d: usize, k: usize) -> usize
    ensures lands { Lands c i d k result }
{
    if c == d && i < k { k - 1 } else { k }
}

/// The place in chain d, without the unit at place i of chain c, where that unit stands if it is put at the place k of
/// chain d; none if it may not stand there or stays where it is.
fn open_place(rules: &Rules, plan: &Work, c: usize, i: usize, d: usize, k: usize) -> Option<usize>
    requires legal { IsLegal rules.now plan.now.plan }
    requires chain { c < length plan.now.plan.chains }
    requires place { i < length (chain_at plan.now.plan c) }
    requires few { length (chain_at plan.now.plan c) ≤ 65536 }
    requires few_chains { length plan.now.plan.chains ≤ 65536 }
    requires other { d < length plan.now.plan.chains }
    requires others_few { length (chain_at plan.now.plan d) ≤ 65536 }
    requires within { k ≤ length (chain_at plan.now.plan d) }
    ensures lands { IfSome result (λ j. Lands c i d k j) }
    ensures open { IfSome result (λ j. j ≤ length (chain_at (taken_out plan.now.plan (at c i)) d)) }
    ensures apart { IfSome result (λ j. IsApart c i d k) }
    ensures legal { IfSome result (λ j. IsLegal rules.now (moved_plan plan.now.plan (at c i) (at d j))) }
    ensures none { IfNone result ((j : ℕ) → Lands c i d k j → IsApart c i d k → ¬ IsLegal rules.now (moved_plan plan.now.plan (at c i) (at d j))) }
{
    if c == d && (k == i || k == i + 1) {
        return None;
    }
    let j = landing(c, i, d, k);
    let from = Position {
        chain: c as u32,
        place: i as u32,
    };
    let to = Position {
        chain: d as u32,
        place: j as u32,
    };
    if plan.can_move(rules, from, to) {
        Some(j)
    } else {
        None
    }
}

/// The first place of chain d where the unit at place i of chain c makes the plan shorter and leaves it legal.
fn place_for(
    rules: &Rules,
    ends: &Ends,
    plan: &Work,
    blocks: &[Block],
    c: usize,
    i: usize,
    d: usize,
) -> Option<usize>
    requires searchable { AreSearchable rules.now ends.now }
    requires legal { IsLegal rules.now plan.now.plan }
    requires chain { c < length plan.now.plan.chains }
    requires place { i < length (chain_at plan.now.plan c) }
    requires other { d < length plan.now.plan.chains }
    requires kept { IsKept rules.now plan.now }
    requires room { length rules.now.units < 32 * length blocks.now }
    requires blocks { AreBlocks (chain_ends ends.now d) (chain_at plan.now.plan d) blocks.now }
    ensures open { IfSome result (λ j. j ≤ length (chain_at (taken_out plan.now.plan (at c i)) d)) }
    ensures found { IfSome result (λ j. IsGain rules.now ends.now plan.now.plan (moved_plan plan.now.plan (at c i) (at d j))) }
    ensures none { IfNone result (NoMoveTo rules.now ends.now plan.now.plan c i d) }
{
    if !may_go(rules, plan, c, i, d) {
        return None;
    }
    let others = plan.chain(d);
    let lift = lift_of(ends, c as u32, plan.chain(c), i);
    let mut from = 0;
    'places: while let Some(k) = shorter_place(ends, d as u32, others, blocks, &lift, from) {
        if let Some(j) = open_place(rules, plan, c, i, d, k) {
            return Some(j);
        }
        from = k + 1;
    }
    None
}

/// Moves a unit and counts the bits of both chains anew.
fn move_counted(rules: &Rules, plan: &mut Work, c: usize, i: usize, d: usize, j: usize)
    requires legal { IsLegal rules.now plan.old.plan }
    requires kept { IsKept rules.now plan.old }
    requires chain { c < length plan.old.plan.chains }
    requires place { i < length (chain_at plan.old.plan c) }
    requires other { d < length plan.old.plan.chains }
    requires open { j ≤ length (chain_at (taken_out plan.old.plan (at c i)) d) }
    requires after { IsLegal rules.now (moved_plan plan.old.plan (at c i) (at d j)) }
    ensures value { plan.new.plan ≡ moved_plan plan.old.plan (at c i) (at d j) }
    ensures kept { IsKept rules.now plan.new }
{
    plan.move_unit(c, i, d, j);
    plan.recount(rules, c);
    plan.recount(rules, d);
}

/// Moves a unit, as the plan gets shorter by, and fills in the blocks of the chain that it goes to.
fn take_move(
    rules: &Rules,
    ends: &Ends,
    plan: &mut Work,
    blocks: &mut [Block],
    c: usize,
    i: usize,
    d: usize,
    j: usize,
)
    requires searchable { AreSearchable rules.now ends.now }
    requires legal { IsLegal rules.now plan.old.plan }
    requires kept { IsKept rules.now plan.old }
    requires chain { c < length plan.old.plan.chains }
    requires place { i < length (chain_at plan.old.plan c) }
    requires other { d < length plan.old.plan.chains }
    requires open { j ≤ length (chain_at (taken_out plan.old.plan (at c i)) d) }
    requires gain { IsGain rules.now ends.now plan.old.plan (moved_plan plan.old.plan (at c i) (at d j)) }
    requires room { length rules.now.units < 32 * length blocks.old }
    ensures legal { IsLegal rules.now plan.new.plan }
    ensures kept { IsKept rules.now plan.new }
    ensures shorter { plan_length_of ends.now plan.new.plan < plan_length_of ends.now plan.old.plan }
    ensures blocks { AreBlocks (chain_ends ends.now d) (chain_at plan.new.plan d) blocks.new }
    ensures room { length blocks.new ≡ length blocks.old }
{
    move_counted(rules, plan, c, i, d, j);
    fill_blocks(blocks, ends, d as u32, plan.chain(d));
}

/// Moves the unit at place i of chain c to chain d, where such a move makes the plan shorter, and tells whether one did.
fn move_one(
    rules: &Rules,
    ends: &Ends,
    plan: &mut Work,
    blocks: &mut [Block],
    c: usize,
    i: usize,
    d: usize,
) -> bool
    requires searchable { AreSearchable rules.now ends.now }
    requires legal { IsLegal rules.now plan.old.plan }
    requires kept { IsKept rules.now plan.old }
    requires chain { c < length plan.old.plan.chains }
    requires other { d < length plan.old.plan.chains }
    requires room { length rules.now.units < 32 * length blocks.old }
    requires blocks { AreBlocks (chain_ends ends.now d) (chain_at plan.old.plan d) blocks.old }
    ensures legal { IsLegal rules.now plan.new.plan }
    ensures kept { IsKept rules.now plan.new }
    ensures shorter { plan_length_of ends.now plan.new.plan + cond result 1 0 ≤ plan_length_of ends.now plan.old.plan }
    ensures room { length blocks.new ≡ length blocks.old }
    ensures blocks { AreBlocks (chain_ends ends.now d) (chain_at plan.new.plan d) blocks.new }
    ensures quiet { ¬ IsTrue result → (plan.new.plan ≡ plan.old.plan) × (i < length (chain_at plan.old.plan c) → NoMoveTo rules.now ends.now plan.old.plan c i d) }
{
    if plan.chain(c).len() <= i {
        return false;
    }
    let Some(j) = place_for(rules, ends, plan, blocks, c, i, d) else {
        return false;
    };
    take_move(rules, ends, plan, blocks, c, i, d, j);
    true
}

// In designs of so many units a chain may lie so that one unit alone can go in each pass.
const MANY: usize = 500;

/// As `move_one`. In a large design the units that stood beside the one that went are tried next, and so on, as long as one goes: each may
/// have been kept at its place by the last one alone.
fn move_on(
    rules: &Rules,
    ends: &Ends,
    plan: &mut Work,
    blocks: &mut [Block],
    c: usize,
    i: usize,
    d: usize,
) -> bool
    requires searchable { AreSearchable rules.now ends.now }
    requires legal { IsLegal rules.now plan.old.plan }
    requires kept { IsKept rules.now plan.old }
    requires chain { c < length plan.old.plan.chains }
    requires other { d < length plan.old.plan.chains }
    requires room { length rules.now.units < 32 * length blocks.old }
    requires blocks { AreBlocks (chain_ends ends.now d) (chain_at plan.old.plan d) blocks.old }
    ensures legal { IsLegal rules.now plan.new.plan }
    ensures kept { IsKept rules.now plan.new }
    ensures shorter { plan_length_of ends.now plan.new.plan + cond result 1 0 ≤ plan_length_of ends.now plan.old.plan }
    ensures room { length blocks.new ≡ length blocks.old }
    ensures blocks { AreBlocks (chain_ends ends.now d) (chain_at plan.new.plan d) blocks.new }
    ensures quiet { ¬ IsTrue result → (plan.new.plan ≡ plan.old.plan) × (i < length (chain_at plan.old.plan c) → NoMoveTo rules.now ends.now plan.old.plan c i d) }
{
    if !move_one(rules, ends, plan, blocks, c, i, d) {
        return false;
    }
    let mut place = i;
    let mut again = rules.units.as_slice().len() >= MANY;
    'units: while again {
        if place > 0 && move_one(rules, ends, plan, blocks, c, place - 1, d) {
            place -= 1;
        } else {
            again = move_one(rules, ends, plan, blocks, c, place, d);
        }
    }
    true
}

/// Moves each unit of chain c once to chain d, where such a move makes the plan shorter, and tells whether one did. The
/// blocks are those of chain d, before and afterwards.
fn moves_between(
    rules: &Rules,
    ends: &Ends,
    plan: &mut Work,
    blocks: &mut [Block],
    c: usize,
    d: usize,
) -> bool
    requires searchable { AreSearchable rules.now ends.now }
    requires legal { IsLegal rules.now plan.old.plan }
    requires kept { IsKept rules.now plan.old }
    requires chain { c < length plan.old.plan.chains }
    requires other { d < length plan.old.plan.chains }
    requires room { length rules.now.units < 32 * length blocks.old }
    requires blocks { AreBlocks (chain_ends ends.now d) (chain_at plan.old.plan d) blocks.old }
    ensures legal { IsLegal rules.now plan.new.plan }
    ensures kept { IsKept rules.now plan.new }
    ensures shorter { plan_length_of ends.now plan.new.plan + cond result 1 0 ≤ plan_length_of ends.now plan.old.plan }
    ensures room { length blocks.new ≡ length blocks.old }
    ensures blocks { AreBlocks (chain_ends ends.now d) (chain_at plan.new.plan d) blocks.new }
    ensures quiet { ¬ IsTrue result → (plan.new.plan ≡ plan.old.plan) × NoMoveBetween rules.now ends.now plan.old.plan c d }
{
    if !are_open(rules, plan, c, d) {
        return false;
    }
    let mut again = false;
    for i in 0..plan.chain(c).len() {
        if move_on(rules, ends, plan, blocks, c, i, d) {
            again = true;
        }
    }
    again
}

/// Moves each unit once to chain d, where such a move makes the plan shorter, and tells whether one did.
fn moves_into(
    rules: &Rules,
    ends: &Ends,
    parts: &Partitions,
    plan: &mut Work,
    blocks: &mut [Block],
    d: usize,
) -> bool
    requires searchable { AreSearchable rules.now ends.now }
    requires parts { AreTogetherBy rules.now parts.now }
    requires legal { IsLegal rules.now plan.old.plan }
    requires kept { IsKept rules.now plan.old }
    requires chain { d < length plan.old.plan.chains }
    requires room { length rules.now.units < 32 * length blocks.old }
    ensures legal { IsLegal rules.now plan.new.plan }
    ensures kept { IsKept rules.now plan.new }
    ensures shorter { plan_length_of ends.now plan.new.plan + cond result 1 0 ≤ plan_length_of ends.now plan.old.plan }
    ensures room { length blocks.new ≡ length blocks.old }
    ensures quiet { ¬ IsTrue result → (plan.new.plan ≡ plan.old.plan) × ((c : ℕ) → c < length plan.old.plan.chains → NoMoveBetween rules.now ends.now plan.old.plan c d) }
{
    fill_blocks(blocks, ends, d as u32, plan.chain(d));
    let mut again = false;
    let mut c = parts.first(rules, d);
    'chains: while c < plan.len() {
        if moves_between(rules, ends, plan, blocks, c, d) {
            again = true;
        }
        c = parts.after(rules, c, d);
    }
    again
}

/// Goes once over all units and chains and moves each unit that a move makes the plan shorter by; tells whether there was
/// one.
pub(crate) fn move_pass(
    rules: &Rules,
    ends: &Ends,
    parts: &Partitions,
    plan: &mut Work,
    blocks: &mut [Block],
) -> bool
    requires searchable { AreSearchable rules.now ends.now }
    requires parts { AreTogetherBy rules.now parts.now }
    requires legal { IsLegal rules.now plan.old.plan }
    requires kept { IsKept rules.now plan.old }
    requires room { length rules.now.units < 32 * length blocks.old }
    ensures legal { IsLegal rules.now plan.new.plan }
    ensures kept { IsKept rules.now plan.new }
    ensures shorter { plan_length_of ends.now plan.new.plan + cond result 1 0 ≤ plan_length_of ends.now plan.old.plan }
    ensures room { length blocks.new ≡ length blocks.old }
    ensures quiet { ¬ IsTrue result → (plan.new.plan ≡ plan.old.plan) × HasNoMove rules.now ends.now plan.old.plan }
{
    let mut again = false;
    for d in 0..plan.len() {
        if moves_into(rules, ends, parts, plan, blocks, d) {
            again = true;
        }
    }
    again
}
