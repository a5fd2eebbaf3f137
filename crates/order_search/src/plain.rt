//! Whether a plan is settled, found by making every step's plan. It serves as the oracle of the searches.
ghost use Rattle.std.specs.Prelude.{◌≡◌, ◌≢◌, ℕ, ◌+◌, ◌-◌, ◌^◌, ◌<◌, ◌≤◌, ◌↔◌, length, pos, IfOk, IsTrue, slice_set};
ghost use Rattle.chain_rules.specs.Legality.{IsLegal, chain_at, moved_plan, swapped_plan, taken_out, with_chain};
ghost use Rattle.wire_cost.specs.Lengths.{plan_length_of};
ghost use Rattle.order_search.specs.Searches.{AreSearchable};
ghost use Rattle.order_search.specs.Steps.{IsMove, IsReversal, IsSettled, IsSwap};
ghost use Rattle.order_search.specs.Trials.{HasGain, IsGain, NoMoveOf, NoMoveTo, NoSwapOf, NoSwapWith, NoTurnAt, at, turned_plan};

use crate::effort::Effort;
use crate::reversals::reverse_run;
use base_types::NoMemory;
use chain_rules::plain::is_legal;
use chain_rules::{Plan, Rules};
use std::alloc::Global;
use wire_cost::{Ends, plan_length};

/// The length of a legal plan.
pub fn length_of(rules: &Rules, ends: &Ends, plan: &Plan) -> i64
    requires searchable { AreSearchable rules.now ends.now }
    requires legal { IsLegal rules.now plan.now }
    ensures value { result ≡ pos (plan_length_of ends.now plan.now) }
{
    plan_length(ends, plan)
}

/// Whether the new plan is legal and shorter than the old one.
fn is_gain(rules: &Rules, ends: &Ends, old: &Plan, new: &Plan) -> bool
    requires searchable { AreSearchable rules.now ends.now }
    requires legal { IsLegal rules.now old.now }
    ensures value { IsTrue result ↔ IsGain rules.now ends.now old.now new.now }
{
    is_legal(rules, new) && length_of(rules, ends, new) < length_of(rules, ends, old)
}

/// The plan with a run of one chain reversed.
fn turned(alloc: Global, plan: &Plan, c: usize, i: usize, m: usize) -> Result<Plan, NoMemory>
    requires chain { c < length plan.now.chains }
    requires run { i + m ≤ length (chain_at plan.now c) }
    ensures value { IfOk result (λ q. q ≡ turned_plan plan.now c i m) }
{
    let mut plan = plan.copy(alloc)?;
    let mut units = Vec::new(alloc);
    plan.exchange(c, &mut units);
    reverse_run(units.as_mut_slice(), i, m);
    plan.exchange(c, &mut units);
    Ok(plan)
}

/// The plan with the unit at place i of chain c put at place j of chain d.
fn moved(
    alloc: Global,
    plan: &Plan,
    c: usize,
    i: usize,
    d: usize,
    j: usize,
) -> Result<Plan, NoMemory>
    requires chain { c < length plan.now.chains }
    requires place { i < length (chain_at plan.now c) }
    requires other { d < length plan.now.chains }
    requires open { j ≤ length (chain_at (taken_out plan.now (at c i)) d) }
    ensures value { IfOk result (λ q. q ≡ moved_plan plan.now (at c i) (at d j)) }
{
    let mut plan = plan.copy(alloc)?;
    let unit = plan.remove(c, i);
    plan.insert(d, j, unit)?;
    Ok(plan)
}

/// Puts another unit at a place.
fn replace(alloc: Global, plan: &mut Plan, c: usize, i: usize, unit: u32)
    requires chain { c < length plan.old.chains }
    requires place { i < length (chain_at plan.old c) }
    ensures value { plan.new ≡ with_chain plan.old c (slice_set (chain_at plan.old c) i unit) }
{
    let mut units = Vec::new(alloc);
    plan.exchange(c, &mut units);
    units[i] = unit;
    plan.exchange(c, &mut units);
}

/// The plan with the unit at place i of chain c and the one at place j of chain d exchanged.
fn swapped(
    alloc: Global,
    plan: &Plan,
    c: usize,
    i: usize,
    d: usize,
    j: usize,
) -> Result<Plan, NoMemory>
    requires chain { c < length plan.now.chains }
    requires place { i < length (chain_at plan.now c) }
    requires other { d < length plan.now.chains }
    requires there { j < length (chain_at plan.now d) }
    requires apart { c ≢ d }
    ensures value { IfOk result (λ q. q ≡ swapped_plan plan.now (at c i) (at d j)) }
{
    let one = plan.chain(c)[i];
    let other = plan.chain(d)[j];
    let mut plan = plan.copy(alloc)?;
    replace(alloc, &mut plan, c, i, other);
    replace(alloc, &mut plan, d, j, one);
    Ok(plan)
}

/// Whether a reversed run that begins at place i of chain c is a gain.
fn has_turn_at(
    alloc: Global,
    rules: &Rules,
    ends: &Ends,
    plan: &Plan,
    c: usize,
    i: usize,
) -> Result<bool, NoMemory>
    requires searchable { AreSearchable rules.now ends.now }
    requires legal { IsLegal rules.now plan.now }
    requires chain { c < length plan.now.chains }
    requires place { i ≤ length (chain_at plan.now c) }
    ensures found { IfOk result (λ yes. IsTrue yes → HasGain IsReversal rules.now ends.now plan.now) }
    ensures none { IfOk result (λ yes. ¬ IsTrue yes → NoTurnAt rules.now ends.now plan.now c i) }
{
    for m in 0..plan.chain(c).len() - i + 1 {
        if is_gain(rules, ends, plan, &turned(alloc, plan, c, i, m)?) {
            return Ok(true);
        }
    }
    Ok(false)
}

/// Whether a reversed run of chain c is.
fn has_turn_in(
    alloc: Global,
    rules: &Rules,
    ends: &Ends,
    plan: &Plan,
    c: usize,
) -> Result<bool, NoMemory>
    requires searchable { AreSearchable rules.now ends.now }
    requires legal { IsLegal rules.now plan.now }
    requires chain { c < length plan.now.chains }
    ensures found { IfOk result (λ yes. IsTrue yes → HasGain IsReversal rules.now ends.now plan.now) }
    ensures none { IfOk result (λ yes. ¬ IsTrue yes → (i : ℕ) → i ≤ length (chain_at plan.now c) → NoTurnAt rules.now ends.now plan.now c i) }
{
    for i in 0..plan.chain(c).len() + 1 {
        if has_turn_at(alloc, rules, ends, plan, c, i)? {
            return Ok(true);
        }
    }
    Ok(false)
}

/// Whether a reversed run of any chain is.
fn has_turn(alloc: Global, rules: &Rules, ends: &Ends, plan: &Plan) -> Result<bool, NoMemory>
    requires searchable { AreSearchable rules.now ends.now }
    requires legal { IsLegal rules.now plan.now }
    ensures found { IfOk result (λ yes. IsTrue yes → HasGain IsReversal rules.now ends.now plan.now) }
    ensures none { IfOk result (λ yes. ¬ IsTrue yes → (c : ℕ) → c < length plan.now.chains → (i : ℕ) → i ≤ length (chain_at plan.now c) → NoTurnAt rules.now ends.now plan.now c i) }
{
    for c in 0..plan.len() {
        if has_turn_in(alloc, rules, ends, plan, c)? {
            return Ok(true);
        }
    }
    Ok(false)
}

/// How many units chain d has once one of chain c is taken out.
fn len_without(plan: &Plan, c: usize, i: usize, d: usize) -> usize
    requires chain { c < length plan.now.chains }
    requires place { i < length (chain_at plan.now c) }
    requires other { d < length plan.now.chains }
    ensures value { result ≡ length (chain_at (taken_out plan.now (at c i)) d) }
    ensures small { result < 2 ^ 63 }
{
    let units = plan.chain(d).len();
    if c == d { units - 1 } else { units }
}

/// Whether a move of the unit at place i of chain c to chain d is a gain.
fn has_move_to(
    alloc: Global,
    rules: &Rules,
    ends: &Ends,
    plan: &Plan,
    c: usize,
    i: usize,
    d: usize,
) -> Result<bool, NoMemory>
    requires searchable { AreSearchable rules.now ends.now }
    requires legal { IsLegal rules.now plan.now }
    requires chain { c < length plan.now.chains }
    requires place { i < length (chain_at plan.now c) }
    requires other { d < length plan.now.chains }
    ensures found { IfOk result (λ yes. IsTrue yes → HasGain IsMove rules.now ends.now plan.now) }
    ensures none { IfOk result (λ yes. ¬ IsTrue yes → NoMoveTo rules.now ends.now plan.now c i d) }
{
    for j in 0..len_without(plan, c, i, d) + 1 {
        if is_gain(rules, ends, plan, &moved(alloc, plan, c, i, d, j)?) {
            return Ok(true);
        }
    }
    Ok(false)
}

/// Whether a move of it to any chain is.
fn has_move_of(
    alloc: Global,
    rules: &Rules,
    ends: &Ends,
    plan: &Plan,
    c: usize,
    i: usize,
) -> Result<bool, NoMemory>
    requires searchable { AreSearchable rules.now ends.now }
    requires legal { IsLegal rules.now plan.now }
    requires chain { c < length plan.now.chains }
    requires place { i < length (chain_at plan.now c) }
    ensures found { IfOk result (λ yes. IsTrue yes → HasGain IsMove rules.now ends.now plan.now) }
    ensures none { IfOk result (λ yes. ¬ IsTrue yes → NoMoveOf rules.now ends.now plan.now c i) }
{
    for d in 0..plan.len() {
        if has_move_to(alloc, rules, ends, plan, c, i, d)? {
            return Ok(true);
        }
    }
    Ok(false)
}

/// Whether a move of a unit of chain c is.
fn has_move_in(
    alloc: Global,
    rules: &Rules,
    ends: &Ends,
    plan: &Plan,
    c: usize,
) -> Result<bool, NoMemory>
    requires searchable { AreSearchable rules.now ends.now }
    requires legal { IsLegal rules.now plan.now }
    requires chain { c < length plan.now.chains }
    ensures found { IfOk result (λ yes. IsTrue yes → HasGain IsMove rules.now ends.now plan.now) }
    ensures none { IfOk result (λ yes. ¬ IsTrue yes → (i : ℕ) → i < length (chain_at plan.now c) → NoMoveOf rules.now ends.now plan.now c i) }
{
    for i in 0..plan.chain(c).len() {
        if has_move_of(alloc, rules, ends, plan, c, i)? {
            return Ok(true);
        }
    }
    Ok(false)
}

/// Whether a move of any unit is.
fn has_move(alloc: Global, rules: &Rules, ends: &Ends, plan: &Plan) -> Result<bool, NoMemory>
    requires searchable { AreSearchable rules.now ends.now }
    requires legal { IsLegal rules.now plan.now }
    ensures found { IfOk result (λ yes. IsTrue yes → HasGain IsMove rules.now ends.now plan.now) }
    ensures none { IfOk result (λ yes. ¬ IsTrue yes → (c : ℕ) → c < length plan.now.chains → (i : ℕ) → i < length (chain_at plan.now c) → NoMoveOf rules.now ends.now plan.now c i) }
{
    for c in 0..plan.len() {
        if has_move_in(alloc, rules, ends, plan, c)? {
            return Ok(true);
        }
    }
    Ok(false)
}

/// Whether an exchange of the unit at place i of chain c with one of chain d is a gain.
fn has_swap_with(
    alloc: Global,
    rules: &Rules,
    ends: &Ends,
    plan: &Plan,
    c: usize,
    i: usize,
    d: usize,
) -> Result<bool, NoMemory>
    requires searchable { AreSearchable rules.now ends.now }
    requires legal { IsLegal rules.now plan.now }
    requires chain { c < length plan.now.chains }
    requires place { i < length (chain_at plan.now c) }
    requires other { d < length plan.now.chains }
    requires apart { c ≢ d }
    ensures found { IfOk result (λ yes. IsTrue yes → HasGain IsSwap rules.now ends.now plan.now) }
    ensures none { IfOk result (λ yes. ¬ IsTrue yes → NoSwapWith rules.now ends.now plan.now c i d) }
{
    for j in 0..plan.chain(d).len() {
        if is_gain(rules, ends, plan, &swapped(alloc, plan, c, i, d, j)?) {
            return Ok(true);
        }
    }
    Ok(false)
}

/// Whether an exchange of it with a unit of any other chain is.
fn has_swap_of(
    alloc: Global,
    rules: &Rules,
    ends: &Ends,
    plan: &Plan,
    c: usize,
    i: usize,
) -> Result<bool, NoMemory>
    requires searchable { AreSearchable rules.now ends.now }
    requires legal { IsLegal rules.now plan.now }
    requires chain { c < length plan.now.chains }
    requires place { i < length (chain_at plan.now c) }
    ensures found { IfOk result (λ yes. IsTrue yes → HasGain IsSwap rules.now ends.now plan.now) }
    ensures none { IfOk result (λ yes. ¬ IsTrue yes → NoSwapOf rules.now ends.now plan.now c i) }
{
    for d in 0..plan.len() {
        if c != d && has_swap_with(alloc, rules, ends, plan, c, i, d)? {
            return Ok(true);
        }
    }
    Ok(false)
}

/// Whether an exchange of a unit of chain c is.
fn has_swap_in(
    alloc: Global,
    rules: &Rules,
    ends: &Ends,
    plan: &Plan,
    c: usize,
) -> Result<bool, NoMemory>
    requires searchable { AreSearchable rules.now ends.now }
    requires legal { IsLegal rules.now plan.now }
    requires chain { c < length plan.now.chains }
    ensures found { IfOk result (λ yes. IsTrue yes → HasGain IsSwap rules.now ends.now plan.now) }
    ensures none { IfOk result (λ yes. ¬ IsTrue yes → (i : ℕ) → i < length (chain_at plan.now c) → NoSwapOf rules.now ends.now plan.now c i) }
{
    for i in 0..plan.chain(c).len() {
        if has_swap_of(alloc, rules, ends, plan, c, i)? {
            return Ok(true);
        }
    }
    Ok(false)
}

/// Whether an exchange of any unit is.
fn has_swap(alloc: Global, rules: &Rules, ends: &Ends, plan: &Plan) -> Result<bool, NoMemory>
    requires searchable { AreSearchable rules.now ends.now }
    requires legal { IsLegal rules.now plan.now }
    ensures found { IfOk result (λ yes. IsTrue yes → HasGain IsSwap rules.now ends.now plan.now) }
    ensures none { IfOk result (λ yes. ¬ IsTrue yes → (c : ℕ) → c < length plan.now.chains → (i : ℕ) → i < length (chain_at plan.now c) → NoSwapOf rules.now ends.now plan.now c i) }
{
    for c in 0..plan.len() {
        if has_swap_in(alloc, rules, ends, plan, c)? {
            return Ok(true);
        }
    }
    Ok(false)
}

/// Whether no step of a search of this effort makes a legal plan shorter. It tries each, and takes time for it: the plan's
/// length for every run, every move and every exchange.
pub fn is_settled(
    alloc: Global,
    effort: Effort,
    rules: &Rules,
    ends: &Ends,
    plan: &Plan,
) -> Result<bool, NoMemory>
    requires searchable { AreSearchable rules.now ends.now }
    requires legal { IsLegal rules.now plan.now }
    ensures value { IfOk result (λ yes. IsTrue yes ↔ IsSettled effort rules.now ends.now plan.now) }
{
    if has_turn(alloc, rules, ends, plan)? {
        return Ok(false);
    }
    match effort {
        Effort::Order => Ok(true),
        Effort::Full => Ok(
            !has_move(alloc, rules, ends, plan)? && !has_swap(alloc, rules, ends, plan)?,
        ),
    }
}
