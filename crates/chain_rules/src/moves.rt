//! Which single steps leave a plan legal.
ghost use Rattle.std.specs.Prelude.{◌≡◌, ◌+◌, ◌^◌, ◌<◌, ◌≤◌, ◌↔◌, length, IsTrue, insert, remove, slice_set};
ghost use Rattle.chain_rules.specs.Plans.{plan_of};
ghost use Rattle.chain_rules.specs.Legality.{bits_of, chain_at, last_of, IsLegal, IsIn, IsOpen, taken_out, moved_plan, swapped_plan};
ghost use Rattle.chain_rules.specs.Pins.{KeepsPin};

use crate::ends::{keeps_pin, last_moved, last_replaced, last_swapped, last_with, last_without};
use crate::legal::unit_bits;
use crate::plan::Plan;
use crate::unit::{Position, Rules};

/// The bits of some units together.
fn total_bits(rules: &Rules, us: &[u32]) -> u32
    requires bound { bits_of rules.now us.now < 2 ^ 32 }
    ensures value { result ≡ bits_of rules.now us.now }
{
    us.iter().map(|u| unit_bits(rules, *u)).sum()
}

/// Whether a chain of a rule can do without the unit at a place.
fn can_lose(rules: &Rules, keeps_bit: bool, bound: u32, us: &[u32], place: usize) -> bool
    requires within { place < length us.now }
    requires bounded { bits_of rules.now us.now ≤ bound }
    ensures value { IsTrue result ↔ ((0 < length (remove us.now place)) × (IsTrue keeps_bit → 0 < bits_of rules.now (remove us.now place)) × KeepsPin rules.now us.now (last_of (remove us.now place))) }
{
    if us.len() == 1 {
        return false;
    }
    if keeps_bit && total_bits(rules, us) == unit_bits(rules, us[place]) {
        return false;
    }
    keeps_pin(rules, us, last_without(us, place))
}

/// Whether a unit fits into a chain of a bound at a place.
fn can_gain(rules: &Rules, bound: u32, us: &[u32], place: usize, unit: u32) -> bool
    requires within { place ≤ length us.now }
    requires bounded { bits_of rules.now us.now ≤ bound }
    ensures value { IsTrue result ↔ ((bits_of rules.now (insert us.now place unit) ≤ bound) × KeepsPin rules.now us.now (last_of (insert us.now place unit))) }
{
    if unit_bits(rules, unit) > bound - total_bits(rules, us) {
        return false;
    }
    keeps_pin(rules, us, last_with(us, place, unit))
}

/// Whether another unit fits into a chain of a rule in place of the one at a place.
fn can_replace(
    rules: &Rules,
    keeps_bit: bool,
    bound: u32,
    us: &[u32],
    place: usize,
    unit: u32,
) -> bool
    requires within { place < length us.now }
    requires bounded { bits_of rules.now us.now ≤ bound }
    ensures value { IsTrue result ↔ ((IsTrue keeps_bit → 0 < bits_of rules.now (slice_set us.now place unit)) × (bits_of rules.now (slice_set us.now place unit) ≤ bound) × KeepsPin rules.now us.now (last_of (slice_set us.now place unit))) }
{
    let others = total_bits(rules, us) - unit_bits(rules, us[place]);
    let more = unit_bits(rules, unit);
    if more > bound - others {
        return false;
    }
    if keeps_bit && others + more == 0 {
        return false;
    }
    keeps_pin(rules, us, last_replaced(us, place, unit))
}

/// The units of a chain of a plan.
fn units_at(plan: &[Vec<u32>], chain: usize) -> &[u32]
    requires within { chain < length plan.now }
    ensures value { result.now ≡ chain_at (plan_of plan.now) chain }
{
    plan[chain].as_slice()
}

/// As `can_move`, for the chains of a plan.
pub fn can_move_in(rules: &Rules, plan: &[Vec<u32>], from: Position, to: Position) -> bool
    requires legal { IsLegal rules.now (plan_of plan.now) }
    requires from { IsIn (plan_of plan.now) from }
    requires to { IsOpen (taken_out (plan_of plan.now) from) to }
    ensures value { IsTrue result ↔ IsLegal rules.now (moved_plan (plan_of plan.now) from to) }
{
    let (source, target) = (from.chain as usize, to.chain as usize);
    let (taken, put) = (from.place as usize, to.place as usize);
    let us = units_at(plan, source);
    if source == target {
        return keeps_pin(rules, us, last_moved(us, taken, put));
    }
    let losing = rules.chains.as_slice()[source];
    let gaining = rules.chains.as_slice()[target];
    if losing.partition != gaining.partition {
        return false;
    }
    if !can_lose(rules, losing.keeps_bit, losing.bound, us, taken) {
        return false;
    }
    can_gain(rules, gaining.bound, units_at(plan, target), put, us[taken])
}

/// Whether the plan stays legal where a unit is taken out and put at another position. The place of `to` counts in the
/// chain without the unit, and may be that chain's length. It costs the length of the two chains.
pub fn can_move(rules: &Rules, plan: &Plan, from: Position, to: Position) -> bool
    requires legal { IsLegal rules.now plan.now }
    requires from { IsIn plan.now from }
    requires to { IsOpen (taken_out plan.now from) to }
    ensures value { IsTrue result ↔ IsLegal rules.now (moved_plan plan.now from to) }
{
    can_move_in(rules, plan.lists(), from, to)
}

/// As `can_swap`, for the chains of a plan.
pub fn can_swap_in(rules: &Rules, plan: &[Vec<u32>], a: Position, b: Position) -> bool
    requires legal { IsLegal rules.now (plan_of plan.now) }
    requires a { IsIn (plan_of plan.now) a }
    requires b { IsIn (plan_of plan.now) b }
    ensures value { IsTrue result ↔ IsLegal rules.now (swapped_plan (plan_of plan.now) a b) }
{
    let (first, second) = (a.chain as usize, b.chain as usize);
    let (left, right) = (a.place as usize, b.place as usize);
    let us = units_at(plan, first);
    if first == second {
        return keeps_pin(rules, us, last_swapped(us, left, right));
    }
    let one = rules.chains.as_slice()[first];
    let two = rules.chains.as_slice()[second];
    if one.partition != two.partition {
        return false;
    }
    let others = units_at(plan, second);
    if !can_replace(rules, one.keeps_bit, one.bound, us, left, others[right]) {
        return false;
    }
    can_replace(rules, two.keeps_bit, two.bound, others, right, us[left])
}

/// Whether the plan stays legal where the units at two positions are exchanged, also within one chain. It costs the
/// length of the two chains.
pub fn can_swap(rules: &Rules, plan: &Plan, a: Position, b: Position) -> bool
    requires legal { IsLegal rules.now plan.now }
    requires a { IsIn plan.now a }
    requires b { IsIn plan.now b }
    ensures value { IsTrue result ↔ IsLegal rules.now (swapped_plan plan.now a b) }
{
    can_swap_in(rules, plan.lists(), a, b)
}
