//! A bound by trees over the places of a chain.
ghost use Rattle.std.specs.Prelude.{◌≡◌, pos, ◌+◌, ◌-◌, ◌+ℤ◌, ◌^◌, ◌<◌, ◌≤◌, length, take, drop, unsigned_abs, IfOk};
ghost use Rattle.wire_cost.specs.Lengths.{ArePlaced, IsChainAt, chain_ends};
ghost use Rattle.wire_cost.specs.Rows.{before_at, next_at};
ghost use Rattle.length_bound.specs.Certificates.{AreSmall, total};
ghost use Rattle.length_bound.specs.Growth.{AreLight, AreNearPlaces, ArePlaces, IsBelowOrders, IsNearPlace};

use crate::certificate::total;
use crate::growth::{Place, grow};
use crate::weights::{Steps, lacks_of, move_weights};
use base_types::NoMemory;
use std::alloc::Global;
use wire_cost::{Ends, point_after, point_before, wire_of};

/// How far a place is from a row that it has not been compared with: farther than any.
const NOT_NEAR: i64 = 17592186044416;

/// A row of a chain's places as it has grown, where each place came from, and the value of its certificate.
#[derive(Drop)]
struct GrownRow {
    row: Vec<Place>,
    from: Vec<usize>,
    value: i64,
}

/// The place of a chain with a number.
fn place_of(ends: &Ends, chain: u32, units: &[u32], number: usize, weight: i64) -> Place
    requires placed { ArePlaced ends.now }
    requires chain { IsChainAt ends.now chain units.now }
    requires within { number ≤ length units.now + 1 }
    requires light { unsigned_abs weight ≤ 2 ^ 42 }
    ensures number { result.number ≡ number }
    ensures exit { number ≤ length units.now → result.exit ≡ before_at (chain_ends ends.now chain) units.now number }
    ensures entry { 0 < number → result.entry ≡ next_at (chain_ends ends.now chain) units.now (number - 1) }
    ensures weight { result.weight ≡ weight }
    ensures near { IsNearPlace result }
{
    let exit = if number <= units.len() {
        point_before(ends, chain, units, number)
    } else {
        None
    };
    let entry = if number > 0 {
        point_after(ends, chain, units, number - 1)
    } else {
        None
    };
    Place {
        number,
        exit,
        entry,
        weight,
    }
}

/// The places of a chain with these weights, by their numbers.
fn places_of(
    alloc: Global,
    ends: &Ends,
    chain: u32,
    units: &[u32],
    weights: &[i64],
) -> Result<Vec<Place>, NoMemory>
    requires placed { ArePlaced ends.now }
    requires chain { IsChainAt ends.now chain units.now }
    requires count { length weights.now ≡ length units.now + 2 }
    requires light { AreLight weights.now }
    ensures places { IfOk result (λ row. ArePlaces (chain_ends ends.now chain) units.now weights.now row.items) }
    ensures near { IfOk result (λ row. AreNearPlaces row.items) }
    ensures count { IfOk result (λ row. length row.items ≡ length units.now + 2) }
{
    let mut row = Vec::with_capacity(alloc, weights.len())?;
    for number in 0..weights.len() {
        row.push(place_of(ends, chain, units, number, weights[number]))?;
    }
    Ok(row)
}

/// The value of the certificate of a row that has grown.
fn tree_value(units: usize, near: &[i64], weights: &[i64]) -> i64
    requires few { units ≤ 65536 }
    requires near { length near.now ≡ units + 2 }
    requires weights { length weights.now ≡ units + 2 }
    requires small { AreSmall near.now }
    requires light { AreLight weights.now }
    ensures value { result ≡ total (drop 1 near.now) +ℤ (total weights.now +ℤ total (take units (drop 1 weights.now))) }
{
    let heights = &near[1..];
    let inner = &weights[1..units + 1];
    total(heights) + (total(weights) + total(inner))
}

/// The tree of a chain with these weights.
fn tree_of(
    alloc: Global,
    ends: &Ends,
    chain: u32,
    units: &[u32],
    weights: &[i64],
) -> Result<GrownRow, NoMemory>
    requires placed { ArePlaced ends.now }
    requires chain { IsChainAt ends.now chain units.now }
    requires some { 0 < length units.now }
    requires count { length weights.now ≡ length units.now + 2 }
    requires light { AreLight weights.now }
    ensures below { IfOk result (λ tree. IsBelowOrders (chain_ends ends.now chain) units.now tree.value) }
{
    let mut row = places_of(alloc, ends, chain, units, weights)?;
    let mut numbers = vec![in alloc; NOT_NEAR; weights.len()]?;
    let mut from = vec![in alloc; 0usize; weights.len()]?;
    let near = numbers.as_mut_slice();
    grow(units.len(), &mut row, near, &mut from);
    let value = tree_value(units.len(), near, weights);
    Ok(GrownRow { row, from, value })
}

/// A number that is at most the length of the chain in every order of its units, in half database units: the greatest value of
/// the trees over its places in so many rounds and one, with weights that move from round to round so that the trees come
/// nearer to an order. It is 0 where no tree says more. Without units it is the link from the start to the stop.
///
/// The time of a round grows as the square of the number of units.
pub fn tree(
    alloc: Global,
    ends: &Ends,
    chain: u32,
    units: &[u32],
    rounds: u32,
) -> Result<u64, NoMemory>
    requires placed { ArePlaced ends.now }
    requires chain { IsChainAt ends.now chain units.now }
    ensures below { IfOk result (λ bound. IsBelowOrders (chain_ends ends.now chain) units.now (pos bound)) }
{
    let length = wire_of(ends, chain, units);
    if units.is_empty() {
        return Ok(length);
    }
    let mut numbers = vec![in alloc; 0i64; units.len() + 2]?;
    let weights = numbers.as_mut_slice();
    let mut steps = Steps::new(length, rounds);
    let mut best: i64 = 0;
    for _round in 0..u64::from(rounds) + 1 {
        let tree = tree_of(alloc, ends, chain, units, weights)?;
        best = best.max(tree.value);
        steps.note(tree.value);
        let lacks = lacks_of(alloc, &tree.row, &tree.from)?;
        move_weights(weights, &lacks, steps.step(tree.value, &lacks));
    }
    Ok(best as u64)
}
