//! The stretches of the chains with their marks, and the faults that show there.
ghost use Rattle.std.specs.Prelude.{◌≡◌, ◌+◌, ◌-◌, ◌^◌, ◌<◌, ◌≤◌, ◌↔◌, ℕ, length, sum_by, IsTrue, IfOk, IfSome, IfNone, All};
ghost use Rattle.chain_rules.specs.Stretches.{path_at, spec_at, groups_of, StandsIn, StepsOnce, HasElements, AreChainSpecs};
ghost use Rattle.chain_rules.specs.ChainFaults.{IsNotAStretch};
ghost use Rattle.chain_rules.specs.Runs.{stretch, mark_at, AreRunsOf, AreListingsOf, HasUnmarkedBit, IsBreakBetween, HasBreak};

use crate::index::Index;
use crate::marks::marks_of;
use crate::spec::{ChainSpec, ElementSpec};
use crate::stretch::Run;
use base_types::NoMemory;
use std::alloc::Global;

/// The stretch of a chain, with the mark of each of its steps.
#[derive(Drop)]
pub(crate) struct Listing {
    pub run: Run,
    pub marks: Vec<usize>,
}

/// The stretches of chains that have one, with their marks.
pub(crate) fn listings_of(
    alloc: Global,
    index: &Index<'_>,
    chains: &[ChainSpec],
    runs: &[Option<Run>],
) -> Result<Vec<Listing>, NoMemory>
    requires once { StepsOnce index.now }
    requires few { (c : ℕ) → c < length chains.now → length (groups_of (spec_at chains.now c)) < 2 ^ 32 }
    requires runs { AreRunsOf index.now chains.now runs.now }
    requires stretches { (c : ℕ) → c < length chains.now → ¬ IsNotAStretch index.now chains.now c }
    ensures value { IfOk result (λ listings. AreListingsOf index.now chains.now listings.items) }
{
    let mut listings = Vec::with_capacity(alloc, chains.len())?;
    for chain in 0..chains.len() {
        let Some(run) = runs[chain] else {
            unreachable!();
        };
        let marks = marks_of(alloc, index, &chains[chain], run)?;
        listings.push(Listing { run, marks })?;
    }
    Ok(listings)
}

/// Whether a step of a stretch without a mark has a bit.
pub(crate) fn has_unmarked_bit(index: &Index<'_>, listing: &Listing) -> bool
    requires path { listing.now.run.path < length index.now }
    requires within { listing.now.run.to ≤ length (path_at index.now listing.now.run.path).steps }
    requires room { length listing.now.marks.items ≡ listing.now.run.to - listing.now.run.from }
    ensures value { IsTrue result ↔ HasUnmarkedBit (path_at index.now listing.now.run.path) (stretch listing.now.run) listing.now.marks.items }
{
    let steps = index.paths()[listing.run.path].steps.as_slice();
    for place in listing.run.from..listing.run.to {
        if listing.marks[place - listing.run.from] == 0 && steps[place].bits > 0 {
            return true;
        }
    }
    false
}

/// Whether a step between two places of a stretch has a mark.
fn has_mark_between(listing: &Listing, low: usize, high: usize) -> bool
    requires low { listing.now.run.from ≤ low }
    requires high { high < listing.now.run.to }
    requires room { length listing.now.marks.items ≡ listing.now.run.to - listing.now.run.from }
    ensures value { IsTrue result ↔ ((k : ℕ) × (low < k) × (k < high) × (0 < mark_at (stretch listing.now.run) listing.now.marks.items k)) }
{
    if low >= high {
        return false;
    }
    for place in low + 1..high {
        if listing.marks[place - listing.run.from] > 0 {
            return true;
        }
    }
    false
}

/// Whether a list isn't found in its order with only steps without a mark between.
pub(crate) fn has_break(index: &Index<'_>, listing: &Listing, elements: &[ElementSpec]) -> bool
    requires once { StepsOnce index.now }
    requires path { listing.now.run.path < length index.now }
    requires within { listing.now.run.to ≤ length (path_at index.now listing.now.run.path).steps }
    requires stand { All (StandsIn (path_at index.now listing.now.run.path) (stretch listing.now.run)) elements.now }
    requires room { length listing.now.marks.items ≡ listing.now.run.to - listing.now.run.from }
    ensures value { IsTrue result ↔ HasBreak (path_at index.now listing.now.run.path) (stretch listing.now.run) listing.now.marks.items elements.now }
{
    for next in 1..elements.len() {
        if is_break(index, listing, elements[next - 1], elements[next]) {
            return true;
        }
    }
    false
}

/// Whether one of two elements doesn't stand behind the other with only steps without a mark between.
fn is_break(index: &Index<'_>, listing: &Listing, first: ElementSpec, second: ElementSpec) -> bool
    requires once { StepsOnce index.now }
    requires path { listing.now.run.path < length index.now }
    requires within { listing.now.run.to ≤ length (path_at index.now listing.now.run.path).steps }
    requires first { StandsIn (path_at index.now listing.now.run.path) (stretch listing.now.run) first }
    requires second { StandsIn (path_at index.now listing.now.run.path) (stretch listing.now.run) second }
    requires room { length listing.now.marks.items ≡ listing.now.run.to - listing.now.run.from }
    ensures value { IsTrue result ↔ ((a : ℕ) × (b : ℕ) × IsBreakBetween (path_at index.now listing.now.run.path) (stretch listing.now.run) listing.now.marks.items first second a b) }
{
    let Some(low) = index.find(first.instance, first.path) else {
        unreachable!();
    };
    let Some(high) = index.find(second.instance, second.path) else {
        unreachable!();
    };
    if high.place <= low.place {
        return true;
    }
    has_mark_between(listing, low.place, high.place)
}
