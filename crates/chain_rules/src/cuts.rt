//! Where a stretch is cut into units.
ghost use Rattle.std.specs.Prelude.{◌≡◌, ◌≢◌, ◌+◌, ◌-◌, ◌<◌, ◌≤◌, ◌⊎◌, ℕ, length, IfOk, IfSome, IfNone};
ghost use Rattle.chain_rules.specs.Stretches.{IsInside};
ghost use Rattle.chain_rules.specs.Runs.{stretch, mark_at, AreTogether, AreCuts, end_of_cuts};

use crate::listing::Listing;
use base_types::NoMemory;
use std::alloc::Global;

/// The places of the first and the last step of a unit.
#[derive(Clone, Copy)]
pub(crate) struct Cut {
    pub first: usize,
    pub last: usize,
}

/// The place behind a stretch.
fn end_of(listing: &Listing) -> usize
    ensures value { result ≡ listing.now.run.to }
{
    listing.run.to
}

/// The mark of a step of a stretch.
fn mark_of(listing: &Listing, place: usize) -> usize
    requires inside { IsInside (stretch listing.now.run) place }
    requires room { length listing.now.marks.items ≡ listing.now.run.to - listing.now.run.from }
    ensures value { result ≡ mark_at (stretch listing.now.run) listing.now.marks.items place }
{
    listing.marks[place - listing.run.from]
}

/// The first step of a stretch with a mark.
fn first_marked(listing: &Listing) -> Option<usize>
    requires room { length listing.now.marks.items ≡ listing.now.run.to - listing.now.run.from }
    ensures found { IfSome result (λ k. IsInside (stretch listing.now.run) k × (0 < mark_at (stretch listing.now.run) listing.now.marks.items k) × ((j : ℕ) → IsInside (stretch listing.now.run) j → j < k → mark_at (stretch listing.now.run) listing.now.marks.items j ≡ 0)) }
    ensures none { IfNone result ((k : ℕ) → IsInside (stretch listing.now.run) k → mark_at (stretch listing.now.run) listing.now.marks.items k ≡ 0) }
{
    for place in listing.run.from..listing.run.to {
        if mark_of(listing, place) > 0 {
            return Some(place);
        }
    }
    None
}

/// The last step of the unit that begins at a place with a mark.
fn end_of_unit(listing: &Listing, start: usize) -> usize
    requires start { IsInside (stretch listing.now.run) start }
    requires marked { 0 < mark_at (stretch listing.now.run) listing.now.marks.items start }
    requires room { length listing.now.marks.items ≡ listing.now.run.to - listing.now.run.from }
    ensures order { start ≤ result }
    ensures inside { IsInside (stretch listing.now.run) result }
    ensures within { (k : ℕ) → start ≤ k → k ≤ result → 0 < mark_at (stretch listing.now.run) listing.now.marks.items k → mark_at (stretch listing.now.run) listing.now.marks.items k ≡ mark_at (stretch listing.now.run) listing.now.marks.items start }
    ensures next { (IsInside (stretch listing.now.run) (result + 1) × (0 < mark_at (stretch listing.now.run) listing.now.marks.items (result + 1)) × (mark_at (stretch listing.now.run) listing.now.marks.items (result + 1) ≢ mark_at (stretch listing.now.run) listing.now.marks.items start)) ⊎ ((0 < mark_at (stretch listing.now.run) listing.now.marks.items result) × ((k : ℕ) → IsInside (stretch listing.now.run) k → result < k → mark_at (stretch listing.now.run) listing.now.marks.items k ≡ 0)) }
{
    let group = mark_of(listing, start);
    let mut last = start;
    for place in start..listing.run.to {
        let mark = mark_of(listing, place);
        if mark == group {
            last = place;
        } else if mark > 0 {
            return place - 1;
        }
    }
    last
}

/// The step behind one of a stretch, where it has a mark.
fn next_start(listing: &Listing, last: usize) -> Option<usize>
    requires last { IsInside (stretch listing.now.run) last }
    requires room { length listing.now.marks.items ≡ listing.now.run.to - listing.now.run.from }
    ensures found { IfSome result (λ k. (k ≡ last + 1) × IsInside (stretch listing.now.run) k × (0 < mark_at (stretch listing.now.run) listing.now.marks.items k)) }
    ensures none { IfNone result (IsInside (stretch listing.now.run) (last + 1) → mark_at (stretch listing.now.run) listing.now.marks.items (last + 1) ≡ 0) }
{
    let to = end_of(listing);
    let next = last + 1;
    if next < to && mark_of(listing, next) > 0 {
        Some(next)
    } else {
        None
    }
}

/// The cuts of a stretch that has a mark.
pub(crate) fn cuts_of(alloc: Global, listing: &Listing) -> Result<Vec<Cut>, NoMemory>
    requires room { length listing.now.marks.items ≡ listing.now.run.to - listing.now.run.from }
    requires together { AreTogether (stretch listing.now.run) listing.now.marks.items }
    requires some { (k : ℕ) × IsInside (stretch listing.now.run) k × (0 < mark_at (stretch listing.now.run) listing.now.marks.items k) }
    ensures value { IfOk result (λ cuts. (first : ℕ) × AreCuts (stretch listing.now.run) listing.now.marks.items cuts.items first (end_of_cuts cuts.items)) }
{
    let mut cuts = Vec::new(alloc);
    let Some(first) = first_marked(listing) else {
        unreachable!();
    };
    let mut last = end_of_unit(listing, first);
    cuts.push(Cut { first, last })?;
    'cuts: while let Some(start) = next_start(listing, last) {
        last = end_of_unit(listing, start);
        cuts.push(Cut { first: start, last })?;
    }
    Ok(cuts)
}
