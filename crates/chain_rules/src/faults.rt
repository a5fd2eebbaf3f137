//! The first chain with a fault of each kind.
ghost use Rattle.std.specs.Prelude.{◌≡◌, ◌+◌, ◌^◌, ◌<◌, ◌≤◌, ◌↔◌, ℕ, length, sum_by, slice_index_or, IsTrue, IfSome, IfNone, All};
ghost use Rattle.chain_rules.specs.Stretches.{path_at, spec_at, StepsOnce, HasElements, AreChainSpecs};
ghost use Rattle.chain_rules.specs.ChainFaults.{IsUnlistedBits, IsOrderBroken, IsOverMaxBits, IsTooManyUnits};
ghost use Rattle.chain_rules.specs.Runs.{stretch, IsListingOf, AreListingsOf, ListHasBreak, no_list};

use crate::index::Index;
use crate::listing::{Listing, has_break, has_unmarked_bit};
use crate::spec::{ChainSpec, ListSpec};

/// Whether a list is an ORDERED one that isn't found in its order.
fn list_has_break(index: &Index<'_>, chain: &ChainSpec, listing: &Listing, list: usize) -> bool
    requires once { StepsOnce index.now }
    requires listing { IsListingOf index.now chain.now listing.now }
    requires list { list < length chain.now.lists }
    ensures value { IsTrue result ↔ ListHasBreak (path_at index.now listing.now.run.path) (stretch listing.now.run) listing.now.marks.items (slice_index_or chain.now.lists list no_list) }
{
    match &chain.lists.as_slice()[list] {
        ListSpec::Floating(_elements) => false,
        ListSpec::Ordered(elements) => has_break(index, listing, elements.as_slice()),
    }
}

/// Whether an ORDERED list of a chain isn't found in its order.
fn is_order_broken(index: &Index<'_>, chain: &ChainSpec, listing: &Listing) -> bool
    requires once { StepsOnce index.now }
    requires elements { HasElements chain.now }
    requires listing { IsListingOf index.now chain.now listing.now }
    ensures value { IsTrue result ↔ IsOrderBroken index.now chain.now }
{
    for list in 0..chain.lists.as_slice().len() {
        if list_has_break(index, chain, listing, list) {
            return true;
        }
    }
    false
}

/// Whether a chain's bits as read exceed MAXBITS.
fn is_over_max_bits(index: &Index<'_>, chain: &ChainSpec, listing: &Listing) -> bool
    requires once { StepsOnce index.now }
    requires elements { HasElements chain.now }
    requires listing { IsListingOf index.now chain.now listing.now }
    requires bits { sum_by (λ s. s.bits) (path_at index.now listing.now.run.path).steps < 2 ^ 32 }
    ensures value { IsTrue result ↔ IsOverMaxBits index.now chain.now }
{
    if chain.max_bits == 0 {
        return false;
    }
    let run = listing.run;
    chain.max_bits < index.bits(run.path, run.from, run.to)
}

/// The first chain with an unlisted step that has a bit.
pub(crate) fn first_unlisted_bits(
    index: &Index<'_>,
    chains: &[ChainSpec],
    listings: &[Listing],
) -> Option<usize>
    requires chains { AreChainSpecs index.now chains.now }
    requires listings { AreListingsOf index.now chains.now listings.now }
    ensures found { IfSome result (λ c. (c < length chains.now) × IsUnlistedBits index.now (spec_at chains.now c) × ((d : ℕ) → d < c → ¬ IsUnlistedBits index.now (spec_at chains.now d))) }
    ensures none { IfNone result ((c : ℕ) → c < length chains.now → ¬ IsUnlistedBits index.now (spec_at chains.now c)) }
{
    for chain in 0..chains.len() {
        if has_unmarked_bit(index, &listings[chain]) {
            return Some(chain);
        }
    }
    None
}

/// The first chain with an ORDERED list that isn't found in its order.
pub(crate) fn first_order_broken(
    index: &Index<'_>,
    chains: &[ChainSpec],
    listings: &[Listing],
) -> Option<usize>
    requires chains { AreChainSpecs index.now chains.now }
    requires listings { AreListingsOf index.now chains.now listings.now }
    ensures found { IfSome result (λ c. (c < length chains.now) × IsOrderBroken index.now (spec_at chains.now c) × ((d : ℕ) → d < c → ¬ IsOrderBroken index.now (spec_at chains.now d))) }
    ensures none { IfNone result ((c : ℕ) → c < length chains.now → ¬ IsOrderBroken index.now (spec_at chains.now c)) }
{
    for chain in 0..chains.len() {
        if is_order_broken(index, &chains[chain], &listings[chain]) {
            return Some(chain);
        }
    }
    None
}

/// The first chain whose bits as read exceed MAXBITS.
pub(crate) fn first_over_max_bits(
    index: &Index<'_>,
    chains: &[ChainSpec],
    listings: &[Listing],
) -> Option<usize>
    requires chains { AreChainSpecs index.now chains.now }
    requires listings { AreListingsOf index.now chains.now listings.now }
    ensures found { IfSome result (λ c. (c < length chains.now) × IsOverMaxBits index.now (spec_at chains.now c) × ((d : ℕ) → d < c → ¬ IsOverMaxBits index.now (spec_at chains.now d))) }
    ensures none { IfNone result ((c : ℕ) → c < length chains.now → ¬ IsOverMaxBits index.now (spec_at chains.now c)) }
{
    for chain in 0..chains.len() {
        if is_over_max_bits(index, &chains[chain], &listings[chain]) {
            return Some(chain);
        }
    }
    None
}
