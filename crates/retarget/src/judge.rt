ghost use Rattle.std.specs.Prelude.{◌≡◌, ℕ, ◌<◌, ◌≤◌, ◌↔◌, IsTrue, IfNone, IfSome, slice_index_or};
ghost use Rattle.stil_tester.specs.Shifting.{AreChains, IsCallFor};
ghost use Rattle.retarget.specs.Places.{longest};
ghost use Rattle.stil_types.specs.Calls.{compare_character, is_expectation};
ghost use Rattle.retarget.specs.Judging.{IsLongCompare, IsAccepted, IsRefusal, LoadsCells, ComparesCells};

use base_types::{Kind, Text};
use stil_tester::Chains;
use stil_types::ScanCall;

/// Why a scan call can't be retargeted, or None: it shifts too seldom to reach every cell, or it
/// expects something where no cell of before the call comes out (IEEE 1450-1999, Shift).
pub fn judge_call(chains: &Chains, call: &ScanCall) -> Option<Kind>
    requires chains { AreChains chains.now }
    requires call { IsCallFor chains.now call.now }
    ensures none { IfNone result (IsAccepted chains.now call.now) }
    ensures some { IfSome result (IsRefusal chains.now call.now) }

    // What a call does that isn't refused.
    ensures loads { IfNone result (0 < call.now.shifts → LoadsCells chains.now call.now) }
    ensures compares { IfNone result (0 < call.now.shifts → ComparesCells chains.now call.now) }
{
    if call.shifts > 0 && call.shifts < longest_chain(chains) {
        return Some(Kind::ShortLoad);
    }
    if has_long_compare(chains, call) {
        return Some(Kind::LongCompare);
    }
    None
}

/// The bits of the longest chain.
pub(crate) fn longest_chain(chains: &Chains) -> usize
    ensures { result ≡ longest chains.now }
{
    let mut most = 0;
    for chain in chains.chains.as_slice() {
        most = most.max(chain.cells.as_slice().len());
    }
    most
}

/// Whether an `L` or `H` stands at an index that isn't below its chain's bits.
fn has_long_compare(chains: &Chains, call: &ScanCall) -> bool
    requires { IsCallFor chains.now call.now }
    ensures { IsTrue result ↔ IsLongCompare chains.now call.now }
{
    for (number, chain) in chains.chains.as_slice().iter().enumerate() {
        let compare = &call.compares.as_slice()[number];
        if expects_beyond(compare, chain.cells.as_slice().len()) {
            return true;
        }
    }
    false
}

/// Whether an `L` or `H` stands at this index or behind it.
fn expects_beyond(compare: &Option<Text>, from: usize) -> bool
    ensures { IsTrue result ↔ ((k : ℕ) × (from ≤ k) × IsTrue (is_expectation (compare_character compare.now k))) }
{
    match compare {
        None => false,
        Some(text) => expects_from(text.bytes(), from),
    }
}

/// The same for the string itself.
fn expects_from(text: &[u8], from: usize) -> bool
    ensures { IsTrue result ↔ ((k : ℕ) × (from ≤ k) × IsTrue (is_expectation (slice_index_or text.now k 88))) }
{
    for index in from..text.len() {
        if text[index] == b'L' || text[index] == b'H' {
            return true;
        }
    }
    false
}
