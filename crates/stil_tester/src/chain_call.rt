ghost use Rattle.std.specs.Prelude.{◌≡◌, ℕ, ◌<◌, ◌≤◌, All, Some, count_by, false, length, nat_eq, reverse, slice_index_or};
ghost use Rattle.stil_types.specs.Calls.{longest_string, string_length};
ghost use Rattle.stil_tester.specs.ChainCalls.{after_chain, after_each, all_below, chain_met, filled, flipped_along, met_at, met_on, pushed};
ghost use Rattle.stil_tester.specs.Shifting.{IsChain, numbers_of, with_symbols};
ghost use Rattle.stil_tester.specs.Symbols.{expect_of, flip_if, meets, padded_load, symbol_of, text_of};

use crate::chains::ChainBits;
use crate::scan::load_at;
use crate::symbol::Symbol;
use base_types::Text;
use stil_types::ScanCall;

/// Whether all that comes out of the chains in a call is as expected.
pub(crate) fn are_chains_met(chains: &[ChainBits], cells: &[Symbol], call: &ScanCall) -> bool
    requires loads { length call.now.loads ≡ length chains.now }
    requires compares { length call.now.compares ≡ length chains.now }
    requires each { All IsChain chains.now }
    requires below { All (λ chain. All (λ cell. cell < length cells.now) chain.cells) chains.now }
    requires short { longest_string call.now.loads ≤ call.now.shifts }
    requires seen { longest_string call.now.compares ≤ call.now.shifts }
    ensures { result ≡ all_below (length chains.now) (met_on chains.now cells.now call.now) }
{
    let loads = call.loads.as_slice();
    let compares = call.compares.as_slice();
    let mut met = true;
    for (n, chain) in chains.iter().enumerate() {
        met = met && is_chain_met(chain, cells, call.shifts, &loads[n], &compares[n]);
    }
    met
}

/// The shifts of all chains, one chain after the other.
pub(crate) fn load_chains(chains: &[ChainBits], cells: &mut [Symbol], call: &ScanCall)
    requires loads { length call.now.loads ≡ length chains.now }
    requires each { All IsChain chains.now }
    requires below { All (λ chain. All (λ cell. cell < length cells.old) chain.cells) chains.now }
    requires once { (cell : ℕ) → count_by (nat_eq cell) (numbers_of chains.now) ≤ 1 }
    requires short { longest_string call.now.loads ≤ call.now.shifts }
    ensures { cells.new ≡ after_each chains.now call.now.shifts call.now.loads cells.old }
{
    let loads = call.loads.as_slice();
    for (n, chain) in chains.iter().enumerate() {
        load_chain(chain, cells, call.shifts, &loads[n]);
    }
}

/// Whether all that comes out of one chain is as expected.
fn is_chain_met(
    chain: &ChainBits,
    cells: &[Symbol],
    shifts: usize,
    load: &Option<Text>,
    compare: &Option<Text>,
) -> bool
    requires chain { IsChain chain.now }
    requires below { All (λ cell. cell < length cells.now) chain.now.cells }
    requires load { string_length load.now ≤ shifts }
    requires compare { string_length compare.now ≤ shifts }
    ensures { result ≡ chain_met chain.now cells.now shifts load.now compare.now }
{
    match compare {
        None => true,
        Some(text) => is_text_met(chain, cells, shifts, load, text.bytes()),
    }
}

/// The same for the characters of a compare. What the bits held comes out first, from the last bit
/// on, and then what is shifted in.
fn is_text_met(
    chain: &ChainBits,
    cells: &[Symbol],
    shifts: usize,
    load: &Option<Text>,
    text: &[u8],
) -> bool
    requires chain { IsChain chain.now }
    requires below { All (λ cell. cell < length cells.now) chain.now.cells }
    requires load { string_length load.now ≤ shifts }
    requires compare { length text.now ≤ shifts }
    ensures { result ≡ all_below (length text.now) (met_at chain.now cells.now shifts load.now (Some text.now)) }
{
    let bits = chain.cells.as_slice();
    let parities = chain.parity.as_slice();
    let inside = text.len().min(bits.len());
    let mut parity = chain.out_parity;
    let mut met = true;
    for k in 0..inside {
        let place = bits.len() - 1 - k;
        met &= is_met_behind(parity, text[k], cells[bits[place] as usize]);
        parity ^= parities[place];
    }
    for k in inside..text.len() {
        met &= is_met_behind(parity, text[k], load_at(load, shifts, k - bits.len()));
    }
    met
}

/// The shifts of one chain.
fn load_chain(chain: &ChainBits, cells: &mut [Symbol], shifts: usize, load: &Option<Text>)
    requires chain { IsChain chain.now }
    requires below { All (λ cell. cell < length cells.old) chain.now.cells }
    requires once { (cell : ℕ) → count_by (nat_eq cell) chain.now.cells ≤ 1 }
    requires load { string_length load.now ≤ shifts }
    ensures { cells.new ≡ after_chain chain.now shifts load.now cells.old }
{
    if shifts < chain.cells.as_slice().len() {
        flip_chain(chain, cells);
        push_chain(chain, cells, shifts, load);
        flip_chain(chain, cells);
    } else {
        fill_chain(chain, cells, bytes_of(load));
    }
}

/// Each bit is flipped by the parities up to it.
fn flip_chain(chain: &ChainBits, cells: &mut [Symbol])
    requires parities { length chain.now.parity ≡ length chain.now.cells }
    requires below { All (λ cell. cell < length cells.old) chain.now.cells }
    ensures { cells.new ≡ flipped_along chain.now.cells chain.now.parity false cells.old }
{
    let parities = chain.parity.as_slice();
    let mut parity = false;
    for (place, cell) in chain.cells.as_slice().iter().enumerate() {
        parity ^= parities[place];
        cells[*cell as usize] = cells[*cell as usize].flipped_if(parity);
    }
}

/// The shifts of one chain on which nothing is flipped, and which don't reach its last bit: that
/// goes first.
fn push_chain(chain: &ChainBits, cells: &mut [Symbol], shifts: usize, load: &Option<Text>)
    requires chain { IsChain chain.now }
    requires below { All (λ cell. cell < length cells.old) chain.now.cells }
    requires once { (cell : ℕ) → count_by (nat_eq cell) chain.now.cells ≤ 1 }
    requires load { string_length load.now ≤ shifts }
    requires short { shifts < length chain.now.cells }
    ensures { cells.new ≡ with_symbols chain.now.cells (pushed chain.now (padded_load shifts load.now) cells.old) cells.old }
{
    let bits = chain.cells.as_slice();
    for k in 0..bits.len() {
        let place = bits.len() - 1 - k;
        let symbol = if place < shifts {
            load_at(load, shifts, shifts - 1 - place)
        } else {
            cells[bits[place - shifts] as usize]
        };
        cells[bits[place] as usize] = symbol;
    }
}

/// Each bit takes its character of a load, as far as the load reaches.
fn fill_chain(chain: &ChainBits, cells: &mut [Symbol], text: &[u8])
    requires parities { length chain.now.parity ≡ length chain.now.cells }
    requires below { All (λ cell. cell < length cells.old) chain.now.cells }
    ensures { cells.new ≡ filled chain.now.cells chain.now.parity false text.now 0 cells.old }
{
    let parities = chain.parity.as_slice();
    let mut parity = false;
    for (place, cell) in chain.cells.as_slice().iter().enumerate() {
        parity ^= parities[place];
        cells[*cell as usize] = symbol_behind(parity, character_from_end(text, place));
    }
}

/// The character that stands so many before the last one; N where there is none.
#[inline]
fn character_from_end(text: &[u8], place: usize) -> u8
    ensures { result ≡ slice_index_or (reverse text.now) place 78 }
{
    if place < text.len() {
        text[text.len() - 1 - place]
    } else {
        b'N'
    }
}

/// What a load character gives behind a parity. Characters follow no pattern, so this computes and
/// doesn't branch.
#[inline]
fn symbol_behind(parity: bool, character: u8) -> Symbol
    ensures { result ≡ flip_if parity (symbol_of character) }
{
    let is_one = (character == b'1') ^ parity;
    let is_known = (character == b'0') | (character == b'1');
    let known = if is_one { Symbol::One } else { Symbol::Zero };
    if is_known { known } else { Symbol::Unknown }
}

/// Whether a symbol is as a compare character expects it behind a parity; without a branch, as above.
#[inline]
fn is_met_behind(parity: bool, character: u8, symbol: Symbol) -> bool
    ensures { result ≡ meets (expect_of character) (flip_if parity symbol) }
{
    let low = if parity { Symbol::One } else { Symbol::Zero };
    let high = if parity { Symbol::Zero } else { Symbol::One };
    ((character != b'L') | (symbol == low)) & ((character != b'H') | (symbol == high))
}

/// The bytes of a string; none where none is given.
fn bytes_of(string: &Option<Text>) -> &[u8]
    ensures { result.now ≡ text_of string.now }
{
    match string {
        None => &[],
        Some(text) => text.bytes(),
    }
}
