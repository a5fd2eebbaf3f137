//! Scan calls by single shifts, as the definition says them.
ghost use Rattle.std.specs.Prelude.{◌≡◌, ℕ, ◌<◌, ◌≤◌, IfOk, OnErr, OnOk, length, slice_index_or};
ghost use Rattle.stil_types.specs.Calls.{longest_string, string_length};
ghost use Rattle.stil_tester.specs.Shifting.{AreChains, HasCells, IsCallFor, all_met, expects_at, inputs_at, scan_call};
ghost use Rattle.stil_tester.specs.Symbols.{expect_of, meets, padded_compare, padded_load, symbol_of};

use crate::{Chains, Expect, Symbol, shift_step};
use base_types::{NoMemory, Text};
use std::alloc::Global;
use stil_types::ScanCall;

/// One scan call, shift after shift: in each the scan outputs are compared, then all chains move on (IEEE 1450-1999, Shift).
/// It does what `scan_call` of stil_tester does, which is held against it, and takes as long as so many shifts of all cells.
pub fn call_by_shifts(
    alloc: Global,
    chains: &Chains,
    cells: &mut [Symbol],
    call: &ScanCall,
) -> Result<bool, NoMemory>
    requires chains { AreChains chains.now }
    requires cells { HasCells chains.now cells.old }
    requires call { IsCallFor chains.now call.now }
    ensures cells { OnOk result (cells.new ≡ (scan_call chains.now cells.old call.now).loaded) }
    ensures verdict { IfOk result (λ passed. passed ≡ (scan_call chains.now cells.old call.now).passed) }
    ensures unchanged { OnErr result (cells.new ≡ cells.old) }
{
    let count = chains.chains.as_slice().len();
    let mut ins = vec![in alloc; Symbol::Unknown; count]?;
    let mut outs = vec![in alloc; Symbol::Unknown; count]?;
    Ok(shift_all(chains, cells, call, &mut ins, &mut outs))
}

/// All shifts of a call, where `ins` and `outs` are room for a symbol of each chain.
fn shift_all(
    chains: &Chains,
    cells: &mut [Symbol],
    call: &ScanCall,
    ins: &mut [Symbol],
    outs: &mut [Symbol],
) -> bool
    requires chains { AreChains chains.now }
    requires cells { HasCells chains.now cells.old }
    requires call { IsCallFor chains.now call.now }
    requires ins { length ins.old ≡ length chains.now.chains }
    requires outs { length outs.old ≡ length chains.now.chains }
    ensures cells { cells.new ≡ (scan_call chains.now cells.old call.now).loaded }
    ensures verdict { result ≡ (scan_call chains.now cells.old call.now).passed }
{
    let mut passed = true;
    for k in 0..call.shifts {
        read_inputs(call, k, ins);
        shift_step(chains, cells, ins, outs);
        passed = passed && are_met(call, k, outs);
    }
    passed
}

/// What stands at the scan inputs in shift k.
fn read_inputs(call: &ScanCall, k: usize, ins: &mut [Symbol])
    requires shift { k < call.now.shifts }
    requires ins { length ins.old ≡ length call.now.loads }
    requires short { longest_string call.now.loads ≤ call.now.shifts }
    ensures { ins.new ≡ inputs_at call.now k }
{
    for (n, load) in call.loads.as_slice().iter().enumerate() {
        ins[n] = load_at(load, call.shifts, k);
    }
}

/// Whether what stands at the scan outputs in shift k is what is expected there.
fn are_met(call: &ScanCall, k: usize, outs: &[Symbol]) -> bool
    requires { length outs.now ≡ length call.now.compares }
    ensures { result ≡ all_met (expects_at call.now k) outs.now }
{
    let mut met = true;
    for (n, compare) in call.compares.as_slice().iter().enumerate() {
        met = met && is_met(compare_at(compare, k), outs[n]);
    }
    met
}

/// What a scan input takes in shift k.
fn load_at(load: &Option<Text>, shifts: usize, k: usize) -> Symbol
    requires shift { k < shifts }
    requires short { string_length load.now ≤ shifts }
    ensures { result ≡ slice_index_or (padded_load shifts load.now) k Symbol.Unknown }
{
    match load {
        None => Symbol::Unknown,
        Some(text) => {
            let characters = text.bytes();
            let front = shifts - characters.len();
            if k < front {
                Symbol::Unknown
            } else {
                symbol_of(characters[k - front])
            }
        }
    }
}

/// What a scan output is compared with in shift k, whatever the count of shifts.
fn compare_at(compare: &Option<Text>, k: usize) -> Expect
    ensures { (shifts : ℕ) → result ≡ slice_index_or (padded_compare shifts compare.now) k Expect.Any }
{
    match compare {
        None => Expect::Any,
        Some(text) => text
            .bytes()
            .get(k)
            .map_or(Expect::Any, |character| expect_of(*character)),
    }
}

/// The meaning of a load character: `0`, `1` or `N`.
fn symbol_of(character: u8) -> Symbol
    ensures { result ≡ symbol_of character }
{
    match character {
        b'0' => Symbol::Zero,
        b'1' => Symbol::One,
        _ => Symbol::Unknown,
    }
}

/// The meaning of a compare character: `L`, `H` or `X`.
fn expect_of(character: u8) -> Expect
    ensures { result ≡ expect_of character }
{
    match character {
        b'L' => Expect::Low,
        b'H' => Expect::High,
        _ => Expect::Any,
    }
}

/// Whether a symbol is what is expected.
fn is_met(expect: Expect, symbol: Symbol) -> bool
    ensures { result ≡ meets expect symbol }
{
    match expect {
        Expect::Low => symbol == Symbol::Zero,
        Expect::High => symbol == Symbol::One,
        Expect::Any => true,
    }
}
