//! Whether two scan calls do the same.
ghost use Rattle.std.specs.Prelude.{◌≡◌, ◌↔◌, ◌<◌, length, IsTrue, MatchOption, Some};
ghost use Rattle.stil_types.specs.Calls.{compare_character};
ghost use Rattle.stil_tester.specs.Symbols.{flip_if, symbol_of, expect_of};
ghost use Rattle.stil_tester.specs.Shifting.{IsCallFor};
ghost use Rattle.stil_tester.specs.Meaning.{ShowSame};
ghost use Rattle.retarget.specs.Judging.{IsAccepted, load_character};
ghost use Rattle.retarget.specs.Retargeting.{HaveSameCells};
ghost use Rattle.scan_verify.specs.Sameness.{flip_expect_if, loaded_by, expected_by, AreSame, IsFirstDifference};

use base_types::Text;
use retarget::{Home, Map};
use stil_tester::{Expect, Symbol};
use stil_types::ScanCall;

/// What a load character gives a cell behind a parity.
fn symbol_behind(parity: bool, character: u8) -> Symbol
    ensures { result ≡ flip_if parity (symbol_of character) }
{
    match character {
        b'0' if parity => Symbol::One,
        b'0' => Symbol::Zero,
        b'1' if parity => Symbol::Zero,
        b'1' => Symbol::One,
        _ => Symbol::Unknown,
    }
}

/// What a compare character expects of a cell before a parity.
fn expect_before(parity: bool, character: u8) -> Expect
    ensures { result ≡ flip_expect_if parity (expect_of character) }
{
    match character {
        b'L' if parity => Expect::High,
        b'L' => Expect::Low,
        b'H' if parity => Expect::Low,
        b'H' => Expect::High,
        _ => Expect::Any,
    }
}

/// The character of a load that reaches the bit at a place.
fn load_character(string: &Option<Text>, place: usize) -> u8
    ensures { result ≡ load_character string.now place }
{
    match string {
        None => b'N',
        Some(text) => character_from_end(text.bytes(), place),
    }
}

/// The byte that stands so many before the last one.
fn character_from_end(text: &[u8], place: usize) -> u8
    ensures { result ≡ load_character (Some text.now) place }
{
    if place < text.len() {
        text[text.len() - 1 - place]
    } else {
        b'N'
    }
}

/// The character of a compare at an index.
fn compare_character(string: &Option<Text>, index: usize) -> u8
    ensures { result ≡ compare_character string.now index }
{
    match string {
        None => b'X',
        Some(text) => character_at(text.bytes(), index),
    }
}

/// The byte at an index.
fn character_at(text: &[u8], index: usize) -> u8
    ensures { result ≡ compare_character (Some text.now) index }
{
    if index < text.len() {
        text[index]
    } else {
        b'X'
    }
}

/// What a call that shifts leaves in a cell that stands there (IEEE 1450-1999, Shift).
pub fn loaded_by(call: &ScanCall, home: Home) -> Symbol
    requires chain { home.chain < length call.now.loads }
    ensures value { result ≡ loaded_by call.now home }
{
    let string = &call.loads.as_slice()[home.chain as usize];
    symbol_behind(home.load, load_character(string, home.place as usize))
}

/// What a call that shifts expects of a cell that stands there, as this was before (IEEE 1450-1999, Shift).
pub fn expected_by(call: &ScanCall, home: Home) -> Expect
    requires chain { home.chain < length call.now.compares }
    ensures value { result ≡ expected_by call.now home }
{
    let string = &call.compares.as_slice()[home.chain as usize];
    expect_before(home.compare, compare_character(string, home.exit as usize))
}

/// Whether two calls leave the same in a cell, and expect the same of it.
fn is_same_at(a: &ScanCall, b: &ScanCall, old: Home, new: Home) -> bool
    requires old_load { old.chain < length a.now.loads }
    requires old_compare { old.chain < length a.now.compares }
    requires new_load { new.chain < length b.now.loads }
    requires new_compare { new.chain < length b.now.compares }
    ensures { IsTrue result ↔ (loaded_by a.now old ≡ loaded_by b.now new) × (expected_by a.now old ≡ expected_by b.now new) }
{
    loaded_by(a, old) == loaded_by(b, new) && expected_by(a, old) == expected_by(b, new)
}

/// The first of so many cells, which are all, to which two calls don't do the same.
fn difference_among(map: &Map, cells: u32, a: &ScanCall, b: &ScanCall) -> Option<u32>
    requires cells { cells ≡ map.now.0.cells }
    requires same { HaveSameCells map.now.0 map.now.1 }
    requires old_call { IsCallFor map.now.0 a.now }
    requires new_call { IsCallFor map.now.1 b.now }
    ensures value { MatchOption result (AreSame map.now.0 map.now.1 a.now b.now) (IsFirstDifference map.now.0 map.now.1 a.now b.now) }
{
    if a.shifts == 0 {
        return if b.shifts == 0 { None } else { Some(0) };
    }
    if b.shifts == 0 {
        return Some(0);
    }
    for cell in 0..cells {
        if !is_same_at(a, b, map.old_home(cell), map.new_home(cell)) {
            return Some(cell);
        }
    }
    None
}

/// The first cell, by its number, to which two scan calls, one on old chains and one on new chains, don't do the same; None
/// where there is none (IEEE 1450-1999, Shift). Where one of them shifts and the other doesn't, that is cell 0. It takes no memory,
/// and time linear in the cells.
pub fn first_difference(map: &Map, a: &ScanCall, b: &ScanCall) -> Option<u32>
    requires old_call { IsCallFor map.now.0 a.now }
    requires new_call { IsCallFor map.now.1 b.now }
    ensures value { MatchOption result (AreSame map.now.0 map.now.1 a.now b.now) (IsFirstDifference map.now.0 map.now.1 a.now b.now) }
{
    difference_among(map, map.old_chains().cells, a, b)
}

/// Whether two scan calls that `judge_call` doesn't refuse, one on old chains and one on new chains, leave the same cells and pass
/// alike, whatever the cells hold before (IEEE 1450-1999, Shift). It takes no memory, and time linear in the cells.
pub fn same_call(map: &Map, a: &ScanCall, b: &ScanCall) -> bool
    requires old_call { IsCallFor map.now.0 a.now }
    requires old_accepted { IsAccepted map.now.0 a.now }
    requires new_call { IsCallFor map.now.1 b.now }
    requires new_accepted { IsAccepted map.now.1 b.now }
    ensures value { IsTrue result ↔ ShowSame map.now.0 map.now.1 a.now b.now }
{
    difference_among(map, map.old_chains().cells, a, b).is_none()
}
