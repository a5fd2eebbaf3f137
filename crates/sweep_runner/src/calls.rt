//! Calls that were worked by hand: judged, retargeted, and played on the tester.
//!
//! A row of `calls.toml` has chains as `read` and as `written`, by the digits of their cells, with a `~` before each at
//! which a symbol is flipped, and at the end where one is flipped on its way out; the `loads` and `compares` of a call, `-`
//! where none is given; and as `wanted` the written ones, or why the call is refused.
ghost use Rattle.std.specs.Prelude.{◌≡◌, length, IfOk, IfSome};
ghost use Rattle.retarget.specs.Judging.{IsAccepted};
ghost use Rattle.stil_tester.specs.Shifting.{AreChains, IsCallFor};

use crate::rows::text;
use base_types::{NoMemory, Rows, Text};
use retarget::{judge_call, map_of, retarget_call};
use row_forms::{Cases, Part, put};
use std::alloc::Global;
use stil_tester::{ChainBits, Chains, are_chains, is_call_for};
use stil_types::ScanCall;
use toml::Value;

/// No chains yet.
pub(crate) fn no_chains(alloc: Global) -> Chains {
    Chains {
        chains: Rows::new(alloc),
        cells: 0,
    }
}

/// A chain without a bit.
pub(crate) fn no_bits(alloc: Global) -> ChainBits {
    ChainBits {
        cells: Rows::new(alloc),
        parity: Rows::new(alloc),
        out_parity: false,
    }
}

/// A call without strings.
pub(crate) fn no_call(alloc: Global) -> ScanCall {
    ScanCall {
        shifts: 0,
        loads: Rows::new(alloc),
        compares: Rows::new(alloc),
    }
}

/// The chains, if each cell stands in them exactly once.
pub(crate) fn checked(alloc: Global, chains: Chains) -> Result<Option<Chains>, NoMemory>
    ensures { IfOk result (λ made. IfSome made AreChains) }
{
    if are_chains(alloc, &chains)? {
        Ok(Some(chains))
    } else {
        Ok(None)
    }
}

/// Puts the bits that the letters of a word are into a chain.
fn put_bits(chain: &mut ChainBits, word: &str) -> Result<(), NoMemory> {
    for letter in word.bytes() {
        if letter == b'~' {
            chain.out_parity = true;
        } else {
            chain.cells.push(u32::from(letter & 15))?;
            chain.parity.push(chain.out_parity)?;
            chain.out_parity = false;
        }
    }
    Ok(())
}

/// Puts the chain of a word behind others.
fn put_chain(alloc: Global, chains: &mut Chains, word: &str) -> Result<(), NoMemory> {
    let mut chain = no_bits(alloc);
    put_bits(&mut chain, word)?;
    let count = u32::try_from(chain.cells.as_slice().len()).unwrap_or(0);
    chains.cells = chains.cells.wrapping_add(count);
    chains.chains.push(chain)
}

fn put_chains(alloc: Global, chains: &mut Chains, text: &str) -> Result<(), NoMemory> {
    for word in text.split(' ') {
        put_chain(alloc, chains, word)?;
    }
    Ok(())
}

/// Well-formed chains, or None where a cell doesn't stand in them exactly once.
pub(crate) fn chains_of(alloc: Global, text: &str) -> Result<Option<Chains>, NoMemory>
    ensures { IfOk result (λ chains. IfSome chains AreChains) }
{
    let mut chains = no_chains(alloc);
    put_chains(alloc, &mut chains, text)?;
    checked(alloc, chains)
}

/// Puts the string of a word behind others.
fn put_string(alloc: Global, strings: &mut Rows<Option<Text>>, word: &str) -> Result<(), NoMemory> {
    if word == "-" {
        strings.push(None)
    } else {
        strings.push(Some(Text::copy(alloc, word.as_bytes())?))
    }
}

/// Puts the strings of a text behind others.
fn put_strings(
    alloc: Global,
    strings: &mut Rows<Option<Text>>,
    text: &str,
) -> Result<(), NoMemory> {
    for word in text.split(' ') {
        put_string(alloc, strings, word)?;
    }
    Ok(())
}

/// The length of the longest string, or this one where that is more.
fn longest(strings: &[Option<Text>], least: usize) -> usize {
    let mut most = least;
    for string in strings {
        if let Some(text) = string {
            most = text.bytes().len().max(most);
        }
    }
    most
}

/// Lets a call shift as often as its longest string is long.
pub(crate) fn set_shifts(call: &mut ScanCall) {
    let loads = longest(call.loads.as_slice(), 0);
    call.shifts = longest(call.compares.as_slice(), loads);
}

/// Puts the strings of texts into a call.
fn fill_call(
    alloc: Global,
    call: &mut ScanCall,
    loads: &str,
    compares: &str,
) -> Result<(), NoMemory> {
    put_strings(alloc, &mut call.loads, loads)?;
    put_strings(alloc, &mut call.compares, compares)?;
    set_shifts(call);
    Ok(())
}

/// The call of these strings.
pub(crate) fn call_by(alloc: Global, loads: &str, compares: &str) -> Result<ScanCall, NoMemory> {
    let mut call = no_call(alloc);
    fill_call(alloc, &mut call, loads, compares)?;
    Ok(call)
}

/// Puts strings behind a text, with a blank between them.
fn put_texts(came: &mut String, strings: &[Option<Text>]) -> Result<(), NoMemory> {
    let mut gap = "";
    for string in strings {
        let bytes = match string {
            None => b"-",
            Some(text) => text.bytes(),
        };
        put(came, &[Part::Text(gap), Part::Word(bytes)])?;
        gap = " ";
    }
    Ok(())
}

/// Puts the strings of a call behind a text, as a row has them.
fn put_call(came: &mut String, call: &ScanCall) -> Result<(), NoMemory> {
    put_texts(came, call.loads.as_slice())?;
    put(came, &[Part::Text(", ")])?;
    put_texts(came, call.compares.as_slice())
}

/// Puts the retargeted call behind a text.
fn put_written(
    alloc: Global,
    came: &mut String,
    old: &Chains,
    new: &Chains,
    call: &ScanCall,
) -> Result<(), NoMemory>
    requires old { AreChains old.now }
    requires new { AreChains new.now }
    requires cells { new.now.cells ≡ old.now.cells }
    requires chains { length new.now.chains ≡ length old.now.chains }
    requires call { IsCallFor old.now call.now }
    requires accepted { IsAccepted old.now call.now }
{
    let map = map_of(alloc, old, new)?;
    let written = retarget_call(alloc, &map, call)?;
    put_call(came, &written)
}

/// Puts what comes of a call behind a text.
fn put_judged(
    alloc: Global,
    came: &mut String,
    old: &Chains,
    new: &Chains,
    call: &ScanCall,
) -> Result<(), NoMemory>
    requires old { AreChains old.now }
    requires new { AreChains new.now }
{
    if !is_call_for(old, call)
        || old.cells != new.cells
        || old.chains.as_slice().len() != new.chains.as_slice().len()
    {
        return put(came, &[Part::Text("no call for these chains")]);
    }
    match judge_call(old, call) {
        Some(kind) => put(came, &[Part::Text(kind.name())]),
        None => put_written(alloc, came, old, new, call),
    }
}

/// Puts what comes of the call of a row behind a text.
fn put_answer(
    alloc: Global,
    came: &mut String,
    old: &Chains,
    new: &Chains,
    row: &Value,
) -> Result<(), NoMemory>
    requires old { AreChains old.now }
    requires new { AreChains new.now }
{
    let call = call_by(alloc, text(row, "loads"), text(row, "compares"))?;
    put_judged(alloc, came, old, new, &call)
}

/// Puts what comes of a row behind a text, from its chains as read on.
fn put_from(alloc: Global, came: &mut String, old: &Chains, row: &Value) -> Result<(), NoMemory>
    requires { AreChains old.now }
{
    match chains_of(alloc, text(row, "written"))? {
        None => put(came, &[Part::Text("no chains as written")]),
        Some(new) => put_answer(alloc, came, old, &new, row),
    }
}

/// Puts what comes of a row behind a text.
fn put_row(alloc: Global, came: &mut String, row: &Value) -> Result<(), NoMemory> {
    match chains_of(alloc, text(row, "read"))? {
        None => put(came, &[Part::Text("no chains as read")]),
        Some(old) => put_from(alloc, came, &old, row),
    }
}

pub(crate) fn try_row(cases: &mut Cases, row: &Value) -> Result<(), NoMemory> {
    let mut came = String::new(cases.alloc);
    put_row(cases.alloc, &mut came, row)?;
    cases.compare(text(row, "name"), came.as_str(), text(row, "wanted"))
}
