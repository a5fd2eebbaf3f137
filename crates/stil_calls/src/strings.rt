//! The strings of a scan call, written out.
ghost use Rattle.std.specs.Prelude.{◌≡◌, false, map, option_copied, IfOk};
ghost use Rattle.stil_types.specs.Calls.{longest_string};
ghost use Rattle.stil_calls.specs.Scans.{gives_twice, written_in, call_of};

use crate::repeats::write_out;
use crate::scan::given_to;
use base_types::{NoMemory, Rows, Text};
use std::alloc::Global;
use stil_syntax::Item;
use stil_types::{ScanCall, ScanChainDecl};

fn string_of(alloc: Global, given: Option<&[u8]>) -> Result<Option<Text>, NoMemory>
    ensures value { IfOk result (λ string. string ≡ written_in (option_copied given.entry)) }
{
    match given {
        Some(bytes) => Ok(Some(write_out(alloc, bytes)?)),
        None => Ok(None),
    }
}

fn strings_of(alloc: Global, each: &[Option<&[u8]>]) -> Result<Rows<Option<Text>>, NoMemory>
    ensures value { IfOk result (λ strings. strings ≡ map (λ given. written_in (option_copied given)) each.now) }
{
    let mut strings = Vec::with_capacity(alloc, each.len())?;
    for given in each {
        let string = string_of(alloc, *given)?;
        strings.push(string)?;
    }
    Ok(Rows::of(strings))
}

fn longest_string(strings: &[Option<Text>]) -> usize
    ensures value { result ≡ longest_string strings.now }
{
    let mut longest: usize = 0;
    let mut at = 0;
    while at < strings.len() {
        if let Some(text) = &strings[at] {
            longest = longest.max(text.bytes().len());
        }
        at += 1;
    }
    longest
}

/// What a scan call that gives no name twice shifts in and compares.
#[tactic(auto, using(crate::proofs::Tables::strings_are))]
pub(crate) fn call_of(
    alloc: Global,
    chains: &[ScanChainDecl],
    items: &[Item],
) -> Result<ScanCall, NoMemory>
    requires once { gives_twice items.now ≡ false }
    ensures value { IfOk result (λ call. call ≡ call_of chains.now items.now) }
{
    let given = given_to(alloc, chains, items)?;
    let loads = strings_of(alloc, &given.loads)?;
    let compares = strings_of(alloc, &given.compares)?;
    let shifts = longest_string(loads.as_slice()).max(longest_string(compares.as_slice()));
    Ok(ScanCall {
        shifts,
        loads,
        compares,
    })
}
